//! The state of the monitored objects, and the step that each external command makes it take.
#![tactic(auto)]

mod check_result;
mod comment_effects;
mod comments;
mod context;
mod depths;
mod downtime_effects;
mod downtimes;
mod due;
mod edit;
mod effect;
mod event;
mod last_told;
mod live;
mod live_state;
mod names;
mod opening;
mod outcome;
mod step;

pub use live::Live;
