//! A counter of steps, which takes no bytes when the program runs.
#![tactic(auto)]

mod steps;

pub use steps::Steps;
