//! The tables that a query may ask for: their columns in order, with names and kinds, and the
//! values of cells.
#![tactic(auto)]

mod columns;
mod command;
mod comment;
mod contact;
mod contact_group;
mod downtime;
mod heading;
mod host;
mod host_counter;
mod host_group;
mod line;
mod names;
mod object;
mod period;
mod program;
mod schema;
mod schema_column;
mod service;
mod service_counter;
mod service_group;
mod slice;
mod status;
mod value;

pub use columns::{Col, ColKind, Name, OwnColumn, Part, Prefix, Subject, Table};
pub use command::CommandColumn;
pub use comment::CommentColumn;
pub use contact::ContactColumn;
pub use contact_group::ContactGroupColumn;
pub use downtime::DowntimeColumn;
pub use host::HostColumn;
pub use host_counter::HostCounter;
pub use host_group::HostGroupColumn;
pub use line::LineColumn;
pub use names::Names;
pub use object::ObjectColumn;
pub use period::PeriodColumn;
pub use program::ProgramColumn;
pub use schema::{column, column_at, column_count, column_name, kind, table, tables};
pub use schema_column::SchemaColumn;
pub use service::ServiceColumn;
pub use service_counter::ServiceCounter;
pub use service_group::ServiceGroupColumn;
pub use slice::SliceColumn;
pub use status::StatusColumn;
pub use value::Val;
