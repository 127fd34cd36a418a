//! The rows of every table, in order, and the value of each of their cells.
#![tactic(auto)]

mod about;
mod cells;
mod contacts;
mod groups;
mod history;
mod history_row;
mod line;
mod listed;
mod listing;
mod pairs;
mod period;
mod program;
mod remarks;
mod row;
mod rows_err;
mod schema;
mod seen;
mod slice;
mod value;
mod window;

pub use cells::{
    RowCells, cell, host_lists_contact, host_number, host_status_number, host_text, row_contains,
    row_number, row_text, service_lists_contact, service_number, service_status_number,
    service_text,
};
pub use history_row::{BoxedHistoryRow, HistoryRow};
pub use row::Row;
pub use rows_err::RowsErr;
pub use seen::{Rows, rows};
pub use window::Window;
