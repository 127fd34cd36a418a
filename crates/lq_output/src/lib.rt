//! The bodies of replies in the formats csv, CSV and json, and what stands before a body.
#![tactic(auto)]

mod cell;
mod error;
mod fields;
mod header;
mod json_text;
mod layout;
mod lines;
mod marks;
mod number;
mod plain;
mod writer;

pub use error::WriteErr;
pub use header::{fixed16, refusal};
pub use lines::LineTexts;
pub use writer::{BODY_LIMIT, Writer};
