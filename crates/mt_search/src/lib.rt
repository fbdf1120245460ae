//! The rows that a query keeps in a corpus: its patterns are built once, and then its segments are evaluated one after another.
//!
//! Contracts speak of the corpus alone, under any images of mapped values that agree with those that the corpus has.
#![tactic(auto)]

mod error;
mod found;
mod placing;
mod rooms;
mod search;

pub use error::RowsError;
pub use search::rows;
