//! Rows of queries: lists of rows that are kept small, the spans of rows, and filters of rows by the spans of an operand.
//!
//! Contracts see `Rows` and a `RowList` as the list of their rows.
#![tactic(auto)]

mod error;
mod filters;
mod label_sets;
mod marks;
mod row_list;
mod rows;

pub use error::EvalError;
pub use row_list::RowList;
pub use rows::Rows;

fn shared<T: Send + Sync>() {}

/// That threads may share rows is proved by this function.
pub fn are_shared() {
    shared::<Rows>();
    shared::<RowList>();
    shared::<EvalError>();
}
