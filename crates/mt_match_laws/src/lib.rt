//! Laws of what queries match: each function's contract is a law, and the functions do nothing.
#![tactic(auto)]

mod laws;

pub use laws::{
    have_kept, have_rows, have_spans, kept_are_one, lists_are_one, rows_are_one, spans_are_one,
};
