//! Posting lists of a long column, made run by run by several threads.
//!
//! The places of a run are sorted by counting in memory that is near, two bytes each. Then the list of each number is gathered from the runs and coded.
#![tactic(auto)]

mod block;
mod blocks;
mod joining;
mod lists;

pub use joining::joined;
pub use lists::postings_by_runs;
