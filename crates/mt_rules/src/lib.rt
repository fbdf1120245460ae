//! The sketch grammar that is held over a corpus, with what it counts there: how it is read, and how its counts follow the texts that are added and removed.
#![tactic(auto)]

mod holding;
mod keeping;
mod patterns;
mod reading;
mod removing;
mod rules;

pub use holding::{hold, hold_none, let_go};
pub use rules::Rules;
