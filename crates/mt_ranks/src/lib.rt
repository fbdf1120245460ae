//! Words that are ranked by exact fractions: the first so many of them, which are kept in a heap of no more than these.
//! Where they come one after another, or in several lists, they may be borrowed (`Chosen`), so that no others than these are copied.
#![tactic(auto)]

mod best;
mod borrowed;
mod ranked;

pub use best::{first, first_of_all};
pub use borrowed::Chosen;
pub use ranked::{RankedWord, Word};
