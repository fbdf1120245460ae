//! Counts of what stands together: how often two words stand in a relation, how often one does with any other, and how often a word stands in a unary relation.
//!
//! Names and words are numbered once, and counts are kept by numbers. What a text counts is noted in a list, and it is added and subtracted at the cost of that list.
#![tactic(auto)]

mod adding;
mod blocks;
mod counts;
mod hasher;
mod listing;
mod lowering;
mod names;
mod note;
mod noted;
mod numbered;
mod pairs;
mod tables;
mod tally;

pub use counts::Counts;
pub use listing::Head;
pub use note::Note;
pub use noted::Noted;
pub use numbered::{Entry, Numbered};
pub use pairs::Pair;

fn shared<T: Send + Sync>() {}

/// That threads may share counts is proved by this function.
pub fn are_shared() {
    shared::<Counts>();
    shared::<Head>();
    shared::<Note>();
    shared::<Noted>();
    shared::<Numbered>();
    shared::<Pair>();
}
