//! Lexicons: the distinct values of an attribute, numbered from 0 in ascending order of their bytes.
//!
//! A `LexiconBuilder` numbers values as it first sees them, and ends in their `Lexicon` and the `Renumbering` from its numbers to the
//! lexicon's. A `LexiconMerger` joins lexicons into one, with a `Renumbering` for each. Contracts see a `Lexicon` as the list of its
//! values, and a `Renumbering` as the list of its numbers.
#![tactic(auto)]

mod builder;
mod laws;
mod lexicon;
mod merger;
mod renumbering;
mod table;

pub use builder::LexiconBuilder;
pub use laws::{
    have_a_lexicon, have_one_lexicon, is_shortest, is_told_by_members, renumber_in_turn,
};
pub use lexicon::Lexicon;
pub use merger::LexiconMerger;
pub use renumbering::Renumbering;

fn shared<T: Send + Sync>() {}

/// That threads may share lexicons and renumberings, and what makes them, is proved by this function.
pub fn are_shared() {
    shared::<Lexicon>();
    shared::<Renumbering>();
    shared::<LexiconBuilder>();
    shared::<LexiconMerger>();
}
