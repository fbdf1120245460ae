//! Word sketches: the relations of a lemma, with the words that stand beside it there, ranked.
#![tactic(auto)]

mod collocates;
mod lines;
mod relations;
mod reply;

pub use reply::{counts_are_within, sketch};
