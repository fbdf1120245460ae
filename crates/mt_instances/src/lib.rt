//! The instances of a sketch grammar in a text, each once, and their counts.
//!
//! Rows of queries are told one query after another, with the relation that the query stands under. An instance is kept as small numbers, those of its final name and
//! of its places. Where the instances of each name come in ascending order, each is there once; else those of the text are sorted, and one of equal ones is kept. Each
//! is then counted once, however many rows, lines and headings give it.
#![tactic(auto)]

mod collector;
mod counter;
mod entry;
mod fills;
mod gathering;
mod giving;
mod instances;
mod laws;
mod names;
mod numbers;
mod ranks;
mod room;
mod words;

pub use collector::Collector;
pub use laws::{lines_go_on, none_are_given, text_is_counted};
pub use room::Room;

fn shared<T: Send + Sync>() {}

/// That threads may share a collector and its memory is proved by this function.
pub fn are_shared() {
    shared::<Collector>();
    shared::<Room>();
}
