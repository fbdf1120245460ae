//! Sets of places in a text, a bit for each place, 64 of them in a word.
//!
//! Contracts see `Places` as the list of its words, and speak of it by the places that are in it (`In`). What is told of 64 places at once are `Marks`: a set is
//! made of marks, or joined with them, a word at a time, and a set is marks too.
#![tactic(auto)]

mod marks;
mod places;
mod seeks;
mod shifts;
mod words;

pub use marks::{Below, Marks};
pub use places::Places;

fn shared<T: Send + Sync>() {}

/// That threads may share sets of places is proved by this function.
pub fn are_shared() {
    shared::<Places>();
    shared::<Below>();
}
