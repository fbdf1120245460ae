//! Parts of queries, matched in a text by sets of places.
//!
//! A part without labels is a map between sets of places: `ends` leads from begins on to the ends of its matches, `starts` from ends back to their begins. What a
//! part matches is what the expression that it stands for matches (`PartMatches`). The text is asked through a `View`, 64 places at once.
//!
//! A part with labels (`Labelled`) leads from a set of begins to the ends that are allowed with the places of its labels (`labelled_rows`), in groups that share their
//! labels. What the first of two parts may end at is where the second begins (`labelled_starts`), so nothing is followed from which no match comes.
//!
//! A part of a text is a text too (`Window`), and its matches are those of the text that lie in it. `furthest` tells how far the matches lead that begin at a place, so
//! all of them lie in a window around it.
#![tactic(auto)]

mod bound;
mod compile;
mod groups;
mod labelled;
mod part;
mod pool;
mod reach;
mod rows;
mod rows_of_text;
mod view;
mod window;

pub use bound::{furthest, furthest_plain};
pub use compile::{Automaton, automaton_matches, labels_stand};
pub use groups::{Group, UNSET, labelled_rows};
pub use labelled::{Labelled, labelled_starts};
pub use part::Part;
pub use pool::Pool;
pub use reach::{ends, starts};
pub use rows::Work;
pub use rows_of_text::row_begins;
pub use view::{Mark, View};
pub use window::Window;

fn shared<T: Send + Sync>() {}

/// That threads may share parts and pools is proved by this function.
pub fn are_shared() {
    shared::<Part>();
    shared::<Labelled>();
    shared::<Pool>();
    shared::<Work>();
    shared::<Automaton>();
    shared::<Mark>();
}
