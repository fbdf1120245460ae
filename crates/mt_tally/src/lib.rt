//! How many rows a table of shapes tells of, and how many different spans those of them have that meet conditions. No row is listed.
//!
//! A shape has a row at each place of its set, so the rows are counted 64 places at once. Shapes of one length have the same span where they begin at one place: of these
//! each begin is counted once.
#![tactic(auto)]

mod conds;
mod rows;
mod sets;
mod spans;
mod tally;

pub use conds::{are_same, place_in};
pub use sets::place_count;
pub use spans::Seen;
pub use tally::{Tally, table_tally};

fn shared<T: Send + Sync>() {}

/// That threads may share what spans are counted in is proved by this function.
pub fn are_shared() {
    shared::<Seen>();
    shared::<Tally>();
}
