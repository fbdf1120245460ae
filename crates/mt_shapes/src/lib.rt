//! The rows of a text, found by the shapes of the matches.
//!
//! The shape of a match is its length and how far behind its begin each of its labels stands. Most expressions have few shapes: a token has one, a gap one for each
//! length. For each shape of an expression there is the set of the places where a match of this shape begins, made for 64 places at once (`Entry`); of one part after
//! another it is where the first begins whose end is a begin of the second. The rows are then read off these sets, begin by begin.
//!
//! Where an expression has many shapes, no rows are found by them (`rows_by_shapes`), and `rows_of_text` finds them begin by begin. Where rows may begin is looked at
//! first, and how many shapes there may be: so nothing is made for an expression of which a part that is rare has no place, nor for one with too many shapes.
#![tactic(auto)]

mod blocks;
mod finding;
mod instances;
mod lengths;
mod parts;
mod refused;
mod rows;
mod shape;
mod table;
mod turns;
mod work;

pub use finding::{may_have_many, rows_by_shapes, rows_of_text, shapes_of_text};
pub use shape::Shape;
pub use table::Entry;
pub use work::Work;

fn shared<T: Send + Sync>() {}

/// That threads may share shapes and what they are found in is proved by this function.
pub fn are_shared() {
    shared::<Shape>();
    shared::<Entry>();
    shared::<Work>();
}
