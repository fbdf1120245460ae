//! Tests of tokens, by the numbers of values in a segment.

use mt_pattern::IdSet;

/// A test of tokens, by the numbers of values in a segment.
#[derive(Drop)]
pub enum Resolved {
    /// It holds of everything.
    Any,
    /// The value has this number, or, under `not`, another one. No value has it where there is none.
    One {
        attr: u16,
        id: Option<u32>,
        not: bool,
    },
    /// The value's number is in the set, or, under `not`, is not.
    Some {
        attr: u16,
        ids: IdSet,
        not: bool,
    },
    Not(Box<Resolved>),
    Both(Box<Resolved>, Box<Resolved>),
    Either(Box<Resolved>, Box<Resolved>),
}
