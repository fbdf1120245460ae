//! Walks over the positions of a value.

ghost use Rattle.std.specs.Prelude.{◌≡◌, ℕ, ◌+◌, ◌≤◌, ◌<◌, Some, length, IfSome, IfNone};
ghost use Rattle.mt_store_spec.specs.Positions.{ArePositions};
ghost use Rattle.mt_eval.specs.Walks.{due, due_of, left_of};

use mt_base::Steps;
use mt_postings::{Cursor, Postings};
use std::sync::ledger::Ledger;

/// A walk over positions, with the next one at hand.
#[derive(Drop)]
pub(crate) struct Walk<'a> {
    pub(crate) next: Option<u32>,
    pub(crate) rest: Cursor<'a>,
}

impl<'a> Walk<'a> {
    /// A walk before the first position of a list.
    pub(crate) fn new<L: Ledger>(list: &'a Postings, steps: &mut Steps<L>) -> Self
        ensures left { left_of result.next result.rest ≡ list.entry.now }
        ensures valid { ArePositions list.entry.now }
        ensures rises { steps.old ≤ steps.new }
        ensures due { (looks : ℕ) → steps.new + due looks result.next result.rest ≤ steps.old + due_of looks (length list.entry.now) }
    {
        let mut rest = list.cursor();
        let next = rest.next(steps);
        Walk { next, rest }
    }
}

/// Passes the position at hand.
pub(crate) fn pass<L: Ledger>(walk: &mut Walk<'_>, steps: &mut Steps<L>)
    ensures left { left_of walk.new.next walk.new.rest ≡ walk.old.rest }
    ensures rises { steps.old ≤ steps.new }
    ensures due { (looks : ℕ) → steps.new + due looks walk.new.next walk.new.rest ≤ steps.old + due_of looks (length walk.old.rest) }
{
    walk.next = walk.rest.next(steps);
}

/// The position at hand, where it lies before an end.
pub(crate) fn before(walk: &Walk<'_>, end: u32) -> Option<u32>
    ensures some { IfSome result (λ place. (walk.now.next ≡ Some place) × (place < end)) }
    ensures none { IfNone result ((place : ℕ) → walk.now.next ≡ Some place → end ≤ place) }
{
    match walk.next {
        None => None,
        Some(place) => { if place < end { Some(place) } else { None } }
    }
}
