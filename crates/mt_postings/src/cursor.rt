//! A place in a posting list.

ghost use Rattle.std.specs.Prelude.{◌≡◌, ◌+◌, ◌≤◌, [], ◌∷◌, length, is_some, if◌then◌else◌, MatchOption};
ghost use Rattle.mt_store_spec.specs.Positions.{ArePositions, from_least, most_looks};

use super::numbers::Numbers;
use super::places::Places;
use mt_base::Steps;
use std::marker::Model;
use std::sync::ledger::Ledger;

/// The positions that are left: numbers, or their codes.
#[derive(Drop)]
pub(crate) enum Left<'a> {
    Numbers(Numbers<'a>),
    Codes(Places<'a>),
}

/// The positions of a posting list that are left.
#[derive(Drop)]
pub struct Cursor<'a> {
    left: Left<'a>,
}

impl<'a> Model for Cursor<'a> {
    ghost use Rattle.std.specs.Prelude.{ℕ, List};

    ghost Value = { List ℕ };

    ghost use Rattle.mt_postings.specs.Forms.{positions_left};

    ghost view = { λ c. positions_left c.left };
}

impl<'a> Cursor<'a> {
    /// A cursor before the first of these positions.
    pub(crate) fn numbers(left: &'a [u32]) -> Self
        requires valid { ArePositions left.now }
        requires short { length left.now ≤ 128 }
        ensures { result ≡ left.now }
    {
        Cursor {
            left: Left::Numbers(Numbers::new(left)),
        }
    }

    /// A cursor before the first of these coded positions.
    pub(crate) fn codes(places: Places<'a>) -> Self
        ensures { result ≡ places.entry }
    {
        Cursor {
            left: Left::Codes(places),
        }
    }

    /// The next position, which is then passed.
    #[inline]
    fn advance(&mut self) -> Option<u32>
        ensures { MatchOption result ((self.old ≡ []) × (self.new ≡ [])) (λ p. self.old ≡ p ∷ self.new) }
    {
        match &mut self.left {
            Left::Numbers(numbers) => numbers.next(),
            Left::Codes(places) => places.next(),
        }
    }

    /// The next position, which is then passed. A position given is a step. It takes no memory.
    #[inline]
    pub fn next<L: Ledger>(&mut self, steps: &mut Steps<L>) -> Option<u32>
        ensures given { MatchOption result ((self.old ≡ []) × (self.new ≡ [])) (λ p. self.old ≡ p ∷ self.new) }
        ensures ticks { steps.new ≡ steps.old + (if is_some result then 1 else 0) }
    {
        let position = self.advance()?;
        steps.tick();
        Some(position)
    }

    /// The first position that is at least `least`. It and those before it are then passed, and all where there is none.
    /// A position looked at is a step. It takes no memory.
    pub fn seek<L: Ledger>(&mut self, least: u32, steps: &mut Steps<L>) -> Option<u32>
        ensures given { MatchOption result
            ((from_least least self.old ≡ []) × (self.new ≡ []))
            (λ p. from_least least self.old ≡ p ∷ self.new) }
        ensures least_looks { steps.old + (if is_some result then 1 else 0) ≤ steps.new }
        ensures most_looks { steps.new ≤ steps.old + most_looks (length self.old) }
    {
        match &mut self.left {
            Left::Numbers(numbers) => numbers.seek(least, steps),
            Left::Codes(places) => places.seek(least, steps),
        }
    }
}
