//! A place in a short posting list, whose positions are kept as numbers.

ghost use Rattle.std.specs.Prelude.{◌≡◌, ℕ, ◌+◌, ◌-◌, ◌*◌, ◌^◌, ◌<◌, ◌≤◌, [], ◌∷◌, length, slice_index, is_some, if◌then◌else◌, MatchOption};
ghost use Rattle.mt_store_spec.specs.Positions.{ArePositions, from_least, most_looks};

use mt_base::Steps;
use std::marker::Model;
use std::sync::ledger::Ledger;

/// The positions of a short list that are left.
#[derive(Drop)]
pub(crate) struct Numbers<'a> {
    left: &'a [u32],
}

impl<'a> Model for Numbers<'a> {
    ghost use Rattle.std.specs.Prelude.{ℕ, List};
    ghost use Rattle.std.specs.Prelude.{length, ◌≤◌};
    ghost use Rattle.mt_store_spec.specs.Positions.{ArePositions};

    ghost Value = { List ℕ };

    ghost view = { λ c. c.left.now };

    ghost invariant = { λ c. ArePositions c.left.now × (length c.left.now ≤ 128) };
}

/// How many positions at the front are surely below `least`, as powers of two show: it looks at the places 0, 2, 6, 14 and so on.
fn gallop<L: Ledger>(positions: &[u32], least: u32, steps: &mut Steps<L>) -> usize
    requires { ArePositions positions.now }
    ensures within { result ≤ length positions.now }
    ensures below { (k : ℕ) → k < result → slice_index positions.now k < least }
    ensures stop { 2 * result < length positions.now → least ≤ slice_index positions.now (2 * result) }
    ensures power { (n : ℕ) × (2 ^ n ≡ result + 1) × (steps.new ≤ steps.old + n + 1) }
    ensures least_looks { steps.old ≤ steps.new }
    ensures looked { 0 < length positions.now → steps.old < steps.new }
{
    let mut low = 0;
    while 2 * low < positions.len() {
        steps.tick();
        if positions[2 * low] >= least {
            break;
        }
        low = 2 * low + 1;
    }
    low
}

/// How many positions are below `least`, where those before `low` are, and those from `high` on are not.
fn search<L: Ledger>(
    positions: &[u32],
    least: u32,
    low: usize,
    high: usize,
    steps: &mut Steps<L>,
) -> usize
    requires valid { ArePositions positions.now }
    requires order { low ≤ high }
    requires within { high ≤ length positions.now }
    requires below { (k : ℕ) → k < low → slice_index positions.now k < least }
    requires stop { high < length positions.now → least ≤ slice_index positions.now high }
    ensures within { result ≤ length positions.now }
    ensures below { (k : ℕ) → k < result → slice_index positions.now k < least }
    ensures stop { result < length positions.now → least ≤ slice_index positions.now result }
    ensures least_looks { steps.old ≤ steps.new }
    ensures most_looks { 2 ^ (steps.new - steps.old) ≤ 2 * (high - low) + 1 }
{
    let mut from = low;
    let mut to = high;
    while from < to {
        let middle = from + (to - from) / 2;
        steps.tick();
        if positions[middle] < least {
            from = middle + 1;
        } else {
            to = middle;
        }
    }
    from
}

impl<'a> Numbers<'a> {
    /// A cursor before the first of these positions.
    pub(crate) fn new(left: &'a [u32]) -> Self
        requires valid { ArePositions left.now }
        requires short { length left.now ≤ 128 }
        ensures { result ≡ left.now }
    {
        Numbers { left }
    }

    /// The next position, which is then passed.
    #[inline]
    pub(crate) fn next(&mut self) -> Option<u32>
        ensures { MatchOption result ((self.old ≡ []) × (self.new ≡ [])) (λ p. self.old ≡ p ∷ self.new) }
    {
        let (first, rest) = self.left.split_first()?;
        self.left = rest;
        Some(*first)
    }

    /// The first position that is at least `least`. It and those before it are then passed, and all where there is none.
    pub(crate) fn seek<L: Ledger>(&mut self, least: u32, steps: &mut Steps<L>) -> Option<u32>
        ensures given { MatchOption result
            ((from_least least self.old ≡ []) × (self.new ≡ []))
            (λ p. from_least least self.old ≡ p ∷ self.new) }
        ensures least_looks { steps.old + (if is_some result then 1 else 0) ≤ steps.new }
        ensures most_looks { steps.new ≤ steps.old + most_looks (length self.old) }
    {
        let low = gallop(self.left, least, steps);
        let high = (2 * low).min(self.left.len());
        let at = search(self.left, least, low, high, steps);
        match self.left[at..].split_first() {
            Some((first, rest)) => {
                self.left = rest;
                Some(*first)
            }
            None => {
                self.left = &[];
                None
            }
        }
    }
}
