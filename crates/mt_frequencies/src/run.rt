//! Spans of one token that stand one behind another. Their windows are gone through together, place by place.

ghost use Rattle.std.specs.Prelude.{◌≡◌, ℕ, ◌+◌, ◌-◌, ◌<◌, ◌≤◌, length};
ghost use Rattle.mt_frequencies.specs.Numbers.{IsPlace, number_in};
ghost use Rattle.mt_frequencies.specs.Runs.{AreAt, IsRun, window_begin, window_end, window_in};
ghost use Rattle.mt_frequencies.specs.Seen.{ArePast, seen_at, spans_with};

use super::numbers::Numbers;
use super::seen::{Reached, Seen, count_place};
use mt_base::Steps;
use std::sync::ledger::Ledger;

/// Spans of one token that stand one behind another, from one of the spans on and before another: the place of the first one's token in the segment, the bounds of
/// its text there, and the distances before which their windows end on both sides.
#[derive(Clone, Copy, Debug, Drop)]
pub(crate) struct Run {
    pub(crate) from: u32,
    pub(crate) to: u32,
    pub(crate) place: u32,
    pub(crate) first: u32,
    pub(crate) end: u32,
    pub(crate) before: u32,
    pub(crate) behind: u32,
}

impl Run {
    /// Where the first window begins.
    fn first_place(&self) -> u32
        requires { IsRun self.now }
        ensures { result ≡ window_begin self.now self.now.from }
    {
        self.first.max((self.place + 1).saturating_sub(self.before))
    }

    /// Where the last window ends.
    fn end_place(&self) -> u32
        requires { IsRun self.now }
        ensures { result ≡ window_end self.now (self.now.to - 1) }
    {
        let last = self.place + (self.to - self.from - 1);
        last.saturating_add(self.behind).min(self.end)
    }

    /// The number plus one of the span that stands at a place, or 0.
    #[inline]
    fn own(&self, place: u32) -> u32
        requires { IsRun self.now }
        ensures there { self.now.place ≤ place → place < self.now.place + (self.now.to - self.now.from) → result ≡ self.now.from + (place - self.now.place) + 1 }
        ensures before { place < self.now.place → result ≡ 0 }
        ensures behind { self.now.place + (self.now.to - self.now.from) ≤ place → result ≡ 0 }
    {
        if place < self.place || place - self.place >= self.to - self.from {
            return 0;
        }
        self.from + (place - self.place) + 1
    }

    /// The spans that reach a place.
    #[inline]
    fn reached(&self, place: u32) -> Reached
        requires run { IsRun self.now }
        requires begin { window_begin self.now self.now.from ≤ place }
        requires end { place < window_end self.now (self.now.to - 1) }
        ensures { AreAt self.now place result }
    {
        let passed = (place + 1).saturating_sub(self.place.saturating_add(self.behind));
        let begun = place
            .saturating_add(self.before)
            .saturating_sub(self.place)
            .min(self.to - self.from);
        Reached {
            first: self.from + passed,
            behind: self.from + begun,
            own: self.own(place),
        }
    }

    /// Counts the spans for the values in their windows.
    pub(crate) fn count<L: Ledger>(
        &self,
        numbers: &Numbers,
        seen: &mut [Seen],
        steps: &mut Steps<L>,
    )
        requires run { IsRun self.now }
        requires there { (place : ℕ) → place < self.now.end → IsPlace numbers.now place }
        requires within { (place : ℕ) → place < self.now.end → number_in numbers.now place < length seen.old }
        requires past { ArePast self.now.from seen.old }
        ensures count { length seen.new ≡ length seen.old }
        ensures past { ArePast self.now.to seen.new }
        ensures each { (number : ℕ) → (seen_at seen.new number).spans ≡ (seen_at seen.old number).spans + spans_with (number_in numbers.now) number (window_in self.now) self.now.from (self.now.to - self.now.from) }
    {
        for place in self.first_place()..self.end_place() {
            count_place(numbers, place, self.reached(place), seen, steps);
        }
    }
}
