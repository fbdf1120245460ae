//! What is counted for the number of each value while the places of windows are gone through.

ghost use Rattle.std.specs.Prelude.{◌≡◌, ◌<◌, length};
ghost use Rattle.mt_frequencies.specs.Numbers.{IsPlace, number_in};
ghost use Rattle.mt_frequencies.specs.Seen.{AreReached, HasRoom, IsReached, seen_at};

use super::numbers::Numbers;
use mt_base::Steps;
use std::sync::ledger::Ledger;

/// How many spans were counted for a value; before which span all have a place with it so far, as far as their windows reach on; and the number plus one of the
/// span that has it at its own place alone, or 0.
#[derive(Clone, Copy, Debug, Drop)]
pub(crate) struct Seen {
    pub(crate) spans: u32,
    pub(crate) last: u32,
    pub(crate) alone: u32,
}

/// The spans that reach a place: those from one on and before another. One of them may stand at the place itself, which is then no part of its window: its number
/// plus one, or 0.
#[derive(Clone, Copy, Debug, Drop)]
pub(crate) struct Reached {
    pub(crate) first: u32,
    pub(crate) behind: u32,
    pub(crate) own: u32,
}

/// What is counted for a value where these spans reach a place that has it.
#[inline]
fn counted(seen: Seen, at: Reached) -> Seen
    requires { HasRoom at seen }
    ensures { IsReached at seen result }
{
    let from = seen.last.max(at.first);
    let alone = if from < at.own { at.own } else { 0 };
    let more = at.behind - from - alone.min(1) + seen.alone.saturating_sub(at.first).min(1);
    Seen {
        spans: seen.spans + more,
        last: at.behind,
        alone,
    }
}

/// Counts the spans that reach a place for the value there.
#[inline]
pub(crate) fn count_place<L: Ledger>(
    numbers: &Numbers,
    place: u32,
    at: Reached,
    seen: &mut [Seen],
    steps: &mut Steps<L>,
)
    requires there { IsPlace numbers.now place }
    requires within { number_in numbers.now place < length seen.old }
    requires room { HasRoom at (seen_at seen.old (number_in numbers.now place)) }
    ensures { AreReached (number_in numbers.now place) at seen.old seen.new }
{
    let number = numbers.get(place, steps) as usize;
    seen[number] = counted(seen[number], at);
}
