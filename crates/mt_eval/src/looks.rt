//! Tests of tokens, one token after another looked at.

ghost use Rattle.std.specs.Prelude.{◌≡◌, ◌+◌, ◌-◌, ◌<◌, ◌≤◌, Some, cond, not, length};
ghost use Rattle.std.specs.Bool.{Decides};
ghost use Rattle.std.specs.List.{All};
ghost use Rattle.mt_segment_spec.specs.Tables.{token_count};
ghost use Rattle.mt_prepare.specs.TestRows.{HasAttrs, SaysAt};
ghost use Rattle.mt_eval.specs.Sequences.{IsOne, SayFrom};

use mt_base::Steps;
use mt_prepare::Resolved;
use mt_segment::Segment;
use std::sync::ledger::Ledger;

/// Whether a test says so of the token at a place of the segment. The test of one value is one step. For such a test nothing is called.
#[inline]
pub(crate) fn says<L: Ledger>(
    test: &Resolved,
    segment: &Segment,
    place: u32,
    steps: &mut Steps<L>,
) -> bool
    requires attrs { HasAttrs segment.now test.now }
    requires place { place < token_count segment.now }
    ensures says { Decides result (SaysAt segment.now test.now place) }
    ensures rises { steps.old ≤ steps.new }
    ensures one { IsOne test.now → steps.new ≤ steps.old + 1 }
{
    match test {
        Resolved::One { attr, id, not } => {
            let number = segment.value_id(*attr, place, steps);
            unless(*not, is_it(*id, number))
        }
        _ => any_says(test, segment, place, steps),
    }
}

/// The same, of any test.
#[inline(never)]
fn any_says<L: Ledger>(test: &Resolved, segment: &Segment, place: u32, steps: &mut Steps<L>) -> bool
    requires attrs { HasAttrs segment.now test.now }
    requires place { place < token_count segment.now }
    ensures says { Decides result (SaysAt segment.now test.now place) }
    ensures rises { steps.old ≤ steps.new }
    ensures one { IsOne test.now → steps.new ≤ steps.old + 1 }
{
    match test {
        Resolved::Any => true,
        Resolved::One { attr, id, not } => {
            let number = segment.value_id(*attr, place, steps);
            unless(*not, is_it(*id, number))
        }
        Resolved::Some { attr, ids, not } => {
            let number = segment.value_id(*attr, place, steps);
            unless(*not, ids.has(number))
        }
        Resolved::Not(inner) => !any_says(inner, segment, place, steps),
        Resolved::Both(left, right) => {
            if !any_says(left, segment, place, steps) {
                return false;
            }
            any_says(right, segment, place, steps)
        }
        Resolved::Either(left, right) => {
            if any_says(left, segment, place, steps) {
                return true;
            }
            any_says(right, segment, place, steps)
        }
    }
}

/// Whether a fact holds, or, where it is negated, does not.
fn unless(negated: bool, fact: bool) -> bool
    ensures { result ≡ cond negated (not fact) fact }
{
    if negated { !fact } else { fact }
}

/// Whether this is the number.
fn is_it(id: Option<u32>, number: u32) -> bool
    ensures { Decides result (id ≡ Some number) }
{
    match id {
        None => false,
        Some(id) => id == number,
    }
}

/// Whether the tests from one number on, before another, say so, where the first of all tests is put to the token at a place.
pub(crate) fn say_from<L: Ledger>(
    tests: &[Resolved],
    from: usize,
    to: usize,
    segment: &Segment,
    place: u32,
    steps: &mut Steps<L>,
) -> bool
    requires attrs { All (HasAttrs segment.now) tests.now }
    requires order { from ≤ to }
    requires within { to ≤ length tests.now }
    requires inside { place + to ≤ token_count segment.now }
    ensures say { Decides result (SayFrom segment.now tests.now from to place) }
    ensures rises { steps.old ≤ steps.new }
    ensures ones { All IsOne tests.now → steps.new ≤ steps.old + (to - from) }
{
    let _tokens = segment.tokens();
    for n in from..to {
        if !says(&tests[n], segment, place + n as u32, steps) {
            return false;
        }
    }
    true
}

/// The same. Where there are no such tests, nothing is called for them.
#[inline]
pub(crate) fn say_between<L: Ledger>(
    tests: &[Resolved],
    from: usize,
    to: usize,
    segment: &Segment,
    place: u32,
    steps: &mut Steps<L>,
) -> bool
    requires attrs { All (HasAttrs segment.now) tests.now }
    requires order { from ≤ to }
    requires within { to ≤ length tests.now }
    requires inside { place + to ≤ token_count segment.now }
    ensures say { Decides result (SayFrom segment.now tests.now from to place) }
    ensures rises { steps.old ≤ steps.new }
    ensures ones { All IsOne tests.now → steps.new ≤ steps.old + (to - from) }
{
    if from == to {
        return true;
    }
    say_from(tests, from, to, segment, place, steps)
}
