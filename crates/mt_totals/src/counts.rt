//! Of how many tokens of a segment a test holds.

ghost use Rattle.std.specs.Prelude.{◌≡◌, ◌-◌, ◌<◌, ◌≤◌, true, length, slice_get, Some, IfOk, if◌then◌else◌};
ghost use Rattle.mt_segment_spec.specs.Tables.{number_at, token_count};
ghost use Rattle.mt_prepare.specs.TestRows.{HasAttrs, SaysAt};
ghost use Rattle.mt_eval.specs.Sequences.{IsOne};
ghost use Rattle.mt_tally.specs.Counts.{CountsBelow};

use mt_automaton::Pool;
use mt_base::{NoMemory, Steps};
use mt_eval_laws::places_are_listed;
use mt_pattern::IdSet;
use mt_prepare::{KnownRows, Resolved, row_of};
use mt_segment::Segment;
use mt_segment_laws::tables_are_whole;
use mt_tally::place_count;
use std::alloc::Global;
use std::sync::ledger::Ledger;

/// Of how many tokens of a segment a test holds. Only for two tests that are joined their places are found; for the others the lengths of posting lists tell.
pub(crate) fn test_count<L: Ledger>(
    alloc: Global,
    test: &Resolved,
    segment: &Segment,
    steps: &mut Steps<L>,
) -> Result<usize, NoMemory>
    requires { HasAttrs segment.now test.now }
    ensures count { IfOk result (CountsBelow (token_count segment.now) (SaysAt segment.now test.now)) }
    ensures rises { steps.old ≤ steps.new }
    ensures none { IsOne test.now → steps.new ≡ steps.old }
{
    match test {
        Resolved::Any => Ok(segment.tokens() as usize),
        Resolved::One { attr, id, not } => {
            let count = one_count(segment, *attr, *id);
            Ok(unless(*not, count, segment))
        }
        Resolved::Some { attr, ids, not } => {
            let count = some_count(segment, *attr, ids);
            Ok(unless(*not, count, segment))
        }
        Resolved::Not(inner) => {
            let count = test_count(alloc, inner, segment, steps)?;
            Ok(unless(true, count, segment))
        }
        Resolved::Both(_, _) => set_count(alloc, test, segment, steps),
        Resolved::Either(_, _) => set_count(alloc, test, segment, steps),
    }
}

/// The count, or, where it is negated, that of the other tokens of the segment.
fn unless(not: bool, count: usize, segment: &Segment) -> usize
    requires { count ≤ token_count segment.now }
    ensures { result ≡ (if not then token_count segment.now - count else count) }
{
    let tokens = segment.tokens() as usize;
    if not { tokens - count } else { count }
}

/// How many tokens have the value with this number.
fn listed_count(segment: &Segment, attr: u16, id: u32) -> usize
    requires { attr < length segment.now.attrs }
    ensures { CountsBelow (token_count segment.now) (λ place. number_at segment.now attr place ≡ id) result }
{
    places_are_listed();
    tables_are_whole();
    let _tokens = segment.tokens();
    if id < segment.lexicon(attr).len() {
        segment.postings(attr, id).len() as usize
    } else {
        0
    }
}

/// How many tokens have the value with this number; none, where there is no such value.
fn one_count(segment: &Segment, attr: u16, id: Option<u32>) -> usize
    requires { attr < length segment.now.attrs }
    ensures { CountsBelow (token_count segment.now) (λ place. id ≡ Some (number_at segment.now attr place)) result }
{
    match id {
        Some(id) => listed_count(segment, attr, id),
        None => 0,
    }
}

/// How many tokens have a value whose number is in the set.
fn some_count(segment: &Segment, attr: u16, ids: &IdSet) -> usize
    requires { attr < length segment.now.attrs }
    ensures { CountsBelow (token_count segment.now) (λ place. slice_get ids.now (number_at segment.now attr place) ≡ Some true) result }
{
    let _tokens = segment.tokens();
    let _most = ids.count();
    let mut count = 0;
    let mut next = 0;
    while let Some(id) = ids.next_from(next) {
        count += listed_count(segment, attr, id);
        next = id + 1;
    }
    count
}

/// How many tokens are in the set of those of which a test holds.
fn set_count<L: Ledger>(
    alloc: Global,
    test: &Resolved,
    segment: &Segment,
    steps: &mut Steps<L>,
) -> Result<usize, NoMemory>
    requires { HasAttrs segment.now test.now }
    ensures count { IfOk result (CountsBelow (token_count segment.now) (SaysAt segment.now test.now)) }
    ensures rises { steps.old ≤ steps.new }
{
    let _tokens = segment.tokens();
    let mut pool = Pool::new(alloc);
    let mut known = KnownRows::new(alloc, 0);
    let row = row_of(&mut pool, &mut known, test, segment, steps)?;
    Ok(place_count(&row))
}
