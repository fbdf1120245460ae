//! How many tokens of the corpus have a value.

ghost use Rattle.std.specs.Prelude.{◌≡◌, ℕ, ◌+◌, ◌^◌, ◌<◌, ◌≤◌, List as Items, [], length, slice_get, slice_index, Some, IfOk, IfSome, IfNone};
ghost use Rattle.std.specs.List.{All, Contains};
ghost use Rattle.mt_segment_spec.specs.Tables.{tables_at, token_count};
ghost use Rattle.mt_report_spec.specs.Held.{LieInSome};
ghost use Rattle.mt_frequencies.specs.Tokens.{AreAllPassed, ArePassed, AreTextNumbers, live_tokens_with, places_with, told_tokens_with};

use super::entry::Frequency;
use mt_base::{List, NoMemory, Steps};
use mt_lexicon::Lexicon;
use mt_reports::numbers::number_of;
use mt_segment::Segment;
use mt_segment_laws::numbers_stand_for_values;
use std::alloc::Global;
use std::marker::Brand;
use std::sync::ledger::{Blank, Ledger};

/// The number of a value in a lexicon.
fn number_in(lexicon: &Lexicon, one: &Frequency) -> Option<u32>
    ensures found { IfSome result (λ number. slice_get lexicon.now number ≡ Some one.now.value) }
    ensures none { IfNone result (¬ Contains lexicon.now one.now.value) }
{
    number_by::<Brand>(lexicon, one, Blank::new(1))
}

/// The same. The blank names a ledger for these steps alone.
fn number_by<L: Ledger>(lexicon: &Lexicon, one: &Frequency, blank: Blank) -> Option<u32>
    requires name { blank.name ≡ L.name }
    requires parts { blank.parts ≡ L.parts }
    requires some { 0 < L.parts }
    ensures found { IfSome result (λ number. slice_get lexicon.now number ≡ Some one.now.value) }
    ensures none { IfNone result (¬ Contains lexicon.now one.now.value) }
{
    let mut steps = Steps::<L>::new(blank);
    lexicon.find(one.value, &mut steps)
}

/// Counts the tokens at the places from one on and before another, each for the number of its value.
fn count_tokens(segment: &Segment, attr: u16, from: u32, to: u32, counts: &mut Vec<u32>)
    requires attr { attr < length segment.now.attrs }
    requires within { to ≤ token_count segment.now }
    requires order { from ≤ to }
    requires count { length counts.old.items ≡ length (tables_at segment.now.attrs attr).lexicon }
    requires few { (number : ℕ) → number < length counts.old.items → slice_index counts.old.items number ≤ from }
    ensures count { length counts.new.items ≡ length counts.old.items }
    ensures few { (number : ℕ) → number < length counts.old.items → slice_index counts.new.items number ≤ to }
    ensures each { (number : ℕ) → number < length counts.old.items → slice_index counts.new.items number ≡ slice_index counts.old.items number + places_with segment.now attr number from to }
{
    for place in from..to {
        let number = number_of(segment, attr, place);
        counts[number as usize] += 1;
    }
}

/// For the number of each value of a segment, how many tokens of texts that are not live have it. Live texts are not looked into.
fn passed(alloc: Global, segment: &Segment, live: &[u32], attr: u16) -> Result<List<u32>, NoMemory>
    requires attr { attr < length segment.now.attrs }
    requires live { AreTextNumbers segment.now live.now }
    ensures { IfOk result (ArePassed segment.now attr live.now) }
{
    let values = segment.lexicon(attr).len();
    let mut counts = vec![in alloc; 0u32; values as usize]?;
    let mut from = 0;
    for text in live {
        let (begin, end) = segment.text_bounds(*text);
        count_tokens(segment, attr, from, begin, &mut counts);
        from = end;
    }
    count_tokens(segment, attr, from, segment.tokens(), &mut counts);
    Ok(List::from_vec(counts))
}

/// The same for each segment.
pub(crate) fn all_passed(
    alloc: Global,
    segments: &List<Segment>,
    live: &List<List<u32>>,
    attr: u16,
) -> Result<List<List<u32>>, NoMemory>
    requires stand { LieInSome segments.now live.now [] }
    requires attr { All (λ tables. attr < length tables.attrs) segments.now }
    ensures { IfOk result (AreAllPassed segments.now attr live.now) }
{
    let mut all = List::new(alloc);
    for number in 0..segments.len() {
        let live = live.get(number).as_slice();
        all.push(passed(alloc, segments.get(number), live, attr)?)?;
    }
    Ok(all)
}

/// How many tokens of the live texts of a segment have a value. `passed` has those of its other texts, by number.
fn live_tokens(segment: &Segment, attr: u16, one: &Frequency, passed: &[u32]) -> u32
    requires attr { attr < length segment.now.attrs }
    ensures { (live : Items ℕ) → AreTextNumbers segment.now live → ArePassed segment.now attr live passed.now → result ≡ live_tokens_with segment.now attr live one.now.value }
{
    numbers_stand_for_values();
    segment.texts();
    match number_in(segment.lexicon(attr), one) {
        None => 0,
        Some(number) => {
            let all = segment.postings(attr, number).len();
            match passed.get(number as usize) {
                None => all,
                Some(others) => all.saturating_sub(*others),
            }
        }
    }
}

/// How many tokens of the live texts of all segments have a value. 2^64 tokens and more have no room in memory.
pub(crate) fn tokens_with(
    segments: &List<Segment>,
    attr: u16,
    passed: &List<List<u32>>,
    one: &Frequency,
) -> Result<u64, NoMemory>
    requires attr { All (λ tables. attr < length tables.attrs) segments.now }
    requires passed { length passed.now ≡ length segments.now }
    ensures { (live : Items (Items ℕ)) → LieInSome segments.now live [] → AreAllPassed segments.now attr live passed.now → IfOk result (λ tokens. tokens ≡ told_tokens_with segments.now attr live one.now.value) }
{
    let mut tokens = 0;
    for number in 0..segments.len() {
        let passed = passed.get(number).as_slice();
        let more = live_tokens(segments.get(number), attr, one, passed);
        tokens = sum(tokens, more)?;
    }
    Ok(tokens)
}

/// The sum of two numbers.
fn sum(one: u64, other: u32) -> Result<u64, NoMemory>
    ensures { IfOk result (λ sum. sum ≡ one + other) }
{
    match one.checked_add(u64::from(other)) {
        Some(sum) => Ok(sum),
        None => Err(NoMemory),
    }
}
