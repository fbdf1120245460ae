//! How many spans have each value so far from their begins.

ghost use Rattle.std.specs.Prelude.{◌≡◌, ℕ, ◌+◌, ◌-◌, ◌^◌, ◌<◌, ◌≤◌, ◌↔◌, IsTrue, if◌then◌else◌, ℤ, List as Items, length, slice_index, slice_index_or, IfOk, OnOk};
ghost use Rattle.std.specs.List.{All, list_any};
ghost use Rattle.std.specs.Str.{bytes_eq};
ghost use Rattle.mt_text_spec.specs.Registries as registries;
ghost use Rattle.mt_text_spec.specs.Texts as texts;
ghost use Rattle.mt_match_spec.specs.Values.{Images};
ghost use Rattle.mt_segment_spec.specs.Tables.{Tables, tables_at, token_count};
ghost use Rattle.mt_corpus_spec.specs.Groups.{Group, corpus_of};
ghost use Rattle.mt_report_spec.specs.Held.{LieInSome, StandFor};
ghost use Rattle.mt_report_spec.specs.Near.{near_begin, values_by};
ghost use Rattle.mt_reports.specs.Places.{Stands};
ghost use Rattle.mt_reports.specs.Told.{told_tokens};
ghost use Rattle.mt_frequencies.specs.Numbers.{AreNumbersOf, IsPlace, number_in};
ghost use Rattle.mt_frequencies.specs.Amounts.{AreMore, IsReach, amount_of, values_told, HasAmounts};
ghost use Rattle.mt_frequencies.specs.Tallies.{IsTally, counts_in, no_count};

use super::distances::{to_left, to_right};
use super::joining::put_counts;
use super::numbers::Numbers;
use super::tally::Tally;
use mt_base::{List, NoMemory, Span, Steps};
use mt_reports::cursor::{Cursor, first, seek};
use mt_segment::Segment;
use mt_segment_laws::{numbers_stand_for_values, tokens_stand_in_texts};
use std::alloc::Global;
use std::marker::Brand;
use std::sync::ledger::{Blank, Ledger};

/// The begins of spans of a text, from one on and before another, for which the places so far from them lie in the text, and the first of these places in the
/// segment.
#[derive(Clone, Copy, Debug, Drop)]
pub(crate) struct Reach {
    from: u32,
    to: u32,
    place: u32,
}

/// Which begins in a text have places so far from them.
fn reach_of(segment: &Segment, text: u32, distance: i32) -> Reach
    requires { text < length segment.now.texts }
    ensures { IsReach segment.now text distance result }
{
    let (first, end) = segment.text_bounds(text);
    let right = to_right(distance);
    Reach {
        from: to_left(distance),
        to: (end - first).saturating_sub(right),
        place: first.saturating_add(right),
    }
}

/// Counts the value that stands so far from a begin, if its place lies in the text.
#[inline]
fn count_begin<L: Ledger>(
    numbers: &Numbers,
    reach: Reach,
    begin: u32,
    counts: &mut [u32],
    steps: &mut Steps<L>,
)
    requires there { (one : ℕ) → reach.from ≤ one → one < reach.to → IsPlace numbers.now (reach.place + (one - reach.from)) }
    requires within { (one : ℕ) → reach.from ≤ one → one < reach.to → number_in numbers.now (reach.place + (one - reach.from)) < length counts.old }
    requires few_places { (one : ℕ) → reach.from ≤ one → one < reach.to → reach.place + (one - reach.from) < 2 ^ 32 }
    requires few { (number : ℕ) → number < length counts.old → slice_index counts.old number < 2 ^ 32 - 1 }
    ensures count { length counts.new ≡ length counts.old }
    ensures few { (number : ℕ) → number < length counts.old → slice_index counts.new number ≤ slice_index counts.old number + 1 }
    ensures counted { (tables : Tables) (attr text : ℕ) (distance : ℤ) → IsReach tables text distance reach → AreNumbersOf tables attr numbers.now → length counts.old ≡ length (tables_at tables.attrs attr).lexicon → begin < told_tokens tables text
        → (value : Items ℕ) → amount_of (tables_at tables.attrs attr).lexicon counts.new value ≡ amount_of (tables_at tables.attrs attr).lexicon counts.old value + (if list_any (bytes_eq value) (values_told tables attr text distance begin) then 1 else 0) }
{
    if begin < reach.from || begin >= reach.to {
        return;
    }
    let number = numbers.get(reach.place + (begin - reach.from), steps);
    counts[number as usize] += 1;
}

/// Counts spans, from one of them on, as long as they lie in its text, and tells how many spans there are then before those that are left.
fn count_text(
    segment: &Segment,
    attr: u16,
    text: u32,
    distance: i32,
    spans: &[Span],
    from: usize,
    counts: &mut Vec<u32>,
) -> usize
    requires attr { attr < length segment.now.attrs }
    requires text { text < length segment.now.texts }
    requires from { from < length spans.now }
    requires few_spans { length spans.now < 2 ^ 32 }
    requires begins { (k : ℕ) (span : texts.Span) → from ≤ k → k < length spans.now → (slice_index_or spans.now k span).text ≡ (slice_index_or spans.now from span).text → (slice_index_or spans.now k span).begin < told_tokens segment.now text }
    requires count { length counts.old.items ≡ length (tables_at segment.now.attrs attr).lexicon }
    requires few { (number : ℕ) → number < length counts.old.items → slice_index counts.old.items number ≤ from }
    ensures from { from < result }
    ensures to { result ≤ length spans.now }
    ensures text { (k : ℕ) (span : texts.Span) → from ≤ k → k < result → (slice_index_or spans.now k span).text ≡ (slice_index_or spans.now from span).text }
    ensures count { length counts.new.items ≡ length counts.old.items }
    ensures few { (number : ℕ) → number < length counts.old.items → slice_index counts.new.items number ≤ result }
    ensures counted { (near : texts.Span → Items (Items ℕ)) → ((k : ℕ) (span : texts.Span) → from ≤ k → k < result → near (slice_index_or spans.now k span) ≡ values_told segment.now attr text distance (slice_index_or spans.now k span).begin)
        → AreMore (tables_at segment.now.attrs attr).lexicon near spans.now from result counts.old.items counts.new.items }
{
    count_by::<Brand>(
        segment,
        attr,
        text,
        distance,
        spans,
        from,
        counts.as_mut_slice(),
        Blank::new(1),
    )
}

/// The same. The blank names a ledger for these steps alone.
fn count_by<L: Ledger>(
    segment: &Segment,
    attr: u16,
    text: u32,
    distance: i32,
    spans: &[Span],
    from: usize,
    counts: &mut [u32],
    blank: Blank,
) -> usize
    requires name { blank.name ≡ L.name }
    requires parts { blank.parts ≡ L.parts }
    requires some { 0 < L.parts }
    requires attr { attr < length segment.now.attrs }
    requires text { text < length segment.now.texts }
    requires from { from < length spans.now }
    requires few_spans { length spans.now < 2 ^ 32 }
    requires begins { (k : ℕ) (span : texts.Span) → from ≤ k → k < length spans.now → (slice_index_or spans.now k span).text ≡ (slice_index_or spans.now from span).text → (slice_index_or spans.now k span).begin < told_tokens segment.now text }
    requires count { length counts.old ≡ length (tables_at segment.now.attrs attr).lexicon }
    requires few { (number : ℕ) → number < length counts.old → slice_index counts.old number ≤ from }
    ensures from { from < result }
    ensures to { result ≤ length spans.now }
    ensures text { (k : ℕ) (span : texts.Span) → from ≤ k → k < result → (slice_index_or spans.now k span).text ≡ (slice_index_or spans.now from span).text }
    ensures count { length counts.new ≡ length counts.old }
    ensures few { (number : ℕ) → number < length counts.old → slice_index counts.new number ≤ result }
    ensures counted { (near : texts.Span → Items (Items ℕ)) → ((k : ℕ) (span : texts.Span) → from ≤ k → k < result → near (slice_index_or spans.now k span) ≡ values_told segment.now attr text distance (slice_index_or spans.now k span).begin)
        → AreMore (tables_at segment.now.attrs attr).lexicon near spans.now from result counts.old counts.new }
{
    let mut steps = Steps::<L>::new(blank);
    let numbers = Numbers::new(segment, attr);
    let reach = reach_of(segment, text, distance);
    let number = spans[from].text();
    let mut to = from;
    while to < spans.len() && spans[to].text() == number {
        count_begin(&numbers, reach, spans[to].begin(), counts, &mut steps);
        to += 1;
    }
    to
}

/// Whether a text with this number is one of so many behind others.
pub(crate) fn is_among(texts: &[u32], before: u32, text: u32) -> bool
    ensures { IsTrue result ↔ (before ≤ text) × (text < before + length texts.now) }
{
    before <= text && ((text - before) as usize) < texts.len()
}

/// Counts spans, from one of them on, as long as they lie in its segment: for each number of a value how many of them have it so far from their begins, and how
/// many spans there are then before those that are left.
fn count_segment(
    alloc: Global,
    segments: &List<Segment>,
    live: &List<List<u32>>,
    at: Cursor,
    attr: u16,
    distance: i32,
    spans: &[Span],
    from: usize,
) -> Result<(Vec<u32>, usize), NoMemory>
    requires lie { LieInSome segments.now live.now spans.now }
    requires attr { All (λ tables. attr < length tables.attrs) segments.now }
    requires few_spans { length spans.now < 2 ^ 32 }
    requires from { from < length spans.now }
    requires stands { (span : texts.Span) → Stands live.now (slice_index_or spans.now from span).text at.segment at.before }
    ensures from { IfOk result (λ counted. from < counted.1) }
    ensures to { IfOk result (λ counted. counted.1 ≤ length spans.now) }
    ensures amounts { IfOk result (λ counted. (images : Images) (registry : registries.Registry) (groups : Items Group) → StandFor images registry groups segments.now live.now
        → (tables : Tables) → HasAmounts (tables_at (slice_index_or segments.now at.segment tables).attrs attr).lexicon (values_by images registry (corpus_of groups) (near_begin attr distance)) spans.now from counted.1 counted.0.items) }
{
    numbers_stand_for_values();
    tokens_stand_in_texts();
    let segment = segments.get(at.segment);
    let texts = live.get(at.segment).as_slice();
    let mut counts = vec![in alloc; 0u32; segment.lexicon(attr).len() as usize]?;
    let mut to = from;
    while to < spans.len() && is_among(texts, at.before, spans[to].text()) {
        let text = texts[(spans[to].text() - at.before) as usize];
        to = count_text(segment, attr, text, distance, spans, to, &mut counts);
    }
    Ok((counts, to))
}

/// Counts spans, by the values so far from their begins, in an empty tally. Spans in ascending order are found by one pass over the live texts, and the spans of a
/// segment that follow one another are counted by its numbers of values.
pub(crate) fn count_begins(
    alloc: Global,
    segments: &List<Segment>,
    live: &List<List<u32>>,
    spans: &[Span],
    attr: u16,
    distance: i32,
    tally: &mut Tally,
) -> Result<(), NoMemory>
    requires lie { LieInSome segments.now live.now spans.now }
    requires attr { All (λ tables. attr < length tables.attrs) segments.now }
    requires few { length spans.now < 2 ^ 32 }
    requires empty { (value : Items ℕ) → counts_in tally.old value ≡ no_count }
    ensures { (images : Images) (registry : registries.Registry) (groups : Items Group) → StandFor images registry groups segments.now live.now
        → OnOk result (IsTally (values_by images registry (corpus_of groups) (near_begin attr distance)) spans.now (counts_in tally.new)) }
{
    let mut at = first();
    let mut from = 0;
    while from < spans.len() {
        at = seek(live.as_slice(), at, spans[from].text());
        let (counts, to) = count_segment(alloc, segments, live, at, attr, distance, spans, from)?;
        let lexicon = segments.get(at.segment).lexicon(attr);
        put_counts(alloc, lexicon, counts.as_slice(), tally)?;
        from = to;
    }
    Ok(())
}
