//! How many spans of a text have each value in their windows, by the numbers of the values.

ghost use Rattle.std.specs.Prelude.{◌≡◌, ℕ, ◌+◌, ◌-◌, ◌^◌, ◌<◌, ◌≤◌, List as Items, length, min, slice_index_or, ◌↔◌, IsTrue};
ghost use Rattle.mt_text_spec.specs.Texts as texts;
ghost use Rattle.mt_segment_spec.specs.Tables.{tables_at};
ghost use Rattle.mt_reports.specs.Told.{told_tokens};
ghost use Rattle.mt_frequencies.specs.Amounts.{AreMore};
ghost use Rattle.mt_frequencies.specs.Distances.{AreDistances};
ghost use Rattle.mt_frequencies.specs.Numbers.{IsPlace, number_in};
ghost use Rattle.mt_frequencies.specs.Runs.{AreNext, IsRun, run_at};
ghost use Rattle.mt_frequencies.specs.Seen.{AreAlmostPast, AreInside, ArePart, ArePast, around_text, in_window, places_near, seen_at, spans_seen, spans_with, values_in, window_at};

use super::distances::{Around, Distances, Places};
use super::numbers::Numbers;
use super::run::Run;
use super::seen::{Reached, Seen, count_place};
use mt_base::{Span, Steps};
use mt_segment::Segment;
use mt_segment_laws::numbers_stand_for_values;
use std::marker::Brand;
use std::sync::ledger::{Blank, Ledger};

/// So many spans that stand one behind another are counted together. To count fewer of them one by one takes no longer.
const LEAST_RUN: usize = 8;

/// Counts a span for the values at the places from one on and before another.
fn count_part<L: Ledger>(
    numbers: &Numbers,
    from: u32,
    to: u32,
    span: u32,
    seen: &mut [Seen],
    steps: &mut Steps<L>,
)
    requires order { from ≤ to }
    requires there { (place : ℕ) → place < to → IsPlace numbers.now place }
    requires within { (place : ℕ) → place < to → number_in numbers.now place < length seen.old }
    requires few { span < 2 ^ 32 - 1 }
    requires past { AreAlmostPast span seen.old }
    ensures past { AreAlmostPast span seen.new }
    ensures part { ArePart (number_in numbers.now) from to span seen.old seen.new }
{
    for place in from..to {
        let at = Reached {
            first: span,
            behind: span + 1,
            own: 0,
        };
        count_place(numbers, place, at, seen, steps);
    }
}

/// Counts a span for the values in its window.
fn count_one<L: Ledger>(
    numbers: &Numbers,
    places: Places,
    span: u32,
    seen: &mut [Seen],
    steps: &mut Steps<L>,
)
    requires before { places.before_from ≤ places.before_to }
    requires order { places.before_to ≤ places.behind_to }
    requires behind { places.behind_from ≤ places.behind_to }
    requires there { (place : ℕ) → place < places.behind_to → IsPlace numbers.now place }
    requires within { (place : ℕ) → place < places.behind_to → number_in numbers.now place < length seen.old }
    requires few { span < 2 ^ 32 - 1 }
    requires past { ArePast span seen.old }
    ensures count { length seen.new ≡ length seen.old }
    ensures past { ArePast (span + 1) seen.new }
    ensures each { (number : ℕ) → (seen_at seen.new number).spans ≡ (seen_at seen.old number).spans + min 1 (in_window (number_in numbers.now) number places) }
{
    count_part(
        numbers,
        places.before_from,
        places.before_to,
        span,
        seen,
        steps,
    );
    count_part(
        numbers,
        places.behind_from,
        places.behind_to,
        span,
        seen,
        steps,
    );
}

/// Counts spans of a text, from one on and before another, one after the other.
fn count_each<L: Ledger>(
    numbers: &Numbers,
    around: &Around,
    spans: &[Span],
    from: usize,
    to: usize,
    seen: &mut [Seen],
    steps: &mut Steps<L>,
)
    requires distances { AreDistances around.now.distances }
    requires few { around.now.first + around.now.tokens < 2 ^ 32 }
    requires there { (place : ℕ) → place < around.now.first + around.now.tokens → IsPlace numbers.now place }
    requires within { (place : ℕ) → place < around.now.first + around.now.tokens → number_in numbers.now place < length seen.old }
    requires order { from ≤ to }
    requires to { to ≤ length spans.now }
    requires few_spans { length spans.now < 2 ^ 32 }
    requires inside { AreInside around.now.tokens from to spans.now }
    requires past { ArePast from seen.old }
    ensures count { length seen.new ≡ length seen.old }
    ensures past { ArePast to seen.new }
    ensures each { (number : ℕ) → (seen_at seen.new number).spans ≡ (seen_at seen.old number).spans + spans_with (number_in numbers.now) number (window_at around.now spans.now) from (to - from) }
{
    for span in from..to {
        let places = around.places(&spans[span]);
        count_one(numbers, places, span as u32, seen, steps);
    }
}

/// Whether a span is the token at this place of its text.
#[inline]
fn is_token(span: &Span, place: usize) -> bool
    ensures { IsTrue result ↔ (span.now.begin ≡ place) × (span.now.end ≡ place + 1) }
{
    span.begin() as usize == place && span.end() as usize == place + 1
}

/// Before which span those end that are tokens and stand one behind another, from one on and before another.
fn run_end(spans: &[Span], from: usize, to: usize) -> usize
    requires order { from < to }
    requires to { to ≤ length spans.now }
    ensures from { from < result }
    ensures to { result ≤ to }
    ensures next { from + 1 < result → AreNext from result spans.now }
{
    let begin = spans[from].begin() as usize;
    let mut end = from;
    while end < to && is_token(&spans[end], begin + (end - from)) {
        end += 1;
    }
    end.max(from + 1)
}

/// Whether so many tokens that stand one behind another are counted together: they are many, and their windows begin beside them.
fn is_run(distances: &Distances, spans: usize) -> bool
    ensures many { IsTrue result → 1 < spans }
    ensures before { IsTrue result → distances.now.before_from ≡ 1 }
    ensures behind { IsTrue result → distances.now.behind_from ≡ 1 }
{
    spans >= LEAST_RUN && distances.before_from == 1 && distances.behind_from == 1
}

/// The run that spans of a text are.
fn run_of(around: &Around, spans: &[Span], from: usize, to: usize) -> Run
    requires some { from < to }
    requires to { to ≤ length spans.now }
    requires few_spans { length spans.now < 2 ^ 32 }
    requires few { around.now.first + around.now.tokens < 2 ^ 32 }
    requires inside { AreInside around.now.tokens from to spans.now }
    requires next { AreNext from to spans.now }
    requires before { 1 ≤ around.now.distances.before_to }
    requires behind { 1 ≤ around.now.distances.behind_to }
    ensures valid { IsRun result }
    ensures is { result ≡ run_at around.now spans.now from to }
{
    Run {
        from: from as u32,
        to: to as u32,
        place: around.first + spans[from].begin(),
        first: around.first,
        end: around.first + around.tokens,
        before: around.distances.before_to,
        behind: around.distances.behind_to,
    }
}

/// Counts spans of a text, from one on: those that stand one behind another, together where they are many. It tells which one is the next.
fn count_next<L: Ledger>(
    numbers: &Numbers,
    around: &Around,
    spans: &[Span],
    from: usize,
    to: usize,
    seen: &mut [Seen],
    steps: &mut Steps<L>,
) -> usize
    requires distances { AreDistances around.now.distances }
    requires few { around.now.first + around.now.tokens < 2 ^ 32 }
    requires there { (place : ℕ) → place < around.now.first + around.now.tokens → IsPlace numbers.now place }
    requires within { (place : ℕ) → place < around.now.first + around.now.tokens → number_in numbers.now place < length seen.old }
    requires order { from < to }
    requires to { to ≤ length spans.now }
    requires few_spans { length spans.now < 2 ^ 32 }
    requires inside { AreInside around.now.tokens from to spans.now }
    requires past { ArePast from seen.old }
    ensures from { from < result }
    ensures to { result ≤ to }
    ensures count { length seen.new ≡ length seen.old }
    ensures past { ArePast result seen.new }
    ensures each { (number : ℕ) → (seen_at seen.new number).spans ≡ (seen_at seen.old number).spans + spans_with (number_in numbers.now) number (window_at around.now spans.now) from (result - from) }
{
    let end = run_end(spans, from, to);
    if is_run(&around.distances, end - from) {
        run_of(around, spans, from, end).count(numbers, seen, steps);
    } else {
        count_each(numbers, around, spans, from, end, seen, steps);
    }
    end
}

/// Counts spans of a text, from one on and before another.
fn count_all<L: Ledger>(
    numbers: &Numbers,
    around: &Around,
    spans: &[Span],
    from: usize,
    to: usize,
    seen: &mut [Seen],
    steps: &mut Steps<L>,
)
    requires distances { AreDistances around.now.distances }
    requires few { around.now.first + around.now.tokens < 2 ^ 32 }
    requires there { (place : ℕ) → place < around.now.first + around.now.tokens → IsPlace numbers.now place }
    requires within { (place : ℕ) → place < around.now.first + around.now.tokens → number_in numbers.now place < length seen.old }
    requires order { from ≤ to }
    requires to { to ≤ length spans.now }
    requires few_spans { length spans.now < 2 ^ 32 }
    requires inside { AreInside around.now.tokens from to spans.now }
    requires past { ArePast from seen.old }
    ensures count { length seen.new ≡ length seen.old }
    ensures past { ArePast to seen.new }
    ensures each { (number : ℕ) → (seen_at seen.new number).spans ≡ (seen_at seen.old number).spans + spans_with (number_in numbers.now) number (window_at around.now spans.now) from (to - from) }
{
    let mut next = from;
    while next < to {
        next = count_next(numbers, around, spans, next, to, seen, steps);
    }
}

/// Before which span those end that lie in the same text, from one on.
fn text_end(spans: &[Span], from: usize) -> usize
    requires { from < length spans.now }
    ensures from { from < result }
    ensures to { result ≤ length spans.now }
    ensures text { (k : ℕ) (span : texts.Span) → from ≤ k → k < result → (slice_index_or spans.now k span).text ≡ (slice_index_or spans.now from span).text }
{
    let text = spans[from].text();
    let mut to = from + 1;
    while to < spans.len() && spans[to].text() == text {
        to += 1;
    }
    to
}

/// Counts spans, from one of them on, as long as they lie in its text, and tells how many spans there are then before those that are left.
pub(crate) fn count_text(
    segment: &Segment,
    attr: u16,
    text: u32,
    distances: &Distances,
    spans: &[Span],
    from: usize,
    seen: &mut Vec<Seen>,
) -> usize
    requires attr { attr < length segment.now.attrs }
    requires text { text < length segment.now.texts }
    requires distances { AreDistances distances.now }
    requires from { from < length spans.now }
    requires few_spans { length spans.now < 2 ^ 32 }
    requires inside { (end : ℕ) → end ≤ length spans.now → ((k : ℕ) (span : texts.Span) → from ≤ k → k < end → (slice_index_or spans.now k span).text ≡ (slice_index_or spans.now from span).text) → AreInside (told_tokens segment.now text) from end spans.now }
    requires count { length seen.old.items ≡ length (tables_at segment.now.attrs attr).lexicon }
    requires past { ArePast from seen.old.items }
    ensures from { from < result }
    ensures to { result ≤ length spans.now }
    ensures text { (k : ℕ) (span : texts.Span) → from ≤ k → k < result → (slice_index_or spans.now k span).text ≡ (slice_index_or spans.now from span).text }
    ensures count { length seen.new.items ≡ length seen.old.items }
    ensures past { ArePast result seen.new.items }
    ensures counted { (near : texts.Span → Items (Items ℕ)) → ((k : ℕ) (span : texts.Span) → from ≤ k → k < result → near (slice_index_or spans.now k span) ≡ values_in segment.now attr (places_near (around_text segment.now text distances.now) (slice_index_or spans.now k span)))
        → AreMore (tables_at segment.now.attrs attr).lexicon near spans.now from result (spans_seen seen.old.items) (spans_seen seen.new.items) }
{
    count_by::<Brand>(
        segment,
        attr,
        text,
        distances,
        spans,
        from,
        seen.as_mut_slice(),
        Blank::new(1),
    )
}

/// The same. The blank names a ledger for these steps alone.
fn count_by<L: Ledger>(
    segment: &Segment,
    attr: u16,
    text: u32,
    distances: &Distances,
    spans: &[Span],
    from: usize,
    seen: &mut [Seen],
    blank: Blank,
) -> usize
    requires name { blank.name ≡ L.name }
    requires parts { blank.parts ≡ L.parts }
    requires some { 0 < L.parts }
    requires attr { attr < length segment.now.attrs }
    requires text { text < length segment.now.texts }
    requires distances { AreDistances distances.now }
    requires from { from < length spans.now }
    requires few_spans { length spans.now < 2 ^ 32 }
    requires inside { (end : ℕ) → end ≤ length spans.now → ((k : ℕ) (span : texts.Span) → from ≤ k → k < end → (slice_index_or spans.now k span).text ≡ (slice_index_or spans.now from span).text) → AreInside (told_tokens segment.now text) from end spans.now }
    requires count { length seen.old ≡ length (tables_at segment.now.attrs attr).lexicon }
    requires past { ArePast from seen.old }
    ensures from { from < result }
    ensures to { result ≤ length spans.now }
    ensures text { (k : ℕ) (span : texts.Span) → from ≤ k → k < result → (slice_index_or spans.now k span).text ≡ (slice_index_or spans.now from span).text }
    ensures count { length seen.new ≡ length seen.old }
    ensures past { ArePast result seen.new }
    ensures counted { (near : texts.Span → Items (Items ℕ)) → ((k : ℕ) (span : texts.Span) → from ≤ k → k < result → near (slice_index_or spans.now k span) ≡ values_in segment.now attr (places_near (around_text segment.now text distances.now) (slice_index_or spans.now k span)))
        → AreMore (tables_at segment.now.attrs attr).lexicon near spans.now from result (spans_seen seen.old) (spans_seen seen.new) }
{
    numbers_stand_for_values();
    segment.texts();
    let mut steps = Steps::<L>::new(blank);
    let numbers = Numbers::new(segment, attr);
    let (first, end) = segment.text_bounds(text);
    let around = Around {
        distances: *distances,
        first,
        tokens: end - first,
    };
    let to = text_end(spans, from);
    count_all(&numbers, &around, spans, from, to, seen, &mut steps);
    to
}
