//! How many spans have each value near them.

ghost use Rattle.std.specs.Prelude.{◌≡◌, ℕ, ◌^◌, ◌<◌, ◌≤◌, List as Items, length, slice_index_or, IfOk, OnOk};
ghost use Rattle.std.specs.List.{All};
ghost use Rattle.mt_text_spec.specs.Registries as registries;
ghost use Rattle.mt_text_spec.specs.Texts as texts;
ghost use Rattle.mt_match_spec.specs.Values.{Images};
ghost use Rattle.mt_segment_spec.specs.Tables.{Tables, tables_at};
ghost use Rattle.mt_corpus_spec.specs.Groups.{Group, corpus_of};
ghost use Rattle.mt_report_spec.specs.Held.{LieInSome, StandFor};
ghost use Rattle.mt_report_spec.specs.Near.{values_by};
ghost use Rattle.mt_reports.specs.Places.{Stands};
ghost use Rattle.mt_frequencies.specs.Amounts.{HasAmounts};
ghost use Rattle.mt_frequencies.specs.Distances.{AreDistances, near_of};
ghost use Rattle.mt_frequencies.specs.Seen.{spans_seen};
ghost use Rattle.mt_frequencies.specs.Tallies.{IsTally, counts_in, no_count};

use super::begins::is_among;
use super::distances::Near;
use super::joining::put_counts;
use super::seen::Seen;
use super::tally::Tally;
use super::walk::count_text;
use mt_base::{List, NoMemory, Span};
use mt_reports::cursor::{Cursor, first, seek};
use mt_segment::Segment;
use mt_segment_laws::{numbers_stand_for_values, tokens_stand_in_texts};
use std::alloc::Global;

/// How many spans were counted for each number.
fn counts_of(alloc: Global, seen: &[Seen]) -> Result<Vec<u32>, NoMemory>
    ensures { IfOk result (λ counts. counts.items ≡ spans_seen seen.now) }
{
    let mut counts = Vec::with_capacity(alloc, seen.len())?;
    for one in seen {
        counts.push(one.spans)?;
    }
    Ok(counts)
}

/// Counts spans, from one of them on, as long as they lie in its segment: for each number of a value how many of them have it near them, and how many spans there
/// are then before those that are left.
fn count_segment(
    alloc: Global,
    segments: &List<Segment>,
    live: &List<List<u32>>,
    at: Cursor,
    near: &Near,
    spans: &[Span],
    from: usize,
) -> Result<(Vec<u32>, usize), NoMemory>
    requires lie { LieInSome segments.now live.now spans.now }
    requires attr { All (λ tables. near.now.attr < length tables.attrs) segments.now }
    requires distances { AreDistances near.now.distances }
    requires few_spans { length spans.now < 2 ^ 32 }
    requires from { from < length spans.now }
    requires stands { (span : texts.Span) → Stands live.now (slice_index_or spans.now from span).text at.segment at.before }
    ensures from { IfOk result (λ counted. from < counted.1) }
    ensures to { IfOk result (λ counted. counted.1 ≤ length spans.now) }
    ensures amounts { IfOk result (λ counted. (images : Images) (registry : registries.Registry) (groups : Items Group) → StandFor images registry groups segments.now live.now
        → (tables : Tables) → HasAmounts (tables_at (slice_index_or segments.now at.segment tables).attrs near.now.attr).lexicon (values_by images registry (corpus_of groups) (near_of near.now)) spans.now from counted.1 counted.0.items) }
{
    numbers_stand_for_values();
    tokens_stand_in_texts();
    let segment = segments.get(at.segment);
    let texts = live.get(at.segment).as_slice();
    let none = Seen {
        spans: 0,
        last: 0,
        alone: 0,
    };
    let values = segment.lexicon(near.attr).len() as usize;
    let mut seen = vec![in alloc; none; values]?;
    let mut to = from;
    while to < spans.len() && is_among(texts, at.before, spans[to].text()) {
        let text = texts[(spans[to].text() - at.before) as usize];
        to = count_text(
            segment,
            near.attr,
            text,
            &near.distances,
            spans,
            to,
            &mut seen,
        );
    }
    Ok((counts_of(alloc, seen.as_slice())?, to))
}

/// Counts spans by the values near them, in an empty tally. Spans in ascending order are found by one pass over the live texts, and the spans of a segment that
/// follow one another are counted by its numbers of values.
pub(crate) fn count_spans(
    alloc: Global,
    segments: &List<Segment>,
    live: &List<List<u32>>,
    spans: &[Span],
    near: &Near,
    tally: &mut Tally,
) -> Result<(), NoMemory>
    requires lie { LieInSome segments.now live.now spans.now }
    requires attr { All (λ tables. near.now.attr < length tables.attrs) segments.now }
    requires distances { AreDistances near.now.distances }
    requires few { length spans.now < 2 ^ 32 }
    requires empty { (value : Items ℕ) → counts_in tally.old value ≡ no_count }
    ensures { (images : Images) (registry : registries.Registry) (groups : Items Group) → StandFor images registry groups segments.now live.now
        → OnOk result (IsTally (values_by images registry (corpus_of groups) (near_of near.now)) spans.now (counts_in tally.new)) }
{
    let mut at = first();
    let mut from = 0;
    while from < spans.len() {
        at = seek(live.as_slice(), at, spans[from].text());
        let (counts, to) = count_segment(alloc, segments, live, at, near, spans, from)?;
        let lexicon = segments.get(at.segment).lexicon(near.attr);
        put_counts(alloc, lexicon, counts.as_slice(), tally)?;
        from = to;
    }
    Ok(())
}
