//! Collocations.

ghost use Rattle.std.specs.Prelude.{◌≡◌, ◌<◌, ◌^◌, ◌≤ℤ◌, ◌++◌, [], List as Items, ℕ, ℤ, IfOk, OnOk, OnErr, length, map, IsPermutation, IsSorted};
ghost use Rattle.std.specs.List.{All, flat_map};
ghost use Rattle.mt_text_spec.specs.Lines.{closed};
ghost use Rattle.mt_text_spec.specs.Registries as registries;
ghost use Rattle.mt_match_spec.specs.Values.{Images};
ghost use Rattle.mt_corpus_spec.specs.Groups.{Group, corpus_of};
ghost use Rattle.mt_report_spec.specs.Held.{LieInSome, StandFor};
ghost use Rattle.mt_report_spec.specs.Counts.{CollocationText, collocate_cmp};
ghost use Rattle.mt_frequencies.specs.Collocates.{AreScores, HasPlace, collocate_of};
ghost use Rattle.mt_frequencies.specs.Tokens.{told_tokens_with};

use super::collocate::{Collocate, compare};
use super::distances::{Near, window};
use super::entry::Frequency;
use super::frequencies::counted;
use super::lines::put_list;
use super::spans::count_spans;
use super::tally::Tally;
use super::tokens::{all_passed, tokens_with};
use mt_base::{List, NoMemory, Span};
use mt_segment::Segment;
use mt_segment_laws::{numbers_stand_for_values, tokens_stand_in_texts};
use std::alloc::Global;

/// The collocates of so many spans that these values are.
fn collocates<'a>(
    alloc: Global,
    segments: &List<Segment>,
    live: &List<List<u32>>,
    attr: u16,
    spans: u32,
    frequent: &[Frequency<'a>],
) -> Result<Vec<Collocate<'a>>, NoMemory>
    requires stand { LieInSome segments.now live.now [] }
    requires attr { All (λ tables. attr < length tables.attrs) segments.now }
    requires places { All (HasPlace spans (told_tokens_with segments.now attr live.now)) frequent.now }
    ensures { (scores : ℕ → ℕ → ℤ) → AreScores scores → IfOk result (λ all. all.items ≡ map (collocate_of scores spans (told_tokens_with segments.now attr live.now)) frequent.now) }
{
    let passed = all_passed(alloc, segments, live, attr)?;
    let mut all = Vec::with_capacity(alloc, frequent.len())?;
    for one in frequent {
        let tokens = tokens_with(segments, attr, &passed, one)?;
        all.push(Collocate::new(spans, one, tokens))?;
    }
    Ok(all)
}

/// Puts collocates of so many spans in order, where there are any spans.
fn rank<'a>(spans: u32, mut all: Vec<Collocate<'a>>) -> Vec<Collocate<'a>>
    ensures same { IsPermutation all.entry.items result.items }
    ensures sorted { 0 < spans → IsSorted (collocate_cmp spans) result.items }
{
    all.sort_unstable_by(|one, other| compare(spans, one, other));
    all
}

/// Appends the collocates of spans: the number of its lines, and a line for each value of an attribute that `least` spans have in their windows, and one at least. A
/// window has the places so far before a span's first token and behind its last one, from the first distance to the last, as far as they lie in the text. The
/// span itself is no part of it, and a span counts once for a value. The value with the greatest score comes first, by the exact fraction. `live` has for each
/// segment the ascending numbers of its live texts, and spans are numbered among the live texts of all segments. Without memory nothing changes.
pub fn collocations(
    alloc: Global,
    segments: &List<Segment>,
    live: &List<List<u32>>,
    spans: &[Span],
    attr: u16,
    from: i32,
    to: i32,
    least: u32,
    out: &mut List<u8>,
) -> Result<(), NoMemory>
    requires lie { LieInSome segments.now live.now spans.now }
    requires attr { All (λ tables. attr < length tables.attrs) segments.now }
    requires few { length spans.now < 2 ^ 32 }
    requires order { from ≤ℤ to }
    ensures ok { (images : Images) (registry : registries.Registry) (groups : Items Group) → StandFor images registry groups segments.now live.now
        → OnOk result ((lines : Items (Items ℕ)) × CollocationText images registry (corpus_of groups) spans.now attr from to least lines × (out.new ≡ out.old ++ flat_map closed lines)) }
    ensures err { OnErr result (out.new ≡ out.old) }
{
    numbers_stand_for_values();
    tokens_stand_in_texts();
    let near = Near {
        attr,
        distances: window(from, to),
    };
    let mut tally = Tally::new(alloc);
    count_spans(alloc, segments, live, spans, &near, &mut tally)?;
    let frequent = counted(alloc, &tally, least.saturating_sub(1))?;
    let number = spans.len() as u32;
    let all = collocates(alloc, segments, live, attr, number, frequent.as_slice())?;
    put_list(rank(number, all).as_slice(), out)
}
