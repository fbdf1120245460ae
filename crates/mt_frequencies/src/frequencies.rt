//! Frequency lists.

ghost use Rattle.std.specs.Prelude.{◌≡◌, ◌<◌, ◌^◌, ◌++◌, List as Items, ℕ, IfOk, OnOk, OnErr, length, map, filter, nat_eq, IsPermutation, IsSorted};
ghost use Rattle.std.specs.List.{All, IsDistinct, flat_map};
ghost use Rattle.std.specs.Cmp.Lexicographic.{pointwise};
ghost use Rattle.mt_text_spec.specs.Lines.{closed};
ghost use Rattle.mt_text_spec.specs.Registries as registries;
ghost use Rattle.mt_match_spec.specs.Values.{Images};
ghost use Rattle.mt_corpus_spec.specs.Groups.{Group, corpus_of};
ghost use Rattle.mt_report_spec.specs.Held.{LieInSome, StandFor};
ghost use Rattle.mt_report_spec.specs.Counts.{FrequencyText, frequency_cmp};
ghost use Rattle.mt_frequencies.specs.Tallies.{counts_in, frequency_of, is_counted};

use super::begins::count_begins;
use super::entry::Frequency;
use super::lines::put_list;
use super::tally::Tally;
use mt_base::{List, NoMemory, Span};
use mt_segment::Segment;
use std::alloc::Global;

/// The values for which more than so many spans were counted, in the order of their numbers.
pub(crate) fn counted<'a>(
    alloc: Global,
    tally: &'a Tally,
    more_than: u32,
) -> Result<Vec<Frequency<'a>>, NoMemory>
    ensures all { IfOk result (λ all. all.items ≡ map (frequency_of (counts_in tally.now)) (filter (is_counted more_than (counts_in tally.now)) tally.now.values)) }
    ensures few { IfOk result (λ all. length all.items < 2 ^ 32) }
    ensures distinct { IsDistinct (pointwise nat_eq) tally.now.values }
{
    let mut all = Vec::new(alloc);
    for number in 0..tally.len() {
        let (value, spans) = tally.get(number);
        if spans > more_than {
            all.push(Frequency { value, spans })?;
        }
    }
    Ok(all)
}

/// The values for which a span was counted, the most frequent first.
fn ranked<'a>(alloc: Global, tally: &'a Tally) -> Result<Vec<Frequency<'a>>, NoMemory>
    ensures same { IfOk result (λ all. IsPermutation (map (frequency_of (counts_in tally.now)) (filter (is_counted 0 (counts_in tally.now)) tally.now.values)) all.items) }
    ensures sorted { IfOk result (λ all. IsSorted frequency_cmp all.items) }
    ensures few { IfOk result (λ all. length all.items < 2 ^ 32) }
    ensures distinct { IsDistinct (pointwise nat_eq) tally.now.values }
{
    let mut all = counted(alloc, tally, 0)?;
    all.sort_unstable();
    Ok(all)
}

/// Appends the frequency list of the values of an attribute so far from the begin of each span: the number of its lines, and a line for each value, the most
/// frequent first. A place outside the text counts for nothing. `live` has for each segment the ascending numbers of its live texts, and spans are numbered among
/// the live texts of all segments. Spans in ascending order are counted by one pass over `live`. Without memory nothing changes.
pub fn frequency(
    alloc: Global,
    segments: &List<Segment>,
    live: &List<List<u32>>,
    spans: &[Span],
    attr: u16,
    distance: i32,
    out: &mut List<u8>,
) -> Result<(), NoMemory>
    requires lie { LieInSome segments.now live.now spans.now }
    requires attr { All (λ tables. attr < length tables.attrs) segments.now }
    requires few { length spans.now < 2 ^ 32 }
    ensures ok { (images : Images) (registry : registries.Registry) (groups : Items Group) → StandFor images registry groups segments.now live.now
        → OnOk result ((lines : Items (Items ℕ)) × FrequencyText images registry (corpus_of groups) spans.now attr distance lines × (out.new ≡ out.old ++ flat_map closed lines)) }
    ensures err { OnErr result (out.new ≡ out.old) }
{
    let mut tally = Tally::new(alloc);
    count_begins(alloc, segments, live, spans, attr, distance, &mut tally)?;
    let all = ranked(alloc, &tally)?;
    put_list(all.as_slice(), out)
}
