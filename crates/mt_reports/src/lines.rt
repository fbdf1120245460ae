//! The lines of a concordance.

ghost use Rattle.std.specs.Prelude.{◌≡◌, ℕ, ◌+◌, ◌^◌, ◌<◌, ◌≤◌, List as Items, [], ◌∷◌, ◌++◌, length, map, take, OnOk, OnErr};
ghost use Rattle.std.specs.List.{flat_map};
ghost use Rattle.mt_text_spec.specs.Lines.{closed};
ghost use Rattle.mt_text_spec.specs.Registries as registries;
ghost use Rattle.mt_text_spec.specs.Registries.{ValidRegistry};
ghost use Rattle.mt_text_spec.specs.Texts as texts;
ghost use Rattle.mt_match_spec.specs.Values.{Images};
ghost use Rattle.mt_segment_spec.specs.Tables.{AreTablesOf, first_place, token_count};
ghost use Rattle.mt_corpus_spec.specs.Groups.{Group, corpus_of};
ghost use Rattle.mt_report_spec.specs.Held.{LieInSome, StandFor};
ghost use Rattle.mt_report_spec.specs.Lines as spec;
ghost use Rattle.mt_report_spec.specs.Lines.{query_line, shown_attr, text_at, values_text};
ghost use Rattle.mt_reports.specs.Told.{told_line, told_tokens, told_value};

use super::cursor::{first, seek};
use super::numbers::number_of;
use super::written::put_number;
use mt_base::{List, NoMemory, Span};
use mt_segment::Segment;
use mt_segment_laws::{numbers_stand_for_values, tokens_stand_in_texts};

/// So many tokens are shown on either side of a span.
const CONTEXT_TOKENS: u32 = 5;

/// The value of the first attribute at a place of a segment.
fn shown_value(segment: &Segment, place: u32) -> &str
    requires { place < token_count segment.now }
    ensures { result.now ≡ told_value segment.now shown_attr place }
{
    segment.texts();
    segment.lexicon(0).value(number_of(segment, 0, place))
}

/// Appends a byte and the value at a place of a segment. Without memory the byte may be there.
fn put_value(mark: u8, segment: &Segment, place: u32, out: &mut List<u8>) -> Result<(), NoMemory>
    requires { place < token_count segment.now }
    ensures ok { OnOk result (out.new ≡ out.old ++ mark ∷ told_value segment.now shown_attr place) }
    ensures err { OnErr result (take (length out.old) out.new ≡ out.old) }
{
    out.push(mark)?;
    out.extend(shown_value(segment, place).as_bytes())
}

/// Appends a tab, and the values at the places from one on and before another of the text that begins at `first`, a space between each two. Without memory
/// a part of it may be there.
fn put_values(
    segment: &Segment,
    first: u32,
    from: u32,
    to: u32,
    out: &mut List<u8>,
) -> Result<(), NoMemory>
    requires order { from ≤ to }
    requires within { first + to ≤ token_count segment.now }
    requires fits { first + to < 2 ^ 32 }
    ensures ok { OnOk result (out.new ≡ out.old ++ 9 ∷ values_text (λ place. told_value segment.now shown_attr (first + place)) from to) }
    ensures err { OnErr result (take (length out.old) out.new ≡ out.old) }
{
    if from == to {
        return out.push(b'\t');
    }
    put_value(b'\t', segment, first + from, out)?;
    for place in from + 1..to {
        put_value(b' ', segment, first + place, out)?;
    }
    Ok(())
}

/// The place of a text's first token in the segment, and how many tokens the text has.
fn bounds(segment: &Segment, text: u32) -> (u32, u32)
    requires { text < length segment.now.texts }
    ensures first { result.0 ≡ first_place segment.now text }
    ensures tokens { result.1 ≡ told_tokens segment.now text }
    ensures within { result.0 + result.1 ≤ token_count segment.now }
    ensures fits { result.0 + result.1 < 2 ^ 32 }
{
    let (first, behind) = segment.text_bounds(text);
    (first, behind - first)
}

/// Appends a line as the tables tell it, with its line feed. Without memory a part of it may be there.
fn put_line(
    segment: &Segment,
    text: u32,
    begin: u32,
    end: u32,
    out: &mut List<u8>,
) -> Result<(), NoMemory>
    requires text { text < length segment.now.texts }
    requires order { begin ≤ end }
    requires inside { end ≤ told_tokens segment.now text }
    ensures ok { OnOk result (out.new ≡ out.old ++ closed (told_line segment.now text begin end)) }
    ensures err { OnErr result (take (length out.old) out.new ≡ out.old) }
{
    let (first, tokens) = bounds(segment, text);
    let before = begin.saturating_sub(CONTEXT_TOKENS);
    let behind = end + (tokens - end).min(CONTEXT_TOKENS);
    out.extend(segment.text_name(text).as_bytes())?;
    put_number(b':', begin, out)?;
    put_number(b':', end - begin, out)?;
    put_values(segment, first, before, begin, out)?;
    put_values(segment, first, begin, end, out)?;
    put_values(segment, first, end, behind, out)?;
    out.push(b'\n')
}

/// Appends the line of the tokens of a text from the place `begin` on and before `end`, with its line feed. The text is told by its number in the segment,
/// removed ones counted. Without memory nothing changes.
pub fn text_line(
    segment: &Segment,
    text: u32,
    begin: u32,
    end: u32,
    out: &mut List<u8>,
) -> Result<(), NoMemory>
    requires text { text < length segment.now.texts }
    requires order { begin ≤ end }
    requires inside { end ≤ told_tokens segment.now text }
    ensures ok { (images : Images) (registry : registries.Registry) (corpus : Items texts.Text) → ValidRegistry registry → AreTablesOf images registry corpus segment.now
        → OnOk result (out.new ≡ out.old ++ closed (spec.text_line images registry (text_at corpus text) begin end)) }
    ensures err { OnErr result (out.new ≡ out.old) }
{
    numbers_stand_for_values();
    tokens_stand_in_texts();
    let kept = out.len();
    match put_line(segment, text, begin, end, out) {
        Ok(()) => Ok(()),
        Err(NoMemory) => {
            out.truncate(kept);
            Err(NoMemory)
        }
    }
}

/// Appends the lines of spans. Without memory a part of them may be there.
fn put_lines(
    segments: &List<Segment>,
    live: &List<List<u32>>,
    spans: &[Span],
    out: &mut List<u8>,
) -> Result<(), NoMemory>
    requires { LieInSome segments.now live.now spans.now }
    ensures ok { (images : Images) (registry : registries.Registry) (groups : Items Group) → StandFor images registry groups segments.now live.now
        → OnOk result (out.new ≡ out.old ++ flat_map closed (map (query_line images registry (corpus_of groups)) spans.now)) }
    ensures err { OnErr result (take (length out.old) out.new ≡ out.old) }
{
    numbers_stand_for_values();
    tokens_stand_in_texts();
    let mut at = first();
    for span in spans {
        at = seek(live.as_slice(), at, span.text());
        let text = *live.get(at.segment).get((span.text() - at.before) as usize);
        put_line(
            segments.get(at.segment),
            text,
            span.begin(),
            span.end(),
            out,
        )?;
    }
    Ok(())
}

/// Appends the line of each span, with its line feed. `live` has for each segment the ascending numbers of its live texts, and spans are numbered among the live
/// texts of all segments. Spans in ascending order are found by one pass over `live`. Without memory nothing changes.
pub fn kwic_lines(
    segments: &List<Segment>,
    live: &List<List<u32>>,
    spans: &[Span],
    out: &mut List<u8>,
) -> Result<(), NoMemory>
    requires { LieInSome segments.now live.now spans.now }
    ensures ok { (images : Images) (registry : registries.Registry) (groups : Items Group) → StandFor images registry groups segments.now live.now
        → OnOk result (out.new ≡ out.old ++ flat_map closed (map (query_line images registry (corpus_of groups)) spans.now)) }
    ensures err { OnErr result (out.new ≡ out.old) }
{
    let kept = out.len();
    match put_lines(segments, live, spans, out) {
        Ok(()) => Ok(()),
        Err(NoMemory) => {
            out.truncate(kept);
            Err(NoMemory)
        }
    }
}

/// Appends the line of a span, with its line feed, as `kwic_lines` does. Without memory nothing changes.
pub fn kwic_line(
    segments: &List<Segment>,
    live: &List<List<u32>>,
    span: &Span,
    out: &mut List<u8>,
) -> Result<(), NoMemory>
    requires { LieInSome segments.now live.now (span.now ∷ []) }
    ensures ok { (images : Images) (registry : registries.Registry) (groups : Items Group) → StandFor images registry groups segments.now live.now
        → OnOk result (out.new ≡ out.old ++ closed (query_line images registry (corpus_of groups) span.now)) }
    ensures err { OnErr result (out.new ≡ out.old) }
{
    kwic_lines(segments, live, &[*span], out)
}
