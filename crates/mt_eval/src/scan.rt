//! The rows of a sequence of tests of tokens in a short text, which are looked for at each of its tokens.

ghost use Rattle.std.specs.Prelude.{◌≡◌, ◌<◌, ◌≤◌, length, OnOk, IsErrOf};
ghost use Rattle.mt_cql.specs.Shape.{shape};
ghost use Rattle.mt_text_spec.specs.Texts as spec;
ghost use Rattle.mt_segment_spec.specs.Tables.{token_count};
ghost use Rattle.mt_eval_spec.specs.Told.{told};
ghost use Rattle.mt_automaton.specs.RowsFrom.{IsRowOfText, HasLonger};
ghost use Rattle.mt_rows.specs.Appends.{Appends};
ghost use Rattle.mt_eval.specs.Sequences.{AreTestsOf, IsRowAt};

use super::every::{add_tokens, is_any_alone, is_unlabelled};
use super::looks::says;
use super::sequence::{Sequence, add_at};
use mt_base::Steps;
use mt_rows::{EvalError, Rows};
use mt_segment::Segment;
use std::sync::ledger::Ledger;

/// Adds the row of a text, where there is one, whose token at a place of the segment is put to the test that the sequence is looked for by.
fn look_at<L: Ledger>(
    sequence: &Sequence<'_>,
    segment: &Segment,
    text: u32,
    place: u32,
    room: u32,
    steps: &mut Steps<L>,
    out: &mut Rows,
) -> Result<(), EvalError>
    requires text { text < length segment.now.texts }
    requires place { place < token_count segment.now }
    requires tests { AreTestsOf segment.now (shape sequence.now.expr.now) sequence.now.tests.now }
    requires by { sequence.now.by < length sequence.now.tests.now }
    ensures ok { OnOk result (Appends (IsRowAt segment.now (shape sequence.now.expr.now) text sequence.now.by place) room out.old out.new) }
    ensures more { IsErrOf result EvalError.TooManyRows → (room ≡ 0) × (row : spec.Row) × IsRowAt segment.now (shape sequence.now.expr.now) text sequence.now.by place row }
    ensures rises { steps.old ≤ steps.new }
{
    if !says(&sequence.tests[sequence.by], segment, place, steps) {
        return Ok(());
    }
    add_at(sequence, segment, text, place, room, steps, out)
}

/// Adds the rows of a sequence in a text. Each of the text's tokens is put to the test that the sequence is looked for by.
fn scan_tokens<L: Ledger>(
    sequence: &Sequence<'_>,
    segment: &Segment,
    text: u32,
    room: u32,
    steps: &mut Steps<L>,
    out: &mut Rows,
) -> Result<(), EvalError>
    requires text { text < length segment.now.texts }
    requires tests { AreTestsOf segment.now (shape sequence.now.expr.now) sequence.now.tests.now }
    requires by { sequence.now.by < length sequence.now.tests.now }
    ensures ok { OnOk result (Appends (IsRowOfText (told segment.now text) (shape sequence.now.expr.now) text) room out.old out.new) }
    ensures more { IsErrOf result EvalError.TooManyRows → HasLonger (IsRowOfText (told segment.now text) (shape sequence.now.expr.now) text) room }
    ensures rises { steps.old ≤ steps.new }
{
    let _tokens = segment.tokens();
    let (first, end) = segment.text_bounds(text);
    let before_all = out.len();
    for place in first..end {
        let left = room - (out.len() - before_all) as u32;
        look_at(sequence, segment, text, place, left, steps, out)?;
    }
    Ok(())
}

/// Adds the rows of a sequence in a text. Each of the text's tokens is looked at, unless the sequence is a test alone that holds of every one.
pub(crate) fn scan_text<L: Ledger>(
    sequence: &Sequence<'_>,
    segment: &Segment,
    text: u32,
    room: u32,
    steps: &mut Steps<L>,
    out: &mut Rows,
) -> Result<(), EvalError>
    requires text { text < length segment.now.texts }
    requires tests { AreTestsOf segment.now (shape sequence.now.expr.now) sequence.now.tests.now }
    requires by { sequence.now.by < length sequence.now.tests.now }
    ensures ok { OnOk result (Appends (IsRowOfText (told segment.now text) (shape sequence.now.expr.now) text) room out.old out.new) }
    ensures more { IsErrOf result EvalError.TooManyRows → HasLonger (IsRowOfText (told segment.now text) (shape sequence.now.expr.now) text) room }
    ensures rises { steps.old ≤ steps.new }
{
    if is_any_alone(sequence.tests) && is_unlabelled(sequence.expr) {
        return add_tokens(sequence, segment, text, room, out);
    }
    scan_tokens(sequence, segment, text, room, steps, out)
}
