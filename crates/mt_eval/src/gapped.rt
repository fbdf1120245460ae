//! The rows of tests of tokens with one gap among them in short texts, which are looked for at each token.

ghost use Rattle.std.specs.Prelude.{◌≡◌, ◌+◌, ◌<◌, ◌≤◌, [], length, IfOk, OnOk, IsErrOf};
ghost use Rattle.mt_cql.specs.Shape.{shape};
ghost use Rattle.mt_text_spec.specs.Texts as spec;
ghost use Rattle.mt_segment_spec.specs.Tables.{first_place, token_count};
ghost use Rattle.mt_eval_spec.specs.Told.{IsFor, told};
ghost use Rattle.mt_eval_spec.specs.RowsIn.{PassesRoom, RowsIn, expr_at, heads};
ghost use Rattle.mt_automaton.specs.RowsFrom.{IsRowFrom, IsRowOfText, HasLonger};
ghost use Rattle.mt_rows.specs.Appends.{Appends};
ghost use Rattle.mt_prepare.specs.TestRows.{HasAttrs};
ghost use Rattle.mt_eval.specs.Runs.{AreTexts};
ghost use Rattle.mt_eval.specs.Gapped.{AreMet, AreTestsAround, IsMetOver, IsReach, IsRowLong};

use super::finding::Asked;
use super::gap::{Gapped, row_with};
use super::looks::{say_from, says};
use mt_base::Steps;
use mt_eval_laws::{have_rows_in, no_more_than_all};
use mt_prepare::Resolved;
use mt_rows::{EvalError, Rows};
use mt_segment::Segment;
use std::sync::ledger::Ledger;

/// Adds the row that begins at a place of a text and has so many tokens in its gap, where there is one. The tests before the gap and that of the gap are met.
fn add_over<L: Ledger>(
    gapped: &Gapped<'_>,
    segment: &Segment,
    text: u32,
    begin: u32,
    turns: u32,
    room: u32,
    steps: &mut Steps<L>,
    out: &mut Rows,
) -> Result<(), EvalError>
    requires text { text < length segment.now.texts }
    requires tests { AreTestsAround segment.now (shape gapped.now.expr.now) gapped.now.before.now gapped.now.gap.now gapped.now.after.now gapped.now.least gapped.now.most }
    requires before { AreMet segment.now text gapped.now.before.now begin }
    requires gap { IsMetOver segment.now text gapped.now.gap.now (begin + length gapped.now.before.now) turns }
    requires low { gapped.now.least ≤ turns }
    requires high { turns ≤ gapped.now.most }
    ensures ok { OnOk result (Appends (IsRowLong segment.now (shape gapped.now.expr.now) text begin (length gapped.now.before.now + turns + length gapped.now.after.now)) room out.old out.new) }
    ensures more { IsErrOf result EvalError.TooManyRows → (room ≡ 0) × (row : spec.Row) × IsRowLong segment.now (shape gapped.now.expr.now) text begin (length gapped.now.before.now + turns + length gapped.now.after.now) row }
    ensures rises { steps.old ≤ steps.new }
{
    let _tokens = segment.tokens();
    let (first, end) = segment.text_bounds(text);
    let many = gapped.after.len();
    let place = first + begin + gapped.before.len() as u32 + turns;
    if ((end - place) as usize) < many {
        return Ok(());
    }
    if place as usize + many == (first + begin) as usize {
        return Ok(());
    }
    if !say_from(gapped.after, 0, many, segment, place, steps) {
        return Ok(());
    }
    if room == 0 {
        return Err(EvalError::TooManyRows);
    }
    out.push(row_with(gapped.expr, turns, text, begin))?;
    Ok(())
}

/// Adds the rows that begin at a place of a text, of which the gap may have so many tokens at most. The tests before the gap are met.
fn add_turns<L: Ledger>(
    gapped: &Gapped<'_>,
    segment: &Segment,
    text: u32,
    begin: u32,
    reach: u32,
    room: u32,
    steps: &mut Steps<L>,
    out: &mut Rows,
) -> Result<(), EvalError>
    requires text { text < length segment.now.texts }
    requires tests { AreTestsAround segment.now (shape gapped.now.expr.now) gapped.now.before.now gapped.now.gap.now gapped.now.after.now gapped.now.least gapped.now.most }
    requires before { AreMet segment.now text gapped.now.before.now begin }
    requires reach { IsReach segment.now text gapped.now.gap.now (begin + length gapped.now.before.now) gapped.now.most reach }
    requires few { reach < 4294967295 }
    ensures ok { OnOk result (Appends (IsRowFrom (told segment.now text) (shape gapped.now.expr.now) text begin) room out.old out.new) }
    ensures more { IsErrOf result EvalError.TooManyRows → HasLonger (IsRowFrom (told segment.now text) (shape gapped.now.expr.now) text begin) room }
    ensures rises { steps.old ≤ steps.new }
{
    let before_all = out.len();
    for turns in gapped.least..reach + 1 {
        let left = room - (out.len() - before_all) as u32;
        add_over(gapped, segment, text, begin, turns, left, steps, out)?;
    }
    Ok(())
}

/// Of how many tokens from a place of a text on a test says so, one after another, or so many at most.
fn reach_of<L: Ledger>(
    test: &Resolved,
    segment: &Segment,
    text: u32,
    begin: u32,
    most: u32,
    steps: &mut Steps<L>,
) -> u32
    requires text { text < length segment.now.texts }
    requires attrs { HasAttrs segment.now test.now }
    requires inside { first_place segment.now text + begin ≤ first_place segment.now (text + 1) }
    ensures reach { IsReach segment.now text test.now begin most result }
    ensures rises { steps.old ≤ steps.new }
{
    let _tokens = segment.tokens();
    let (first, end) = segment.text_bounds(text);
    let place = first + begin;
    for turns in 0..most {
        if turns >= end - place || !says(test, segment, place + turns, steps) {
            return turns;
        }
    }
    most
}

/// Adds the rows that begin at a place of a text, whose tokens stand in the segment from `first` on, before `end`.
fn add_from<L: Ledger>(
    gapped: &Gapped<'_>,
    segment: &Segment,
    text: u32,
    first: u32,
    end: u32,
    begin: u32,
    room: u32,
    steps: &mut Steps<L>,
    out: &mut Rows,
) -> Result<(), EvalError>
    requires text { text < length segment.now.texts }
    requires tests { AreTestsAround segment.now (shape gapped.now.expr.now) gapped.now.before.now gapped.now.gap.now gapped.now.after.now gapped.now.least gapped.now.most }
    requires few { gapped.now.most < 4294967295 }
    requires first { first ≡ first_place segment.now text }
    requires end { end ≡ first_place segment.now (text + 1) }
    requires within { end ≤ token_count segment.now }
    requires inside { first_place segment.now text + begin ≤ first_place segment.now (text + 1) }
    ensures ok { OnOk result (Appends (IsRowFrom (told segment.now text) (shape gapped.now.expr.now) text begin) room out.old out.new) }
    ensures more { IsErrOf result EvalError.TooManyRows → HasLonger (IsRowFrom (told segment.now text) (shape gapped.now.expr.now) text begin) room }
    ensures rises { steps.old ≤ steps.new }
{
    let _tokens = segment.tokens();
    let many = gapped.before.len();
    if ((end - (first + begin)) as usize) < many {
        return Ok(());
    }
    if !say_from(gapped.before, 0, many, segment, first + begin, steps) {
        return Ok(());
    }
    let behind = begin + many as u32;
    let reach = reach_of(gapped.gap, segment, text, behind, gapped.most, steps);
    add_turns(gapped, segment, text, begin, reach, room, steps, out)
}

/// Adds the rows of a text. Each of its tokens is looked at.
fn scan_gapped<L: Ledger>(
    gapped: &Gapped<'_>,
    segment: &Segment,
    text: u32,
    room: u32,
    steps: &mut Steps<L>,
    out: &mut Rows,
) -> Result<(), EvalError>
    requires text { text < length segment.now.texts }
    requires tests { AreTestsAround segment.now (shape gapped.now.expr.now) gapped.now.before.now gapped.now.gap.now gapped.now.after.now gapped.now.least gapped.now.most }
    requires few { gapped.now.most < 4294967295 }
    ensures ok { OnOk result (Appends (IsRowOfText (told segment.now text) (shape gapped.now.expr.now) text) room out.old out.new) }
    ensures more { IsErrOf result EvalError.TooManyRows → HasLonger (IsRowOfText (told segment.now text) (shape gapped.now.expr.now) text) room }
    ensures rises { steps.old ≤ steps.new }
{
    let (first, end) = segment.text_bounds(text);
    let before_all = out.len();
    for begin in 0..end - first {
        let left = room - (out.len() - before_all) as u32;
        add_from(gapped, segment, text, first, end, begin, left, steps, out)?;
    }
    Ok(())
}

/// The rows of tests of tokens with one gap among them in the texts. Each of their tokens is looked at.
pub(crate) fn rows_by_gap<L: Ledger>(
    asked: &Asked<'_>,
    gapped: &Gapped<'_>,
    room: u32,
    steps: &mut Steps<L>,
    mut out: Rows,
) -> Result<Rows, EvalError>
    requires query { IsFor asked.now.segment.now asked.now.query.now }
    requires texts { AreTexts asked.now.segment.now asked.now.texts.now }
    requires valid { (number : _) × (number < length (heads asked.now.query.now)) × (expr_at (heads asked.now.query.now) number ≡ shape gapped.now.expr.now) }
    requires tests { AreTestsAround asked.now.segment.now (shape gapped.now.expr.now) gapped.now.before.now gapped.now.gap.now gapped.now.after.now gapped.now.least gapped.now.most }
    requires few { gapped.now.most < 4294967295 }
    requires none { out ≡ [] }
    ensures rows { IfOk result (λ rows. RowsIn asked.now.segment.now asked.now.texts.now (shape gapped.now.expr.now) rows) }
    ensures room { IfOk result (λ rows. length rows ≤ room) }
    ensures too_many { IsErrOf result EvalError.TooManyRows → PassesRoom asked.now.segment.now asked.now.texts.now (shape gapped.now.expr.now) room }
    ensures rises { steps.old ≤ steps.new }
{
    have_rows_in();
    no_more_than_all();
    for text in asked.texts {
        let left = room - out.len() as u32;
        scan_gapped(gapped, asked.segment, *text, left, steps, &mut out)?;
    }
    Ok(out)
}
