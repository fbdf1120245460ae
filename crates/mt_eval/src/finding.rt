//! The rows of one expression of a query.

ghost use Rattle.std.specs.Prelude.{◌≡◌, ◌+◌, ◌-◌, ◌*◌, ◌<◌, ◌≤◌, [], length, IsTrue, IfOk, IfSome, OnOk, IsErrOf};
ghost use Rattle.std.specs.List.{All};
ghost use Rattle.mt_query_spec.specs.Contents.{token_tests};
ghost use Rattle.mt_cql.specs.Shape.{shape};
ghost use Rattle.mt_automaton.specs.Compiled.{IsOf};
ghost use Rattle.mt_automaton.specs.RowsFrom.{IsRowOfText, HasLonger};
ghost use Rattle.mt_prepare.specs.Prepared.{IsPrepared, IsReady};
ghost use Rattle.mt_prepare.specs.Sighted.{IsSighted};
ghost use Rattle.mt_prepare.specs.KnownRows.{AreKnownIn};
ghost use Rattle.mt_rows.specs.Appends.{Appends};
ghost use Rattle.mt_eval_spec.specs.Told.{IsFor, told};
ghost use Rattle.mt_eval_spec.specs.RowsIn.{PassesRoom, RowsIn, expr_at, heads};
ghost use Rattle.mt_eval_spec.specs.Literals.{AreEquals, AreFew};
ghost use Rattle.mt_eval.specs.Runs.{AreTexts};
ghost use Rattle.mt_eval.specs.Sequences.{AreTestsOf, IsOne, IsSequence, positions_of, test_at};
ghost use Rattle.mt_eval.specs.Gapped.{HasGap};
ghost use Rattle.mt_eval.specs.Walks.{IsLeft, due, left_of};

use super::every::is_any_alone;
use super::gap::{Gap, around, gap_of};
use super::gapped::rows_by_gap;
use super::rarest::{looked_by, positions};
use super::scan::scan_text;
use super::scratch::Scratch;
use super::sequence::{Sequence, add_rows, is_sequence, sets_none};
use super::spans::{is_tag, rows_by_spans};
use super::walk::Walk;
use mt_automaton::{Automaton, Pool, labels_stand};
use mt_base::Steps;
use mt_cql::{Expr, Query};
use mt_eval_laws::{have_rows_in, no_more_than_all, places_are_listed};
use mt_prepare::{KnownRows, Prepared, PreparedExpr, Resolved, Sighted};
use mt_rows::{EvalError, RowList, Rows};
use mt_segment::Segment;
use mt_segment_laws::tables_are_whole;
use mt_shapes::{Work, rows_of_text};
use std::alloc::Global;
use std::sync::ledger::Ledger;

/// The tokens of a segment that are looked at one after another, for which an automaton would be made at greater cost.
const FEW_TOKENS: u32 = 256;

/// How many tokens a gap may have that is looked for at each of so few tokens.
const SHORT_GAP: u32 = 3;

/// How many it may have where there is only a quarter of them.
const LONG_GAP: u32 = 15;

/// What is asked: a query that is ready for a segment, of some texts of it.
#[derive(Clone, Copy, Drop)]
pub(crate) struct Asked<'a> {
    pub(crate) query: &'a Query,
    pub(crate) prepared: &'a Prepared,
    pub(crate) segment: &'a Segment,
    pub(crate) texts: &'a [u32],
}

/// Adds the rows of an expression in one text.
fn add_text(
    work: &mut Work,
    segment: &Segment,
    expr: &Expr,
    ready: &PreparedExpr,
    automaton: &Automaton,
    sighted: &mut Sighted,
    text: u32,
    room: u32,
    out: &mut Rows,
) -> Result<(), EvalError>
    requires text { text < length segment.now.texts }
    requires ready { IsReady segment.now (shape expr.now) ready.now }
    requires automaton { IsOf (shape expr.now) automaton.now }
    requires sighted { IsSighted segment.now (shape expr.now) sighted.old }
    ensures sighted { IsSighted segment.now (shape expr.now) sighted.new }
    ensures ok { OnOk result (Appends (IsRowOfText (told segment.now text) (shape expr.now) text) room out.old out.new) }
    ensures more { IsErrOf result EvalError.TooManyRows → HasLonger (IsRowOfText (told segment.now text) (shape expr.now) text) room }
{
    sighted.enter(ready, segment, text)?;
    let view = sighted.view(expr, ready, segment, text);
    rows_of_text(work, &view, automaton, text, room, out)
}

/// The rows of an expression in the texts, one text after another.
fn rows_in_texts(
    alloc: Global,
    asked: &Asked<'_>,
    expr: &Expr,
    ready: &PreparedExpr,
    automaton: &Automaton,
    sighted: &mut Sighted,
    room: u32,
    mut out: Rows,
) -> Result<Rows, EvalError>
    requires query { IsFor asked.now.segment.now asked.now.query.now }
    requires texts { AreTexts asked.now.segment.now asked.now.texts.now }
    requires valid { (number : _) × (number < length (heads asked.now.query.now)) × (expr_at (heads asked.now.query.now) number ≡ shape expr.now) }
    requires ready { IsReady asked.now.segment.now (shape expr.now) ready.now }
    requires automaton { IsOf (shape expr.now) automaton.now }
    requires sighted { IsSighted asked.now.segment.now (shape expr.now) sighted.old }
    requires none { out ≡ [] }
    ensures rows { IfOk result (λ rows. RowsIn asked.now.segment.now asked.now.texts.now (shape expr.now) rows) }
    ensures room { IfOk result (λ rows. length rows ≤ room) }
    ensures too_many { IsErrOf result EvalError.TooManyRows → PassesRoom asked.now.segment.now asked.now.texts.now (shape expr.now) room }
{
    have_rows_in();
    no_more_than_all();
    let mut work = Work::new(alloc);
    for text in asked.texts {
        let left = room - out.len() as u32;
        add_text(
            &mut work,
            asked.segment,
            expr,
            ready,
            automaton,
            sighted,
            *text,
            left,
            &mut out,
        )?;
    }
    Ok(out)
}

/// The rows of an expression in the texts, by its automaton.
fn rows_by_automaton<L: Ledger>(
    alloc: Global,
    asked: &Asked<'_>,
    expr: &Expr,
    ready: &PreparedExpr,
    room: u32,
    known: &mut KnownRows,
    steps: &mut Steps<L>,
    out: Rows,
) -> Result<Rows, EvalError>
    requires query { IsFor asked.now.segment.now asked.now.query.now }
    requires texts { AreTexts asked.now.segment.now asked.now.texts.now }
    requires valid { (number : _) × (number < length (heads asked.now.query.now)) × (expr_at (heads asked.now.query.now) number ≡ shape expr.now) }
    requires ready { IsReady asked.now.segment.now (shape expr.now) ready.now }
    requires known { AreKnownIn asked.now.segment.now known.old }
    requires none { out ≡ [] }
    ensures known { AreKnownIn asked.now.segment.now known.new }
    ensures rows { IfOk result (λ rows. RowsIn asked.now.segment.now asked.now.texts.now (shape expr.now) rows) }
    ensures room { IfOk result (λ rows. length rows ≤ room) }
    ensures too_many { IsErrOf result EvalError.TooManyRows → PassesRoom asked.now.segment.now asked.now.texts.now (shape expr.now) room }
    ensures rises { steps.old ≤ steps.new }
{
    labels_stand();
    let automaton = Automaton::compile(alloc, expr)?;
    let mut pool = Pool::new(alloc);
    let mut sighted = Sighted::new(alloc, &mut pool, known, expr, ready, asked.segment, steps)?;
    rows_in_texts(
        alloc,
        asked,
        expr,
        ready,
        &automaton,
        &mut sighted,
        room,
        out,
    )
}

/// The rows of a sequence in the texts. Each of their tokens is looked at.
fn rows_by_scan<L: Ledger>(
    asked: &Asked<'_>,
    sequence: &Sequence<'_>,
    room: u32,
    steps: &mut Steps<L>,
    mut out: Rows,
) -> Result<Rows, EvalError>
    requires query { IsFor asked.now.segment.now asked.now.query.now }
    requires texts { AreTexts asked.now.segment.now asked.now.texts.now }
    requires valid { (number : _) × (number < length (heads asked.now.query.now)) × (expr_at (heads asked.now.query.now) number ≡ shape sequence.now.expr.now) }
    requires tests { AreTestsOf asked.now.segment.now (shape sequence.now.expr.now) sequence.now.tests.now }
    requires by { sequence.now.by < length sequence.now.tests.now }
    requires none { out ≡ [] }
    ensures rows { IfOk result (λ rows. RowsIn asked.now.segment.now asked.now.texts.now (shape sequence.now.expr.now) rows) }
    ensures room { IfOk result (λ rows. length rows ≤ room) }
    ensures too_many { IsErrOf result EvalError.TooManyRows → PassesRoom asked.now.segment.now asked.now.texts.now (shape sequence.now.expr.now) room }
    ensures rises { steps.old ≤ steps.new }
{
    have_rows_in();
    no_more_than_all();
    for text in asked.texts {
        let left = room - out.len() as u32;
        scan_text(sequence, asked.segment, *text, left, steps, &mut out)?;
    }
    Ok(out)
}

/// Whether the tokens of a segment are looked at one after another for an expression: it is one test of a token after another, and they are few, or it is one test that
/// holds of each of them.
fn is_scanned(segment: &Segment, expr: &Expr, tests: &[Resolved]) -> bool
    ensures { IsTrue result → IsSequence (shape expr.now) }
{
    (segment.tokens() <= FEW_TOKENS || is_any_alone(tests)) && is_sequence(expr)
}

/// How many tokens a gap may have that is looked for at each of so many tokens.
fn longest_gap(tokens: u32) -> u32
    ensures { result < 4294967295 }
{
    if tokens <= FEW_TOKENS / 4 {
        LONG_GAP
    } else {
        SHORT_GAP
    }
}

/// The gap of an expression whose rows are looked for at each token: it is tests of tokens with one gap among them, the tokens are few, and the gap is short.
fn short_gap(segment: &Segment, expr: &Expr, tests: &[Resolved]) -> Option<Gap>
    requires many { length tests.now ≡ length (token_tests (shape expr.now)) }
    ensures gap { IfSome result (λ gap. HasGap (shape expr.now) gap.before gap.least gap.most) }
    ensures few { IfSome result (λ gap. gap.most < 4294967295) }
{
    let tokens = segment.tokens();
    if tokens > FEW_TOKENS || tests.len() > FEW_TOKENS as usize {
        return None;
    }
    match gap_of(expr) {
        None => None,
        Some(gap) => {
            if gap.most <= longest_gap(tokens) {
                Some(gap)
            } else {
                None
            }
        }
    }
}

/// The rows of an expression in the texts, where no posting list is gone through.
fn rows_by_places<L: Ledger>(
    alloc: Global,
    asked: &Asked<'_>,
    expr: &Expr,
    ready: &PreparedExpr,
    room: u32,
    known: &mut KnownRows,
    steps: &mut Steps<L>,
    out: Rows,
) -> Result<Rows, EvalError>
    requires query { IsFor asked.now.segment.now asked.now.query.now }
    requires texts { AreTexts asked.now.segment.now asked.now.texts.now }
    requires valid { (number : _) × (number < length (heads asked.now.query.now)) × (expr_at (heads asked.now.query.now) number ≡ shape expr.now) }
    requires ready { IsReady asked.now.segment.now (shape expr.now) ready.now }
    requires known { AreKnownIn asked.now.segment.now known.old }
    requires none { out ≡ [] }
    ensures known { AreKnownIn asked.now.segment.now known.new }
    ensures rows { IfOk result (λ rows. RowsIn asked.now.segment.now asked.now.texts.now (shape expr.now) rows) }
    ensures room { IfOk result (λ rows. length rows ≤ room) }
    ensures too_many { IsErrOf result EvalError.TooManyRows → PassesRoom asked.now.segment.now asked.now.texts.now (shape expr.now) room }
    ensures rises { steps.old ≤ steps.new }
{
    if is_tag(expr) {
        return rows_by_spans(asked, expr, ready.tags.get(0).as_slice(), room, out);
    }
    let tests = ready.tests.as_slice();
    if is_scanned(asked.segment, expr, tests) {
        let sequence = Sequence { expr, tests, by: 0 };
        return rows_by_scan(asked, &sequence, room, steps, out);
    }
    match short_gap(asked.segment, expr, tests) {
        None => rows_by_automaton(alloc, asked, expr, ready, room, known, steps, out),
        Some(gap) => rows_by_gap(asked, &around(expr, tests, gap), room, steps, out),
    }
}

/// Whether the rows of an expression that is not looked for by a value are found by its automaton.
fn suits_automaton(segment: &Segment, expr: &Expr, tests: &[Resolved]) -> bool
    requires { length tests.now ≡ length (token_tests (shape expr.now)) }
{
    if is_tag(expr) || is_scanned(segment, expr, tests) {
        return false;
    }
    match short_gap(segment, expr, tests) {
        None => true,
        Some(_) => false,
    }
}

/// Whether the rows of the head of a query are found by its automaton: those of a sequence of `==` tests never are.
pub(crate) fn is_by_automaton(query: &Query, prepared: &Prepared, segment: &Segment) -> bool
    requires { IsPrepared segment.now query.now prepared.now }
    ensures { IsTrue result → ¬ AreEquals query.now.head }
{
    let expr = query.head();
    let ready = prepared.exprs.get(0);
    let tests = ready.tests.as_slice();
    match looked_by(segment, expr, tests) {
        None => suits_automaton(segment, expr, tests),
        Some(_) => false,
    }
}

/// Adds the rows of a sequence in the texts, by the positions that are left.
fn walked<L: Ledger>(
    asked: &Asked<'_>,
    sequence: &Sequence<'_>,
    mut walk: Walk<'_>,
    room: u32,
    steps: &mut Steps<L>,
    mut out: Rows,
) -> Result<Rows, EvalError>
    requires query { IsFor asked.now.segment.now asked.now.query.now }
    requires texts { AreTexts asked.now.segment.now asked.now.texts.now }
    requires valid { (number : _) × (number < length (heads asked.now.query.now)) × (expr_at (heads asked.now.query.now) number ≡ shape sequence.now.expr.now) }
    requires tests { AreTestsOf asked.now.segment.now (shape sequence.now.expr.now) sequence.now.tests.now }
    requires by { sequence.now.by < length sequence.now.tests.now }
    requires one { IsOne (test_at sequence.now.tests.now sequence.now.by) }
    requires left { IsLeft (positions_of asked.now.segment.now (test_at sequence.now.tests.now sequence.now.by)) 0 (left_of walk.next walk.rest) }
    requires none { out ≡ [] }
    ensures rows { IfOk result (λ rows. RowsIn asked.now.segment.now asked.now.texts.now (shape sequence.now.expr.now) rows) }
    ensures room { IfOk result (λ rows. length rows ≤ room) }
    ensures too_many { IsErrOf result EvalError.TooManyRows → PassesRoom asked.now.segment.now asked.now.texts.now (shape sequence.now.expr.now) room }
    ensures rises { steps.old ≤ steps.new }
    ensures ones { All IsOne sequence.now.tests.now → steps.new ≤ steps.old + due (length sequence.now.tests.now - 1) walk.entry.next walk.entry.rest }
{
    have_rows_in();
    no_more_than_all();
    let bare = sets_none(sequence.expr);
    for text in asked.texts {
        let left = room - out.len() as u32;
        add_rows(
            &mut walk,
            sequence,
            bare,
            asked.segment,
            *text,
            left,
            steps,
            &mut out,
        )?;
    }
    Ok(out)
}

/// The rows of a sequence in the texts, by the positions of the value of one of its tests.
fn rows_by_value<L: Ledger>(
    asked: &Asked<'_>,
    sequence: &Sequence<'_>,
    room: u32,
    steps: &mut Steps<L>,
    out: Rows,
) -> Result<Rows, EvalError>
    requires query { IsFor asked.now.segment.now asked.now.query.now }
    requires texts { AreTexts asked.now.segment.now asked.now.texts.now }
    requires valid { (number : _) × (number < length (heads asked.now.query.now)) × (expr_at (heads asked.now.query.now) number ≡ shape sequence.now.expr.now) }
    requires tests { AreTestsOf asked.now.segment.now (shape sequence.now.expr.now) sequence.now.tests.now }
    requires by { sequence.now.by < length sequence.now.tests.now }
    requires one { IsOne (test_at sequence.now.tests.now sequence.now.by) }
    requires none { out ≡ [] }
    ensures rows { IfOk result (λ rows. RowsIn asked.now.segment.now asked.now.texts.now (shape sequence.now.expr.now) rows) }
    ensures room { IfOk result (λ rows. length rows ≤ room) }
    ensures too_many { IsErrOf result EvalError.TooManyRows → PassesRoom asked.now.segment.now asked.now.texts.now (shape sequence.now.expr.now) room }
    ensures rises { steps.old ≤ steps.new }
    ensures ones { All IsOne sequence.now.tests.now
        → steps.new ≤ steps.old + length sequence.now.tests.now * length (positions_of asked.now.segment.now (test_at sequence.now.tests.now sequence.now.by)) }
{
    places_are_listed();
    tables_are_whole();
    let _valid = asked.segment.texts();
    match positions(asked.segment, &sequence.tests[sequence.by]) {
        None => Ok(out),
        Some(list) => {
            let walk = Walk::new(list, steps);
            walked(asked, sequence, walk, room, steps, out)
        }
    }
}

/// All rows of the expression with this number, the head or an operand, if there is room for them.
pub(crate) fn rows_of<L: Ledger>(
    alloc: Global,
    asked: &Asked<'_>,
    expr: &Expr,
    number: usize,
    room: u32,
    scratch: &mut Scratch,
    steps: &mut Steps<L>,
) -> Result<RowList, EvalError>
    requires query { IsFor asked.now.segment.now asked.now.query.now }
    requires prepared { IsPrepared asked.now.segment.now asked.now.query.now asked.now.prepared.now }
    requires texts { AreTexts asked.now.segment.now asked.now.texts.now }
    requires number { number < length (heads asked.now.query.now) }
    requires expr { expr_at (heads asked.now.query.now) number ≡ shape expr.now }
    requires known { AreKnownIn asked.now.segment.now scratch.old.known }
    ensures known { AreKnownIn asked.now.segment.now scratch.new.known }
    ensures rows { IfOk result (λ rows. RowsIn asked.now.segment.now asked.now.texts.now (expr_at (heads asked.now.query.now) number) rows) }
    ensures room { IfOk result (λ rows. length rows ≤ room) }
    ensures too_many { IsErrOf result EvalError.TooManyRows → PassesRoom asked.now.segment.now asked.now.texts.now (expr_at (heads asked.now.query.now) number) room }
    ensures rises { steps.old ≤ steps.new }
    ensures few { AreEquals (shape expr.now) → AreFew asked.now.segment.now (shape expr.now) (steps.new - steps.old) }
{
    places_are_listed();
    tables_are_whole();
    let _valid = asked.segment.texts();
    let ready = asked.prepared.exprs.get(number);
    let out = scratch.rows(alloc);
    let known = &mut scratch.known;
    match looked_by(asked.segment, expr, ready.tests.as_slice()) {
        None => {
            let rows = rows_by_places(alloc, asked, expr, ready, room, known, steps, out)?;
            Ok(RowList::new(rows))
        }
        Some(by) => {
            let sequence = Sequence {
                expr,
                tests: ready.tests.as_slice(),
                by,
            };
            let rows = rows_by_value(asked, &sequence, room, steps, out)?;
            Ok(RowList::new(rows))
        }
    }
}
