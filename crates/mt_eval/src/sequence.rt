//! The rows of a sequence of tests of tokens, which are looked for at the positions of one of its values.

ghost use Rattle.std.specs.Prelude.{◌≡◌, ℕ, List as Items, [], ◌∷◌, ◌++◌, ◌+◌, ◌-◌, ◌<◌, ◌≤◌, length, OnOk, IsErrOf, IsTrue, IfSome, IfNone};
ghost use Rattle.std.specs.Bool.{Decides};
ghost use Rattle.std.specs.List.{All};
ghost use Rattle.mt_query_spec.specs.Contents.{token_tests};
ghost use Rattle.mt_cql.specs.Shape.{shape};
ghost use Rattle.mt_text_spec.specs.Texts as spec;
ghost use Rattle.mt_match_spec.specs.Labels.{labelled, united};
ghost use Rattle.mt_segment_spec.specs.Tables.{first_place, token_count};
ghost use Rattle.mt_eval_spec.specs.Told.{told};
ghost use Rattle.mt_automaton.specs.RowsFrom.{IsRowOfText, HasLonger};
ghost use Rattle.mt_rows.specs.Appends.{Appends};
ghost use Rattle.mt_prepare.specs.TestRows.{HasAttrs, SaysAt};
ghost use Rattle.mt_eval.specs.Sequences.{AreTestsOf, BeginsAt, IsOne, IsRowAt, IsSequence, labels_from, positions_of, row_from, test_at};
ghost use Rattle.mt_eval.specs.Unlabelled.{SetsNone};
ghost use Rattle.mt_eval.specs.Walks.{IsLeft, due, left_of};

use super::looks::say_between;
use super::walk::{Walk, before, pass};
use mt_base::{NoMemory, Row, Span, Steps};
use mt_cql::Expr;
use mt_eval_laws::places_are_listed;
use mt_prepare::Resolved;
use mt_rows::{EvalError, Rows};
use mt_segment::Segment;
use mt_segment_laws::tables_are_whole;
use std::sync::ledger::Ledger;

/// Whether an expression is one test of a token after another.
pub(crate) fn is_sequence(expr: &Expr) -> bool
    ensures { Decides result (IsSequence (shape expr.now)) }
{
    match expr {
        Expr::Token { label: _, test: _ } => true,
        Expr::Begin { kind: _, test: _ } => false,
        Expr::End { kind: _ } => false,
        Expr::Whole { kind: _, test: _ } => false,
        Expr::Seq(left, right) => is_sequence(left) && is_sequence(right),
        Expr::Choice(_, _) => false,
        Expr::Repeat {
            inner: _,
            least: _,
            most: _,
        } => false,
    }
}

/// Whether a sequence sets no label, wherever it begins.
#[tactic(auto, using(crate::proofs::Bare::one_none, crate::proofs::Bare::both_none))]
pub(crate) fn sets_none(expr: &Expr) -> bool
    ensures { IsTrue result → SetsNone (shape expr.now) }
{
    match expr {
        Expr::Token { label, test: _ } => *label == 0,
        Expr::Begin { kind: _, test: _ } => false,
        Expr::End { kind: _ } => false,
        Expr::Whole { kind: _, test: _ } => false,
        Expr::Seq(left, right) => sets_none(left) && sets_none(right),
        Expr::Choice(_, _) => false,
        Expr::Repeat {
            inner: _,
            least: _,
            most: _,
        } => false,
    }
}

/// A label set to a place, if it is not set yet; 0 is none.
pub(crate) fn with_label(labels: [u32; 9], label: u8, place: u32) -> [u32; 9]
    ensures { result ≡ united labels (labelled label place) }
{
    let mut more = labels;
    let at = label as usize;
    if at > 0 && at <= 9 && more[at - 1] == Row::UNSET {
        more[at - 1] = place;
    }
    more
}

/// The labels with those of a sequence that begins at a place. The place moves behind the sequence.
fn with_labels(expr: &Expr, at: &mut u32, labels: [u32; 9]) -> [u32; 9]
    requires is { IsSequence (shape expr.now) }
    requires few { at.old + length (token_tests (shape expr.now)) < 4294967296 }
    ensures end { at.new ≡ at.old + length (token_tests (shape expr.now)) }
    ensures labels { result ≡ united labels (labels_from (shape expr.now) at.old) }
{
    match expr {
        Expr::Token { label, test: _ } => {
            let place = *at;
            *at = place + 1;
            with_label(labels, *label, place)
        }
        Expr::Seq(left, right) => {
            let some = with_labels(left, at, labels);
            with_labels(right, at, some)
        }
        Expr::Begin { kind: _, test: _ } => labels,
        Expr::End { kind: _ } => labels,
        Expr::Whole { kind: _, test: _ } => labels,
        Expr::Choice(_, _) => labels,
        Expr::Repeat {
            inner: _,
            least: _,
            most: _,
        } => labels,
    }
}

/// A sequence of tests of tokens: its tests, resolved, and the number of the one that it is looked for by.
#[derive(Clone, Copy, Drop)]
pub(crate) struct Sequence<'a> {
    pub(crate) expr: &'a Expr,
    pub(crate) tests: &'a [Resolved],
    pub(crate) by: usize,
}

/// The row of a sequence that begins at a place of a text.
fn row_at(sequence: &Sequence<'_>, text: u32, begin: u32) -> Row
    requires is { IsSequence (shape sequence.now.expr.now) }
    requires few { begin + length (token_tests (shape sequence.now.expr.now)) < 4294967296 }
    ensures { result ≡ row_from (shape sequence.now.expr.now) text begin }
{
    let mut end = begin;
    let labels = with_labels(sequence.expr, &mut end, [Row::UNSET; 9]);
    Row::new(Span::new(text, begin, end), labels)
}

/// Adds the row of a sequence that begins at a place of a text. A sequence that is bare sets no label.
fn push_row(
    sequence: &Sequence<'_>,
    bare: bool,
    text: u32,
    begin: u32,
    out: &mut Rows,
) -> Result<(), NoMemory>
    requires is { IsSequence (shape sequence.now.expr.now) }
    requires few { begin + length (token_tests (shape sequence.now.expr.now)) < 4294967296 }
    requires long { length sequence.now.tests.now ≡ length (token_tests (shape sequence.now.expr.now)) }
    requires bare { IsTrue bare → SetsNone (shape sequence.now.expr.now) }
    ensures { OnOk result (out.new ≡ out.old ++ row_from (shape sequence.now.expr.now) text begin ∷ []) }
{
    if bare {
        let end = begin + sequence.tests.len() as u32;
        return out.push_unlabelled(Span::new(text, begin, end));
    }
    out.push(row_at(sequence, text, begin))
}

/// Where in a text the sequence begins whose test it is looked for by is met at a place of the segment. The text's tokens stand from `first` on, before `end`.
fn begin_at<L: Ledger>(
    sequence: &Sequence<'_>,
    segment: &Segment,
    first: u32,
    end: u32,
    place: u32,
    steps: &mut Steps<L>,
) -> Option<u32>
    requires tests { All (HasAttrs segment.now) sequence.now.tests.now }
    requires by { sequence.now.by < length sequence.now.tests.now }
    requires within { end ≤ token_count segment.now }
    requires meets { SaysAt segment.now (test_at sequence.now.tests.now sequence.now.by) place }
    ensures some { IfSome result (λ begin. BeginsAt segment.now sequence.now.tests.now sequence.now.by first end place begin) }
    ensures none { IfNone result ((begin : ℕ) → ¬ BeginsAt segment.now sequence.now.tests.now sequence.now.by first end place begin) }
    ensures rises { steps.old ≤ steps.new }
    ensures ones { All IsOne sequence.now.tests.now → steps.new + 1 ≤ steps.old + length sequence.now.tests.now }
{
    let by = sequence.by as u64;
    let len = sequence.tests.len() as u64;
    if place < first || u64::from(place - first) < by {
        return None;
    }
    let begin = place - by as u32;
    if end < begin || u64::from(end - begin) < len {
        return None;
    }
    if !say_between(sequence.tests, 0, sequence.by, segment, begin, steps) {
        return None;
    }
    if !say_between(
        sequence.tests,
        sequence.by + 1,
        sequence.tests.len(),
        segment,
        begin,
        steps,
    ) {
        return None;
    }
    Some(begin - first)
}

/// Adds the row of a text, whose tokens stand in the segment from `first` on, before `end`: where there is one, that whose token at a place of the segment meets the test that the sequence is
/// looked for by. A sequence that is bare sets no label.
fn add_between<L: Ledger>(
    sequence: &Sequence<'_>,
    bare: bool,
    segment: &Segment,
    text: u32,
    first: u32,
    end: u32,
    place: u32,
    room: u32,
    steps: &mut Steps<L>,
    out: &mut Rows,
) -> Result<(), EvalError>
    requires text { text < length segment.now.texts }
    requires first { first ≡ first_place segment.now text }
    requires end { end ≡ first_place segment.now (text + 1) }
    requires within { end ≤ token_count segment.now }
    requires tests { AreTestsOf segment.now (shape sequence.now.expr.now) sequence.now.tests.now }
    requires by { sequence.now.by < length sequence.now.tests.now }
    requires bare { IsTrue bare → SetsNone (shape sequence.now.expr.now) }
    requires meets { SaysAt segment.now (test_at sequence.now.tests.now sequence.now.by) place }
    ensures ok { OnOk result (Appends (IsRowAt segment.now (shape sequence.now.expr.now) text sequence.now.by place) room out.old out.new) }
    ensures more { IsErrOf result EvalError.TooManyRows → (room ≡ 0) × (row : spec.Row) × IsRowAt segment.now (shape sequence.now.expr.now) text sequence.now.by place row }
    ensures rises { steps.old ≤ steps.new }
    ensures ones { All IsOne sequence.now.tests.now → steps.new + 1 ≤ steps.old + length sequence.now.tests.now }
{
    match begin_at(sequence, segment, first, end, place, steps) {
        None => Ok(()),
        Some(begin) => {
            if room == 0 {
                return Err(EvalError::TooManyRows);
            }
            push_row(sequence, bare, text, begin, out)?;
            Ok(())
        }
    }
}

/// Adds the row of a text, where there is one, whose token at a place of the segment meets the test that the sequence is looked for by.
pub(crate) fn add_at<L: Ledger>(
    sequence: &Sequence<'_>,
    segment: &Segment,
    text: u32,
    place: u32,
    room: u32,
    steps: &mut Steps<L>,
    out: &mut Rows,
) -> Result<(), EvalError>
    requires text { text < length segment.now.texts }
    requires tests { AreTestsOf segment.now (shape sequence.now.expr.now) sequence.now.tests.now }
    requires by { sequence.now.by < length sequence.now.tests.now }
    requires meets { SaysAt segment.now (test_at sequence.now.tests.now sequence.now.by) place }
    ensures ok { OnOk result (Appends (IsRowAt segment.now (shape sequence.now.expr.now) text sequence.now.by place) room out.old out.new) }
    ensures more { IsErrOf result EvalError.TooManyRows → (room ≡ 0) × (row : spec.Row) × IsRowAt segment.now (shape sequence.now.expr.now) text sequence.now.by place row }
    ensures rises { steps.old ≤ steps.new }
    ensures ones { All IsOne sequence.now.tests.now → steps.new + 1 ≤ steps.old + length sequence.now.tests.now }
{
    let (first, end) = segment.text_bounds(text);
    let bare = sets_none(sequence.expr);
    add_between(
        sequence, bare, segment, text, first, end, place, room, steps, out,
    )
}

/// Passes the positions before a place.
fn skip_to<L: Ledger>(walk: &mut Walk<'_>, least: u32, steps: &mut Steps<L>)
    ensures left { (positions : Items ℕ) (bound : ℕ) → bound ≤ least → IsLeft positions bound (left_of walk.old.next walk.old.rest) → IsLeft positions least (left_of walk.new.next walk.new.rest) }
    ensures rises { steps.old ≤ steps.new }
    ensures due { (looks : ℕ) → steps.new + due looks walk.new.next walk.new.rest ≤ steps.old + due looks walk.old.next walk.old.rest }
{
    while let Some(_) = before(walk, least) {
        pass(walk, steps);
    }
}

/// Adds the rows of a sequence in a text, by the positions that are left. Those of the text are passed. A sequence that is bare sets no label.
pub(crate) fn add_rows<L: Ledger>(
    walk: &mut Walk<'_>,
    sequence: &Sequence<'_>,
    bare: bool,
    segment: &Segment,
    text: u32,
    room: u32,
    steps: &mut Steps<L>,
    out: &mut Rows,
) -> Result<(), EvalError>
    requires text { text < length segment.now.texts }
    requires tests { AreTestsOf segment.now (shape sequence.now.expr.now) sequence.now.tests.now }
    requires by { sequence.now.by < length sequence.now.tests.now }
    requires bare { IsTrue bare → SetsNone (shape sequence.now.expr.now) }
    requires left { (bound : ℕ) × (bound ≤ first_place segment.now text) × IsLeft (positions_of segment.now (test_at sequence.now.tests.now sequence.now.by)) bound (left_of walk.old.next walk.old.rest) }
    requires one { IsOne (test_at sequence.now.tests.now sequence.now.by) }
    ensures left { OnOk result (IsLeft (positions_of segment.now (test_at sequence.now.tests.now sequence.now.by)) (first_place segment.now (text + 1)) (left_of walk.new.next walk.new.rest)) }
    ensures ok { OnOk result (Appends (IsRowOfText (told segment.now text) (shape sequence.now.expr.now) text) room out.old out.new) }
    ensures more { IsErrOf result EvalError.TooManyRows → HasLonger (IsRowOfText (told segment.now text) (shape sequence.now.expr.now) text) room }
    ensures rises { steps.old ≤ steps.new }
    ensures due { OnOk result (All IsOne sequence.now.tests.now → steps.new + due (length sequence.now.tests.now - 1) walk.new.next walk.new.rest ≤ steps.old + due (length sequence.now.tests.now - 1) walk.old.next walk.old.rest) }
    ensures ones { All IsOne sequence.now.tests.now → steps.new ≤ steps.old + due (length sequence.now.tests.now - 1) walk.old.next walk.old.rest }
{
    places_are_listed();
    tables_are_whole();
    let _tokens = segment.tokens();
    let (first, end) = segment.text_bounds(text);
    skip_to(walk, first, steps);
    let before_all = out.len();
    while let Some(place) = before(walk, end) {
        let left = room - (out.len() - before_all) as u32;
        add_between(
            sequence, bare, segment, text, first, end, place, left, steps, out,
        )?;
        pass(walk, steps);
    }
    Ok(())
}
