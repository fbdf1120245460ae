//! The rows of a tag alone, which are its spans.

ghost use Rattle.std.specs.Prelude.{◌≡◌, ◌<◌, ◌≤◌, [], length, Decides, IsTrue, IfOk, IfSome, IsErrOf};
ghost use Rattle.std.specs.List.{All, AllPairs, Contains};
ghost use Rattle.mt_text_spec.specs.Queries.{NoMore};
ghost use Rattle.mt_cql.specs.Shape.{shape, filters_shape};
ghost use Rattle.mt_prepare.specs.Prepared.{IsPrepared};
ghost use Rattle.mt_eval_spec.specs.Told.{IsFor};
ghost use Rattle.mt_eval_spec.specs.RowsIn.{PassesRoom, RowsIn, expr_at, heads};
ghost use Rattle.mt_eval.specs.Runs.{AreTexts};
ghost use Rattle.mt_eval.specs.Spans.{AreSpansOfRows, AreSpansOfTag, HasRow, IsTag};

use super::finding::Asked;
use mt_base::Span;
use mt_cql::{Expr, Filter, Filters};
use mt_eval_laws::{have_rows_in, no_more_than_all};
use mt_rows::{EvalError, Rows};
use mt_segment_laws::instances_lie_in_texts;

/// Whether an expression is a whole tag, and nothing else.
pub(crate) fn is_tag(expr: &Expr) -> bool
    ensures { Decides result (IsTag (shape expr.now)) }
{
    match expr {
        Expr::Token { label: _, test: _ } => false,
        Expr::Begin { kind: _, test: _ } => false,
        Expr::End { kind: _ } => false,
        Expr::Whole { kind: _, test: _ } => true,
        Expr::Seq(_, _) => false,
        Expr::Choice(_, _) => false,
        Expr::Repeat {
            inner: _,
            least: _,
            most: _,
        } => false,
    }
}

/// Whether a span has a token, and its text is among these.
fn has_row(texts: &[u32], span: Span) -> bool
    requires { AllPairs (λ text later. text < later) texts.now }
    ensures { Decides result (HasRow texts.now span) }
{
    span.begin() < span.end() && texts.binary_search(&span.text()).is_ok()
}

/// The rows of a tag in the texts, by its spans in the segment, one span after another.
pub(crate) fn rows_by_spans(
    asked: &Asked<'_>,
    expr: &Expr,
    spans: &[Span],
    room: u32,
    mut out: Rows,
) -> Result<Rows, EvalError>
    requires query { IsFor asked.now.segment.now asked.now.query.now }
    requires texts { AreTexts asked.now.segment.now asked.now.texts.now }
    requires valid { (number : _) × (number < length (heads asked.now.query.now)) × (expr_at (heads asked.now.query.now) number ≡ shape expr.now) }
    requires spans { AreSpansOfTag asked.now.segment.now (shape expr.now) spans.now }
    requires none { out ≡ [] }
    ensures rows { IfOk result (λ rows. RowsIn asked.now.segment.now asked.now.texts.now (shape expr.now) rows) }
    ensures room { IfOk result (λ rows. length rows ≤ room) }
    ensures too_many { IsErrOf result EvalError.TooManyRows → PassesRoom asked.now.segment.now asked.now.texts.now (shape expr.now) room }
{
    instances_lie_in_texts();
    have_rows_in();
    no_more_than_all();
    let _valid = asked.segment.texts();
    for span in spans {
        if has_row(asked.texts, *span) {
            if out.len() >= room as usize {
                return Err(EvalError::TooManyRows);
            }
            out.push_unlabelled(*span)?;
        }
    }
    Ok(out)
}

/// Whether a span has a token, and its text is among these. The text that was found last is not sought again.
fn has_next_row(texts: &[u32], last: &mut Option<u32>, span: Span) -> bool
    requires ascending { AllPairs (λ text later. text < later) texts.now }
    requires last { IfSome last.old (λ text. Contains texts.now text) }
    ensures last { IfSome last.new (λ text. Contains texts.now text) }
    ensures row { Decides result (HasRow texts.now span) }
{
    if let Some(text) = *last {
        if text == span.text() {
            return span.begin() < span.end();
        }
    }
    if !has_row(texts, span) {
        return false;
    }
    *last = Some(span.text());
    true
}

/// Whether each of these spans has a token, and its text is among these.
fn all_have_rows(texts: &[u32], spans: &[Span]) -> bool
    requires { AllPairs (λ text later. text < later) texts.now }
    ensures { Decides result (All (HasRow texts.now) spans.now) }
{
    let mut last = None;
    for span in spans {
        if !has_next_row(texts, &mut last, *span) {
            return false;
        }
    }
    true
}

/// Whether there is no filter.
fn is_end(filters: &Filters) -> bool
    ensures { IsTrue result → filters_shape filters.now ≡ NoMore }
{
    match filters {
        Filters::End => true,
        Filters::More(_, _) => false,
    }
}

/// The spans of an operand in the segment, where they are just those of its rows in the texts: it is a whole tag on which no filter stands, and each of its spans has a
/// row. Where there is no room for so many rows, none are lent.
pub(crate) fn lent<'a>(
    asked: &Asked<'a>,
    filter_of: &Filter,
    number: usize,
    room: u32,
) -> Option<&'a [Span]>
    requires prepared { IsPrepared asked.now.segment.now asked.now.query.now asked.now.prepared.now }
    requires texts { AreTexts asked.now.segment.now asked.now.texts.now }
    requires number { number < length (heads asked.now.query.now) }
    requires expr { expr_at (heads asked.now.query.now) number ≡ shape filter_of.now.head }
    ensures alone { IfSome result (λ spans. filters_shape filter_of.now.filters ≡ NoMore) }
    ensures rows { IfSome result (λ spans. AreSpansOfRows asked.now.segment.now asked.now.texts.now (shape filter_of.now.head) spans.now) }
    ensures room { IfSome result (λ spans. length spans.now ≤ room) }
{
    instances_lie_in_texts();
    let _valid = asked.segment.texts();
    if !is_end(&filter_of.filters) || !is_tag(&filter_of.head) {
        return None;
    }
    let ready = asked.prepared.exprs.get(number);
    let spans = ready.tags.get(0).as_slice();
    if spans.len() > room as usize || !all_have_rows(asked.texts, spans) {
        return None;
    }
    Some(spans)
}
