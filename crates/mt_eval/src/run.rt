//! Evaluation of a query over some texts of a segment.

ghost use Rattle.std.specs.Prelude.{◌≡◌, ◌+◌, ◌-◌, ◌<◌, ◌≤◌, length, slice_index_or, IfOk, OnOk, IsErrOf};
ghost use Rattle.std.specs.List.{Contains};
ghost use Rattle.std.specs.List.Sorted.{IsStrictlySortedBy};
ghost use Rattle.mt_text_spec.specs.Orders.{row_cmp, span_cmp};
ghost use Rattle.mt_cql.specs.Shape.{shape, kind_shape, filters_shape};
ghost use Rattle.mt_rows.specs.Rows.{IsSpanIn};
ghost use Rattle.mt_match_spec.specs.Rows.{ListsAll};
ghost use Rattle.mt_match_spec.specs.Kept.{Passes};
ghost use Rattle.mt_prepare.specs.KnownRows.{AreKnownIn};
ghost use Rattle.mt_prepare.specs.Prepared.{IsPrepared};
ghost use Rattle.mt_eval_spec.specs.Told.{IsFor};
ghost use Rattle.mt_text_spec.specs.Queries.{NoMore};
ghost use Rattle.mt_eval_spec.specs.Literals.{AreEquals, AreFew};
ghost use Rattle.mt_eval_spec.specs.RowsIn.{EachLeaves, PassesAllIn, PassesRoom, RowsIn, SomePasses, expr_at, heads, operands};
ghost use Rattle.mt_eval.specs.Runs.{AreTexts, StandAt};
ghost use Rattle.mt_eval.specs.Rooms.{LowersOne};

use super::finding::{Asked, rows_of};
use super::query_spans::QuerySpans;
use super::scratch::Scratch;
use super::spans::lent;
use mt_base::{List, NoMemory, Span, Steps};
use mt_cql::{Expr, FilterKind, Filters};
use mt_rows::{EvalError, RowList};
use std::alloc::Global;
use std::sync::ledger::Ledger;

/// The rows of the expression with this number, for which room is taken.
pub(crate) fn take_rows<L: Ledger>(
    alloc: Global,
    asked: &Asked<'_>,
    expr: &Expr,
    number: usize,
    rooms: &mut List<u32>,
    scratch: &mut Scratch,
    steps: &mut Steps<L>,
) -> Result<RowList, EvalError>
    requires query { IsFor asked.now.segment.now asked.now.query.now }
    requires prepared { IsPrepared asked.now.segment.now asked.now.query.now asked.now.prepared.now }
    requires texts { AreTexts asked.now.segment.now asked.now.texts.now }
    requires number { number < length (heads asked.now.query.now) }
    requires expr { expr_at (heads asked.now.query.now) number ≡ shape expr.now }
    requires room { number < length rooms.old }
    requires known { AreKnownIn asked.now.segment.now scratch.old.known }
    ensures known { AreKnownIn asked.now.segment.now scratch.new.known }
    ensures rows { IfOk result (λ rows. RowsIn asked.now.segment.now asked.now.texts.now (expr_at (heads asked.now.query.now) number) rows) }
    ensures rooms { IfOk result (λ rows. LowersOne number (length rows) rooms.old rooms.new) }
    ensures few { number < 18446744073709551615 }
    ensures rises { steps.old ≤ steps.new }
    ensures steps { AreEquals (shape expr.now) → AreFew asked.now.segment.now (shape expr.now) (steps.new - steps.old) }
    ensures too_many { IsErrOf result EvalError.TooManyRows
        → PassesRoom asked.now.segment.now asked.now.texts.now (expr_at (heads asked.now.query.now) number) (slice_index_or rooms.old number 0) }
{
    rooms.len();
    let room = *rooms.get(number);
    let rows = rows_of(alloc, asked, expr, number, room, scratch, steps)?;
    rooms.replace_range(number, number + 1, Some(room - rows.len() as u32));
    Ok(rows)
}

/// Keeps the rows that a filter lets pass, by the spans of its operand. Where there are no rows, it looks at none of these.
fn filter(
    rows: &mut RowList,
    kind: FilterKind,
    operand: &[Span],
    marks: &mut Vec<bool>,
) -> Result<(), NoMemory>
    requires { IsStrictlySortedBy span_cmp operand.now }
    ensures { OnOk result (ListsAll row_cmp (λ row. Contains rows.old row × Passes (kind_shape kind) (Contains operand.now) row.span) rows.new) }
{
    if rows.is_empty() {
        return Ok(());
    }
    match kind {
        FilterKind::Within => rows.keep_within(operand, false, marks),
        FilterKind::NotWithin => rows.keep_within(operand, true, marks),
        FilterKind::Containing => rows.keep_containing(operand, false, marks),
        FilterKind::NotContaining => rows.keep_containing(operand, true, marks),
    }
}

/// Keeps the rows that a filter lets pass, by the rows of its operand. Where there are no rows, it looks at none of the operand's.
fn pass_by(
    alloc: Global,
    rows: &mut RowList,
    kind: FilterKind,
    own: RowList,
    marks: &mut Vec<bool>,
) -> Result<(), NoMemory>
    ensures { OnOk result (ListsAll row_cmp (λ row. Contains rows.old row × Passes (kind_shape kind) (IsSpanIn own) row.span) rows.new) }
{
    if rows.is_empty() {
        return Ok(());
    }
    let operand = QuerySpans::of(alloc, own)?;
    filter(rows, kind, operand.as_slice(), marks)
}

/// Keeps the rows that a filter lets pass, by the spans of its operand, of which each is that of one row. The operand has this number, and its room is lowered. Returns
/// the next number.
fn pass_lent(
    rows: &mut RowList,
    kind: FilterKind,
    spans: &[Span],
    number: usize,
    rooms: &mut List<u32>,
    marks: &mut Vec<bool>,
) -> Result<usize, NoMemory>
    requires spans { IsStrictlySortedBy span_cmp spans.now }
    requires number { number < length rooms.old }
    requires room { length spans.now ≤ slice_index_or rooms.old number 0 }
    ensures next { IfOk result (λ next. next ≡ number + 1) }
    ensures rows { OnOk result (ListsAll row_cmp (λ row. Contains rows.old row × Passes (kind_shape kind) (Contains spans.now) row.span) rows.new) }
    ensures rooms { LowersOne number (length spans.now) rooms.old rooms.new }
{
    rooms.len();
    let room = *rooms.get(number);
    let left = room - spans.len() as u32;
    rooms.replace_range(number, number + 1, Some(left));
    filter(rows, kind, spans, marks)?;
    Ok(number + 1)
}

/// Keeps the rows that all filters let pass. Their operands have the numbers from `first` on. Returns the number behind them.
pub(crate) fn let_pass<L: Ledger>(
    alloc: Global,
    asked: &Asked<'_>,
    filters: &Filters,
    first: usize,
    rows: &mut RowList,
    rooms: &mut List<u32>,
    scratch: &mut Scratch,
    steps: &mut Steps<L>,
) -> Result<usize, EvalError>
    requires query { IsFor asked.now.segment.now asked.now.query.now }
    requires prepared { IsPrepared asked.now.segment.now asked.now.query.now asked.now.prepared.now }
    requires texts { AreTexts asked.now.segment.now asked.now.texts.now }
    requires stand { StandAt (heads asked.now.query.now) (operands (filters_shape filters.now)) first }
    requires rooms { length rooms.old ≡ length (heads asked.now.query.now) }
    requires known { AreKnownIn asked.now.segment.now scratch.old.known }
    ensures known { AreKnownIn asked.now.segment.now scratch.new.known }
    ensures rises { steps.old ≤ steps.new }
    ensures steps { filters_shape filters.now ≡ NoMore → steps.new ≡ steps.old }
    ensures next { IfOk result (λ next. next ≡ first + length (operands (filters_shape filters.now))) }
    ensures rows { OnOk result (ListsAll row_cmp (λ row. Contains rows.old row × PassesAllIn asked.now.segment.now asked.now.texts.now (filters_shape filters.now) row.span) rows.new) }
    ensures rooms { OnOk result (EachLeaves asked.now.segment.now asked.now.texts.now (operands (filters_shape filters.now)) first rooms.old rooms.new) }
    ensures too_many { IsErrOf result EvalError.TooManyRows → SomePasses asked.now.segment.now asked.now.texts.now (operands (filters_shape filters.now)) first rooms.old }
{
    match filters {
        Filters::End => {
            rows.len();
            Ok(first)
        }
        Filters::More(filter_of, others) => {
            if let Some(spans) = lent(asked, filter_of, first, *rooms.get(first)) {
                let marks = &mut scratch.marks;
                let behind = pass_lent(rows, filter_of.kind, spans, first, rooms, marks)?;
                return let_pass(alloc, asked, others, behind, rows, rooms, scratch, steps);
            }
            let mut own = take_rows(alloc, asked, &filter_of.head, first, rooms, scratch, steps)?;
            let next = let_pass(
                alloc,
                asked,
                &filter_of.filters,
                first + 1,
                &mut own,
                rooms,
                scratch,
                steps,
            )?;
            pass_by(alloc, rows, filter_of.kind, own, &mut scratch.marks)?;
            let_pass(alloc, asked, others, next, rows, rooms, scratch, steps)
        }
    }
}
