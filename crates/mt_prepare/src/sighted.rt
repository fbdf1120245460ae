//! What an expression sees of a segment, text by text.

ghost use Rattle.std.specs.Prelude.{◌≡◌, ◌++◌, ℕ, ◌<◌, [], ◌≤◌, length, slice_index_or, IfOk, OnOk};
ghost use Rattle.std.specs.List.{All, AllZip};
ghost use Rattle.mt_text_spec.specs.Queries as q;
ghost use Rattle.mt_cql.specs.Shape.{shape};
ghost use Rattle.mt_prepare.specs.Asks.{HasAttr, HasKind, Names};
ghost use Rattle.mt_prepare.specs.Resolved.{AreSpansOf};
ghost use Rattle.mt_prepare.specs.TestRows.{HasAttrs};
ghost use Rattle.mt_prepare.specs.KnownRows.{AreKnownIn};
ghost use Rattle.mt_prepare.specs.TagRows.{AreRowsOf};
ghost use Rattle.mt_prepare.specs.Prepared.{IsReady};
ghost use Rattle.mt_prepare.specs.Sighted.{tag_kinds, IsRowOfResolved, IsSighted, HasEntered};

use crate::known_rows::KnownRows;
use crate::prepared::PreparedExpr;
use crate::resolved::Resolved;
use crate::shared_spans::SharedSpans;
use crate::tag_rows::TagRows;
use crate::test_rows::row_of;
use crate::view::TextView;
use mt_automaton::Pool;
use mt_base::{NoMemory, Steps};
use mt_cql::Expr;
use mt_places::Places;
use mt_segment::Segment;
use std::alloc::Global;
use std::sync::ledger::Ledger;

/// What an expression sees of a segment: the rows of its tests of tokens there, and where its tags lie in the text that was entered last.
#[derive(Drop)]
pub struct Sighted {
    rows: Vec<Places>,
    tags: Vec<TagRows>,
    kinds: Vec<u16>,
}

impl Sighted {
    /// The rows of the tests of an expression; those of values that are known for the segment are not found again. No text is entered yet.
    pub fn new<L: Ledger>(
        alloc: Global,
        pool: &mut Pool,
        known: &mut KnownRows,
        expr: &Expr,
        ready: &PreparedExpr,
        segment: &Segment,
        steps: &mut Steps<L>,
    ) -> Result<Self, NoMemory>
        requires ready { IsReady segment.now (shape expr.now) ready.now }
        requires names { Names (HasAttr segment.now) (HasKind segment.now) (shape expr.now) }
        requires known { AreKnownIn segment.now known.old }
        ensures known { AreKnownIn segment.now known.new }
        ensures sighted { IfOk result (λ sighted. IsSighted segment.now (shape expr.now) sighted) }
        ensures rises { steps.old ≤ steps.new }
    {
        let rows = rows_of(alloc, pool, known, ready.tests.as_slice(), segment, steps)?;
        let mut kinds = Vec::new(alloc);
        add_kinds(expr, &mut kinds)?;
        let tags = no_rows(alloc, kinds.len())?;
        Ok(Sighted { rows, tags, kinds })
    }

    /// Enters a text: finds where the tags of the expression lie in it. Memory is taken only where no text was so long before.
    pub fn enter(
        &mut self,
        ready: &PreparedExpr,
        segment: &Segment,
        text: u32,
    ) -> Result<(), NoMemory>
        requires text { text < length segment.now.texts }
        requires sees { (expr : q.Expr) × IsSighted segment.now expr self.old × IsReady segment.now expr ready.now }
        ensures kept { (expr : q.Expr) → IsSighted segment.now expr self.old → IsSighted segment.now expr self.new }
        ensures entered { OnOk result ((expr : q.Expr) → IsSighted segment.now expr self.old → IsReady segment.now expr ready.now → HasEntered segment.now text expr ready.now self.new) }
    {
        enter_all(
            &mut self.tags,
            segment,
            text,
            &self.kinds,
            ready.tags.as_slice(),
        )
    }

    /// The text that was entered last, as the expression sees it.
    pub fn view<'a>(
        &'a self,
        expr: &'a Expr,
        ready: &'a PreparedExpr,
        segment: &'a Segment,
        text: u32,
    ) -> TextView<'a>
        requires text { text < length segment.now.texts }
        requires ready { IsReady segment.now (shape expr.now) ready.now }
        requires entered { HasEntered segment.now text (shape expr.now) ready.now self.now }
        ensures { result ≡ record { tables = segment.entry.now; text = text; expr = shape expr.entry.now } }
    {
        TextView::new(
            segment,
            expr,
            text,
            &self.rows,
            ready.tags.as_slice(),
            &self.tags,
        )
    }
}

/// The rows of tests in a segment, in order.
fn rows_of<L: Ledger>(
    alloc: Global,
    pool: &mut Pool,
    known: &mut KnownRows,
    tests: &[Resolved],
    segment: &Segment,
    steps: &mut Steps<L>,
) -> Result<Vec<Places>, NoMemory>
    requires attrs { All (HasAttrs segment.now) tests.now }
    requires known { AreKnownIn segment.now known.old }
    ensures known { AreKnownIn segment.now known.new }
    ensures rows { IfOk result (λ rows. AllZip (IsRowOfResolved segment.now) tests.now rows.items) }
    ensures rises { steps.old ≤ steps.new }
{
    let mut rows = Vec::with_capacity(alloc, tests.len())?;
    for test in tests {
        rows.push(row_of(pool, known, test, segment, steps)?)?;
    }
    Ok(rows)
}

/// Adds the kinds of the tags of an expression, in order.
fn add_kinds(expr: &Expr, kinds: &mut Vec<u16>) -> Result<(), NoMemory>
    ensures { OnOk result (kinds.new.items ≡ kinds.old.items ++ tag_kinds (shape expr.now)) }
{
    match expr {
        Expr::Token { label: _, test: _ } => {}
        Expr::Begin { kind, test: _ } => kinds.push(*kind)?,
        Expr::End { kind } => kinds.push(*kind)?,
        Expr::Whole { kind, test: _ } => kinds.push(*kind)?,
        Expr::Seq(left, right) => {
            add_kinds(left, kinds)?;
            add_kinds(right, kinds)?;
        }
        Expr::Choice(left, right) => {
            add_kinds(left, kinds)?;
            add_kinds(right, kinds)?;
        }
        Expr::Repeat {
            inner,
            least: _,
            most: _,
        } => add_kinds(inner, kinds)?,
    }
    Ok(())
}

/// For each of so many tags, that no text is entered.
fn no_rows(alloc: Global, count: usize) -> Result<Vec<TagRows>, NoMemory>
    ensures { IfOk result (λ rows. length rows.items ≡ count) }
{
    let mut rows = Vec::with_capacity(alloc, count)?;
    for _ in 0..count {
        rows.push(TagRows::new(alloc)?)?;
    }
    Ok(rows)
}

/// Enters a text for each of some tags, by their kinds and their spans in the segment.
fn enter_all(
    tags: &mut [TagRows],
    segment: &Segment,
    text: u32,
    kinds: &[u16],
    spans: &[SharedSpans],
) -> Result<(), NoMemory>
    requires text { text < length segment.now.texts }
    requires kinds { All (HasKind segment.now) kinds.now }
    requires count { length tags.old ≡ length kinds.now }
    requires spans_count { length spans.now ≡ length kinds.now }
    requires spans { (n : ℕ) → n < length kinds.now → (test : q.Test) × AreSpansOf segment.now (record { kind = slice_index_or kinds.now n 0; test = test }) (slice_index_or spans.now n []) }
    ensures count { length tags.new ≡ length tags.old }
    ensures entered { OnOk result ((n : ℕ) (d : TagRows) (test : q.Test) → n < length kinds.now → AreSpansOf segment.now (record { kind = slice_index_or kinds.now n 0; test = test }) (slice_index_or spans.now n [])
        → AreRowsOf segment.now text (record { kind = slice_index_or kinds.now n 0; test = test }) (slice_index_or spans.now n []) (slice_index_or tags.new n d)) }
{
    for at in 0..kinds.len() {
        tags[at].enter(segment, text, kinds[at], spans[at].as_slice())?;
    }
    Ok(())
}
