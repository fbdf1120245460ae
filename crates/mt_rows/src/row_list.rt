//! Rows in ascending order.

ghost use Rattle.std.specs.Prelude.{◌≡◌, ◌<◌, [], length, map, nat_eq, slice_get, Some, IfOk, OnOk, OnErr, IsSomeAnd, IsTrue};
ghost use Rattle.std.specs.List.{All, Contains};
ghost use Rattle.std.specs.List.Retain.{IsFiltered, DiffersFromLast};
ghost use Rattle.std.specs.Ordering.{eq_by_cmp};
ghost use Rattle.std.specs.List.Sorted.{IsStrictlySortedBy};
ghost use Rattle.mt_text_spec.specs.Orders.{span_cmp, row_cmp};
ghost use Rattle.mt_match_spec.specs.Labels.{no_labels};
ghost use Rattle.mt_match_spec.specs.Rows.{ListsAll};
ghost use Rattle.mt_match_spec.specs.Kept.{Passes};
ghost use Rattle.mt_rows.specs.Filters.{within_kind, containing_kind};
ghost use Rattle.mt_rows.specs.Rows.{IsSpanIn};
ghost use Rattle.mt_rows.specs.Marks.{kept};

use crate::filters::{mark_containing, mark_within};
use crate::rows::Rows;
use mt_base::{List, NoMemory, Row, Span};
use std::alloc::Global;
use std::marker::Model;

/// Rows ascending, each once.
#[derive(Debug, Drop)]
pub struct RowList {
    rows: Rows,
}

impl Model for RowList {
    ghost use Rattle.std.specs.Prelude.{List as Items};
    ghost use Rattle.std.specs.List.Sorted.{IsStrictlySortedBy};
    ghost use Rattle.mt_text_spec.specs.Texts as spec;
    ghost use Rattle.mt_text_spec.specs.Orders.{row_cmp};

    ghost Value = { Items spec.Row };

    ghost view = { λ l. l.rows };

    ghost invariant = { λ l. IsStrictlySortedBy row_cmp l.rows };
}

impl RowList {
    /// The list of these rows. It takes no memory.
    pub fn new(rows: Rows) -> Self
        requires { IsStrictlySortedBy row_cmp rows }
        ensures { result ≡ rows }
    {
        RowList { rows }
    }

    /// The rows. It takes no memory.
    pub fn into_rows(self) -> Rows
        ensures { result ≡ self }
    {
        self.rows
    }

    /// How many rows there are.
    pub fn len(&self) -> usize
        ensures count { result ≡ length self.now }
        ensures ascending { IsStrictlySortedBy row_cmp self.now }
    {
        self.rows.len()
    }

    /// Whether there is none.
    pub fn is_empty(&self) -> bool
        ensures { result ≡ nat_eq (length self.now) 0 }
    {
        self.rows.is_empty()
    }

    /// Whether no row has a label set, as far as that is known without looking at them.
    pub fn are_unlabelled(&self) -> bool
        ensures { IsTrue result → All (λ row. row.labels ≡ no_labels) self.now }
    {
        self.rows.are_unlabelled()
    }

    /// The row at a place, counted from 0.
    pub fn get(&self, i: usize) -> Row
        requires { i < length self.now }
        ensures { slice_get self.now i ≡ Some result }
    {
        self.rows.get(i)
    }

    /// The span of the row at a place, counted from 0.
    pub fn span(&self, i: usize) -> Span
        requires { i < length self.now }
        ensures { IsSomeAnd (slice_get self.now i) (λ row. result ≡ row.span) }
    {
        self.rows.span(i)
    }

    /// The span of each row, in order.
    pub fn as_spans(&self) -> &[Span]
        ensures { result.now ≡ map (λ row. row.span) self.now }
    {
        self.rows.as_spans()
    }

    /// The spans of the rows, ascending, each once.
    pub fn spans(&self, alloc: Global) -> Result<List<Span>, NoMemory>
        ensures { IfOk result (λ spans. ListsAll span_cmp (IsSpanIn self.now) spans) }
    {
        let mut spans = Vec::from_slice(alloc, self.rows.as_spans())?;
        keep_distinct(&mut spans);
        spans.shrink_to_fit();
        Ok(List::from_vec(spans))
    }

    /// Keeps the rows whose mark is true. It takes no memory. Where the marks tell of a fact, `kept_lists` of `specs/Laws.antt` says which rows are left.
    pub fn keep(&mut self, marks: &[bool])
        requires { length marks.now ≡ length self.old }
        ensures { self.new ≡ kept marks.now self.old }
    {
        self.rows.keep(marks);
    }

    /// Keeps the rows whose span lies in some span of the operand; where it is negated, the others. The operand is ascending, as `spans` gives it. What is in
    /// `marks` does not matter: it is room for a byte for each row, to be used again.
    pub fn keep_within(
        &mut self,
        operand: &[Span],
        negated: bool,
        marks: &mut Vec<bool>,
    ) -> Result<(), NoMemory>
        requires { IsStrictlySortedBy span_cmp operand.now }
        ensures ok { OnOk result (ListsAll row_cmp (λ row. Contains self.old row × Passes (within_kind negated) (Contains operand.now) row.span) self.new) }
        ensures err { OnErr result (self.new ≡ self.old) }
    {
        mark_within(self.rows.as_spans(), operand, negated, marks)?;
        self.rows.keep(marks);
        Ok(())
    }

    /// Keeps the rows in whose span some span of the operand lies; where it is negated, the others. For the rest see `keep_within`.
    pub fn keep_containing(
        &mut self,
        operand: &[Span],
        negated: bool,
        marks: &mut Vec<bool>,
    ) -> Result<(), NoMemory>
        requires { IsStrictlySortedBy span_cmp operand.now }
        ensures ok { OnOk result (ListsAll row_cmp (λ row. Contains self.old row × Passes (containing_kind negated) (Contains operand.now) row.span) self.new) }
        ensures err { OnErr result (self.new ≡ self.old) }
    {
        mark_containing(self.rows.as_spans(), operand, negated, marks)?;
        self.rows.keep(marks);
        Ok(())
    }
}

/// Keeps the first of equal spans that stand side by side.
fn keep_distinct(spans: &mut Vec<Span>)
    ensures { IsFiltered (DiffersFromLast (eq_by_cmp span_cmp)) [] spans.old.items spans.new.items }
{
    spans.dedup();
}
