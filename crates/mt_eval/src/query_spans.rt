//! The spans of a query.

ghost use Rattle.std.specs.Prelude.{◌≡◌, IfOk, map};
ghost use Rattle.std.specs.Bool.{Decides};
ghost use Rattle.std.specs.Ordering.{eq_by_cmp};
ghost use Rattle.std.specs.List.Sorted.{IsStrictlySortedBy};
ghost use Rattle.mt_text_spec.specs.Orders.{span_cmp};
ghost use Rattle.mt_match_spec.specs.Rows.{ListsAll};
ghost use Rattle.mt_rows.specs.Rows.{IsSpanIn};

use mt_base::{List, NoMemory, Span};
use mt_rows::{RowList, Rows};
use std::alloc::Global;
use std::marker::Model;

/// The spans of a query, ascending, each once, seen as their list.
#[derive(Drop)]
pub struct QuerySpans {
    kept: KeptSpans,
}

/// Where the spans of a query stand.
#[derive(Drop)]
pub(crate) enum KeptSpans {
    /// In the rows of the query, of which no two have the same span.
    InRows(Rows),
    /// In a list of their own.
    Apart(List<Span>),
}

impl Model for QuerySpans {
    ghost use Rattle.std.specs.Prelude.{List as Items};
    ghost use Rattle.mt_text_spec.specs.Texts as spec;
    ghost use Rattle.mt_eval.specs.QuerySpans.{spans_kept};

    ghost Value = { Items spec.Span };

    ghost view = { λ s. spans_kept s.kept };
}

impl QuerySpans {
    /// The spans of rows. They are copied only where two rows have the same one, so that mostly this takes no memory.
    pub fn of(alloc: Global, rows: RowList) -> Result<Self, NoMemory>
        ensures { IfOk result (λ spans. ListsAll span_cmp (IsSpanIn rows) spans) }
    {
        if !are_distinct(&rows) {
            let spans = rows.spans(alloc)?;
            return Ok(QuerySpans {
                kept: KeptSpans::Apart(spans),
            });
        }
        Ok(QuerySpans {
            kept: KeptSpans::InRows(rows.into_rows()),
        })
    }

    /// All of them.
    pub fn as_slice(&self) -> &[Span]
        ensures { result.now ≡ self.now }
    {
        match &self.kept {
            KeptSpans::InRows(rows) => rows.as_spans(),
            KeptSpans::Apart(spans) => spans.as_slice(),
        }
    }
}

/// Whether no two rows have the same span. It takes no memory.
fn are_distinct(rows: &RowList) -> bool
    ensures { Decides result (IsStrictlySortedBy span_cmp (map (λ row. row.span) rows.now)) }
{
    for i in 1..rows.len() {
        let span = rows.span(i);
        let before = rows.span(i - 1);
        if are_same(span, before) {
            return false;
        }
    }
    true
}

/// Whether two spans are the same. Their begins are compared first, since those of neighbours mostly differ.
fn are_same(span: Span, other: Span) -> bool
    ensures { result ≡ eq_by_cmp span_cmp span other }
{
    span.begin() == other.begin() && span == other
}
