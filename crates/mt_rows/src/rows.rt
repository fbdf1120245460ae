//! Rows in any order.

ghost use Rattle.std.specs.Prelude.{◌≡◌, ◌<◌, [], ◌∷◌, ◌++◌, false, length, map, take, nat_eq, slice_get, Some, OnOk, OnErr, IsSomeAnd, IsTrue};
ghost use Rattle.std.specs.List.{All};
ghost use Rattle.mt_match_spec.specs.Labels.{no_labels};
ghost use Rattle.mt_rows.specs.Marks.{kept};

use crate::label_sets::LabelSets;
use crate::marks::keep_marked;
use mt_base::{NoMemory, Row, Span};
use std::alloc::Global;
use std::marker::Model;

/// Rows one after another, in any order. A row takes 12 bytes while no label is set, 20 from the first labelled row on, and 48 from the first one on where one of the labels 3 to 9 is set.
#[derive(Debug, Drop)]
pub struct Rows {
    spans: Vec<Span>,
    labels: LabelSets,
}

impl Model for Rows {
    ghost use Rattle.std.specs.Prelude.{List, ◌≤◌, length};
    ghost use Rattle.mt_text_spec.specs.Texts as spec;
    ghost use Rattle.mt_rows.specs.Rows.{joined};

    ghost Value = { List spec.Row };

    ghost view = { λ r. joined r.spans.items r.labels };

    ghost invariant = { λ r. length r.labels ≤ length r.spans.items };
}

impl Rows {
    /// No rows. It takes no memory until a row is pushed.
    pub fn new(alloc: Global) -> Self
        ensures { result ≡ [] }
    {
        Rows {
            spans: Vec::new(alloc),
            labels: LabelSets::new(alloc),
        }
    }

    /// How many rows there are.
    pub fn len(&self) -> usize
        ensures { result ≡ length self.now }
    {
        self.spans.len()
    }

    /// Whether there is none.
    pub fn is_empty(&self) -> bool
        ensures { result ≡ nat_eq (length self.now) 0 }
    {
        self.len() == 0
    }

    /// Whether no row has a label set, as far as that is known without looking at them: it is not said where labels were kept once, and only rows without a label are left.
    pub fn are_unlabelled(&self) -> bool
        ensures { IsTrue result → All (λ row. row.labels ≡ no_labels) self.now }
    {
        self.labels.is_empty()
    }

    /// The row at a place, counted from 0.
    pub fn get(&self, i: usize) -> Row
        requires { i < length self.now }
        ensures { slice_get self.now i ≡ Some result }
    {
        let span = self.spans[i];
        match self.labels.get(i) {
            Some(labels) => Row::new(span, labels),
            None => Row::unlabelled(span),
        }
    }

    /// The span of the row at a place, counted from 0.
    pub fn span(&self, i: usize) -> Span
        requires { i < length self.now }
        ensures { IsSomeAnd (slice_get self.now i) (λ row. result ≡ row.span) }
    {
        self.spans[i]
    }

    /// The span of each row, in order.
    pub fn as_spans(&self) -> &[Span]
        ensures { result.now ≡ map (λ row. row.span) self.now }
    {
        self.spans.as_slice()
    }

    /// Adds a row at the end. Without memory nothing changes.
    pub fn push(&mut self, row: Row) -> Result<(), NoMemory>
        ensures ok { OnOk result (self.new ≡ self.old ++ row ∷ []) }
        ensures err { OnErr result (self.new ≡ self.old) }
    {
        if !are_set(row.labels()) {
            return self.push_unlabelled(row.span());
        }
        let at = self.spans.len();
        self.spans.push(row.span())?;
        match self.labels.put(at, row.labels()) {
            Ok(()) => Ok(()),
            Err(NoMemory) => {
                self.spans.truncate(at);
                Err(NoMemory)
            }
        }
    }

    /// Adds the row of a span with no label set at the end. Without memory nothing changes.
    pub fn push_unlabelled(&mut self, span: Span) -> Result<(), NoMemory>
        ensures ok { OnOk result (self.new ≡ self.old ++ record { span = span; labels = no_labels } ∷ []) }
        ensures err { OnErr result (self.new ≡ self.old) }
    {
        self.spans.push(span)?;
        Ok(())
    }

    /// Keeps the first `n` rows, or all where there are fewer.
    pub fn truncate(&mut self, n: usize)
        ensures { self.new ≡ take n self.old }
    {
        self.spans.truncate(n);
        self.labels.truncate(n);
    }

    /// Keeps the rows whose mark is true, in order. It takes no memory.
    pub fn keep(&mut self, marks: &[bool])
        requires { length marks.now ≡ length self.old }
        ensures { self.new ≡ kept marks.now self.old }
    {
        keep_marked(&mut self.spans, marks);
        self.labels.keep(marks);
    }

    /// Takes all rows away, and keeps the memory for others.
    pub fn clear(&mut self)
        ensures { self.new ≡ [] }
    {
        self.spans.clear();
        self.labels.clear();
    }
}

/// Whether one of these labels is set. They are looked at one by one, label 1 first, since it is set in most rows that have labels. So those of a row that was just made are not read in
/// wider pieces than they were written in.
fn are_set(labels: &[u32; 9]) -> bool
    ensures { result ≡ false → labels.now ≡ no_labels }
{
    let _nine = *labels;
    for i in 0..9 {
        if labels[i] != Row::UNSET {
            return true;
        }
    }
    false
}
