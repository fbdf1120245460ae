//! Spans and rows, seen as the records of `mt_text_spec`.

ghost use Rattle.std.specs.Prelude.{◌≡◌, refl, replicate, Some};
ghost use Rattle.std.specs.Cmp.{eq_by_cmp_equiv, partial_equiv_from_equiv, partial_order_from_total};
ghost use Rattle.std.specs.Ordering.{eq_by_cmp};
ghost use Rattle.mt_text_spec.specs.Orders.{span_cmp, span_cmp_total, row_cmp, row_cmp_total};
ghost use Rattle.mt_text_spec.specs.Texts as spec;

use std::cmp::Ordering;
use std::marker::Model;

/// A run of tokens of one text: the text's number, and the places from which and before which the tokens stand. Spans are ordered by their text, then by their
/// begin, then by their end.
#[derive(Clone, Copy, Debug, Drop)]
pub struct Span {
    text: u32,
    begin: u32,
    end: u32,
}

impl Model for Span {
    ghost Value = { spec.Span };

    ghost view = { λ s. record { text = s.text; begin = s.begin; end = s.end } };

    ghost inverse = { λ s. record { text = s.text; begin = s.begin; end = s.end } };
}

impl Span {
    /// The span of the text with this number from one place to the other.
    pub fn new(text: u32, begin: u32, end: u32) -> Self
        ensures { result ≡ record { text = text; begin = begin; end = end } }
    {
        Span { text, begin, end }
    }

    /// The number of the text in the corpus, counted from 0.
    pub fn text(&self) -> u32
        ensures { result ≡ self.now.text }
    {
        self.text
    }

    /// The place of the first token in the text.
    pub fn begin(&self) -> u32
        ensures { result ≡ self.now.begin }
    {
        self.begin
    }

    /// The place behind the last token.
    pub fn end(&self) -> u32
        ensures { result ≡ self.now.end }
    {
        self.end
    }
}

impl PartialEq for Span {
    ghost eq = { eq_by_cmp span_cmp };

    ghost laws = { partial_equiv_from_equiv (eq_by_cmp_equiv span_cmp_total) };

    fn eq(&self, other: &Self) -> bool {
        self.cmp(other).is_eq()
    }
}

impl Eq for Span {
    ghost laws = { eq_by_cmp_equiv span_cmp_total };
}

impl PartialOrd for Span {
    ghost partial_cmp = { λ x y. Some (span_cmp x y) };

    ghost laws = { partial_order_from_total span_cmp_total };

    fn partial_cmp(&self, other: &Self) -> Option<Ordering> {
        Some(self.cmp(other))
    }
}

impl Ord for Span {
    ghost cmp = { span_cmp };

    ghost total = { span_cmp_total };

    ghost matches_partial_cmp = { λ x y. refl };

    ghost matches_eq = { λ x y. refl };

    fn cmp(&self, other: &Self) -> Ordering {
        self.text.cmp(&other.text).then(self.begin.cmp(&other.begin).then(self.end.cmp(&other.end)))
    }
}

/// A span with the places of the labels 1 to 9. Rows are ordered by their span, then by the places of the labels, the first label first.
#[derive(Clone, Copy, Debug, Drop)]
pub struct Row {
    span: Span,
    labels: [u32; 9],
}

impl Model for Row {
    ghost Value = { spec.Row };

    ghost view = { λ r. record { span = r.span; labels = r.labels } };

    ghost inverse = { λ r. record { span = r.span; labels = r.labels } };
}

impl Row {
    /// The place that no label has.
    pub const UNSET: u32 = u32::MAX;

    /// The row of this span whose labels have these places; `Row::UNSET` stands for a label that is not set.
    pub fn new(span: Span, labels: [u32; 9]) -> Self
        ensures { result ≡ record { span = span; labels = labels } }
    {
        Row { span, labels }
    }

    /// The row of this span with no label set.
    pub fn unlabelled(span: Span) -> Self
        ensures { result ≡ record { span = span; labels = replicate 9 spec.unset } }
    {
        Row {
            span,
            labels: [Row::UNSET; 9],
        }
    }

    /// The span.
    pub fn span(&self) -> Span
        ensures { result ≡ self.now.span }
    {
        self.span
    }

    /// The places of the labels in the text, of the first label first.
    pub fn labels(&self) -> &[u32; 9]
        ensures { result.now ≡ self.now.labels }
    {
        &self.labels
    }
}

impl PartialEq for Row {
    ghost eq = { eq_by_cmp row_cmp };

    ghost laws = { partial_equiv_from_equiv (eq_by_cmp_equiv row_cmp_total) };

    fn eq(&self, other: &Self) -> bool {
        self.cmp(other).is_eq()
    }
}

impl Eq for Row {
    ghost laws = { eq_by_cmp_equiv row_cmp_total };
}

impl PartialOrd for Row {
    ghost partial_cmp = { λ x y. Some (row_cmp x y) };

    ghost laws = { partial_order_from_total row_cmp_total };

    fn partial_cmp(&self, other: &Self) -> Option<Ordering> {
        Some(self.cmp(other))
    }
}

impl Ord for Row {
    ghost cmp = { row_cmp };

    ghost total = { row_cmp_total };

    ghost matches_partial_cmp = { λ x y. refl };

    ghost matches_eq = { λ x y. refl };

    fn cmp(&self, other: &Self) -> Ordering {
        self.span
            .cmp(&other.span)
            .then_with(|| self.labels.cmp(&other.labels))
    }
}
