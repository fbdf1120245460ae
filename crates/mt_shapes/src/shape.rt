//! Shapes of matches.

ghost use Rattle.std.specs.Prelude.{◌≡◌, ◌+◌, ◌<◌, ◌==◌, true, if◌then◌else◌};
ghost use Rattle.std.specs.List.{AllByRecursion};
ghost use Rattle.mt_text_spec.specs.Texts.{unset};
ghost use Rattle.mt_match_spec.specs.Labels.{no_labels, labelled, united, place_of_either};
ghost use Rattle.mt_automaton.specs.Windows.{moved, FitsBehind};
ghost use Rattle.mt_shapes.specs.Shapes.{shape_cmp, row_of as row_of_shape};

use mt_base::{Row, Span};
use std::cmp::Ordering;

/// The shape of a match: how many tokens it has, and how many tokens behind its begin each of the labels 1 to 9 stands. A label that is not set has `Row::UNSET`.
#[derive(Clone, Copy, Debug, Drop)]
pub struct Shape {
    pub length: u32,
    pub labels: [u32; 9],
}

impl Shape {
    /// So many tokens, with no label.
    pub(crate) fn plain(length: u32) -> Self
        ensures { result ≡ record { length = length; labels = no_labels } }
    {
        Shape {
            length,
            labels: [Row::UNSET; 9],
        }
    }

    /// One token under a label, or under none, which is 0.
    pub(crate) fn token(label: u8) -> Self
        ensures { result ≡ record { length = 1; labels = labelled label 0 } }
    {
        Shape {
            length: 1,
            labels: label_at_begin(label),
        }
    }

    /// Whether no label is set. Label 1 is looked at first, since it is set in most shapes that have labels.
    pub(crate) fn is_unlabelled(&self) -> bool
        ensures { result ≡ true → self.now.labels ≡ no_labels }
    {
        self.labels[0] == Row::UNSET && self.labels == [Row::UNSET; 9]
    }

    /// By the length, then by the labels.
    pub(crate) fn cmp(&self, other: &Shape) -> Ordering
        ensures { result ≡ shape_cmp self.now other.now }
    {
        self.length
            .cmp(&other.length)
            .then(self.labels.cmp(&other.labels))
    }

    /// The shape of a match of this shape and one of the other behind it.
    pub(crate) fn followed_by(&self, other: &Shape) -> Shape
        requires length { self.now.length + other.now.length < unset }
        requires labels { AllByRecursion (FitsBehind self.now.length) other.now.labels }
        ensures { result ≡ record { length = self.now.length + other.now.length; labels = united self.now.labels (moved self.now.length other.now.labels) } }
    {
        Shape {
            length: self.length + other.length,
            labels: united_labels(&self.labels, &other.labels, self.length),
        }
    }

    /// The row of a match of this shape, in the text with this number.
    pub(crate) fn row(&self, text: u32, begin: u32) -> Row
        requires length { begin + self.now.length < unset }
        requires labels { AllByRecursion (FitsBehind begin) self.now.labels }
        ensures { result ≡ row_of_shape self.now text begin }
    {
        Row::new(
            Span::new(text, begin, begin + self.length),
            moved_labels(&self.labels, begin),
        )
    }
}

/// The labels of a token under a label, or under none, which is 0.
fn label_at_begin(label: u8) -> [u32; 9]
    ensures { result ≡ labelled label 0 }
{
    let mut labels = [Row::UNSET; 9];
    let at = label as usize;
    if at == 0 || at > 9 {
        return labels;
    }
    labels[at - 1] = 0;
    labels
}

/// The place of a label behind so many tokens.
fn moved_place(place: u32, base: u32) -> u32
    requires { FitsBehind base place }
    ensures { result ≡ (if place == unset then unset else (base + place)) }
{
    if place == Row::UNSET {
        Row::UNSET
    } else {
        base + place
    }
}

/// The places of labels behind so many tokens.
fn moved_labels(labels: &[u32; 9], base: u32) -> [u32; 9]
    requires { AllByRecursion (FitsBehind base) labels.now }
    ensures { result ≡ moved base labels.now }
{
    let mut places = [Row::UNSET; 9];
    for i in 0..9 {
        places[i] = moved_place(labels[i], base);
    }
    places
}

/// The place that a label has in either of two parts, where the first comes first.
fn place_in_either(place: u32, other: u32) -> u32
    ensures { result ≡ place_of_either place other }
{
    if place == Row::UNSET { other } else { place }
}

/// The labels of one part, and of another so many tokens behind it.
fn united_labels(labels: &[u32; 9], others: &[u32; 9], base: u32) -> [u32; 9]
    requires { AllByRecursion (FitsBehind base) others.now }
    ensures { result ≡ united labels.now (moved base others.now) }
{
    let mut places = moved_labels(others, base);
    for i in 0..9 {
        places[i] = place_in_either(labels[i], places[i]);
    }
    places
}
