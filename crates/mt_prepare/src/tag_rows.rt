//! Where the instances of a tag lie in one text, as sets of places and as spans.

ghost use Rattle.std.specs.Prelude.{◌≡◌, ◌↔◌, ℕ, ◌+◌, ◌/◌, ◌<◌, ◌≤◌, length, slice_index_or, IsTrue, OnOk, IfSome, IfNone};
ghost use Rattle.std.specs.List.{All, AllPairs, Contains};
ghost use Rattle.mt_text_spec.specs.Queries as q;
ghost use Rattle.mt_text_spec.specs.Texts as spec;
ghost use Rattle.mt_places.specs.Places.{In, HasJust, room};
ghost use Rattle.mt_prepare.specs.Resolved.{AreSpansOf};
ghost use Rattle.mt_prepare.specs.TagRows.{IsBefore, IsFirstFrom, IsLastOfText, StandBetween, IsLongerAt, IsOfSome, BeginsAt, EndsAt, IsEmptyAt, AreRowsOf};

use mt_base::{List, NoMemory, Span, StructSpan};
use mt_places::Places;
use mt_segment::Segment;
use mt_segment_laws::instances_lie_in_texts;
use std::alloc::Global;

/// Where the instances of a tag lie in the text that was entered last.
#[derive(Drop)]
pub struct TagRows {
    pub(crate) from: usize,
    pub(crate) to: usize,
    pub(crate) begins: Places,
    pub(crate) ends: Places,
    pub(crate) empty: Places,
}

impl TagRows {
    /// No text is entered yet. It takes no memory.
    pub fn new(alloc: Global) -> Result<Self, NoMemory> {
        Ok(TagRows {
            from: 0,
            to: 0,
            begins: Places::none(alloc, 0)?,
            ends: Places::none(alloc, 0)?,
            empty: Places::none(alloc, 0)?,
        })
    }

    /// Enters a text, for a tag of this kind that has these spans in the segment. Memory is taken only where no text was so long before.
    pub fn enter(
        &mut self,
        segment: &Segment,
        text: u32,
        kind: u16,
        spans: &[Span],
    ) -> Result<(), NoMemory>
        requires text { text < length segment.now.texts }
        requires kind { kind < length segment.now.structs }
        requires spans { (test : q.Test) × AreSpansOf segment.now (record { kind = kind; test = test }) spans.now }
        ensures { OnOk result ((test : q.Test) → AreSpansOf segment.now (record { kind = kind; test = test }) spans.now →
            AreRowsOf segment.now text (record { kind = kind; test = test }) spans.now self.new) }
    {
        instances_lie_in_texts();
        let _texts = segment.texts();
        let (first, end) = segment.text_bounds(text);
        let width = ((end - first) / 64) as usize + 1;
        let (from, to) = text_spans(spans, text);
        self.from = from;
        self.to = to;
        self.begins.reset(width)?;
        self.ends.reset(width)?;
        self.empty.reset(width)?;
        add_begins(&mut self.begins, spans, from, to);
        add_ends(&mut self.ends, segment.structs_in(kind, text));
        add_empty(&mut self.empty, spans, from, to);
        Ok(())
    }
}

/// The places from which and before which the spans of a text stand among ascending spans.
fn text_spans(spans: &[Span], text: u32) -> (usize, usize)
    requires sorted { AllPairs IsBefore spans.now }
    requires few { text < 4294967295 }
    ensures stand { StandBetween spans.now text result.0 result.1 }
    ensures order { result.0 ≤ result.1 }
{
    let from = first_from(spans, 0, spans.len(), Span::new(text, 0, 0));
    let to = first_from(spans, from, spans.len(), Span::new(text + 1, 0, 0));
    (from, to)
}

/// Whether a span comes before another.
fn is_before(span: Span, later: Span) -> bool
    ensures { IsTrue result ↔ IsBefore span later }
{
    if span.text() != later.text() {
        return span.text() < later.text();
    }
    if span.begin() != later.begin() {
        return span.begin() < later.begin();
    }
    span.end() < later.end()
}

/// The place of the first span that does not come before a key, where it is known to lie from `from` on and not behind `to`.
fn first_from(spans: &[Span], from: usize, to: usize, key: Span) -> usize
    requires sorted { AllPairs IsBefore spans.now }
    requires order { from ≤ to }
    requires within { to ≤ length spans.now }
    requires before { (k : ℕ) (d : spec.Span) → k < from → IsBefore (slice_index_or spans.now k d) key }
    requires behind { (k : ℕ) (d : spec.Span) → to ≤ k → k < length spans.now → ¬ IsBefore (slice_index_or spans.now k d) key }
    ensures { IsFirstFrom spans.now key result }
{
    let mut low = from;
    let mut high = to;
    while low < high {
        let middle = low + (high - low) / 2;
        if is_before(spans[middle], key) {
            low = middle + 1;
        } else {
            high = middle;
        }
    }
    low
}

/// Puts the begins of spans into an empty set.
fn add_begins(set: &mut Places, spans: &[Span], from: usize, to: usize)
    requires order { from ≤ to }
    requires within { to ≤ length spans.now }
    requires room { (k : ℕ) (d : spec.Span) → from ≤ k → k < to → (slice_index_or spans.now k d).begin < room set.old }
    requires none { (place : ℕ) → ¬ In set.old place }
    ensures width { length set.new ≡ length set.old }
    ensures places { HasJust (IsOfSome BeginsAt spans.now from to) set.new }
{
    for at in from..to {
        let span = spans[at];
        set.insert(span.begin());
    }
}

/// Puts the places of empty spans into an empty set.
fn add_empty(set: &mut Places, spans: &[Span], from: usize, to: usize)
    requires order { from ≤ to }
    requires within { to ≤ length spans.now }
    requires room { (k : ℕ) (d : spec.Span) → from ≤ k → k < to → (slice_index_or spans.now k d).begin < room set.old }
    requires none { (place : ℕ) → ¬ In set.old place }
    ensures width { length set.new ≡ length set.old }
    ensures places { HasJust (IsOfSome IsEmptyAt spans.now from to) set.new }
{
    for at in from..to {
        let span = spans[at];
        if span.begin() == span.end() {
            set.insert(span.begin());
        }
    }
}

/// Puts the ends of instances into an empty set.
fn add_ends(set: &mut Places, instances: &[StructSpan])
    requires room { All (λ span. span.end < room set.old) instances.now }
    requires none { (place : ℕ) → ¬ In set.old place }
    ensures width { length set.new ≡ length set.old }
    ensures places { HasJust (IsOfSome EndsAt instances.now 0 (length instances.now)) set.new }
{
    for at in 0..instances.len() {
        set.insert(instances[at].end());
    }
}

/// The places from which and up to which the first span lies that does not come before a key. It is looked for behind a place that is given, so that each of many keys
/// in a row is found at once.
fn bounds_near(spans: &[Span], from: usize, to: usize, key: Span, near: usize) -> (usize, usize)
    requires sorted { AllPairs IsBefore spans.now }
    requires order { from ≤ to }
    requires within { to ≤ length spans.now }
    requires before { (k : ℕ) (d : spec.Span) → k < from → IsBefore (slice_index_or spans.now k d) key }
    requires behind { (k : ℕ) (d : spec.Span) → to ≤ k → k < length spans.now → ¬ IsBefore (slice_index_or spans.now k d) key }
    ensures order { result.0 ≤ result.1 }
    ensures within { result.1 ≤ length spans.now }
    ensures before { (k : ℕ) (d : spec.Span) → k < result.0 → IsBefore (slice_index_or spans.now k d) key }
    ensures behind { (k : ℕ) (d : spec.Span) → result.1 ≤ k → k < length spans.now → ¬ IsBefore (slice_index_or spans.now k d) key }
{
    if near >= to {
        return (from, to);
    }
    if !is_before(spans[near], key) {
        return (from, to);
    }
    let next = near + 1;
    if next >= to {
        return (next, to);
    }
    if is_before(spans[next], key) {
        return (next, to);
    }
    (next, next)
}

/// Where the span of a text ends that begins at a place and has a token: the shortest such span. `near` is where the one before was found, or any number.
pub(crate) fn longer_end(
    spans: &[Span],
    from: usize,
    to: usize,
    text: u32,
    at: u32,
    near: &mut usize,
) -> Option<u32>
    requires sorted { AllPairs IsBefore spans.now }
    requires stand { StandBetween spans.now text from to }
    requires few { at < 4294967295 }
    ensures some { IfSome result (λ end. IsLongerAt spans.now text at end) }
    ensures none { IfNone result ((end : ℕ) → ¬ IsLongerAt spans.now text at end) }
{
    let key = Span::new(text, at, at + 1);
    let (low, high) = bounds_near(spans, from, to, key, *near);
    let place = first_from(spans, low, high, key);
    *near = place;
    if place >= spans.len() {
        return None;
    }
    let span = spans[place];
    if span.text() == text && span.begin() == at {
        Some(span.end())
    } else {
        None
    }
}

/// How far the spans of a text lead that begin at a place or before: the last of them ends at this place; 0, where there is none.
pub(crate) fn last_end(spans: &[Span], from: usize, to: usize, text: u32, at: u32) -> u32
    requires sorted { AllPairs IsBefore spans.now }
    requires stand { StandBetween spans.now text from to }
    requires few { at < 4294967295 }
    ensures { (begin end : ℕ) → begin ≤ at → Contains spans.now (record { text = text; begin = begin; end = end }) → IsLastOfText spans.now text begin end result }
{
    let place = first_from(spans, from, to, Span::new(text, at + 1, 0));
    if place <= from {
        return 0;
    }
    spans[place - 1].end()
}
