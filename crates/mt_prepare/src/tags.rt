//! The spans of tags.

ghost use Rattle.std.specs.Prelude.{◌≡◌, ◌+◌, ◌<◌, ◌≤◌, [], length, IfOk, OnOk};
ghost use Rattle.std.specs.List.Retain.{IsFiltered, DiffersFromLast};
ghost use Rattle.std.specs.Ordering.{eq_by_cmp};
ghost use Rattle.mt_text_spec.specs.Orders.{span_cmp};
ghost use Rattle.mt_text_spec.specs.Queries as q;
ghost use Rattle.mt_cql.specs.Shape.{test_shape};
ghost use Rattle.mt_match_spec.specs.Rows.{ListsAll};
ghost use Rattle.mt_eval_spec.specs.Asked.{test_patterns};
ghost use Rattle.mt_prepare.specs.Asks.{HasKind, TestStands};
ghost use Rattle.mt_prepare.specs.Judges.{AddsFound, IsFound, IsFoundBelow};
ghost use Rattle.mt_prepare.specs.KnownSpans.{AreSpansKnown};
ghost use Rattle.mt_prepare.specs.Resolved.{AreSpansOf};

use super::judges::{Judge, judge_of};
use super::known_spans::KnownSpans;
use super::patterns::Patterns;
use super::shared_spans::SharedSpans;
use mt_base::{List, NoMemory, Span, Steps, StructSpan};
use mt_cql::Test;
use mt_pattern::PatternShop;
use mt_segment::Segment;
use std::alloc::Global;
use std::sync::ledger::Ledger;

/// The spans of the instances of a kind in a segment that meet a test. Its patterns are the next ones of the query, behind those that were asked.
pub(crate) fn spans_of_tag<P: PatternShop, L: Ledger>(
    alloc: Global,
    segment: &Segment,
    kind: u16,
    test: &Test,
    patterns: &mut Patterns<P>,
    asked: &mut usize,
    known: &mut KnownSpans,
    shop: &mut P,
    steps: &mut Steps<L>,
) -> Result<SharedSpans, NoMemory>
    requires known { HasKind segment.now kind }
    requires stands { TestStands patterns.old asked.old (test_shape test.now) }
    requires spans { AreSpansKnown segment.now known.old }
    ensures listed { AreSpansKnown segment.now known.new }
    ensures spans { IfOk result (λ spans. AreSpansOf segment.now (record { kind = kind; test = test_shape test.now }) spans) }
    ensures asked { OnOk result (asked.new ≡ asked.old + length (test_patterns (test_shape test.now))) }
    ensures texts { patterns.new ≡ patterns.old }
    ensures kept { P.refused shop.new ≡ P.refused shop.old }
    ensures rises { steps.old ≤ steps.new }
{
    match test {
        Test::Any => spans_of_kind(alloc, segment, kind, known, steps),
        _ => {
            let spans = spans_judged(
                alloc, segment, kind, test, patterns, asked, known, shop, steps,
            )?;
            SharedSpans::new(alloc, spans)
        }
    }
}

/// The same, each instance judged by the test. Its patterns are the next ones of the query, behind those that were asked.
fn spans_judged<P: PatternShop, L: Ledger>(
    alloc: Global,
    segment: &Segment,
    kind: u16,
    test: &Test,
    patterns: &mut Patterns<P>,
    asked: &mut usize,
    known: &mut KnownSpans,
    shop: &mut P,
    steps: &mut Steps<L>,
) -> Result<List<Span>, NoMemory>
    requires known { HasKind segment.now kind }
    requires stands { TestStands patterns.old asked.old (test_shape test.now) }
    requires spans { AreSpansKnown segment.now known.old }
    ensures listed { AreSpansKnown segment.now known.new }
    ensures spans { IfOk result (λ spans. AreSpansOf segment.now (record { kind = kind; test = test_shape test.now }) spans) }
    ensures asked { OnOk result (asked.new ≡ asked.old + length (test_patterns (test_shape test.now))) }
    ensures texts { patterns.new ≡ patterns.old }
    ensures kept { P.refused shop.new ≡ P.refused shop.old }
    ensures rises { steps.old ≤ steps.new }
{
    let judge = judge_of(alloc, segment, kind, test, patterns, asked, shop)?;
    let spans = known.spans(alloc, 0)?;
    spans_of(spans, segment, kind, &judge, steps)
}

/// The spans of all instances of a kind in a segment. Those that are known are not listed again.
pub(crate) fn spans_of_kind<L: Ledger>(
    alloc: Global,
    segment: &Segment,
    kind: u16,
    known: &mut KnownSpans,
    steps: &mut Steps<L>,
) -> Result<SharedSpans, NoMemory>
    requires known { HasKind segment.now kind }
    requires spans { AreSpansKnown segment.now known.old }
    ensures listed { AreSpansKnown segment.now known.new }
    ensures spans { IfOk result (λ spans. AreSpansOf segment.now (record { kind = kind; test = q.Any }) spans) }
    ensures rises { steps.old ≤ steps.new }
{
    if let Some(spans) = known.find(kind) {
        return spans.share();
    }
    let spans = list_kind(alloc, segment, kind, known, steps)?;
    let shared = SharedSpans::new(alloc, spans)?;
    known.keep(kind, &shared);
    Ok(shared)
}

/// Lists the spans of all instances of a kind in a segment.
fn list_kind<L: Ledger>(
    alloc: Global,
    segment: &Segment,
    kind: u16,
    known: &mut KnownSpans,
    steps: &mut Steps<L>,
) -> Result<List<Span>, NoMemory>
    requires known { HasKind segment.now kind }
    requires spans { AreSpansKnown segment.now known.old }
    ensures listed { AreSpansKnown segment.now known.new }
    ensures spans { IfOk result (λ spans. AreSpansOf segment.now (record { kind = kind; test = q.Any }) spans) }
    ensures rises { steps.old ≤ steps.new }
{
    let spans = known.spans(alloc, segment.structs(kind).len())?;
    spans_of(spans, segment, kind, &Judge::Any, steps)
}

/// The spans of the instances of a kind in a segment that are found, in a list that has none.
fn spans_of<L: Ledger>(
    spans: Vec<Span>,
    segment: &Segment,
    kind: u16,
    judge: &Judge<'_>,
    steps: &mut Steps<L>,
) -> Result<List<Span>, NoMemory>
    requires none { spans.items ≡ [] }
    requires known { HasKind segment.now kind }
    ensures spans { IfOk result (λ spans. ListsAll span_cmp (IsFoundBelow segment.now kind judge.now (length segment.now.texts)) spans) }
    ensures rises { steps.old ≤ steps.new }
{
    let mut spans = found(spans, segment, kind, judge, steps)?;
    spans.sort_unstable();
    keep_distinct(&mut spans);
    Ok(List::from_vec(spans))
}

/// Keeps the first of equal spans that stand side by side.
fn keep_distinct(spans: &mut Vec<Span>)
    ensures { IsFiltered (DiffersFromLast (eq_by_cmp span_cmp)) [] spans.old.items spans.new.items }
{
    spans.dedup();
}

/// The span of each instance that is found, in a list that has none.
fn found<L: Ledger>(
    mut spans: Vec<Span>,
    segment: &Segment,
    kind: u16,
    judge: &Judge<'_>,
    steps: &mut Steps<L>,
) -> Result<Vec<Span>, NoMemory>
    requires none { spans.items ≡ [] }
    requires known { HasKind segment.now kind }
    ensures found { IfOk result (λ spans. AddsFound (IsFoundBelow segment.now kind judge.now (length segment.now.texts)) [] spans.items) }
    ensures rises { steps.old ≤ steps.new }
{
    for text in 0..segment.texts() {
        add_found(
            segment.structs_in(kind, text),
            text,
            judge,
            steps,
            &mut spans,
        )?;
    }
    Ok(spans)
}

/// Adds the spans of the instances in a text that are found.
fn add_found<L: Ledger>(
    instances: &[StructSpan],
    text: u32,
    judge: &Judge<'_>,
    steps: &mut Steps<L>,
    spans: &mut Vec<Span>,
) -> Result<(), NoMemory>
    ensures found { OnOk result (AddsFound (IsFound instances.now text judge.now) spans.old.items spans.new.items) }
    ensures rises { steps.old ≤ steps.new }
{
    for instance in instances {
        if judge.finds(instance, steps) {
            spans.push(span_in(text, instance))?;
        }
    }
    Ok(())
}

/// The span of an instance in a text.
fn span_in(text: u32, instance: &StructSpan) -> Span
    ensures { result ≡ record { text = text; begin = instance.now.begin; end = instance.now.end } }
{
    Span::new(text, instance.begin(), instance.end())
}
