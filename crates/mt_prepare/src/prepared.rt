//! Queries made ready for segments.

ghost use Rattle.std.specs.Prelude.{◌≡◌, ◌+◌, ◌-◌, ◌<◌, ◌≤◌, ◌∷◌, [], length, IfOk, IfErr, OnOk};
ghost use Rattle.std.specs.List.{All};
ghost use Rattle.mt_text_spec.specs.Queries as q;
ghost use Rattle.mt_query_spec.specs.Contents.{TagPlace, tags, token_tests};
ghost use Rattle.mt_cql.specs.Shape.{test_shape, shape, filters_shape};
ghost use Rattle.mt_eval_spec.specs.Told.{IsFor};
ghost use Rattle.mt_eval_spec.specs.Asked.{test_patterns, expr_patterns, filters_patterns, query_patterns};
ghost use Rattle.mt_text_spec.specs.Queries.{NoMore};
ghost use Rattle.mt_eval_spec.specs.Literals.{AreEquals, FindEach, IsEquals, IsPlain};
ghost use Rattle.mt_eval_spec.specs.RowsIn.{operands};
ghost use Rattle.mt_prepare.specs.Asks.{ExprStands, FiltersName, FiltersStand, HasAttr, HasKind, Names, NamesOnly, TestStands};
ghost use Rattle.mt_prepare.specs.Built.{IsWhole, Blames};
ghost use Rattle.mt_prepare.specs.KnownSpans.{AreSpansKnown};
ghost use Rattle.mt_prepare.specs.Prepared.{AddsExprs, AddsReady, IsReady, IsPrepared};

use super::known_spans::KnownSpans;
use super::patterns::{PatternError, Patterns};
use super::ready_exprs::ReadyExprs;
use super::resolved::Resolved;
use super::shared_spans::SharedSpans;
use super::tags::{spans_of_kind, spans_of_tag};
use super::tests_resolved::resolved_test;
use mt_base::{List, NoMemory, Steps};
use mt_cql::{Expr, Filters, Query, Test};
use mt_pattern::PatternShop;
use mt_segment::Segment;
use std::alloc::Global;
use std::mem::replace;
use std::sync::ledger::Ledger;

/// An expression made ready for a segment: its tests of tokens, and for each of its tags the spans in the segment, each from left to right.
#[derive(Drop)]
pub struct PreparedExpr {
    pub tests: List<Resolved>,
    pub tags: List<SharedSpans>,
}

impl PreparedExpr {
    /// Neither tests nor tags. It takes no memory.
    pub(crate) fn new(alloc: Global) -> Self {
        PreparedExpr {
            tests: List::new(alloc),
            tags: List::new(alloc),
        }
    }
}

/// A query made ready for a segment: its head, and then the operands of its filters, each before those of its own filters.
#[derive(Drop)]
pub struct Prepared {
    pub exprs: List<PreparedExpr>,
}

impl Prepared {
    /// No query yet. It takes no memory.
    pub fn new(alloc: Global) -> Self
        ensures { result.exprs ≡ [] }
    {
        Prepared {
            exprs: List::new(alloc),
        }
    }
}

/// Makes a query ready for a segment: builds its patterns, up to the first one that is not built, and asks them. To find the value of an `==` test takes a step for each
/// value that it is compared with, and a sequence of such tests alone takes no others.
pub fn prepare<P: PatternShop, L: Ledger>(
    alloc: Global,
    query: &Query,
    segment: &Segment,
    shop: &mut P,
    steps: &mut Steps<L>,
) -> Result<Prepared, PatternError>
    requires { IsFor segment.now query.now }
    ensures prepared { IfOk result (λ prepared. IsPrepared segment.now query.now prepared) }
    ensures patterns { OnOk result (All IsWhole (query_patterns query.now)) }
    ensures blames { IfErr result (Blames 1 (query_patterns query.now) (P.refused shop.old) (P.refused shop.new)) }
    ensures kept { OnOk result (P.refused shop.new ≡ P.refused shop.old) }
    ensures rises { steps.old ≤ steps.new }
    ensures finds { IsPlain query.now → FindEach segment.now (token_tests query.now.head) (steps.new - steps.old) }
{
    let mut patterns = Patterns::<P>::build(alloc, query, shop)?;
    let mut known = KnownSpans::new(alloc);
    match patterns.prepare(alloc, query, segment, &mut known, shop, steps) {
        Ok(prepared) => Ok(prepared),
        Err(_) => Err(PatternError::NoMemory),
    }
}

impl<P: PatternShop> Patterns<P> {
    /// Makes the query of these patterns ready for a segment. Spans that are known for the segment are shared, and those that are listed are kept for the next query.
    pub fn prepare<L: Ledger>(
        &mut self,
        alloc: Global,
        query: &Query,
        segment: &Segment,
        known: &mut KnownSpans,
        shop: &mut P,
        steps: &mut Steps<L>,
    ) -> Result<Prepared, NoMemory>
        requires query { IsFor segment.now query.now }
        requires patterns { self.old ≡ query_patterns query.now }
        requires known { AreSpansKnown segment.now known.old }
        ensures known { AreSpansKnown segment.now known.new }
        ensures prepared { IfOk result (λ prepared. IsPrepared segment.now query.now prepared) }
        ensures texts { self.new ≡ self.old }
        ensures kept { P.refused shop.new ≡ P.refused shop.old }
        ensures rises { steps.old ≤ steps.new }
        ensures finds { IsPlain query.now → FindEach segment.now (token_tests query.now.head) (steps.new - steps.old) }
    {
        let mut prepared = Prepared::new(alloc);
        self.prepare_again(alloc, query, segment, &mut prepared, known, shop, steps)?;
        Ok(prepared)
    }

    /// The same, in the memory of a query that was made ready for another segment, and is done with.
    pub fn prepare_again<L: Ledger>(
        &mut self,
        alloc: Global,
        query: &Query,
        segment: &Segment,
        prepared: &mut Prepared,
        known: &mut KnownSpans,
        shop: &mut P,
        steps: &mut Steps<L>,
    ) -> Result<(), NoMemory>
        requires query { IsFor segment.now query.now }
        requires patterns { self.old ≡ query_patterns query.now }
        requires known { AreSpansKnown segment.now known.old }
        ensures known { AreSpansKnown segment.now known.new }
        ensures prepared { OnOk result (IsPrepared segment.now query.now prepared.new) }
        ensures texts { self.new ≡ self.old }
        ensures kept { P.refused shop.new ≡ P.refused shop.old }
        ensures rises { steps.old ≤ steps.new }
        ensures finds { IsPlain query.now → FindEach segment.now (token_tests query.now.head) (steps.new - steps.old) }
    {
        let mut asked = 0;
        let mut exprs = ReadyExprs::over(replace(&mut prepared.exprs, List::new(alloc)));
        exprs.add(
            alloc,
            segment,
            query.head(),
            self,
            &mut asked,
            known,
            shop,
            steps,
        )?;
        add_operands(
            alloc,
            segment,
            query.filters(),
            self,
            &mut asked,
            known,
            shop,
            steps,
            &mut exprs,
        )?;
        prepared.exprs = exprs.into_list();
        Ok(())
    }
}

/// Makes the operands of filters ready and adds them. Their patterns are the next ones of the query, behind those that were asked.
fn add_operands<P: PatternShop, L: Ledger>(
    alloc: Global,
    segment: &Segment,
    filters: &Filters,
    patterns: &mut Patterns<P>,
    asked: &mut usize,
    known: &mut KnownSpans,
    shop: &mut P,
    steps: &mut Steps<L>,
    exprs: &mut ReadyExprs,
) -> Result<(), NoMemory>
    requires known { FiltersName (HasAttr segment.now) (HasKind segment.now) (filters_shape filters.now) }
    requires stands { FiltersStand patterns.old asked.old (filters_shape filters.now) }
    requires spans { AreSpansKnown segment.now known.old }
    ensures spans { AreSpansKnown segment.now known.new }
    ensures ready { OnOk result (AddsExprs segment.now (operands (filters_shape filters.now)) exprs.old exprs.new) }
    ensures asked { OnOk result (asked.new ≡ asked.old + length (filters_patterns (filters_shape filters.now))) }
    ensures texts { patterns.new ≡ patterns.old }
    ensures kept { P.refused shop.new ≡ P.refused shop.old }
    ensures rises { steps.old ≤ steps.new }
    ensures none { filters_shape filters.now ≡ NoMore → steps.new ≡ steps.old }
{
    match filters {
        Filters::End => Ok(()),
        Filters::More(filter, others) => {
            exprs.add(
                alloc,
                segment,
                &filter.head,
                patterns,
                asked,
                known,
                shop,
                steps,
            )?;
            add_operands(
                alloc,
                segment,
                &filter.filters,
                patterns,
                asked,
                known,
                shop,
                steps,
                exprs,
            )?;
            add_operands(
                alloc, segment, others, patterns, asked, known, shop, steps, exprs,
            )
        }
    }
}

/// Makes an expression ready in the memory of another one. Its patterns are the next ones of the query, behind those that were asked.
pub(crate) fn make_ready<P: PatternShop, L: Ledger>(
    alloc: Global,
    segment: &Segment,
    expr: &Expr,
    patterns: &mut Patterns<P>,
    asked: &mut usize,
    known: &mut KnownSpans,
    shop: &mut P,
    steps: &mut Steps<L>,
    ready: &mut PreparedExpr,
) -> Result<(), NoMemory>
    requires known { Names (HasAttr segment.now) (HasKind segment.now) (shape expr.now) }
    requires stands { ExprStands patterns.old asked.old (shape expr.now) }
    requires spans { AreSpansKnown segment.now known.old }
    ensures spans { AreSpansKnown segment.now known.new }
    ensures ready { OnOk result (IsReady segment.now (shape expr.now) ready.new) }
    ensures asked { OnOk result (asked.new ≡ asked.old + length (expr_patterns (shape expr.now))) }
    ensures texts { patterns.new ≡ patterns.old }
    ensures kept { P.refused shop.new ≡ P.refused shop.old }
    ensures rises { steps.old ≤ steps.new }
    ensures finds { AreEquals (shape expr.now) → FindEach segment.now (token_tests (shape expr.now)) (steps.new - steps.old) }
{
    known.empty(alloc, ready);
    add_expr(
        alloc, segment, expr, patterns, asked, known, shop, steps, ready,
    )
}

/// Adds the tests and the tags of an expression.
fn add_expr<P: PatternShop, L: Ledger>(
    alloc: Global,
    segment: &Segment,
    expr: &Expr,
    patterns: &mut Patterns<P>,
    asked: &mut usize,
    known: &mut KnownSpans,
    shop: &mut P,
    steps: &mut Steps<L>,
    ready: &mut PreparedExpr,
) -> Result<(), NoMemory>
    requires known { Names (HasAttr segment.now) (HasKind segment.now) (shape expr.now) }
    requires stands { ExprStands patterns.old asked.old (shape expr.now) }
    requires spans { AreSpansKnown segment.now known.old }
    ensures spans { AreSpansKnown segment.now known.new }
    ensures ready { OnOk result (AddsReady segment.now (token_tests (shape expr.now)) (tags (shape expr.now)) ready.old ready.new) }
    ensures asked { OnOk result (asked.new ≡ asked.old + length (expr_patterns (shape expr.now))) }
    ensures texts { patterns.new ≡ patterns.old }
    ensures kept { P.refused shop.new ≡ P.refused shop.old }
    ensures rises { steps.old ≤ steps.new }
    ensures finds { AreEquals (shape expr.now) → FindEach segment.now (token_tests (shape expr.now)) (steps.new - steps.old) }
{
    match expr {
        Expr::Token { label: _, test } => {
            add_test(alloc, segment, test, patterns, asked, shop, steps, ready)
        }
        Expr::Begin { kind, test } => {
            add_tag(
                alloc, segment, *kind, test, patterns, asked, known, shop, steps, ready,
            )
        }
        Expr::End { kind } => add_end(alloc, segment, *kind, known, steps, ready),
        Expr::Whole { kind, test } => {
            add_tag(
                alloc, segment, *kind, test, patterns, asked, known, shop, steps, ready,
            )
        }
        Expr::Seq(left, right) => {
            add_expr(
                alloc, segment, left, patterns, asked, known, shop, steps, ready,
            )?;
            add_expr(
                alloc, segment, right, patterns, asked, known, shop, steps, ready,
            )
        }
        Expr::Choice(left, right) => {
            add_expr(
                alloc, segment, left, patterns, asked, known, shop, steps, ready,
            )?;
            add_expr(
                alloc, segment, right, patterns, asked, known, shop, steps, ready,
            )
        }
        Expr::Repeat {
            inner,
            least: _,
            most: _,
        } => add_expr(
            alloc, segment, inner, patterns, asked, known, shop, steps, ready,
        ),
    }
}

/// Adds a test of tokens.
fn add_test<P: PatternShop, L: Ledger>(
    alloc: Global,
    segment: &Segment,
    test: &Test,
    patterns: &mut Patterns<P>,
    asked: &mut usize,
    shop: &mut P,
    steps: &mut Steps<L>,
    ready: &mut PreparedExpr,
) -> Result<(), NoMemory>
    requires known { NamesOnly (HasAttr segment.now) (test_shape test.now) }
    requires stands { TestStands patterns.old asked.old (test_shape test.now) }
    ensures ready { OnOk result (AddsReady segment.now (test_shape test.now ∷ []) [] ready.old ready.new) }
    ensures asked { OnOk result (asked.new ≡ asked.old + length (test_patterns (test_shape test.now))) }
    ensures texts { patterns.new ≡ patterns.old }
    ensures kept { P.refused shop.new ≡ P.refused shop.old }
    ensures rises { steps.old ≤ steps.new }
    ensures finds { IsEquals (test_shape test.now) → FindEach segment.now (test_shape test.now ∷ []) (steps.new - steps.old) }
{
    let resolved = resolved_test(alloc, segment, test, patterns, asked, shop, steps)?;
    ready.tests.push(resolved)
}

/// Adds the spans of a tag with a test.
fn add_tag<P: PatternShop, L: Ledger>(
    alloc: Global,
    segment: &Segment,
    kind: u16,
    test: &Test,
    patterns: &mut Patterns<P>,
    asked: &mut usize,
    known: &mut KnownSpans,
    shop: &mut P,
    steps: &mut Steps<L>,
    ready: &mut PreparedExpr,
) -> Result<(), NoMemory>
    requires known { HasKind segment.now kind }
    requires stands { TestStands patterns.old asked.old (test_shape test.now) }
    requires spans { AreSpansKnown segment.now known.old }
    ensures spans { AreSpansKnown segment.now known.new }
    ensures ready { OnOk result ((place : TagPlace) → AddsReady segment.now [] (record { place = place; kind = kind; test = test_shape test.now } ∷ []) ready.old ready.new) }
    ensures asked { OnOk result (asked.new ≡ asked.old + length (test_patterns (test_shape test.now))) }
    ensures texts { patterns.new ≡ patterns.old }
    ensures kept { P.refused shop.new ≡ P.refused shop.old }
    ensures rises { steps.old ≤ steps.new }
{
    let spans = spans_of_tag(
        alloc, segment, kind, test, patterns, asked, known, shop, steps,
    )?;
    ready.tags.push(spans)
}

/// Adds the spans of a closing tag.
fn add_end<L: Ledger>(
    alloc: Global,
    segment: &Segment,
    kind: u16,
    known: &mut KnownSpans,
    steps: &mut Steps<L>,
    ready: &mut PreparedExpr,
) -> Result<(), NoMemory>
    requires known { HasKind segment.now kind }
    requires spans { AreSpansKnown segment.now known.old }
    ensures spans { AreSpansKnown segment.now known.new }
    ensures ready { OnOk result ((place : TagPlace) → AddsReady segment.now [] (record { place = place; kind = kind; test = q.Any } ∷ []) ready.old ready.new) }
    ensures rises { steps.old ≤ steps.new }
{
    let spans = spans_of_kind(alloc, segment, kind, known, steps)?;
    ready.tags.push(spans)
}
