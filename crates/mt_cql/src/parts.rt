//! What is kept of what was read: a part of the query, and what of it is at fault.
//!
//! A part with more nodes than a query may have keeps no tree, but a small one in its place, since it can only be refused. So no tree is deeper than its
//! nodes allow, and to let go of one does not recurse as deep as the text is long.

ghost use Rattle.std.specs.Prelude.{◌≡◌, ◌+◌, map, [], None, IfOk};
ghost use Rattle.mt_text_spec.specs.Queries.{Any, TokenTest, NoMore};
ghost use Rattle.mt_query_spec.specs.Meaning as meaning;
ghost use Rattle.mt_query_laws.specs.Parts as spec;
ghost use Rattle.mt_cql.specs.Shape.{shape, test_shape, filters_shape};
ghost use Rattle.mt_cql.specs.Read.{test_part_seen, joined, part_seen, label_seen, filter_seen, operand_seen, filters_seen, op_seen};

use super::query::{Cond, Expr, Filter, FilterKind, Filters, Test};
use super::stack::Stack;
use mt_base::{List, NoMemory};
use std::alloc::Global;

/// The first of two places, where `left` stands before `right`.
pub fn first_of(left: Option<u32>, right: Option<u32>) -> Option<u32>
    ensures { result ≡ meaning.first_of left right }
{
    match left {
        Some(at) => Some(at),
        None => right,
    }
}

/// The least of two places.
pub fn least_of(left: Option<u32>, right: Option<u32>) -> Option<u32>
    ensures { result ≡ meaning.least_of left right }
{
    match (left, right) {
        (Some(at), Some(other)) => Some(at.min(other)),
        (Some(at), None) => Some(at),
        (None, _) => right,
    }
}

pub fn sum(left: u32, right: u32) -> u32
    ensures { result ≡ spec.capped (left + right) }
{
    left.saturating_add(right)
}

pub fn more(n: u32) -> u32
    ensures { result ≡ spec.capped (n + 1) }
{
    n.saturating_add(1)
}

/// How many nodes a query may have.
pub const MOST_NODES: u32 = 256;

/// A test of so many nodes, or a small one where these are too many.
#[tactic(auto, unfolding(mt_query_laws::specs::Parts::kept))]
fn kept_test(nodes: u32, test: Test) -> Test
    ensures { test_shape result ≡ spec.kept_test nodes (test_shape test) }
{
    if nodes <= MOST_NODES {
        return test;
    }
    drop(test);
    Test::Any
}

/// An expression of a part of so many nodes, or a small one where these are too many.
#[tactic(auto, unfolding(mt_query_laws::specs::Parts::kept))]
fn kept_expr(nodes: u32, expr: Expr) -> Expr
    ensures { shape result ≡ spec.kept_expr nodes (shape expr) }
{
    if nodes <= MOST_NODES {
        return expr;
    }
    drop(expr);
    Expr::Token {
        label: 0,
        test: Test::Any,
    }
}

/// The filters of an operand of so many nodes, or none where these are too many.
#[tactic(auto, unfolding(mt_query_laws::specs::Parts::kept))]
fn kept_chain(nodes: u32, filters: Filters) -> Filters
    ensures { filters_shape result ≡ spec.kept nodes NoMore (filters_shape filters) }
{
    if nodes <= MOST_NODES {
        return filters;
    }
    drop(filters);
    Filters::End
}

/// Filters of so many nodes, or none where these are too many.
#[tactic(auto, unfolding(mt_query_laws::specs::Parts::kept))]
fn kept_filters(nodes: u32, filters: List<Filter>) -> List<Filter>
    ensures { map filter_seen result ≡ spec.kept nodes [] (map filter_seen filters) }
{
    let mut kept = filters;
    if nodes > MOST_NODES {
        kept.truncate(0);
    }
    kept
}

/// A test that was read.
#[derive(Drop)]
pub struct TestPart {
    pub test: Test,
    /// The place of the first name in it that is not declared.
    pub unknown: Option<u32>,
    /// How many tests it has.
    pub nodes: u32,
}

impl TestPart {
    /// No test.
    pub fn none() -> TestPart
        ensures { test_part_seen result ≡ spec.no_test_part }
    {
        TestPart::one(Test::Any, None)
    }

    pub fn one(test: Test, unknown: Option<u32>) -> TestPart
        ensures { test_part_seen result ≡ record { test = test_shape test; unknown = unknown; nodes = 1 } }
    {
        TestPart {
            test,
            unknown,
            nodes: 1,
        }
    }

    pub fn not(alloc: Global, inner: TestPart) -> Result<TestPart, NoMemory>
        ensures { IfOk result (λ p. test_part_seen p ≡ spec.not_part (test_part_seen inner)) }
    {
        let nodes = more(inner.nodes);
        let test = Test::Not(Box::new(alloc, inner.test)?);
        Ok(TestPart {
            test: kept_test(nodes, test),
            unknown: inner.unknown,
            nodes,
        })
    }

    pub fn both(alloc: Global, left: TestPart, right: TestPart) -> Result<TestPart, NoMemory>
        ensures { IfOk result (λ p. test_part_seen p ≡ spec.both_part (test_part_seen left) (test_part_seen right)) }
    {
        let nodes = more(sum(left.nodes, right.nodes));
        let test = Test::Both(Box::new(alloc, left.test)?, Box::new(alloc, right.test)?);
        Ok(TestPart {
            test: kept_test(nodes, test),
            unknown: first_of(left.unknown, right.unknown),
            nodes,
        })
    }

    pub fn either(alloc: Global, left: TestPart, right: TestPart) -> Result<TestPart, NoMemory>
        ensures { IfOk result (λ p. test_part_seen p ≡ spec.either_part (test_part_seen left) (test_part_seen right)) }
    {
        let nodes = more(sum(left.nodes, right.nodes));
        let test = Test::Either(Box::new(alloc, left.test)?, Box::new(alloc, right.test)?);
        Ok(TestPart {
            test: kept_test(nodes, test),
            unknown: first_of(left.unknown, right.unknown),
            nodes,
        })
    }
}

/// What of a part is at fault, and how great it is.
#[derive(Clone, Copy, Drop)]
pub struct Faults {
    /// The least place of a label at fault.
    pub label: Option<u32>,
    /// The least place of a repetition from more to fewer.
    pub range: Option<u32>,
    /// The place of the first name that is not declared.
    pub unknown: Option<u32>,
    pub nodes: u32,
    pub size: u32,
}

impl Faults {
    /// Those of a part that is one item, whose only fault may be a name.
    fn one(unknown: Option<u32>, nodes: u32) -> Faults
        ensures { result ≡ record { label = None; range = None; unknown = unknown; nodes = nodes; size = 1 } }
    {
        Faults {
            label: None,
            range: None,
            unknown,
            nodes,
            size: 1,
        }
    }

    /// Those of two parts, one before the other.
    pub fn join(self, right: Faults) -> Faults
        ensures { result ≡ joined self right }
    {
        Faults {
            label: least_of(self.label, right.label),
            range: least_of(self.range, right.range),
            unknown: first_of(self.unknown, right.unknown),
            nodes: sum(self.nodes, right.nodes),
            size: sum(self.size, right.size),
        }
    }

    /// With one node more.
    fn more(self) -> Faults
        ensures { result ≡ record self { nodes = spec.capped (self.nodes + 1) } }
    {
        Faults {
            nodes: more(self.nodes),
            ..self
        }
    }

    /// With one more place of a label at fault.
    fn and_label(self, at: Option<u32>) -> Faults
        ensures { result ≡ record self { label = meaning.least_of self.label at } }
    {
        Faults {
            label: least_of(self.label, at),
            ..self
        }
    }
}

/// An expression that was read.
#[derive(Drop)]
pub struct Part {
    pub expr: Expr,
    /// Where each label first stands.
    pub labels: [Option<u32>; 9],
    pub faults: Faults,
}

/// A label before a token test, or none.
#[derive(Clone, Copy, Drop)]
pub enum Label {
    NoLabel,
    Labelled { at: u32, number: u32 },
}

/// The place of a label, where it has this number.
fn at_label(n: u32, label: Label) -> Option<u32>
    ensures { result ≡ meaning.at_label n (label_seen label) }
{
    match label {
        Label::NoLabel => None,
        Label::Labelled { at, number } => { if number == n { Some(at) } else { None } }
    }
}

/// Where each label stands in a token test under a label.
fn label_places(label: Label) -> [Option<u32>; 9]
    ensures { result ≡ spec.label_places_of (label_seen label) }
{
    [
        at_label(1, label),
        at_label(2, label),
        at_label(3, label),
        at_label(4, label),
        at_label(5, label),
        at_label(6, label),
        at_label(7, label),
        at_label(8, label),
        at_label(9, label),
    ]
}

fn no_labels() -> [Option<u32>; 9]
    ensures { result ≡ spec.no_labels }
{
    [None, None, None, None, None, None, None, None, None]
}

/// The place of a number that is no label.
fn no_label(label: Label) -> Option<u32>
    ensures { result ≡ meaning.no_label (label_seen label) }
{
    match label {
        Label::NoLabel => None,
        Label::Labelled { at, number } => {
            if number > 0 && number < 10 {
                None
            } else {
                Some(at)
            }
        }
    }
}

/// A label as a query keeps it.
pub fn kept_label(number: u32) -> u8
    ensures { result ≡ meaning.kept_label number }
{
    if number < 10 { number as u8 } else { 0 }
}

fn label_number(label: Label) -> u8
    ensures { result ≡ meaning.label_number (label_seen label) }
{
    match label {
        Label::NoLabel => 0,
        Label::Labelled { at: _, number } => kept_label(number),
    }
}

/// The first place of each label in two parts, one after the other.
fn firsts(left: [Option<u32>; 9], right: [Option<u32>; 9]) -> [Option<u32>; 9]
    ensures { result ≡ spec.firsts left right }
{
    [
        first_of(left[0], right[0]),
        first_of(left[1], right[1]),
        first_of(left[2], right[2]),
        first_of(left[3], right[3]),
        first_of(left[4], right[4]),
        first_of(left[5], right[5]),
        first_of(left[6], right[6]),
        first_of(left[7], right[7]),
        first_of(left[8], right[8]),
    ]
}

/// The least of some places.
fn least(places: &[Option<u32>]) -> Option<u32>
    ensures { result ≡ meaning.least places.now }
{
    match places.split_first() {
        None => None,
        Some((place, others)) => least_of(*place, least(others)),
    }
}

/// The least of the places in a second part of labels that stand in the first one too.
fn least_again(firsts: &[Option<u32>], seconds: &[Option<u32>]) -> Option<u32>
    ensures { result ≡ meaning.least (meaning.again firsts.now seconds.now) }
{
    match firsts.split_first() {
        None => None,
        Some((first, firsts)) => match seconds.split_first() {
            None => None,
            Some((second, seconds)) => {
                let others = least_again(firsts, seconds);
                match first {
                    None => others,
                    Some(_) => least_of(*second, others),
                }
            }
        },
    }
}

impl Part {
    /// Nothing, in the place of a part that is taken.
    pub fn none() -> Part
        ensures { part_seen result ≡ record { expr = TokenTest 0 Any; labels = spec.no_labels; label = None; range = None; unknown = None; nodes = 0; size = 1 } }
    {
        Part {
            expr: Expr::Token {
                label: 0,
                test: Test::Any,
            },
            labels: no_labels(),
            faults: Faults::one(None, 0),
        }
    }

    /// A token test under a label.
    pub fn token(label: Label, test: TestPart) -> Part
        ensures { part_seen result ≡ spec.token_part (label_seen label) (test_part_seen test) }
    {
        let nodes = more(test.nodes);
        let expr = Expr::Token {
            label: label_number(label),
            test: test.test,
        };
        Part {
            expr: kept_expr(nodes, expr),
            labels: label_places(label),
            faults: Faults {
                label: no_label(label),
                ..Faults::one(test.unknown, nodes)
            },
        }
    }

    /// A tag, with the first name in it that is not declared and its nodes.
    pub fn tag(expr: Expr, unknown: Option<u32>, nodes: u32) -> Part
        ensures { part_seen result ≡ record { expr = spec.kept_expr nodes (shape expr); labels = spec.no_labels; label = None; range = None; unknown = unknown; nodes = nodes; size = 1 } }
    {
        Part {
            expr: kept_expr(nodes, expr),
            labels: no_labels(),
            faults: Faults::one(unknown, nodes),
        }
    }

    /// A part so many times, where `turned` is the place of a `{` with the greater number first.
    pub fn repeated(
        alloc: Global,
        inner: Part,
        turns: u32,
        most: u32,
        turned: Option<u32>,
    ) -> Result<Part, NoMemory>
        ensures { IfOk result (λ p. part_seen p ≡ spec.repeats_part (part_seen inner) turns most turned) }
    {
        let under = if 1 < most { least(&inner.labels) } else { None };
        let faults = Faults {
            range: least_of(inner.faults.range, turned),
            size: inner.faults.size.saturating_mul(most.max(1)),
            ..inner.faults.more().and_label(under)
        };
        let expr = Expr::Repeat {
            inner: Box::new(alloc, inner.expr)?,
            least: turns,
            most,
        };
        Ok(Part {
            expr: kept_expr(faults.nodes, expr),
            labels: inner.labels,
            faults,
        })
    }

    /// One part after another.
    pub fn then(alloc: Global, left: Part, right: Part) -> Result<Part, NoMemory>
        ensures { IfOk result (λ p. part_seen p ≡ spec.then_part (part_seen left) (part_seen right)) }
    {
        let again = least_again(&left.labels, &right.labels);
        let faults = left.faults.join(right.faults.and_label(again)).more();
        let expr = Expr::Seq(Box::new(alloc, left.expr)?, Box::new(alloc, right.expr)?);
        Ok(Part {
            expr: kept_expr(faults.nodes, expr),
            labels: firsts(left.labels, right.labels),
            faults,
        })
    }

    /// Either of two parts.
    pub fn or(alloc: Global, left: Part, right: Part) -> Result<Part, NoMemory>
        ensures { IfOk result (λ p. part_seen p ≡ spec.or_part (part_seen left) (part_seen right)) }
    {
        let faults = left.faults.join(right.faults).more();
        let expr = Expr::Choice(Box::new(alloc, left.expr)?, Box::new(alloc, right.expr)?);
        Ok(Part {
            expr: kept_expr(faults.nodes, expr),
            labels: firsts(left.labels, right.labels),
            faults,
        })
    }

    /// What is at fault in the part where it is an operand, in which each label is.
    fn as_operand(&self) -> Faults
        ensures { result ≡ record self.now.faults { label = meaning.least_of self.now.faults.label (meaning.least self.now.labels) } }
    {
        self.faults.and_label(least(&self.labels))
    }
}

/// An operand that was read, with its filters.
#[derive(Drop)]
pub struct OperandPart {
    pub head: Expr,
    pub filters: Filters,
    pub faults: Faults,
}

/// Filters that were read, from left to right.
#[derive(Drop)]
pub struct FiltersPart {
    pub filters: List<Filter>,
    pub faults: Faults,
}

/// The filters of a list, as a query keeps them.
pub fn chained(alloc: Global, filters: List<Filter>) -> Result<Filters, NoMemory>
    ensures { IfOk result (λ chain. filters_shape chain ≡ meaning.chained (map filter_seen filters)) }
{
    let mut filters = Stack::of(filters.into_vec());
    let mut chain = Filters::End;
    while let Some(filter) = filters.pop() {
        chain = Filters::More(Box::new(alloc, filter)?, Box::new(alloc, chain)?);
    }
    Ok(chain)
}

impl OperandPart {
    /// An operand without filters.
    pub fn plain(choice: Part) -> OperandPart
        ensures { operand_seen result ≡ spec.plain_part (part_seen choice) }
    {
        let faults = choice.as_operand();
        OperandPart {
            head: choice.expr,
            filters: Filters::End,
            faults,
        }
    }

    /// An operand with filters.
    pub fn filtered(
        alloc: Global,
        choice: Part,
        filters: FiltersPart,
    ) -> Result<OperandPart, NoMemory>
        ensures { IfOk result (λ o. operand_seen o ≡ spec.with_filters_part (part_seen choice) (filters_seen filters)) }
    {
        let faults = choice.as_operand().join(filters.faults);
        let chain = chained(alloc, filters.filters)?;
        Ok(OperandPart {
            head: kept_expr(faults.nodes, choice.expr),
            filters: kept_chain(faults.nodes, chain),
            faults,
        })
    }
}

impl FiltersPart {
    /// No filters.
    pub fn none(alloc: Global) -> FiltersPart
        ensures { filters_seen result ≡ record { filters = []; label = None; range = None; unknown = None; nodes = 0; size = 1 } }
    {
        FiltersPart {
            filters: List::new(alloc),
            faults: Faults::one(None, 0),
        }
    }

    /// One filter.
    pub fn one(
        alloc: Global,
        kind: FilterKind,
        operand: OperandPart,
    ) -> Result<FiltersPart, NoMemory>
        ensures { IfOk result (λ f. filters_seen f ≡ spec.filter_by (op_seen kind) (operand_seen operand)) }
    {
        let faults = operand.faults.more();
        let mut filters = List::new(alloc);
        filters.push(Filter {
            kind,
            head: operand.head,
            filters: operand.filters,
        })?;
        Ok(FiltersPart {
            filters: kept_filters(faults.nodes, filters),
            faults,
        })
    }

    /// One filter more.
    pub fn more(
        filters: FiltersPart,
        kind: FilterKind,
        operand: OperandPart,
    ) -> Result<FiltersPart, NoMemory>
        ensures { IfOk result (λ f. filters_seen f ≡ spec.more_by (filters_seen filters) (op_seen kind) (operand_seen operand)) }
    {
        let faults = filters.faults.join(operand.faults).more();
        let mut list = filters.filters;
        list.push(Filter {
            kind,
            head: operand.head,
            filters: operand.filters,
        })?;
        Ok(FiltersPart {
            filters: kept_filters(faults.nodes, list),
            faults,
        })
    }
}

/// Conditions that were read.
#[derive(Drop)]
pub struct CondsPart {
    pub conds: List<Cond>,
    pub label: Option<u32>,
    pub unknown: Option<u32>,
    pub nodes: u32,
}
