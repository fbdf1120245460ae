//! Tests of instances of structures.

ghost use Rattle.std.specs.Prelude.{◌≡◌, ℕ, List as Items, ◌+◌, ◌<◌, ◌≤◌, length, cond, not, IfOk, OnOk};
ghost use Rattle.std.specs.Bool.{Decides};
ghost use Rattle.std.specs.List.{All, Contains};
ghost use Rattle.mt_text_spec.specs.Queries as q;
ghost use Rattle.mt_cql.specs.Shape.{test_shape};
ghost use Rattle.mt_eval_spec.specs.Asked.{test_patterns};
ghost use Rattle.mt_prepare.specs.Asks.{HasKind, StandsAt, TestStands};
ghost use Rattle.mt_prepare.specs.Judges.{Finds, JudgesIn, HaveValuesOf, AddsValues, IsFoundIn, value_in};

use super::patterns::Patterns;
use mt_base::{NoMemory, Steps, StructSpan, Value};
use mt_cql::Test;
use mt_lexicon::{Lexicon, LexiconBuilder};
use mt_pattern::{IdSet, PatternShop};
use mt_segment::Segment;
use std::alloc::Global;
use std::marker::Model;
use std::sync::ledger::Ledger;

/// A test of instances of structures. A pattern has the distinct values of its attribute, and the numbers of those that it accepts.
#[derive(Drop)]
pub(crate) enum Judge<'a> {
    Any,
    Accepted {
        attr: u16,
        values: Lexicon,
        ids: IdSet,
        not: bool,
    },
    Equal {
        attr: u16,
        text: &'a Value,
        not: bool,
    },
    Not(Box<Judge<'a>>),
    Both(Box<Judge<'a>>, Box<Judge<'a>>),
    Either(Box<Judge<'a>>, Box<Judge<'a>>),
}

impl<'a> Judge<'a> {
    /// Whether an instance meets the test.
    pub(crate) fn finds<L: Ledger>(&self, span: &StructSpan, steps: &mut Steps<L>) -> bool
        ensures found { Decides result (Finds self.now span.now) }
        ensures rises { steps.old ≤ steps.new }
    {
        match self {
            Judge::Any => true,
            Judge::Accepted {
                attr,
                values,
                ids,
                not,
            } => unless(*not, is_accepted(values, ids, value_of(span, *attr), steps)),
            Judge::Equal { attr, text, not } => unless(
                *not,
                value_of(span, *attr) == text.as_str(),
            ),
            Judge::Not(inner) => !inner.finds(span, steps),
            Judge::Both(left, right) => {
                let left = left.finds(span, steps);
                let right = right.finds(span, steps);
                left && right
            }
            Judge::Either(left, right) => {
                let left = left.finds(span, steps);
                let right = right.finds(span, steps);
                left || right
            }
        }
    }
}

/// Whether a fact holds, or, where it is negated, does not.
fn unless(negated: bool, fact: bool) -> bool
    ensures { result ≡ cond negated (not fact) fact }
{
    if negated { !fact } else { fact }
}

/// Whether a value is one of those that are accepted.
fn is_accepted<L: Ledger>(values: &Lexicon, ids: &IdSet, value: &str, steps: &mut Steps<L>) -> bool
    ensures found { Decides result (IsFoundIn values.now ids.now value.now) }
    ensures rises { steps.old ≤ steps.new }
{
    let _ascending = values.len();
    match values.find(value, steps) {
        Some(id) => ids.has(id),
        None => false,
    }
}

/// The value of an attribute of an instance's kind; one that it lacks is empty.
fn value_of(span: &StructSpan, attr: u16) -> &str
    ensures { result.now ≡ value_in attr span.now }
{
    let values = span.values();
    if attr as usize >= values.len() {
        return "";
    }
    values.get(attr as usize).as_str()
}

/// Distinct values, in the order in which they were first seen.
#[derive(Drop)]
struct Values {
    builder: LexiconBuilder,
    added: u32,
}

impl Model for Values {
    ghost use Rattle.std.specs.Prelude.{ℕ, ◌≤◌, List, length};

    ghost Value = { List (List ℕ) };

    ghost view = { λ v. v.builder };

    ghost invariant = { λ v. length v.builder ≤ v.added };
}

impl Values {
    /// No values.
    fn new(alloc: Global) -> Result<Self, NoMemory> {
        Ok(Values {
            builder: LexiconBuilder::new(alloc)?,
            added: 0,
        })
    }

    /// Adds a value.
    fn add(&mut self, value: &str) -> Result<(), NoMemory>
        ensures kept { OnOk result ((other : Items ℕ) → Contains self.old other → Contains self.new other) }
        ensures has { OnOk result (Contains self.new value.now) }
    {
        if self.added == u32::MAX {
            return Err(NoMemory);
        }
        self.builder.add(value)?;
        self.added += 1;
        Ok(())
    }

    /// Adds the values of some instances.
    fn add_all(&mut self, spans: &[StructSpan], attr: u16) -> Result<(), NoMemory>
        ensures { OnOk result (AddsValues attr spans.now self.old self.new) }
    {
        for span in spans {
            self.add(value_of(span, attr))?;
        }
        Ok(())
    }

    /// The lexicon of the values.
    fn finish(self) -> Result<Lexicon, NoMemory>
        ensures { IfOk result (λ lexicon. All (Contains lexicon) self) }
    {
        Ok(self.builder.finish()?.0)
    }
}

/// The distinct values that the instances of a kind in a segment have of an attribute.
fn distinct_values(
    alloc: Global,
    segment: &Segment,
    kind: u16,
    attr: u16,
) -> Result<Lexicon, NoMemory>
    requires { HasKind segment.now kind }
    ensures { IfOk result (λ values. HaveValuesOf segment.now kind attr values) }
{
    let mut values = Values::new(alloc)?;
    values.add_all(segment.structs(kind), attr)?;
    values.finish()
}

/// A test of a kind's instances in a segment. Its patterns are the next ones of the query, behind those that were asked.
pub(crate) fn judge_of<'a, P: PatternShop>(
    alloc: Global,
    segment: &Segment,
    kind: u16,
    test: &'a Test,
    patterns: &mut Patterns<P>,
    asked: &mut usize,
    shop: &mut P,
) -> Result<Judge<'a>, NoMemory>
    requires known { HasKind segment.now kind }
    requires stands { TestStands patterns.old asked.old (test_shape test.now) }
    ensures judges { IfOk result (λ judge. JudgesIn segment.now kind (test_shape test.now) judge) }
    ensures asked { OnOk result (asked.new ≡ asked.old + length (test_patterns (test_shape test.now))) }
    ensures texts { patterns.new ≡ patterns.old }
    ensures kept { P.refused shop.new ≡ P.refused shop.old }
{
    match test {
        Test::Any => Ok(Judge::Any),
        Test::Pattern { attr, text, not } => {
            accepted(
                alloc, segment, kind, *attr, text, *not, patterns, asked, shop,
            )
        }
        Test::Literal { attr, text, not } => Ok(Judge::Equal {
            attr: *attr,
            text,
            not: *not,
        }),
        Test::Not(inner) => {
            let inner = judge_of(alloc, segment, kind, inner, patterns, asked, shop)?;
            Ok(Judge::Not(Box::new(alloc, inner)?))
        }
        Test::Both(left, right) => {
            let left = judge_of(alloc, segment, kind, left, patterns, asked, shop)?;
            let right = judge_of(alloc, segment, kind, right, patterns, asked, shop)?;
            Ok(Judge::Both(Box::new(alloc, left)?, Box::new(alloc, right)?))
        }
        Test::Either(left, right) => {
            let left = judge_of(alloc, segment, kind, left, patterns, asked, shop)?;
            let right = judge_of(alloc, segment, kind, right, patterns, asked, shop)?;
            Ok(Judge::Either(Box::new(alloc, left)?, Box::new(alloc, right)?))
        }
    }
}

/// The test that a pattern, which is the next one of the query, accepts the value.
fn accepted<'a, P: PatternShop>(
    alloc: Global,
    segment: &Segment,
    kind: u16,
    attr: u16,
    text: &Value,
    not: bool,
    patterns: &mut Patterns<P>,
    asked: &mut usize,
    shop: &mut P,
) -> Result<Judge<'a>, NoMemory>
    requires known { HasKind segment.now kind }
    requires stands { StandsAt patterns.old asked.old text.now }
    ensures judges { IfOk result (λ judge. JudgesIn segment.now kind (q.Pattern attr text.now not) judge) }
    ensures asked { OnOk result (asked.new ≡ asked.old + 1) }
    ensures texts { patterns.new ≡ patterns.old }
    ensures kept { P.refused shop.new ≡ P.refused shop.old }
{
    let values = distinct_values(alloc, segment, kind, attr)?;
    let ids = patterns.next_ids(alloc, asked, &values, shop)?;
    Ok(Judge::Accepted {
        attr,
        values,
        ids,
        not,
    })
}
