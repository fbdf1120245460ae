//! Tests of tokens resolved in a segment.

ghost use Rattle.std.specs.Prelude.{◌≡◌, ◌+◌, ◌-◌, ◌<◌, ◌≤◌, [], ◌∷◌, length, IfOk, IfSome, OnOk};
ghost use Rattle.mt_text_spec.specs.Queries as q;
ghost use Rattle.mt_cql.specs.Shape.{test_shape};
ghost use Rattle.mt_eval_spec.specs.Asked.{test_patterns};
ghost use Rattle.mt_pattern.specs.Plain.{AcceptsJust};
ghost use Rattle.mt_segment_spec.specs.Tables.{tables_at};
ghost use Rattle.mt_prepare.specs.Asks.{Answers, HasAttr, NamesOnly, StandsAt, TestStands};
ghost use Rattle.mt_eval_spec.specs.Literals.{FindEach, IsEquals};
ghost use Rattle.mt_prepare.specs.Prepared.{IsByNumber};
ghost use Rattle.mt_prepare.specs.Resolved.{Resolves};
ghost use Rattle.mt_prepare.specs.TestRows.{HasAttrs};

use super::known_pattern::KnownPattern;
use super::patterns::Patterns;
use super::resolved::Resolved;
use mt_base::{NoMemory, Steps, Value};
use mt_cql::Test;
use mt_pattern::{IdSet, PatternShop};
use mt_segment::Segment;
use mt_segment_laws::tables_are_whole;
use std::alloc::Global;
use std::sync::ledger::Ledger;

/// In a segment of so few tokens each value is looked for by its posting list, however many tokens have it.
const FEW_TOKENS: u32 = 256;

/// A test of tokens in a segment. Its patterns are the next ones of the query, behind those that were asked. Mostly a test has no parts, and then little is put on the stack
/// for it.
pub(crate) fn resolved_test<P: PatternShop, L: Ledger>(
    alloc: Global,
    segment: &Segment,
    test: &Test,
    patterns: &mut Patterns<P>,
    asked: &mut usize,
    shop: &mut P,
    steps: &mut Steps<L>,
) -> Result<Resolved, NoMemory>
    requires known { NamesOnly (HasAttr segment.now) (test_shape test.now) }
    requires stands { TestStands patterns.old asked.old (test_shape test.now) }
    ensures resolves { IfOk result (λ resolved. Resolves segment.now (test_shape test.now) resolved) }
    ensures number { IfOk result (λ resolved. IsByNumber (test_shape test.now) resolved) }
    ensures attrs { IfOk result (λ resolved. HasAttrs segment.now resolved) }
    ensures asked { OnOk result (asked.new ≡ asked.old + length (test_patterns (test_shape test.now))) }
    ensures texts { patterns.new ≡ patterns.old }
    ensures kept { P.refused shop.new ≡ P.refused shop.old }
    ensures rises { steps.old ≤ steps.new }
    ensures finds { IsEquals (test_shape test.now) → FindEach segment.now (test_shape test.now ∷ []) (steps.new - steps.old) }
{
    match test {
        Test::Any => Ok(Resolved::Any),
        Test::Pattern { attr, text, not } => {
            resolved_pattern(alloc, segment, *attr, text, *not, patterns, asked, shop)
        }
        Test::Literal { attr, text, not } => {
            Ok(resolved_literal(segment, *attr, text, *not, steps))
        }
        _ => resolved_with_parts(alloc, segment, test, patterns, asked, shop, steps),
    }
}

/// A test that may have parts, in a segment. Its patterns are the next ones of the query, behind those that were asked.
#[inline(never)]
fn resolved_with_parts<P: PatternShop, L: Ledger>(
    alloc: Global,
    segment: &Segment,
    test: &Test,
    patterns: &mut Patterns<P>,
    asked: &mut usize,
    shop: &mut P,
    steps: &mut Steps<L>,
) -> Result<Resolved, NoMemory>
    requires known { NamesOnly (HasAttr segment.now) (test_shape test.now) }
    requires stands { TestStands patterns.old asked.old (test_shape test.now) }
    ensures resolves { IfOk result (λ resolved. Resolves segment.now (test_shape test.now) resolved) }
    ensures number { IfOk result (λ resolved. IsByNumber (test_shape test.now) resolved) }
    ensures attrs { IfOk result (λ resolved. HasAttrs segment.now resolved) }
    ensures asked { OnOk result (asked.new ≡ asked.old + length (test_patterns (test_shape test.now))) }
    ensures texts { patterns.new ≡ patterns.old }
    ensures kept { P.refused shop.new ≡ P.refused shop.old }
    ensures rises { steps.old ≤ steps.new }
    ensures finds { IsEquals (test_shape test.now) → FindEach segment.now (test_shape test.now ∷ []) (steps.new - steps.old) }
{
    match test {
        Test::Any => Ok(Resolved::Any),
        Test::Pattern { attr, text, not } => {
            resolved_pattern(alloc, segment, *attr, text, *not, patterns, asked, shop)
        }
        Test::Literal { attr, text, not } => {
            Ok(resolved_literal(segment, *attr, text, *not, steps))
        }
        Test::Not(inner) => {
            let inner = resolved_with_parts(alloc, segment, inner, patterns, asked, shop, steps)?;
            Ok(Resolved::Not(Box::new(alloc, inner)?))
        }
        Test::Both(left, right) => {
            let left = resolved_with_parts(alloc, segment, left, patterns, asked, shop, steps)?;
            let right = resolved_with_parts(alloc, segment, right, patterns, asked, shop, steps)?;
            Ok(Resolved::Both(Box::new(alloc, left)?, Box::new(alloc, right)?))
        }
        Test::Either(left, right) => {
            let left = resolved_with_parts(alloc, segment, left, patterns, asked, shop, steps)?;
            let right = resolved_with_parts(alloc, segment, right, patterns, asked, shop, steps)?;
            Ok(Resolved::Either(Box::new(alloc, left)?, Box::new(alloc, right)?))
        }
    }
}

/// A pattern by the numbers of the values that it accepts: it is the next one of the query.
fn resolved_pattern<P: PatternShop>(
    alloc: Global,
    segment: &Segment,
    attr: u16,
    text: &Value,
    not: bool,
    patterns: &mut Patterns<P>,
    asked: &mut usize,
    shop: &mut P,
) -> Result<Resolved, NoMemory>
    requires known { attr < length segment.now.attrs }
    requires stands { StandsAt patterns.old asked.old text.now }
    ensures resolves { IfOk result (λ resolved. Resolves segment.now (q.Pattern attr text.now not) resolved) }
    ensures attrs { IfOk result (λ resolved. HasAttrs segment.now resolved) }
    ensures asked { OnOk result (asked.new ≡ asked.old + 1) }
    ensures texts { patterns.new ≡ patterns.old }
    ensures kept { P.refused shop.new ≡ P.refused shop.old }
{
    if let Some(resolved) = by_number(segment, attr, patterns.at(*asked), not) {
        *asked += 1;
        return Ok(resolved);
    }
    let ids = patterns.next_ids(alloc, asked, segment.lexicon(attr), shop)?;
    Ok(accepted(segment, attr, text, ids, not))
}

/// A pattern that accepts one value by the number of it, where its places are best found by its posting list.
fn by_number<P: PatternShop>(
    segment: &Segment,
    attr: u16,
    pattern: &KnownPattern<P>,
    not: bool,
) -> Option<Resolved>
    requires { attr < length segment.now.attrs }
    ensures resolves { IfSome result (λ resolved. Resolves segment.now (q.Pattern attr pattern.now not) resolved) }
    ensures attrs { IfSome result (λ resolved. HasAttrs segment.now resolved) }
{
    if !pattern.is_plain() {
        return None;
    }
    let id = pattern.own_number(segment.lexicon(attr));
    if is_listed(segment, attr, id) {
        Some(numbered(segment, attr, pattern, id, not))
    } else {
        None
    }
}

/// A pattern that accepts one value by this number of it.
fn numbered<P: PatternShop>(
    segment: &Segment,
    attr: u16,
    pattern: &KnownPattern<P>,
    id: Option<u32>,
    not: bool,
) -> Resolved
    requires known { attr < length segment.now.attrs }
    requires just { AcceptsJust pattern.now (tables_at segment.now.attrs attr).lexicon id }
    ensures resolves { Resolves segment.now (q.Pattern attr pattern.now not) result }
    ensures attrs { HasAttrs segment.now result }
{
    tables_are_whole();
    let _valid = segment.texts();
    Resolved::One { attr, id, not }
}

/// Whether the places of a value are best found by its posting list: the segment has few tokens, or few of them have the value.
fn is_listed(segment: &Segment, attr: u16, id: Option<u32>) -> bool
    requires { attr < length segment.now.attrs }
{
    if segment.tokens() <= FEW_TOKENS {
        return true;
    }
    let Some(id) = id else {
        return true;
    };
    id >= segment.lexicon(attr).len() || segment.postings(attr, id).len() <= segment.tokens() / 16
}

/// A pattern by the set of those numbers.
fn accepted(segment: &Segment, attr: u16, text: &Value, ids: IdSet, not: bool) -> Resolved
    requires known { attr < length segment.now.attrs }
    requires answered { Answers segment.now attr text.now ids }
    ensures resolves { Resolves segment.now (q.Pattern attr text.now not) result }
    ensures attrs { HasAttrs segment.now result }
{
    tables_are_whole();
    let _valid = segment.texts();
    Resolved::Some { attr, ids, not }
}

/// A literal by the number of its value.
fn resolved_literal<L: Ledger>(
    segment: &Segment,
    attr: u16,
    text: &Value,
    not: bool,
    steps: &mut Steps<L>,
) -> Resolved
    requires known { attr < length segment.now.attrs }
    ensures resolves { Resolves segment.now (q.Literal attr text.now not) result }
    ensures number { IsByNumber (q.Literal attr text.now not) result }
    ensures attrs { HasAttrs segment.now result }
    ensures rises { steps.old ≤ steps.new }
    ensures finds { FindEach segment.now (q.Literal attr text.now not ∷ []) (steps.new - steps.old) }
{
    tables_are_whole();
    let _valid = segment.texts();
    let lexicon = segment.lexicon(attr);
    let _ascending = lexicon.len();
    let id = lexicon.find(text.as_str(), steps);
    Resolved::One { attr, id, not }
}
