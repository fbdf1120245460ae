//! By which of its tests a sequence of tests of tokens is looked for.

ghost use Rattle.std.specs.Prelude.{◌≡◌, [], ◌+◌, ◌<◌, length, slice_index_or, IfSome, IfNone};
ghost use Rattle.std.specs.Bool.{Decides};
ghost use Rattle.std.specs.List.{All};
ghost use Rattle.mt_cql.specs.Shape.{shape};
ghost use Rattle.mt_segment_spec.specs.Tables.{tables_at};
ghost use Rattle.mt_prepare.specs.TestRows.{HasAttrs};
ghost use Rattle.mt_eval.specs.Sequences.{IsOne, IsSequence, positions_of};
ghost use Rattle.mt_eval.specs.Rarest.{IsBest, IsRarest};

use super::sequence::is_sequence;
use mt_cql::Expr;
use mt_postings::Postings;
use mt_prepare::Resolved;
use mt_segment::Segment;
use mt_segment_laws::tables_are_whole;

/// A test of one value, by its number, and how many positions its value has.
#[derive(Clone, Copy, Drop)]
pub(crate) struct Rare {
    pub(crate) number: usize,
    pub(crate) positions: u32,
}

/// Whether a test is one of one value.
fn is_one(test: &Resolved) -> bool
    ensures { Decides result (IsOne test.now) }
{
    match test {
        Resolved::Any => false,
        Resolved::One {
            attr: _,
            id: _,
            not,
        } => !*not,
        Resolved::Some {
            attr: _,
            ids: _,
            not: _,
        } => false,
        Resolved::Not(_) => false,
        Resolved::Both(_, _) => false,
        Resolved::Either(_, _) => false,
    }
}

/// Whether all tests are such.
fn are_ones(tests: &[Resolved]) -> bool
    ensures { Decides result (All IsOne tests.now) }
{
    for test in tests {
        if !is_one(test) {
            return false;
        }
    }
    true
}

/// The positions of a value, where its number is one of the attribute's.
fn listed(segment: &Segment, attr: u16, id: u32) -> Option<&Postings>
    requires { attr < length segment.now.attrs }
    ensures some { IfSome result (λ list. list.now ≡ slice_index_or (tables_at segment.entry.now.attrs attr).postings id []) }
    ensures none { IfNone result (slice_index_or (tables_at segment.entry.now.attrs attr).postings id [] ≡ []) }
{
    tables_are_whole();
    let _valid = segment.texts();
    if id < segment.lexicon(attr).len() {
        Some(segment.postings(attr, id))
    } else {
        None
    }
}

/// The positions of the value of a test, where there are some.
pub(crate) fn positions<'a>(segment: &'a Segment, test: &Resolved) -> Option<&'a Postings>
    requires { HasAttrs segment.now test.now }
    ensures some { IfSome result (λ list. list.now ≡ positions_of segment.entry.now test.now) }
    ensures none { IfNone result (positions_of segment.entry.now test.now ≡ []) }
{
    match test {
        Resolved::Any => None,
        Resolved::One {
            attr,
            id: Some(id),
            not: _,
        } => listed(segment, *attr, *id),
        Resolved::One {
            attr: _,
            id: None,
            not: _,
        } => None,
        Resolved::Some {
            attr: _,
            ids: _,
            not: _,
        } => None,
        Resolved::Not(_) => None,
        Resolved::Both(_, _) => None,
        Resolved::Either(_, _) => None,
    }
}

/// How many positions the value of a test has.
fn count(segment: &Segment, test: &Resolved) -> u32
    requires { HasAttrs segment.now test.now }
    ensures { result ≡ length (positions_of segment.now test.now) }
{
    match positions(segment, test) {
        Some(list) => list.len(),
        None => 0,
    }
}

/// The rarest of the tests of one value among those up to one more.
fn with_next(
    segment: &Segment,
    tests: &[Resolved],
    number: usize,
    best: Option<Rare>,
) -> Option<Rare>
    requires attrs { All (HasAttrs segment.now) tests.now }
    requires within { number < length tests.now }
    requires best { IsBest segment.now tests.now number best }
    ensures { IsBest segment.now tests.now (number + 1) result }
{
    if !is_one(&tests[number]) {
        return best;
    }
    let positions = count(segment, &tests[number]);
    if let Some(rare) = best {
        if rare.positions <= positions {
            return best;
        }
    }
    Some(Rare { number, positions })
}

/// The rarest of the tests of one value.
fn rarest(segment: &Segment, tests: &[Resolved]) -> Option<Rare>
    requires { All (HasAttrs segment.now) tests.now }
    ensures { IsBest segment.now tests.now (length tests.now) result }
{
    let mut best = None;
    for number in 0..tests.len() {
        best = with_next(segment, tests, number, best);
    }
    best
}

/// The number of the test that an expression is looked for by, where it is a sequence: the rarest of its tests of one value, if all of them are such or there are few
/// places to look at.
pub(crate) fn looked_by(segment: &Segment, expr: &Expr, tests: &[Resolved]) -> Option<usize>
    requires { All (HasAttrs segment.now) tests.now }
    ensures some { IfSome result (λ number. IsSequence (shape expr.now) × IsRarest segment.now tests.now (length tests.now) number) }
    ensures none { IfNone result (IsSequence (shape expr.now) → All IsOne tests.now → length tests.now ≡ 0) }
{
    if !is_sequence(expr) {
        return None;
    }
    let Some(rare) = rarest(segment, tests) else {
        return None;
    };
    if are_ones(tests) || rare.positions <= segment.tokens() / 16 {
        Some(rare.number)
    } else {
        None
    }
}
