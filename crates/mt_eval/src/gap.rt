//! Sequences of tests of tokens in which one gap stands: one test of a token with no label, so many times.

ghost use Rattle.std.specs.Prelude.{◌≡◌, ◌+◌, ◌<◌, length, IfSome};
ghost use Rattle.std.specs.List.{All, AllZip};
ghost use Rattle.mt_query_spec.specs.Contents.{token_tests};
ghost use Rattle.mt_cql.specs.Shape.{shape};
ghost use Rattle.mt_match_spec.specs.Labels.{united};
ghost use Rattle.mt_prepare.specs.Resolved.{Resolves};
ghost use Rattle.mt_prepare.specs.TestRows.{HasAttrs};
ghost use Rattle.mt_segment_spec.specs.Tables.{Tables};
ghost use Rattle.mt_eval.specs.Sequences.{IsSequence};
ghost use Rattle.mt_eval.specs.Gapped.{AreTestsAround, HasGap, labels_over, row_over, width_over};

use super::every::is_unlabelled;
use super::sequence::{is_sequence, with_label};
use mt_base::{Row, Span};
use mt_cql::Expr;
use mt_prepare::Resolved;

/// A gap: how many tests stand before it, and how many tokens it has at least and at most.
#[derive(Clone, Copy, Drop)]
pub(crate) struct Gap {
    pub(crate) before: u32,
    pub(crate) least: u32,
    pub(crate) most: u32,
}

/// How many tests a sequence has.
fn tests_in(expr: &Expr) -> u32
    requires is { IsSequence (shape expr.now) }
    requires few { length (token_tests (shape expr.now)) < 4294967296 }
    ensures { result ≡ length (token_tests (shape expr.now)) }
{
    match expr {
        Expr::Token { label: _, test: _ } => 1,
        Expr::Begin { kind: _, test: _ } => 0,
        Expr::End { kind: _ } => 0,
        Expr::Whole { kind: _, test: _ } => 0,
        Expr::Seq(left, right) => tests_in(left) + tests_in(right),
        Expr::Choice(_, _) => 0,
        Expr::Repeat {
            inner: _,
            least: _,
            most: _,
        } => 0,
    }
}

/// The gap of an expression that stands behind a sequence.
fn moved(left: &Expr, right: &Expr, gap: Gap) -> Gap
    requires is { IsSequence (shape left.now) }
    requires few { length (token_tests (shape left.now)) + length (token_tests (shape right.now)) < 4294967296 }
    requires gap { HasGap (shape right.now) gap.before gap.least gap.most }
    ensures before { result.before ≡ length (token_tests (shape left.now)) + gap.before }
    ensures least { result.least ≡ gap.least }
    ensures most { result.most ≡ gap.most }
{
    Gap {
        before: tests_in(left) + gap.before,
        least: gap.least,
        most: gap.most,
    }
}

/// The gap of an expression that is tests of tokens and one gap among them, one after another.
pub(crate) fn gap_of(expr: &Expr) -> Option<Gap>
    requires few { length (token_tests (shape expr.now)) < 4294967296 }
    ensures { IfSome result (λ gap. HasGap (shape expr.now) gap.before gap.least gap.most) }
{
    match expr {
        Expr::Token { label: _, test: _ } => None,
        Expr::Begin { kind: _, test: _ } => None,
        Expr::End { kind: _ } => None,
        Expr::Whole { kind: _, test: _ } => None,
        Expr::Seq(left, right) => {
            if is_sequence(right) {
                return gap_of(left);
            }
            if !is_sequence(left) {
                return None;
            }
            match gap_of(right) {
                None => None,
                Some(gap) => Some(moved(left, right, gap)),
            }
        }
        Expr::Choice(_, _) => None,
        Expr::Repeat { inner, least, most } => {
            if !is_unlabelled(inner) {
                return None;
            }
            Some(Gap {
                before: 0,
                least: *least,
                most: *most,
            })
        }
    }
}

/// The labels with those of an expression that begins at a place, where its gap has so many tokens. The place moves behind it.
fn with_labels_over(expr: &Expr, turns: u32, at: &mut u32, labels: [u32; 9]) -> [u32; 9]
    requires few { at.old + width_over (shape expr.now) turns < 4294967296 }
    ensures end { at.new ≡ at.old + width_over (shape expr.now) turns }
    ensures labels { result ≡ united labels (labels_over (shape expr.now) turns at.old) }
{
    match expr {
        Expr::Token { label, test: _ } => {
            let place = *at;
            *at = place + 1;
            with_label(labels, *label, place)
        }
        Expr::Seq(left, right) => {
            let some = with_labels_over(left, turns, at, labels);
            with_labels_over(right, turns, at, some)
        }
        Expr::Begin { kind: _, test: _ } => labels,
        Expr::End { kind: _ } => labels,
        Expr::Whole { kind: _, test: _ } => labels,
        Expr::Choice(_, _) => labels,
        Expr::Repeat {
            inner: _,
            least: _,
            most: _,
        } => {
            *at += turns;
            labels
        }
    }
}

/// The row of an expression that begins at a place of a text, where its gap has so many tokens.
pub(crate) fn row_with(expr: &Expr, turns: u32, text: u32, begin: u32) -> Row
    requires few { begin + width_over (shape expr.now) turns < 4294967296 }
    ensures { result ≡ row_over (shape expr.now) turns text begin }
{
    let mut end = begin;
    let labels = with_labels_over(expr, turns, &mut end, [Row::UNSET; 9]);
    Row::new(Span::new(text, begin, end), labels)
}

/// Tests of tokens around a gap, resolved.
#[derive(Clone, Copy, Drop)]
pub(crate) struct Gapped<'a> {
    pub(crate) expr: &'a Expr,
    pub(crate) before: &'a [Resolved],
    pub(crate) gap: &'a Resolved,
    pub(crate) after: &'a [Resolved],
    pub(crate) least: u32,
    pub(crate) most: u32,
}

/// The tests of an expression, before its gap, of the gap and behind it.
pub(crate) fn around<'a>(expr: &'a Expr, tests: &'a [Resolved], gap: Gap) -> Gapped<'a>
    requires gap { HasGap (shape expr.now) gap.before gap.least gap.most }
    requires many { length tests.now ≡ length (token_tests (shape expr.now)) }
    ensures tests { (tables : Tables) → AllZip (Resolves tables) (token_tests (shape expr.now)) tests.now → All (HasAttrs tables) tests.now
        → AreTestsAround tables (shape result.expr.now) result.before.now result.gap.now result.after.now result.least result.most }
    ensures expr { result.expr.now ≡ expr.now }
    ensures least { result.least ≡ gap.least }
    ensures most { result.most ≡ gap.most }
{
    let number = gap.before as usize;
    Gapped {
        expr,
        before: &tests[..number],
        gap: &tests[number],
        after: &tests[number + 1..],
        least: gap.least,
        most: gap.most,
    }
}
