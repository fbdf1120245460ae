//! Equality of queries.

ghost use Rattle.std.specs.Prelude.{◌≡◌};
ghost use Rattle.std.specs.Bool.{Decides};
ghost use Rattle.std.specs.Cmp.{partial_equiv_from_equiv};
ghost use Rattle.mt_cql.specs.Shape.{test_shape, shape, kind_shape, filters_shape};
ghost use Rattle.mt_cql.specs.Codes.{flag, text_tree, test_tree, expr_tree, kind_number, filters_tree, cond_tree, conds_tree};
ghost use Rattle.mt_cql.specs.Same.{same_trees, same_query, same_query-equiv};
ghost use base.Stored.{gnum, gcons};

use super::query::{Cond, Expr, FilterKind, Filters, Query, Test};
use mt_base::Value;

fn same_flag(left: bool, right: bool) -> bool
    ensures { result ≡ same_trees (flag left) (flag right) }
{
    left == right
}

fn same_text(left: &Value, right: &Value) -> bool
    ensures { result ≡ same_trees (text_tree left.now) (text_tree right.now) }
{
    left == right
}

/// Whether two tests are equal.
fn same_test(left: &Test, right: &Test) -> bool
    ensures { result ≡ same_trees (test_tree (test_shape left.now)) (test_tree (test_shape right.now)) }
{
    match (left, right) {
        (Test::Any, Test::Any) => true,
        (
            Test::Pattern { attr, text, not },
            Test::Pattern {
                attr: other_attr,
                text: other_text,
                not: other_not,
            },
        ) => attr == other_attr && same_flag(*not, *other_not) && same_text(text, other_text),
        (
            Test::Literal { attr, text, not },
            Test::Literal {
                attr: other_attr,
                text: other_text,
                not: other_not,
            },
        ) => attr == other_attr && same_flag(*not, *other_not) && same_text(text, other_text),
        (Test::Not(left), Test::Not(right)) => same_test(left, right),
        (Test::Both(left, next), Test::Both(right, other)) => {
            same_test(left, right) && same_test(next, other)
        }
        (Test::Either(left, next), Test::Either(right, other)) => {
            same_test(left, right) && same_test(next, other)
        }
        _ => false,
    }
}

/// Whether two expressions are equal.
fn same_expr(left: &Expr, right: &Expr) -> bool
    ensures { result ≡ same_trees (expr_tree (shape left.now)) (expr_tree (shape right.now)) }
{
    match (left, right) {
        (
            Expr::Token { label, test },
            Expr::Token {
                label: other_label,
                test: other,
            },
        ) => label == other_label && same_test(test, other),
        (
            Expr::Begin { kind, test },
            Expr::Begin {
                kind: other_kind,
                test: other,
            },
        ) => kind == other_kind && same_test(test, other),
        (Expr::End { kind }, Expr::End { kind: other_kind }) => kind == other_kind,
        (
            Expr::Whole { kind, test },
            Expr::Whole {
                kind: other_kind,
                test: other,
            },
        ) => kind == other_kind && same_test(test, other),
        (Expr::Seq(left, next), Expr::Seq(right, other)) => {
            same_expr(left, right) && same_expr(next, other)
        }
        (Expr::Choice(left, next), Expr::Choice(right, other)) => {
            same_expr(left, right) && same_expr(next, other)
        }
        (
            Expr::Repeat { inner, least, most },
            Expr::Repeat {
                inner: other,
                least: other_least,
                most: other_most,
            },
        ) => same_expr(inner, other) && least == other_least && most == other_most,
        _ => false,
    }
}

/// Whether two filters ask the same.
fn same_kind(left: FilterKind, right: FilterKind) -> bool
    ensures { result ≡ same_trees (gnum (kind_number (kind_shape left))) (gnum (kind_number (kind_shape right))) }
{
    left == right
}

/// Whether filters are equal.
fn same_filters(left: &Filters, right: &Filters) -> bool
    ensures { result ≡ same_trees (filters_tree (filters_shape left.now)) (filters_tree (filters_shape right.now)) }
{
    match (left, right) {
        (Filters::End, Filters::End) => true,
        (Filters::More(filter, others), Filters::More(other, behind)) => {
            same_kind(filter.kind, other.kind)
                && same_expr(&filter.head, &other.head)
                && same_filters(&filter.filters, &other.filters)
                && same_filters(others, behind)
        }
        _ => false,
    }
}

/// Whether two conditions are equal.
fn same_cond(left: &Cond, right: &Cond) -> bool
    ensures { result ≡ same_trees (cond_tree left.now) (cond_tree right.now) }
{
    left.left == right.left
        && left.left_attr == right.left_attr
        && same_flag(left.equal, right.equal)
        && left.right == right.right
        && left.right_attr == right.right_attr
}

/// Whether conditions are equal.
fn same_conds(left: &[Cond], right: &[Cond]) -> bool
    ensures { result ≡ same_trees (conds_tree left.now) (conds_tree right.now) }
{
    match (left.split_first(), right.split_first()) {
        (None, None) => true,
        (Some((cond, left)), Some((other, right))) => {
            same_cond(cond, other) && same_conds(left, right)
        }
        _ => false,
    }
}

/// Whether two queries are equal, part by part.
fn same_parts(left: &Query, right: &Query) -> bool
    ensures { result ≡ same_query left.now right.now }
{
    same_expr(left.head(), right.head())
        && same_filters(left.filters(), right.filters())
        && same_conds(left.conds().as_slice(), right.conds().as_slice())
}

impl PartialEq for Query {
    ghost eq = { same_query };

    ghost laws = { partial_equiv_from_equiv same_query-equiv };

    /// Whether the two are one query.
    fn eq(&self, other: &Self) -> bool
        ensures test { result ≡ same_query self.now other.now }
        ensures equal { Decides result (self.now ≡ other.now) }
    {
        same_parts(self, other)
    }
}

impl Eq for Query {
    ghost laws = { same_query-equiv };
}
