//! How many patterns a query asks for.

ghost use Rattle.std.specs.Prelude.{◌≡◌, ◌+◌, ◌^◌, ◌<◌, length};
ghost use Rattle.mt_cql.specs.Shape.{test_shape, shape, filters_shape};
ghost use Rattle.mt_eval_spec.specs.Asked.{test_patterns, expr_patterns, filters_patterns, query_patterns};
ghost use Rattle.mt_grammar_counts.specs.Asked.{error_behind, named_number};

use mt_cql::{Expr, Filters, Query, Test};
use mt_prepare::PatternError;

/// How many patterns a query asks for.
pub(crate) fn pattern_count(query: &Query) -> u32
    requires { length (query_patterns query.now) < 2 ^ 32 }
    ensures { result ≡ length (query_patterns query.now) }
{
    count_in_expr(query.head()) + count_in_filters(query.filters())
}

/// How many patterns filters ask for.
fn count_in_filters(filters: &Filters) -> u32
    requires { length (filters_patterns (filters_shape filters.now)) < 2 ^ 32 }
    ensures { result ≡ length (filters_patterns (filters_shape filters.now)) }
{
    match filters {
        Filters::End => 0,
        Filters::More(filter, others) => {
            count_in_expr(&filter.head)
                + count_in_filters(&filter.filters)
                + count_in_filters(others)
        }
    }
}

/// How many patterns an expression asks for.
fn count_in_expr(expr: &Expr) -> u32
    requires { length (expr_patterns (shape expr.now)) < 2 ^ 32 }
    ensures { result ≡ length (expr_patterns (shape expr.now)) }
{
    match expr {
        Expr::Token { label: _, test } => count_in_test(test),
        Expr::Begin { kind: _, test } => count_in_test(test),
        Expr::End { kind: _ } => 0,
        Expr::Whole { kind: _, test } => count_in_test(test),
        Expr::Seq(left, right) => count_in_expr(left) + count_in_expr(right),
        Expr::Choice(left, right) => count_in_expr(left) + count_in_expr(right),
        Expr::Repeat {
            inner,
            least: _,
            most: _,
        } => count_in_expr(inner),
    }
}

/// How many patterns a test asks for.
fn count_in_test(test: &Test) -> u32
    requires { length (test_patterns (test_shape test.now)) < 2 ^ 32 }
    ensures { result ≡ length (test_patterns (test_shape test.now)) }
{
    match test {
        Test::Any => 0,
        Test::Pattern {
            attr: _,
            text: _,
            not: _,
        } => 1,
        Test::Literal {
            attr: _,
            text: _,
            not: _,
        } => 0,
        Test::Not(inner) => count_in_test(inner),
        Test::Both(left, right) => count_in_test(left) + count_in_test(right),
        Test::Either(left, right) => count_in_test(left) + count_in_test(right),
    }
}

/// The error of a pattern that stands behind so many others.
pub(crate) fn behind(before: u32, error: PatternError) -> PatternError
    requires { before + named_number error < 2 ^ 32 }
    ensures { result ≡ error_behind before error }
{
    match error {
        PatternError::Syntax(k) => PatternError::Syntax(before + k),
        PatternError::Refused(k) => PatternError::Refused(before + k),
        PatternError::NoMemory => PatternError::NoMemory,
    }
}
