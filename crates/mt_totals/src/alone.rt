//! Queries that are one test of a token.

ghost use Rattle.std.specs.Prelude.{◌≡◌, ℕ, IsTrue};
ghost use Rattle.mt_cql.specs.Shape.{shape, filters_shape};
ghost use Rattle.mt_text_spec.specs.Queries.{Test, TokenTest, NoMore};
ghost use Rattle.mt_totals.specs.Totals.{IsTokenAlone};

use mt_cql::{Expr, Filters, Query};

/// Whether an expression is a test of a token.
fn is_token(expr: &Expr) -> bool
    ensures { IsTrue result → (label : ℕ) × (test : Test) × (shape expr.now ≡ TokenTest label test) }
{
    match expr {
        Expr::Token { label: _, test: _ } => true,
        Expr::Begin { kind: _, test: _ } => false,
        Expr::End { kind: _ } => false,
        Expr::Whole { kind: _, test: _ } => false,
        Expr::Seq(_, _) => false,
        Expr::Choice(_, _) => false,
        Expr::Repeat {
            inner: _,
            least: _,
            most: _,
        } => false,
    }
}

/// Whether there is no filter.
pub(crate) fn are_none(filters: &Filters) -> bool
    ensures { IsTrue result → filters_shape filters.now ≡ NoMore }
{
    match filters {
        Filters::End => true,
        Filters::More(_, _) => false,
    }
}

/// Whether a query is one test of a token, with no filter and no condition.
pub(crate) fn is_token_alone(query: &Query) -> bool
    ensures { IsTrue result → IsTokenAlone query.now }
{
    is_token(query.head()) && are_none(query.filters()) && query.conds().is_empty()
}
