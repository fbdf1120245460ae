//! Queries that are limited to a structure.
//!
//! A query lends its parts and does not give them away, so that one with a filter more is made of copies of them.

ghost use Rattle.std.specs.Prelude.{◌≡◌, Some, IfOk};
ghost use Rattle.mt_text_spec.specs.Queries as q;
ghost use Rattle.mt_grammar_spec.specs.ReadGrammar as spec;
ghost use Rattle.mt_cql.specs.Shape.{test_shape, shape, kind_shape, filters_shape};

use mt_base::{List, NoMemory};
use mt_cql::{Expr, Filter, FilterKind, Filters, Query, Test};
use std::alloc::Global;

/// The query, with `within` the whole of an instance of this structure behind its filters.
pub fn limited(alloc: Global, query: Query, limit: Option<u16>) -> Result<Query, NoMemory>
    ensures { IfOk result (λ one. one ≡ spec.limited limit query) }
{
    match limit {
        None => Ok(query),
        Some(kind) => within(alloc, &query, kind),
    }
}

fn within(alloc: Global, query: &Query, kind: u16) -> Result<Query, NoMemory>
    ensures { IfOk result (λ one. one ≡ spec.limited (Some kind) query.now) }
{
    let head = copied_expr(alloc, query.head())?;
    let filters = filters_within(alloc, query.filters(), kind)?;
    let mut conds = List::new(alloc);
    conds.extend(query.conds().as_slice())?;
    Ok(Query::new(head, filters, conds))
}

/// Copies of filters, and `within` behind them.
fn filters_within(alloc: Global, filters: &Filters, kind: u16) -> Result<Filters, NoMemory>
    ensures { IfOk result (λ all. filters_shape all ≡ spec.filter_behind (filters_shape filters.now) (q.More q.Within (q.Whole kind q.Any) q.NoMore q.NoMore)) }
{
    match filters {
        Filters::End => last_filter(alloc, kind),
        Filters::More(filter, others) => {
            let copy = Filter {
                kind: filter.kind,
                head: copied_expr(alloc, &filter.head)?,
                filters: copied_filters(alloc, &filter.filters)?,
            };
            let copy = Box::new(alloc, copy)?;
            let others = Box::new(alloc, filters_within(alloc, others, kind)?)?;
            Ok(Filters::More(copy, others))
        }
    }
}

/// `within` the whole of an instance of this structure.
fn last_filter(alloc: Global, kind: u16) -> Result<Filters, NoMemory>
    ensures { IfOk result (λ all. filters_shape all ≡ q.More q.Within (q.Whole kind q.Any) q.NoMore q.NoMore) }
{
    let filter = Filter {
        kind: FilterKind::Within,
        head: Expr::Whole {
            kind,
            test: Test::Any,
        },
        filters: Filters::End,
    };
    let filter = Box::new(alloc, filter)?;
    let others = Box::new(alloc, Filters::End)?;
    Ok(Filters::More(filter, others))
}

/// A copy of a test.
fn copied_test(alloc: Global, test: &Test) -> Result<Test, NoMemory>
    ensures { IfOk result (λ copy. test_shape copy ≡ test_shape test.now) }
{
    match test {
        Test::Any => Ok(Test::Any),
        Test::Pattern { attr, text, not } => Ok(Test::Pattern {
            attr: *attr,
            text: text.clone()?,
            not: *not,
        }),
        Test::Literal { attr, text, not } => Ok(Test::Literal {
            attr: *attr,
            text: text.clone()?,
            not: *not,
        }),
        Test::Not(inner) => {
            let inner = copied_test(alloc, inner)?;
            Ok(Test::Not(Box::new(alloc, inner)?))
        }
        Test::Both(left, right) => {
            let left = Box::new(alloc, copied_test(alloc, left)?)?;
            let right = Box::new(alloc, copied_test(alloc, right)?)?;
            Ok(Test::Both(left, right))
        }
        Test::Either(left, right) => {
            let left = Box::new(alloc, copied_test(alloc, left)?)?;
            let right = Box::new(alloc, copied_test(alloc, right)?)?;
            Ok(Test::Either(left, right))
        }
    }
}

/// A copy of an expression.
fn copied_expr(alloc: Global, expr: &Expr) -> Result<Expr, NoMemory>
    ensures { IfOk result (λ copy. shape copy ≡ shape expr.now) }
{
    match expr {
        Expr::Token { label, test } => Ok(Expr::Token {
            label: *label,
            test: copied_test(alloc, test)?,
        }),
        Expr::Begin { kind, test } => Ok(Expr::Begin {
            kind: *kind,
            test: copied_test(alloc, test)?,
        }),
        Expr::End { kind } => Ok(Expr::End { kind: *kind }),
        Expr::Whole { kind, test } => Ok(Expr::Whole {
            kind: *kind,
            test: copied_test(alloc, test)?,
        }),
        Expr::Seq(left, right) => {
            let left = Box::new(alloc, copied_expr(alloc, left)?)?;
            let right = Box::new(alloc, copied_expr(alloc, right)?)?;
            Ok(Expr::Seq(left, right))
        }
        Expr::Choice(left, right) => {
            let left = Box::new(alloc, copied_expr(alloc, left)?)?;
            let right = Box::new(alloc, copied_expr(alloc, right)?)?;
            Ok(Expr::Choice(left, right))
        }
        Expr::Repeat { inner, least, most } => Ok(Expr::Repeat {
            inner: Box::new(alloc, copied_expr(alloc, inner)?)?,
            least: *least,
            most: *most,
        }),
    }
}

/// A copy of filters.
fn copied_filters(alloc: Global, filters: &Filters) -> Result<Filters, NoMemory>
    ensures { IfOk result (λ copy. filters_shape copy ≡ filters_shape filters.now) }
{
    match filters {
        Filters::End => Ok(Filters::End),
        Filters::More(filter, others) => {
            let copy = Filter {
                kind: filter.kind,
                head: copied_expr(alloc, &filter.head)?,
                filters: copied_filters(alloc, &filter.filters)?,
            };
            let copy = Box::new(alloc, copy)?;
            let others = Box::new(alloc, copied_filters(alloc, others)?)?;
            Ok(Filters::More(copy, others))
        }
    }
}
