//! Copies of queries.

ghost use Rattle.std.specs.Prelude.{◌≡◌, IfOk};
ghost use Rattle.mt_cql.specs.Shape.{test_shape, shape, filters_shape};

use super::query::{Cond, Expr, Filter, Filters, Query, Test};
use mt_base::{List, NoMemory};
use std::alloc::Global;

/// A copy of a test.
fn copied_test(alloc: Global, test: &Test) -> Result<Test, NoMemory>
    ensures { IfOk result (λ copy. test_shape copy ≡ test_shape test.now) }
{
    match test {
        Test::Any => Ok(Test::Any),
        Test::Pattern { attr, text, not } => Ok(Test::Pattern {
            attr: *attr,
            text: text.clone()?,
            not: *not,
        }),
        Test::Literal { attr, text, not } => Ok(Test::Literal {
            attr: *attr,
            text: text.clone()?,
            not: *not,
        }),
        Test::Not(inner) => {
            let inner = copied_test(alloc, inner)?;
            Ok(Test::Not(Box::new(alloc, inner)?))
        }
        Test::Both(left, right) => {
            let left = Box::new(alloc, copied_test(alloc, left)?)?;
            let right = Box::new(alloc, copied_test(alloc, right)?)?;
            Ok(Test::Both(left, right))
        }
        Test::Either(left, right) => {
            let left = Box::new(alloc, copied_test(alloc, left)?)?;
            let right = Box::new(alloc, copied_test(alloc, right)?)?;
            Ok(Test::Either(left, right))
        }
    }
}

/// A copy of an expression.
pub fn copied_expr(alloc: Global, expr: &Expr) -> Result<Expr, NoMemory>
    ensures { IfOk result (λ copy. shape copy ≡ shape expr.now) }
{
    match expr {
        Expr::Token { label, test } => Ok(Expr::Token {
            label: *label,
            test: copied_test(alloc, test)?,
        }),
        Expr::Begin { kind, test } => Ok(Expr::Begin {
            kind: *kind,
            test: copied_test(alloc, test)?,
        }),
        Expr::End { kind } => Ok(Expr::End { kind: *kind }),
        Expr::Whole { kind, test } => Ok(Expr::Whole {
            kind: *kind,
            test: copied_test(alloc, test)?,
        }),
        Expr::Seq(left, right) => {
            let left = Box::new(alloc, copied_expr(alloc, left)?)?;
            let right = Box::new(alloc, copied_expr(alloc, right)?)?;
            Ok(Expr::Seq(left, right))
        }
        Expr::Choice(left, right) => {
            let left = Box::new(alloc, copied_expr(alloc, left)?)?;
            let right = Box::new(alloc, copied_expr(alloc, right)?)?;
            Ok(Expr::Choice(left, right))
        }
        Expr::Repeat { inner, least, most } => Ok(Expr::Repeat {
            inner: Box::new(alloc, copied_expr(alloc, inner)?)?,
            least: *least,
            most: *most,
        }),
    }
}

/// A copy of filters.
fn copied_filters(alloc: Global, filters: &Filters) -> Result<Filters, NoMemory>
    ensures { IfOk result (λ copy. filters_shape copy ≡ filters_shape filters.now) }
{
    match filters {
        Filters::End => Ok(Filters::End),
        Filters::More(filter, others) => {
            let copy = Filter {
                kind: filter.kind,
                head: copied_expr(alloc, &filter.head)?,
                filters: copied_filters(alloc, &filter.filters)?,
            };
            let copy = Box::new(alloc, copy)?;
            let others = Box::new(alloc, copied_filters(alloc, others)?)?;
            Ok(Filters::More(copy, others))
        }
    }
}

/// Copies of conditions.
fn copied_conds(alloc: Global, conds: &[Cond]) -> Result<List<Cond>, NoMemory>
    ensures { IfOk result (λ copies. copies ≡ conds.now) }
{
    let mut copies = List::new(alloc);
    copies.extend(conds)?;
    Ok(copies)
}

impl Query {
    /// A copy of the query.
    pub fn copied(&self, alloc: Global) -> Result<Query, NoMemory>
        ensures { IfOk result (λ copy. copy ≡ self.now) }
    {
        let head = copied_expr(alloc, self.head())?;
        let filters = copied_filters(alloc, self.filters())?;
        let conds = copied_conds(alloc, self.conds().as_slice())?;
        Ok(Query::new(head, filters, conds))
    }
}
