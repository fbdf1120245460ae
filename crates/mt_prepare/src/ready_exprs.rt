//! Expressions of a query that are made ready one after another.

ghost use Rattle.std.specs.Prelude.{◌≡◌, ◌+◌, ◌-◌, ◌<◌, ◌≤◌, ◌∷◌, [], length, take, OnOk};
ghost use Rattle.mt_query_spec.specs.Contents.{token_tests};
ghost use Rattle.mt_cql.specs.Shape.{shape};
ghost use Rattle.mt_eval_spec.specs.Asked.{expr_patterns};
ghost use Rattle.mt_eval_spec.specs.Literals.{AreEquals, FindEach};
ghost use Rattle.mt_prepare.specs.Asks.{ExprStands, HasAttr, HasKind, Names};
ghost use Rattle.mt_prepare.specs.KnownSpans.{AreSpansKnown};
ghost use Rattle.mt_prepare.specs.Prepared.{AddsExprs};

use super::known_spans::KnownSpans;
use super::patterns::Patterns;
use super::prepared::{PreparedExpr, make_ready};
use mt_base::{List, NoMemory, Steps};
use mt_cql::Expr;
use mt_pattern::PatternShop;
use mt_segment::Segment;
use std::alloc::Global;
use std::marker::Model;
use std::sync::ledger::Ledger;

/// Expressions that are ready, in a list in which others may be left behind them, made ready for another segment. Contracts see those that are ready.
#[derive(Drop)]
pub(crate) struct ReadyExprs {
    exprs: Vec<PreparedExpr>,
    count: usize,
}

impl Model for ReadyExprs {
    ghost use Rattle.std.specs.Prelude.{◌≤◌, length, take};
    ghost use Rattle.std.specs.Prelude.{List as Items};
    ghost use Rattle.std.specs.Coded.{codes};
    ghost use Rattle.mt_prepare.specs.contracts.resolved.Resolved as e;
    ghost use Rattle.mt_prepare.specs.declared.prepared.PreparedExpr.{PreparedExpr};

    ghost Value = { Items PreparedExpr };

    ghost coded = { Prim.hlevel (codes, e.the_row.coded) };

    ghost view = { λ r. take r.count r.exprs.items };

    ghost invariant = { λ r. r.count ≤ length r.exprs.items };
}

impl ReadyExprs {
    /// None yet, in the memory of these.
    pub(crate) fn over(exprs: List<PreparedExpr>) -> Self
        ensures { result ≡ [] }
    {
        ReadyExprs {
            exprs: exprs.into_vec(),
            count: 0,
        }
    }

    /// Those that are ready. What is left of others goes.
    pub(crate) fn into_list(self) -> List<PreparedExpr>
        ensures { result ≡ self }
    {
        let mut exprs = self.exprs;
        exprs.truncate(self.count);
        List::from_vec(exprs)
    }

    /// Makes one more ready. Its patterns are the next ones of the query, behind those that were asked.
    pub(crate) fn add<P: PatternShop, L: Ledger>(
        &mut self,
        alloc: Global,
        segment: &Segment,
        expr: &Expr,
        patterns: &mut Patterns<P>,
        asked: &mut usize,
        known: &mut KnownSpans,
        shop: &mut P,
        steps: &mut Steps<L>,
    ) -> Result<(), NoMemory>
        requires known { Names (HasAttr segment.now) (HasKind segment.now) (shape expr.now) }
        requires stands { ExprStands patterns.old asked.old (shape expr.now) }
        requires spans { AreSpansKnown segment.now known.old }
        ensures spans { AreSpansKnown segment.now known.new }
        ensures ready { OnOk result (AddsExprs segment.now (shape expr.now ∷ []) self.old self.new) }
        ensures asked { OnOk result (asked.new ≡ asked.old + length (expr_patterns (shape expr.now))) }
        ensures texts { patterns.new ≡ patterns.old }
        ensures kept { P.refused shop.new ≡ P.refused shop.old }
        ensures rises { steps.old ≤ steps.new }
        ensures finds { AreEquals (shape expr.now) → FindEach segment.now (token_tests (shape expr.now)) (steps.new - steps.old) }
    {
        make_room(alloc, &mut self.exprs, self.count)?;
        let ready = &mut self.exprs[self.count];
        make_ready(
            alloc, segment, expr, patterns, asked, known, shop, steps, ready,
        )?;
        self.count += 1;
        Ok(())
    }
}

/// Puts an expression at a place behind so many, where there is none. Without memory nothing changes.
fn make_room(alloc: Global, exprs: &mut Vec<PreparedExpr>, at: usize) -> Result<(), NoMemory>
    requires { at ≤ length exprs.old.items }
    ensures room { OnOk result (at < length exprs.new.items) }
    ensures long { at ≤ length exprs.new.items }
    ensures kept { take at exprs.new.items ≡ take at exprs.old.items }
{
    if at < exprs.len() {
        return Ok(());
    }
    exprs.push(PreparedExpr::new(alloc))?;
    Ok(())
}
