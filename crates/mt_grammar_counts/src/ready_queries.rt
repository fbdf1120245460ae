//! Queries that are made ready for a segment, in the memory of those that were ready for another one.

ghost use Rattle.std.specs.Prelude.{◌≡◌, ◌<◌, ◌≤◌, ◌++◌, ◌∷◌, [], List as Items, length, take, OnOk};
ghost use Rattle.std.specs.List.{AllZip};
ghost use Rattle.mt_text_spec.specs.Queries as q;
ghost use Rattle.mt_eval_spec.specs.Told.{IsFor};
ghost use Rattle.mt_eval_spec.specs.Asked.{query_patterns};
ghost use Rattle.mt_prepare.specs.KnownSpans.{AreSpansKnown};
ghost use Rattle.mt_prepare.specs.Prepared.{IsPrepared};

use mt_base::{NoMemory, Steps};
use mt_cql::Query;
use mt_pattern::PatternShop;
use mt_prepare::{KnownSpans, Patterns, Prepared};
use mt_segment::Segment;
use std::alloc::Global;
use std::marker::Model;
use std::sync::ledger::Ledger;

/// Queries that are ready, in a list in which others may be left behind them, made ready for another segment. Contracts see those that are ready.
#[derive(Drop)]
pub(crate) struct ReadyQueries {
    queries: Vec<Prepared>,
    count: usize,
}

impl Model for ReadyQueries {
    ghost use Rattle.std.specs.Prelude.{◌≤◌, length, take};
    ghost use Rattle.std.specs.Prelude.{List as Items};
    ghost use Rattle.std.specs.Coded.{codes};
    ghost use Rattle.mt_prepare.specs.contracts.resolved.Resolved as e;
    ghost use Rattle.mt_prepare.specs.declared.prepared.Prepared.{Prepared};

    ghost Value = { Items Prepared };

    ghost coded = { Prim.hlevel (codes, e.the_row.coded) };

    ghost view = { λ r. take r.count r.queries.items };

    ghost invariant = { λ r. r.count ≤ length r.queries.items };
}

impl ReadyQueries {
    /// None. It takes no memory.
    pub(crate) fn new(alloc: Global) -> Self
        ensures { result ≡ [] }
    {
        ReadyQueries {
            queries: Vec::new(alloc),
            count: 0,
        }
    }

    /// None any more. Their memory is kept.
    pub(crate) fn clear(&mut self)
        ensures { self.new ≡ [] }
    {
        self.count = 0;
    }

    /// All of them.
    pub(crate) fn as_slice(&self) -> &[Prepared]
        ensures { result.now ≡ self.now }
    {
        &self.queries[..self.count]
    }

    /// Makes one more ready for a segment.
    pub(crate) fn add<P: PatternShop, L: Ledger>(
        &mut self,
        alloc: Global,
        query: &Query,
        patterns: &mut Patterns<P>,
        segment: &Segment,
        spans: &mut KnownSpans,
        shop: &mut P,
        steps: &mut Steps<L>,
    ) -> Result<(), NoMemory>
        requires query { IsFor segment.now query.now }
        requires patterns { patterns.old ≡ query_patterns query.now }
        requires spans { AreSpansKnown segment.now spans.old }
        ensures spans { AreSpansKnown segment.now spans.new }
        ensures prepared { OnOk result ((before : Items q.Query) → AllZip (IsPrepared segment.now) before self.old → AllZip (IsPrepared segment.now) (before ++ query.now ∷ []) self.new) }
        ensures texts { patterns.new ≡ patterns.old }
        ensures kept { P.refused shop.new ≡ P.refused shop.old }
    {
        make_room(alloc, &mut self.queries, self.count)?;
        let ready = &mut self.queries[self.count];
        patterns.prepare_again(alloc, query, segment, ready, spans, shop, steps)?;
        self.count += 1;
        Ok(())
    }
}

/// Puts a query at a place behind so many, where there is none. Without memory nothing changes.
fn make_room(alloc: Global, queries: &mut Vec<Prepared>, at: usize) -> Result<(), NoMemory>
    requires { at ≤ length queries.old.items }
    ensures room { OnOk result (at < length queries.new.items) }
    ensures long { at ≤ length queries.new.items }
    ensures kept { take at queries.new.items ≡ take at queries.old.items }
{
    if at < queries.len() {
        return Ok(());
    }
    queries.push(Prepared::new(alloc))?;
    Ok(())
}
