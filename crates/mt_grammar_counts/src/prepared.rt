//! Queries of a sketch grammar made ready for a segment.

ghost use Rattle.std.specs.Prelude.{◌≡◌, ◌<◌, ◌++◌, ◌∷◌, [], List as Items, length, slice_index_or, OnOk};
ghost use Rattle.std.specs.List.{All, AllZip};
ghost use Rattle.mt_text_spec.specs.Queries as q;
ghost use Rattle.mt_eval_spec.specs.Told.{IsFor};
ghost use Rattle.mt_eval_spec.specs.Asked.{query_patterns};
ghost use Rattle.mt_prepare.specs.KnownSpans.{AreSpansKnown};
ghost use Rattle.mt_prepare.specs.Prepared.{IsPrepared};
ghost use Rattle.mt_grammar_counts.specs.Asked.{patterns_of, relation_patterns};
ghost use Rattle.mt_grammar_counts.specs.Collecting.{IsReadyGrammar};
ghost use Rattle.mt_grammar_counts.specs.Told.{AreFor};

use super::patterns::{GrammarPatterns, RelationPatterns};
use super::ready_queries::ReadyQueries;
use mt_base::{NoMemory, Steps};
use mt_cql::Query;
use mt_grammar::{Grammar, Relation};
use mt_pattern::PatternShop;
use mt_prepare::KnownSpans;
use mt_segment::Segment;
use std::alloc::Global;
use std::sync::ledger::Ledger;

impl<P: PatternShop> RelationPatterns<P> {
    /// Makes the query with this number ready for a segment, and adds it to others.
    fn prepare<L: Ledger>(
        &mut self,
        alloc: Global,
        number: usize,
        query: &Query,
        segment: &Segment,
        spans: &mut KnownSpans,
        prepared: &mut ReadyQueries,
        shop: &mut P,
        steps: &mut Steps<L>,
    ) -> Result<(), NoMemory>
        requires query { IsFor segment.now query.now }
        requires number { number < length self.old }
        requires patterns { slice_index_or self.old number [] ≡ query_patterns query.now }
        requires spans { AreSpansKnown segment.now spans.old }
        ensures spans { AreSpansKnown segment.now spans.new }
        ensures prepared { OnOk result ((before : Items q.Query) → AllZip (IsPrepared segment.now) before prepared.old → AllZip (IsPrepared segment.now) (before ++ query.now ∷ []) prepared.new) }
        ensures texts { self.new ≡ self.old }
        ensures kept { P.refused shop.new ≡ P.refused shop.old }
    {
        let patterns = &mut self.queries[number];
        prepared.add(alloc, query, patterns, segment, spans, shop, steps)
    }

    /// Makes all queries of a relation ready for a segment, and adds them to others.
    fn prepare_all<L: Ledger>(
        &mut self,
        alloc: Global,
        relation: &Relation,
        segment: &Segment,
        spans: &mut KnownSpans,
        prepared: &mut ReadyQueries,
        shop: &mut P,
        steps: &mut Steps<L>,
    ) -> Result<(), NoMemory>
        requires queries { All (IsFor segment.now) relation.now.queries }
        requires patterns { self.old ≡ relation_patterns relation.now }
        requires spans { AreSpansKnown segment.now spans.old }
        ensures spans { AreSpansKnown segment.now spans.new }
        ensures prepared { OnOk result ((before : Items q.Query) → AllZip (IsPrepared segment.now) before prepared.old → AllZip (IsPrepared segment.now) (before ++ relation.now.queries) prepared.new) }
        ensures texts { self.new ≡ self.old }
        ensures kept { P.refused shop.new ≡ P.refused shop.old }
    {
        let queries = relation.queries();
        for i in 0..queries.len() {
            let query = queries.get(i);
            self.prepare(alloc, i, query, segment, spans, prepared, shop, steps)?;
        }
        Ok(())
    }
}

impl<P: PatternShop> GrammarPatterns<P> {
    /// Makes the queries of the relation with this number ready for a segment, and adds them to others.
    fn prepare<L: Ledger>(
        &mut self,
        alloc: Global,
        number: usize,
        relation: &Relation,
        segment: &Segment,
        spans: &mut KnownSpans,
        prepared: &mut ReadyQueries,
        shop: &mut P,
        steps: &mut Steps<L>,
    ) -> Result<(), NoMemory>
        requires queries { All (IsFor segment.now) relation.now.queries }
        requires number { number < length self.old }
        requires patterns { slice_index_or self.old number [] ≡ relation_patterns relation.now }
        requires spans { AreSpansKnown segment.now spans.old }
        ensures spans { AreSpansKnown segment.now spans.new }
        ensures prepared { OnOk result ((before : Items q.Query) → AllZip (IsPrepared segment.now) before prepared.old → AllZip (IsPrepared segment.now) (before ++ relation.now.queries) prepared.new) }
        ensures texts { self.new ≡ self.old }
        ensures kept { P.refused shop.new ≡ P.refused shop.old }
    {
        self.relations[number].prepare_all(alloc, relation, segment, spans, prepared, shop, steps)
    }

    /// Makes all queries of a grammar ready for a segment, one relation after another, in the place of those that were ready for another one. Tags that have the same spans
    /// there share them.
    pub(crate) fn prepare_all<L: Ledger>(
        &mut self,
        alloc: Global,
        grammar: &Grammar,
        segment: &Segment,
        spans: &mut KnownSpans,
        prepared: &mut ReadyQueries,
        shop: &mut P,
        steps: &mut Steps<L>,
    ) -> Result<(), NoMemory>
        requires queries { All (AreFor segment.now) grammar.now.relations }
        requires patterns { self.old ≡ patterns_of grammar.now }
        ensures prepared { OnOk result (IsReadyGrammar segment.now grammar.now prepared.new) }
        ensures texts { self.new ≡ self.old }
        ensures kept { P.refused shop.new ≡ P.refused shop.old }
    {
        spans.turn();
        prepared.clear();
        let relations = grammar.relations();
        for i in 0..relations.len() {
            let relation = relations.get(i);
            self.prepare(alloc, i, relation, segment, spans, prepared, shop, steps)?;
        }
        Ok(())
    }
}
