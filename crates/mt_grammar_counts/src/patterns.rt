//! The patterns of a sketch grammar, each built once.

ghost use Rattle.std.specs.Prelude.{◌≡◌, ◌+◌, ◌^◌, ◌<◌, ◌++◌, ◌∷◌, [], length, IfOk, IfErr, OnOk};
ghost use Rattle.std.specs.List.{All, flat_map};
ghost use Rattle.mt_eval_spec.specs.Asked.{query_patterns};
ghost use Rattle.mt_prepare.specs.Built.{IsWhole, Blames};
ghost use Rattle.mt_grammar_counts.specs.Asked.{IsValidSomewhere, grammar_patterns, patterns_of, relation_patterns};

use super::asked::{behind, pattern_count};
use mt_cql::Query;
use mt_grammar::{Grammar, Relation};
use mt_grammar_laws::grammar_queries_are_in_order;
use mt_pattern::PatternShop;
use mt_prepare::{PatternError, Patterns};
use mt_query_laws::contents_are_few;
use std::alloc::Global;
use std::marker::Model;

/// The patterns of the queries of a relation. Contracts see them as their texts, a list for each query.
#[derive(Drop)]
pub(crate) struct RelationPatterns<P: PatternShop> {
    pub(crate) queries: Vec<Patterns<P>>,
}

impl<P: PatternShop> Model for RelationPatterns<P> {
    ghost use Rattle.std.specs.Prelude.{ℕ};
    ghost use Rattle.std.specs.Prelude.{List as Items};

    ghost Value = { Items (Items (Items ℕ)) };

    ghost view = { λ p. p.queries.items };
}

impl<P: PatternShop> RelationPatterns<P> {
    /// No patterns of no queries. It takes no memory.
    fn new(alloc: Global) -> Self
        ensures { result ≡ [] }
    {
        RelationPatterns {
            queries: Vec::new(alloc),
        }
    }

    /// Builds the patterns of one query more, which stand behind so many others.
    fn add(
        &mut self,
        alloc: Global,
        query: &Query,
        before: u32,
        shop: &mut P,
    ) -> Result<(), PatternError>
        requires { before + length (query_patterns query.now) < 2 ^ 32 }
        ensures texts { OnOk result (self.new ≡ self.old ++ query_patterns query.now ∷ []) }
        ensures patterns { OnOk result (All IsWhole (query_patterns query.now)) }
        ensures blames { IfErr result (Blames (before + 1) (query_patterns query.now) (P.refused shop.old) (P.refused shop.new)) }
        ensures kept { OnOk result (P.refused shop.new ≡ P.refused shop.old) }
    {
        match Patterns::<P>::build(alloc, query, shop) {
            Ok(patterns) => match self.queries.push(patterns) {
                Ok(()) => Ok(()),
                Err(_) => Err(PatternError::NoMemory),
            },
            Err(error) => Err(behind(before, error)),
        }
    }

    /// Builds the patterns of all queries of a relation, which stand behind so many others, and says how many stand before the next ones.
    fn add_all(
        &mut self,
        alloc: Global,
        relation: &Relation,
        before: u32,
        shop: &mut P,
    ) -> Result<u32, PatternError>
        requires none { self.old ≡ [] }
        requires few { before + length (flat_map query_patterns relation.now.queries) < 2 ^ 32 }
        ensures texts { OnOk result (self.new ≡ relation_patterns relation.now) }
        ensures next { IfOk result (λ next. next ≡ before + length (flat_map query_patterns relation.now.queries)) }
        ensures patterns { OnOk result (All IsWhole (flat_map query_patterns relation.now.queries)) }
        ensures blames { IfErr result (Blames (before + 1) (flat_map query_patterns relation.now.queries) (P.refused shop.old) (P.refused shop.new)) }
        ensures kept { OnOk result (P.refused shop.new ≡ P.refused shop.old) }
    {
        let mut next = before;
        let queries = relation.queries();
        for i in 0..queries.len() {
            let query = queries.get(i);
            self.add(alloc, query, next, shop)?;
            next += pattern_count(query);
        }
        Ok(next)
    }
}

/// The patterns of a sketch grammar. They are built once, and then asked of any number of segments. Contracts see them as their texts: for each relation a list for
/// each of its queries.
#[derive(Drop)]
pub struct GrammarPatterns<P: PatternShop> {
    pub(crate) relations: Vec<RelationPatterns<P>>,
}

impl<P: PatternShop> Model for GrammarPatterns<P> {
    ghost use Rattle.std.specs.Prelude.{ℕ};
    ghost use Rattle.std.specs.Prelude.{List as Items};

    ghost Value = { Items (Items (Items (Items ℕ))) };

    ghost view = { λ p. p.relations.items };
}

impl<P: PatternShop> GrammarPatterns<P> {
    /// Builds the patterns of a grammar in the order of its file, up to the first one that is not built. An error numbers them from 1 over the whole grammar.
    pub fn build(alloc: Global, grammar: &Grammar, shop: &mut P) -> Result<Self, PatternError>
        requires { IsValidSomewhere grammar.now }
        ensures texts { IfOk result (λ patterns. patterns ≡ patterns_of grammar.now) }
        ensures patterns { OnOk result (All IsWhole (grammar_patterns grammar.now)) }
        ensures blames { IfErr result (Blames 1 (grammar_patterns grammar.now) (P.refused shop.old) (P.refused shop.new)) }
        ensures kept { OnOk result (P.refused shop.new ≡ P.refused shop.old) }
    {
        contents_are_few();
        grammar_queries_are_in_order();
        let mut patterns = GrammarPatterns {
            relations: Vec::new(alloc),
        };
        patterns.add_all(alloc, grammar, shop)?;
        Ok(patterns)
    }

    /// Builds the patterns of all relations.
    fn add_all(
        &mut self,
        alloc: Global,
        grammar: &Grammar,
        shop: &mut P,
    ) -> Result<(), PatternError>
        requires none { self.old ≡ [] }
        requires few { length (flat_map (λ relation. flat_map query_patterns relation.queries) grammar.now.relations) < 2 ^ 32 }
        ensures texts { OnOk result (self.new ≡ patterns_of grammar.now) }
        ensures patterns { OnOk result (All IsWhole (flat_map (λ relation. flat_map query_patterns relation.queries) grammar.now.relations)) }
        ensures blames { IfErr result (Blames 1 (flat_map (λ relation. flat_map query_patterns relation.queries) grammar.now.relations) (P.refused shop.old) (P.refused shop.new)) }
        ensures kept { OnOk result (P.refused shop.new ≡ P.refused shop.old) }
    {
        let mut next = 0;
        let relations = grammar.relations();
        for i in 0..relations.len() {
            next = self.add(alloc, relations.get(i), next, shop)?;
        }
        Ok(())
    }

    /// Builds the patterns of one relation more, which stand behind so many others, and says how many stand before the next ones.
    fn add(
        &mut self,
        alloc: Global,
        relation: &Relation,
        before: u32,
        shop: &mut P,
    ) -> Result<u32, PatternError>
        requires { before + length (flat_map query_patterns relation.now.queries) < 2 ^ 32 }
        ensures texts { OnOk result (self.new ≡ self.old ++ relation_patterns relation.now ∷ []) }
        ensures next { IfOk result (λ next. next ≡ before + length (flat_map query_patterns relation.now.queries)) }
        ensures patterns { OnOk result (All IsWhole (flat_map query_patterns relation.now.queries)) }
        ensures blames { IfErr result (Blames (before + 1) (flat_map query_patterns relation.now.queries) (P.refused shop.old) (P.refused shop.new)) }
        ensures kept { OnOk result (P.refused shop.new ≡ P.refused shop.old) }
    {
        let mut patterns = RelationPatterns::<P>::new(alloc);
        let next = patterns.add_all(alloc, relation, before, shop)?;
        match self.relations.push(patterns) {
            Ok(()) => Ok(next),
            Err(_) => Err(PatternError::NoMemory),
        }
    }
}
