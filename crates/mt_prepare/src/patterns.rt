//! The patterns of a query, each built once.

ghost use Rattle.std.specs.Prelude.{◌≡◌, ◌+◌, ◌^◌, ◌<◌, ◌++◌, ◌∷◌, [], length, slice_index_or, IfOk, IfErr, OnOk};
ghost use Rattle.std.specs.List.{All};
ghost use Rattle.mt_cql.specs.Shape.{test_shape, shape, filters_shape};
ghost use Rattle.mt_pattern_spec.specs.Patterns.{MarksAccepted};
ghost use Rattle.mt_eval_spec.specs.Asked.{test_patterns, expr_patterns, filters_patterns, query_patterns};
ghost use Rattle.mt_prepare.specs.Built.{IsWhole, Blames};

use super::known_pattern::KnownPattern;
use mt_base::{NoMemory, Value};
use mt_cql::{Expr, Filters, Query, Test};
use mt_lexicon::Lexicon;
use mt_pattern::{IdSet, IdsError, PatternShop, WholePattern};
use std::alloc::Global;
use std::marker::Model;

/// Why the patterns of a query were not built. They are counted from 1, in the order of the query's text.
#[derive(Clone, Copy, Debug, PartialEq, Eq, Drop)]
pub enum PatternError {
    /// The pattern with this number is none, or, alone or between marks for a value's start and end, it nests too deep.
    Syntax(u32),
    /// The shop refused the pattern with this number, alone or between those marks.
    Refused(u32),
    /// There was no memory for them, or they are 2^32 or more.
    NoMemory,
}

impl From<NoMemory> for PatternError {
    ghost use Rattle.std.specs.Prelude.{◌≡◌};
    ghost use Rattle.mt_prepare.specs.declared.patterns.PatternError.TheVariants.{NoMemory};

    ghost from_gives = { λ _ error. error ≡ NoMemory };

    fn from(_: NoMemory) -> Self {
        PatternError::NoMemory
    }
}

/// The patterns of a query in the order in which it asks for them. Contracts see them as their texts.
#[derive(Drop)]
pub struct Patterns<P: PatternShop> {
    built: Vec<KnownPattern<P>>,
}

impl<P: PatternShop> Model for Patterns<P> {
    ghost use Rattle.std.specs.Prelude.{ℕ};
    ghost use Rattle.std.specs.Prelude.{List as Items};

    ghost Value = { Items (Items ℕ) };

    ghost view = { λ p. p.built.items };
}

impl<P: PatternShop> Patterns<P> {
    /// Builds the patterns of a query, up to the first one that is not built.
    pub fn build(alloc: Global, query: &Query, shop: &mut P) -> Result<Self, PatternError>
        ensures texts { IfOk result (λ patterns. patterns ≡ query_patterns query.now) }
        ensures patterns { OnOk result (All IsWhole (query_patterns query.now)) }
        ensures blames { IfErr result (Blames 1 (query_patterns query.now) (P.refused shop.old) (P.refused shop.new)) }
        ensures kept { OnOk result (P.refused shop.new ≡ P.refused shop.old) }
    {
        let mut patterns = Patterns {
            built: Vec::new(alloc),
        };
        patterns.add_expr(alloc, query.head(), shop)?;
        patterns.add_filters(alloc, query.filters(), shop)?;
        Ok(patterns)
    }

    /// The pattern with this number, counted from 0.
    pub(crate) fn at(&self, i: usize) -> &KnownPattern<P>
        requires { i < length self.now }
        ensures pattern { result.now ≡ slice_index_or self.now i [] }
        ensures few { i + 1 < 2 ^ 64 }
    {
        let _few = self.built.len();
        &self.built[i]
    }

    /// The numbers of the values of one lexicon that the pattern with this number, counted from 0, accepts.
    fn ids(
        &mut self,
        alloc: Global,
        i: usize,
        lexicon: &Lexicon,
        shop: &mut P,
    ) -> Result<IdSet, NoMemory>
        requires { i < length self.old }
        ensures marks { IfOk result (λ marks. MarksAccepted (slice_index_or self.old i []) lexicon.now marks) }
        ensures texts { self.new ≡ self.old }
        ensures kept { P.refused shop.new ≡ P.refused shop.old }
    {
        self.built[i].ids(alloc, lexicon, shop)
    }

    /// The numbers of the values of a lexicon that the next pattern, behind those that were asked, accepts.
    pub(crate) fn next_ids(
        &mut self,
        alloc: Global,
        asked: &mut usize,
        lexicon: &Lexicon,
        shop: &mut P,
    ) -> Result<IdSet, NoMemory>
        requires { asked.old < length self.old }
        ensures marks { IfOk result (λ marks. MarksAccepted (slice_index_or self.old asked.old []) lexicon.now marks) }
        ensures asked { OnOk result (asked.new ≡ asked.old + 1) }
        ensures texts { self.new ≡ self.old }
        ensures kept { P.refused shop.new ≡ P.refused shop.old }
    {
        let _few = self.built.len();
        let ids = self.ids(alloc, *asked, lexicon, shop)?;
        *asked += 1;
        Ok(ids)
    }

    /// Adds the patterns of filters.
    fn add_filters(
        &mut self,
        alloc: Global,
        filters: &Filters,
        shop: &mut P,
    ) -> Result<(), PatternError>
        ensures texts { OnOk result (self.new ≡ self.old ++ filters_patterns (filters_shape filters.now)) }
        ensures patterns { OnOk result (All IsWhole (filters_patterns (filters_shape filters.now))) }
        ensures blames { IfErr result (Blames (length self.old + 1) (filters_patterns (filters_shape filters.now)) (P.refused shop.old) (P.refused shop.new)) }
        ensures kept { OnOk result (P.refused shop.new ≡ P.refused shop.old) }
    {
        match filters {
            Filters::End => Ok(()),
            Filters::More(filter, others) => {
                self.add_expr(alloc, &filter.head, shop)?;
                self.add_filters(alloc, &filter.filters, shop)?;
                self.add_filters(alloc, others, shop)
            }
        }
    }

    /// Adds the patterns of an expression.
    fn add_expr(&mut self, alloc: Global, expr: &Expr, shop: &mut P) -> Result<(), PatternError>
        ensures texts { OnOk result (self.new ≡ self.old ++ expr_patterns (shape expr.now)) }
        ensures patterns { OnOk result (All IsWhole (expr_patterns (shape expr.now))) }
        ensures blames { IfErr result (Blames (length self.old + 1) (expr_patterns (shape expr.now)) (P.refused shop.old) (P.refused shop.new)) }
        ensures kept { OnOk result (P.refused shop.new ≡ P.refused shop.old) }
    {
        match expr {
            Expr::Token { label: _, test } => self.add_test(alloc, test, shop),
            Expr::Begin { kind: _, test } => self.add_test(alloc, test, shop),
            Expr::End { kind: _ } => Ok(()),
            Expr::Whole { kind: _, test } => self.add_test(alloc, test, shop),
            Expr::Seq(left, right) => {
                self.add_expr(alloc, left, shop)?;
                self.add_expr(alloc, right, shop)
            }
            Expr::Choice(left, right) => {
                self.add_expr(alloc, left, shop)?;
                self.add_expr(alloc, right, shop)
            }
            Expr::Repeat {
                inner,
                least: _,
                most: _,
            } => self.add_expr(alloc, inner, shop),
        }
    }

    /// Adds the patterns of a test.
    fn add_test(&mut self, alloc: Global, test: &Test, shop: &mut P) -> Result<(), PatternError>
        ensures texts { OnOk result (self.new ≡ self.old ++ test_patterns (test_shape test.now)) }
        ensures patterns { OnOk result (All IsWhole (test_patterns (test_shape test.now))) }
        ensures blames { IfErr result (Blames (length self.old + 1) (test_patterns (test_shape test.now)) (P.refused shop.old) (P.refused shop.new)) }
        ensures kept { OnOk result (P.refused shop.new ≡ P.refused shop.old) }
    {
        match test {
            Test::Any => Ok(()),
            Test::Pattern {
                attr: _,
                text,
                not: _,
            } => self.add(alloc, text, shop),
            Test::Literal {
                attr: _,
                text: _,
                not: _,
            } => Ok(()),
            Test::Not(inner) => self.add_test(alloc, inner, shop),
            Test::Both(left, right) => {
                self.add_test(alloc, left, shop)?;
                self.add_test(alloc, right, shop)
            }
            Test::Either(left, right) => {
                self.add_test(alloc, left, shop)?;
                self.add_test(alloc, right, shop)
            }
        }
    }

    /// Builds a pattern and adds it.
    fn add(&mut self, alloc: Global, text: &Value, shop: &mut P) -> Result<(), PatternError>
        ensures texts { OnOk result (self.new ≡ self.old ++ text.now ∷ []) }
        ensures patterns { OnOk result (All IsWhole (text.now ∷ [])) }
        ensures blames { IfErr result (Blames (length self.old + 1) (text.now ∷ []) (P.refused shop.old) (P.refused shop.new)) }
        ensures kept { OnOk result (P.refused shop.new ≡ P.refused shop.old) }
    {
        if self.built.len() >= u32::MAX as usize {
            return Err(PatternError::NoMemory);
        }
        let k = self.built.len() as u32 + 1;
        match WholePattern::build(alloc, text.as_str(), shop) {
            Ok(pattern) => self.push(KnownPattern::new(pattern)),
            Err(IdsError::Syntax) => Err(PatternError::Syntax(k)),
            Err(IdsError::Refused) => Err(PatternError::Refused(k)),
            Err(IdsError::NoMemory) => Err(PatternError::NoMemory),
        }
    }

    /// Adds a pattern that is built.
    fn push(&mut self, pattern: KnownPattern<P>) -> Result<(), PatternError>
        ensures texts { OnOk result (self.new ≡ self.old ++ pattern ∷ []) }
        ensures starved { IfErr result (λ error. error ≡ PatternError.NoMemory) }
    {
        match self.built.push(pattern) {
            Ok(()) => Ok(()),
            Err(_) => Err(PatternError::NoMemory),
        }
    }
}

/// Whether all patterns of a query are built: builds them, and lets them go.
pub fn check<P: PatternShop>(alloc: Global, query: &Query, shop: &mut P) -> Result<(), PatternError>
    ensures patterns { OnOk result (All IsWhole (query_patterns query.now)) }
    ensures blames { IfErr result (Blames 1 (query_patterns query.now) (P.refused shop.old) (P.refused shop.new)) }
    ensures kept { OnOk result (P.refused shop.new ≡ P.refused shop.old) }
{
    Patterns::<P>::build(alloc, query, shop)?;
    Ok(())
}
