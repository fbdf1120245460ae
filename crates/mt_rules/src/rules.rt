//! The sketch grammar that is held.

ghost use Rattle.std.specs.Prelude.{◌≡◌, ◌≤◌};
ghost use Rattle.mt_sketch.specs.Told.{AreOfSome};
ghost use Rattle.mt_grammar_spec.specs.ReadGrammar.{relation_count};
ghost use Rattle.mt_grammar.specs.Seen.{kind_seen};
ghost use Rattle.mt_rules.specs.Names.{name_count};

use mt_answer::GrammarCounts;
use mt_base::NoMemory;
use mt_grammar::{Grammar, RelationKind};
use mt_grammar_counts::{GrammarPatterns, TextCounts};
use mt_pattern::PatternShop;
use std::alloc::Global;
use std::marker::Model;
use std::thread::Threads;

/// A sketch grammar that is held over a corpus: with its patterns, which are built once, with what it counts over the texts, and with memory in which one more text is counted. Contracts see the grammar and the
/// counts.
#[derive(Drop)]
pub struct Rules<P: PatternShop> {
    pub(crate) grammar: Grammar,
    pub(crate) patterns: GrammarPatterns<P>,
    pub(crate) counts: GrammarCounts,
    pub(crate) text_counts: TextCounts,
}

impl<P: PatternShop> Model for Rules<P> {
    ghost use Rattle.std.specs.Prelude.{◌≡◌};
    ghost use Rattle.mt_grammar_counts.specs.Asked.{patterns_of};
    ghost use Rattle.mt_rules.specs.Ruled.{Ruled};
    ghost use Rattle.mt_rules.specs.Codes.{ruled_code};

    ghost Value = { Ruled };

    ghost coded = { ruled_code };

    ghost view = { λ r. record { grammar = r.grammar; counted = r.counts } };

    ghost invariant = { λ r. r.patterns ≡ patterns_of r.grammar };
}

impl<P: PatternShop> Rules<P> {
    /// What is counted over the texts. It takes no memory.
    pub fn counts(&self) -> &GrammarCounts
        ensures { result.now ≡ self.now.counted }
    {
        &self.counts
    }

    /// Makes what a thesaurus needs, once for the texts that are held. It changes nothing that contracts see.
    pub fn prepare<R: Threads + Sync>(&mut self, rt: &R, alloc: Global) -> Result<(), NoMemory>
        requires { AreOfSome self.old.counted }
        ensures { self.new ≡ self.old }
    {
        self.counts.prepare(rt, alloc)
    }

    /// How many relations the grammar has for its user: one that has two names counts twice.
    pub fn relation_count(&self) -> u128
        ensures { result ≡ relation_count self.now.grammar.relations }
    {
        relations_in(&self.grammar)
    }
}

/// How many relations a grammar has for its user.
fn relations_in(grammar: &Grammar) -> u128
    ensures { result ≡ relation_count grammar.now.relations }
{
    let mut count = 0;
    for relation in grammar.relations().as_slice() {
        count += name_count(relation.kind());
    }
    count
}

/// How many names a relation of a kind has.
fn name_count(kind: RelationKind) -> u128
    ensures count { result ≡ name_count (kind_seen kind) }
    ensures few { result ≤ 2 }
{
    match kind {
        RelationKind::Dual => 2,
        RelationKind::Plain
        | RelationKind::Symmetric
        | RelationKind::Trinary
        | RelationKind::Unary => 1,
    }
}
