//! Reading a sketch grammar over a corpus.

ghost use Rattle.std.specs.Prelude.{◌≡◌, ℕ, List as Items, IfOk, IfErr, OnOk};
ghost use Rattle.std.specs.List.{All};
ghost use Rattle.mt_grammar_spec.specs.ReadGrammar.{ReadsGrammar};
ghost use Rattle.mt_grammar_spec.specs.ValidGrammar.{ValidGrammar};
ghost use Rattle.mt_grammar_counts.specs.Asked.{patterns_of, grammar_patterns};
ghost use Rattle.mt_prepare.specs.Built.{IsWhole};
ghost use Rattle.mt_rules.specs.Reading.{DeclinesRules, ReadsRules};

use super::patterns::no_pattern;
use super::rules::Rules;
use mt_answer::{Declined, GrammarCounts, Refusal, no_grammar, patterns_are_told};
use mt_corpus::Corpus;
use mt_grammar::{Grammar, read_grammar};
use mt_grammar_counts::{CountError, GrammarPatterns, TextCounts, count_corpus};
use mt_grammar_laws::{one_grammar, one_grammar_answer};
use mt_pattern::PatternShop;
use std::alloc::Global;
use std::thread::Threads;

impl<P: PatternShop> Rules<P> {
    /// The grammar that these bytes are, over a corpus, or the first check that stands: the bytes are no grammar, a pattern is none, or a query has too many rows in a
    /// text by itself. Its patterns are built also where no text is held.
    pub fn read<R: Threads + Sync>(
        rt: &R,
        alloc: Global,
        corpus: &Corpus,
        bytes: &[u8],
        shop: &mut P,
    ) -> Result<Self, Declined<'static>>
        ensures reads { IfOk result (ReadsRules corpus.now bytes.now) }
        ensures declined { IfErr result (DeclinesRules corpus.now bytes.now (P.refused shop.old) (P.refused shop.new)) }
        ensures shop { OnOk result (P.refused shop.new ≡ P.refused shop.old) }
    {
        match read_grammar(alloc, bytes, corpus.registry()) {
            Ok(grammar) => built(rt, alloc, corpus, grammar, shop),
            Err(error) => Err(no_grammar(error)),
        }
    }
}

/// A grammar with its patterns, over a corpus.
fn built<P: PatternShop, R: Threads + Sync>(
    rt: &R,
    alloc: Global,
    corpus: &Corpus,
    grammar: Grammar,
    shop: &mut P,
) -> Result<Rules<P>, Declined<'static>>
    requires { ValidGrammar corpus.now.registry grammar }
    ensures reads { (bytes : Items ℕ) → ReadsGrammar corpus.now.registry bytes grammar → IfOk result (ReadsRules corpus.now bytes) }
    ensures declined { (bytes : Items ℕ) → ReadsGrammar corpus.now.registry bytes grammar → IfErr result (DeclinesRules corpus.now bytes (P.refused shop.old) (P.refused shop.new)) }
    ensures shop { OnOk result (P.refused shop.new ≡ P.refused shop.old) }
{
    one_grammar_answer();
    patterns_are_told();
    match GrammarPatterns::<P>::build(alloc, &grammar, shop) {
        Ok(patterns) => counted(rt, alloc, corpus, grammar, patterns, shop),
        Err(error) => Err(no_pattern(error)),
    }
}

/// A grammar whose patterns are built, with its counts over a corpus.
fn counted<P: PatternShop, R: Threads + Sync>(
    rt: &R,
    alloc: Global,
    corpus: &Corpus,
    grammar: Grammar,
    patterns: GrammarPatterns<P>,
    shop: &mut P,
) -> Result<Rules<P>, Declined<'static>>
    requires valid { ValidGrammar corpus.now.registry grammar }
    requires patterns { patterns ≡ patterns_of grammar }
    requires whole { All IsWhole (grammar_patterns grammar) }
    ensures reads { (bytes : Items ℕ) → ReadsGrammar corpus.now.registry bytes grammar → IfOk result (ReadsRules corpus.now bytes) }
    ensures declined { (bytes : Items ℕ) → ReadsGrammar corpus.now.registry bytes grammar → IfErr result (DeclinesRules corpus.now bytes (P.refused shop.old) (P.refused shop.old)) }
    ensures shop { P.refused shop.new ≡ P.refused shop.old }
{
    one_grammar();
    one_grammar_answer();
    patterns_are_told();
    let mut patterns = patterns;
    match count_corpus(rt, alloc, corpus, &grammar, &mut patterns, shop) {
        Ok(triples) => Ok(Rules {
            grammar,
            patterns,
            counts: GrammarCounts::new(triples),
            text_counts: TextCounts::new(alloc),
        }),
        Err(CountError::TooManyRows) => Err(Declined::Refused(Refusal::TooManyRows)),
        Err(CountError::NoMemory) => Err(Declined::NoMemory),
    }
}
