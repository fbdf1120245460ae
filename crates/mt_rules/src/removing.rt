//! A text that goes from the corpus.

ghost use Rattle.std.specs.Prelude.{◌≡◌, length, IfOk, OnOk, OnErr};
ghost use Rattle.std.specs.List.{Any};
ghost use Rattle.mt_corpus_spec.specs.Groups.{HoldsName, corpus_of, without};
ghost use Rattle.mt_corpus.specs.Named.{SplitsAt};
ghost use Rattle.mt_answer.specs.Rows.{HasImages};
ghost use Rattle.mt_rules.specs.Ruled.{AreOver};

use super::rules::Rules;
use mt_base::{NoMemory, Value};
use mt_corpus::Corpus;
use mt_grammar_counts::{CountError, count_named};
use mt_pattern::PatternShop;
use std::alloc::Global;
use std::thread::Threads;

impl<P: PatternShop> Rules<P> {
    /// Removes the text of this name from the corpus, with what it counts, and says how many tokens it has. Only that text is looked at. Where there is no memory to
    /// count it, it stays.
    pub fn remove<R: Threads + Sync>(
        &mut self,
        rt: &R,
        alloc: Global,
        corpus: &mut Corpus,
        name: &Value,
        shop: &mut P,
    ) -> Result<u32, NoMemory>
        requires over { AreOver corpus.old self.old }
        requires images { HasImages corpus.old }
        requires name { HoldsName corpus.old.groups name.now }
        ensures ok { OnOk result (corpus.new ≡ record corpus.old { groups = without name.now corpus.old.groups }) }
        ensures tokens { IfOk result (λ tokens. Any (λ text. (text.name ≡ name.now) × (length text.tokens ≡ tokens)) (corpus_of corpus.old.groups)) }
        ensures err { OnErr result (corpus.new ≡ corpus.old) }
        ensures over { AreOver corpus.new self.new }
        ensures grammar { self.new.grammar ≡ self.old.grammar }
        ensures shop { P.refused shop.new ≡ P.refused shop.old }
    {
        match count_named(
            rt,
            alloc,
            corpus,
            name,
            &self.grammar,
            &mut self.patterns,
            &mut self.text_counts,
            shop,
        ) {
            Ok(()) => {}
            Err(CountError::NoMemory) => return Err(NoMemory),
            Err(CountError::TooManyRows) => {
                stands_once(corpus, name);
                unreachable!()
            }
        }
        let Ok(tokens) = corpus.remove(name) else {
            unreachable!()
        };
        self.counts.subtract(self.text_counts.noted());
        self.text_counts.let_go_where_large(alloc);
        Ok(tokens)
    }
}

/// That a text which is held stands between others. It changes nothing.
fn stands_once(corpus: &Corpus, name: &Value)
    requires { HoldsName corpus.now.groups name.now }
    ensures { SplitsAt corpus.now.groups name.now }
{
    match corpus.find(name) {
        Some(_) => {}
        None => unreachable!(),
    }
}
