//! What is held.

ghost use Rattle.std.specs.Prelude.{◌≡◌, ◌↔◌, IfOk, IsTrue};
ghost use Rattle.mt_corpus_spec.specs.Images.{AreImagesBy};
ghost use Rattle.mt_script_spec.specs.Commands as spec;
ghost use Rattle.mt_session_spec.specs.World.{Holds, ValidHeld};
ghost use Rattle.mt_session_spec.specs.Settings.{Setting, images_of};
ghost use Rattle.mt_script.specs.Seen.{ask_of};
ghost use Rattle.mt_shell.specs.Serves.{first_kept};
ghost use Rattle.mt_shell.specs.Answers.{AnswersBeside};

mod adding;
mod generating;
mod listing;
mod registering;
mod removing;
mod ruling;

use mt_answer::{Reply, answer};
use mt_base::{NoMemory, Registry, Value};
use mt_corpus::Corpus;
use mt_pattern::PatternShop;
use mt_rules::Rules;
use mt_script::Ask;
use mt_session_laws::held_is_valid;
use std::alloc::Global;
use std::marker::Model;
use std::thread::Threads;

/// The registry, the texts and the sketch grammar that the accepted commands have left, seen as what is held beside the images that were taken of mappers.
#[derive(Drop)]
pub struct State<P: PatternShop> {
    alloc: Global,
    accepted: bool,
    corpus: Corpus,
    rules: Option<Rules<P>>,
}

impl<P: PatternShop> Model for State<P> {
    ghost use Rattle.std.specs.Coded.{codes};
    ghost use Rattle.mt_grammar.specs.Codes.{grammar_code};
    ghost use Rattle.mt_shell.specs.Serves.{Kept, kept};
    ghost use Rattle.mt_shell.specs.Holding.{IsSound, grammar_of};

    ghost Value = { Kept };

    ghost coded = { Prim.hlevel (codes, grammar_code) };

    ghost view = { λ s. kept s.accepted (grammar_of s.rules) s.corpus };

    ghost invariant = { λ s. IsSound s.accepted s.rules s.corpus };
}

impl<P: PatternShop> State<P> {
    /// The standard registry, no texts and no grammar.
    pub fn new(alloc: Global) -> Result<Self, NoMemory>
        ensures { IfOk result (λ state. state ≡ first_kept) }
    {
        held_is_valid();
        Ok(State {
            alloc,
            accepted: false,
            corpus: Corpus::new(alloc, Registry::standard(alloc)?),
            rules: None,
        })
    }

    /// That what is held is valid. It does nothing.
    pub fn valid(&self)
        ensures { ValidHeld self.now.held }
    {
        let _accepted = self.accepted;
    }

    /// Answers a question. It changes nothing that is held.
    pub fn answer<R: Threads + Sync>(&mut self, rt: &R, ask: &Ask, shop: &mut P) -> Reply
        ghost setting: { Setting }
        requires { AreImagesBy (images_of setting) self.old.taken }
        ensures means { AnswersBeside setting self.old.held (spec.Asks (ask_of ask.now)) result self.new.held (P.refused shop.old) (P.refused shop.new) }
        ensures same { self.new ≡ self.old }
    {
        let Ok(()) = self.prepare_for(rt, ask) else {
            return Reply::NoMemory;
        };
        self.answer_prepared(rt, ask, shop)
    }

    /// Makes what the question needs of the grammar, if that is not made yet.
    fn prepare_for<R: Threads + Sync>(&mut self, rt: &R, ask: &Ask) -> Result<(), NoMemory>
        ghost setting: { Setting }
        requires { AreImagesBy (images_of setting) self.old.taken }
        ensures { self.new ≡ self.old }
    {
        let Some(rules) = &mut self.rules else {
            return Ok(());
        };
        match ask {
            Ask::Thes { .. } => rules.prepare(rt, self.alloc),
            _ => Ok(()),
        }
    }

    /// Answers a question over what is held.
    fn answer_prepared<R: Threads + Sync>(&self, rt: &R, ask: &Ask, shop: &mut P) -> Reply
        ghost setting: { Setting }
        requires { AreImagesBy (images_of setting) self.now.taken }
        ensures { AnswersBeside setting self.now.held (spec.Asks (ask_of ask.now)) result self.now.held (P.refused shop.old) (P.refused shop.new) }
    {
        match &self.rules {
            Some(rules) => {
                let counts = Some(rules.counts());
                answer(rt, self.alloc, &self.corpus, counts, ask, shop)
            }
            None => answer(rt, self.alloc, &self.corpus, None, ask, shop),
        }
    }

    /// Whether a text of the corpus has this name.
    fn holds(&self, name: &Value) -> bool
        ensures { IsTrue result ↔ Holds self.now.held name.now }
    {
        self.corpus.holds(name)
    }
}
