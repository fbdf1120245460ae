//! What a sketch grammar counts over a corpus.

ghost use Rattle.std.specs.Prelude.{◌≡◌, ◌++◌, List as Items, IfOk, OnErr, OnOk};
ghost use Rattle.mt_text_spec.specs.Registries as registries;
ghost use Rattle.mt_text_spec.specs.Texts as texts;
ghost use Rattle.mt_text_spec.specs.Queries as queries;
ghost use Rattle.mt_match_spec.specs.Values.{Images};
ghost use Rattle.mt_triples.specs.CountsOf.{AreCountsOf};
ghost use Rattle.mt_sketch.specs.Told.{AreOfSome, IsSketchReply};
ghost use Rattle.mt_thesaurus.specs.Told.{IsThesaurusReply};

use mt_base::{List, NoMemory};
use mt_counts::Noted;
use mt_sketch::{counts_are_within, sketch};
use mt_thesaurus::Contexts;
use mt_triples::Triples;
use std::alloc::Global;
use std::marker::Model;
use std::thread::Threads;

/// What a sketch grammar counts over a corpus, and the contexts of its words once a thesaurus has asked for them.
#[derive(Drop)]
pub struct GrammarCounts {
    triples: Triples,
    contexts: Option<Contexts>,
}

impl Model for GrammarCounts {
    ghost use Rattle.std.specs.Prelude.{IfSome};
    ghost use Rattle.mt_counts.specs.Counted.{Counted};
    ghost use Rattle.mt_sketch.specs.Told.{frequencies_of};
    ghost use Rattle.mt_thesaurus.specs.Scores.{AreScoresOf};

    ghost Value = { Counted };

    ghost view = { λ c. c.triples };

    ghost invariant = { λ c. IfSome c.contexts (AreScoresOf (frequencies_of c.triples)) };
}

impl GrammarCounts {
    /// These counts. It takes no memory.
    pub fn new(triples: Triples) -> Self
        ensures { result ≡ triples }
    {
        GrammarCounts {
            triples,
            contexts: None,
        }
    }

    /// Adds what was noted over other texts, at the cost of what was. Out of memory, or where all counts together would be 2^64 or more, each count is as it was. The
    /// contexts are let go.
    pub fn add(&mut self, alloc: Global, text: &Noted) -> Result<(), NoMemory>
        ensures ok { (images : Images) (registry : registries.Registry) (grammar : queries.Grammar) (corpus others : Items texts.Text) → AreCountsOf images registry grammar corpus self.old
            → AreCountsOf images registry grammar others text.now.counted → OnOk result (AreCountsOf images registry grammar (corpus ++ others) self.new) }
        ensures err { (images : Images) (registry : registries.Registry) (grammar : queries.Grammar) (corpus : Items texts.Text) → AreCountsOf images registry grammar corpus self.old
            → OnErr result (AreCountsOf images registry grammar corpus self.new) }
    {
        self.contexts = None;
        self.triples.add(alloc, text)
    }

    /// Takes away the counts over some of the texts, wherever these stand among them, at the cost of what they have, and lets the contexts go. It takes no memory.
    pub fn subtract(&mut self, text: &Noted)
        ensures { (images : Images) (registry : registries.Registry) (grammar : queries.Grammar) (before texts behind : Items texts.Text)
            → AreCountsOf images registry grammar (before ++ texts ++ behind) self.old → AreCountsOf images registry grammar texts text.now.counted → AreCountsOf images registry grammar (before ++ behind) self.new }
    {
        self.contexts = None;
        self.triples.subtract(text);
    }

    /// Makes the contexts, where there are none yet.
    pub fn prepare<R: Threads + Sync>(&mut self, rt: &R, alloc: Global) -> Result<(), NoMemory>
        requires { AreOfSome self.old }
        ensures { self.new ≡ self.old }
    {
        counts_are_within();
        if self.contexts.is_none() {
            self.contexts = Some(Contexts::new(rt, alloc, &self.triples)?);
        }
        Ok(())
    }

    /// The lines of the sketch of a lemma.
    pub(crate) fn sketch(
        &self,
        alloc: Global,
        lemma: &str,
        least: u32,
        max: u32,
    ) -> Result<List<u8>, NoMemory>
        requires { AreOfSome self.now }
        ensures { (images : Images) (registry : registries.Registry) (grammar : queries.Grammar) (corpus : Items texts.Text) → AreCountsOf images registry grammar corpus self.now
            → IfOk result (IsSketchReply images registry grammar corpus lemma.now least max) }
    {
        sketch(alloc, &self.triples, lemma, least, max)
    }

    /// The lines of the thesaurus of a lemma, by the contexts, which are made for this alone where there are none.
    pub(crate) fn thesaurus<R: Threads + Sync>(
        &self,
        rt: &R,
        alloc: Global,
        lemma: &str,
        max: u32,
    ) -> Result<List<u8>, NoMemory>
        requires { AreOfSome self.now }
        ensures { (images : Images) (registry : registries.Registry) (grammar : queries.Grammar) (corpus : Items texts.Text) → AreCountsOf images registry grammar corpus self.now
            → IfOk result (IsThesaurusReply images registry grammar corpus lemma.now max) }
    {
        counts_are_within();
        match &self.contexts {
            Some(contexts) => contexts.thesaurus(rt, alloc, lemma, max),
            None => Contexts::new(rt, alloc, &self.triples)?.thesaurus(rt, alloc, lemma, max),
        }
    }
}
