//! `generate`.

ghost use Rattle.std.specs.Prelude.{◌≡◌, ◌≤◌, ℕ, List, IsTrue};
ghost use Rattle.mt_text_spec.specs.Words.{IsName};
ghost use Rattle.mt_text_spec.specs.Registries.{standard_registry};
ghost use Rattle.mt_text_spec.specs.Texts.{ValidText, text_tokens_limit};
ghost use Rattle.mt_generate_spec.specs.Generated.{generated_text};
ghost use Rattle.mt_corpus_spec.specs.Images.{AreImagesBy};
ghost use Rattle.mt_segment.specs.Mappers.{named};
ghost use Rattle.mt_script_spec.specs.Commands as spec;
ghost use Rattle.mt_session_spec.specs.World.{Holds};
ghost use Rattle.mt_session_spec.specs.Settings.{Setting, images_of};
ghost use Rattle.mt_shell.specs.Serves.{Serves};
ghost use Rattle.mt_shell.specs.Answers.{AnswersAlone, KeepsText};

use super::State;
use mt_answer::{Refusal, Reply, refused};
use mt_base::Value;
use mt_base::limits::TEXT_TOKENS_LIMIT;
use mt_generate::{generated, is_standard};
use mt_generate_laws::laws::{reads_back, valid_texts};
use mt_generate_tables::generated_segment;
use mt_mapper::Mapper;
use mt_pattern::PatternShop;
use mt_vertical::{no_text_with_fault, one_text};
use std::thread::Threads;

impl<P: PatternShop> State<P> {
    /// `generate`: holds the text that the generated vertical is, unless its name is taken.
    pub fn generate<M: Mapper, R: Threads + Sync>(
        &mut self,
        rt: &R,
        name: &Value,
        seed: u64,
        tokens: u32,
        mappers: &mut Vec<M>,
        shop: &mut P,
    ) -> Reply
        ghost setting: { Setting }
        requires named { IsName name.now }
        requires serves { Serves setting (named M.called M.image mappers.old.items) self.old }
        ensures means { AnswersAlone setting self.old.held (spec.Generate name.now seed tokens) result self.new.held }
        ensures serves { Serves setting (named M.called M.image mappers.new.items) self.new }
        ensures shop { P.refused shop.new ≡ P.refused shop.old }
    {
        one_text();
        no_text_with_fault();
        valid_texts();
        reads_back();
        if self.holds(name) {
            return refused(self.alloc, &Refusal::NameTaken(name.as_str()));
        }
        if self.needs_no_vertical(tokens) {
            return self.keep_generated(rt, name, seed, tokens, shop);
        }
        let Ok(vertical) = generated(self.alloc, name.as_str(), seed, tokens) else {
            return Reply::NoMemory;
        };
        self.read_text(rt, name, vertical.as_slice(), mappers, shop)
    }

    /// Whether a generated text of so many tokens can be made without its vertical: under the standard registry, if it is no longer than a text may be.
    fn needs_no_vertical(&self, tokens: u32) -> bool
        ensures { IsTrue result → (self.now.held.registry ≡ standard_registry) × (tokens ≤ text_tokens_limit) }
    {
        tokens as usize <= TEXT_TOKENS_LIMIT && is_standard(self.corpus.registry())
    }

    /// Keeps the generated text under the standard registry, if there is room for it. Its segment is made without its vertical.
    fn keep_generated<R: Threads + Sync>(
        &mut self,
        rt: &R,
        name: &Value,
        seed: u64,
        tokens: u32,
        shop: &mut P,
    ) -> Reply
        ghost setting: { Setting }
        requires free { Holds self.old.held name.now → ⊥ }
        requires standard { self.old.held.registry ≡ standard_registry }
        requires valid { ValidText self.old.held.registry (generated_text name.now seed tokens) }
        requires taken { AreImagesBy (images_of setting) self.old.taken }
        ensures means { KeepsText setting self.old.held (generated_text name.now seed tokens) result self.new.held }
        ensures serves { (mappers : List (List ℕ × (List ℕ → List ℕ))) → Serves setting mappers self.old → Serves setting mappers self.new }
        ensures shop { P.refused shop.new ≡ P.refused shop.old }
    {
        if self.corpus.is_full(tokens as usize) {
            return refused(self.alloc, &Refusal::CorpusFull);
        }
        let Ok(own_name) = name.copy(self.alloc) else {
            return Reply::NoMemory;
        };
        let registry = self.corpus.registry();
        let Ok(segment) = generated_segment(rt, self.alloc, registry, own_name, seed, tokens) else {
            return Reply::NoMemory;
        };
        self.keep_made(rt, tokens as usize, segment, shop)
    }
}
