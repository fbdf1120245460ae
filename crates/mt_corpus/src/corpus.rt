//! The corpus.

ghost use Rattle.std.specs.Prelude.{◌≡◌, ℕ, ◌↔◌, [], List as Items, length, nat_eq, IsTrue};
ghost use Rattle.std.specs.List.{All, AllZip, list_all};
ghost use Rattle.mt_text_spec.specs.Registries as registries;
ghost use Rattle.mt_text_spec.specs.Registries.{ValidRegistry};
ghost use Rattle.mt_segment_spec.specs.Tables.{AreTablesUnder};
ghost use Rattle.mt_corpus_spec.specs.Groups.{HoldsName, IsFull, ValidGroups, corpus_of};
ghost use Rattle.mt_corpus_spec.specs.Images as spec;
ghost use Rattle.mt_corpus_spec.specs.Images.{AreImagesBy};
ghost use Rattle.mt_corpus_spec.specs.Segments.{StandFor};
ghost use Rattle.mt_corpus.specs.Held.{AreLive};

use mt_base::limits::{CORPUS_TEXTS_LIMIT, CORPUS_TOKENS_LIMIT};
use mt_base::{List, Registry, Value};
use mt_decode_laws::{
    images_are_decoded, live_texts_are_numbered, numbers_are_live, texts_are_decoded,
};
use mt_segment::Segment;
use std::alloc::Global;
use std::collections::HashMap;
use std::marker::Model;

/// The texts that are held: segments, and for each the ascending numbers of its live texts. A table tells where a name stands.
#[derive(Drop)]
pub struct Corpus {
    pub(crate) alloc: Global,
    pub(crate) registry: Registry,
    pub(crate) segments: List<Segment>,
    pub(crate) live: List<List<u32>>,
    pub(crate) places: HashMap<Value, (u32, u32)>,
    pub(crate) texts: usize,
    pub(crate) tokens: usize,
}

impl Model for Corpus {
    ghost use Rattle.std.specs.Prelude.{nat_eq};
    ghost use Rattle.std.specs.Cmp.Lexicographic.{pointwise};
    ghost use Rattle.std.specs.HashMap.{get};
    ghost use Rattle.mt_corpus_spec.specs.Images as spec;
    ghost use Rattle.mt_corpus_spec.specs.Decoded.{groups_in, taken_in};
    ghost use Rattle.mt_corpus.specs.Held.{IsHeld};

    ghost Value = { spec.Corpus };

    ghost view = { λ c. record { registry = c.registry; groups = groups_in c.registry c.segments c.live; taken = taken_in c.registry c.segments } };

    ghost invariant = { λ c. IsHeld c.registry c.segments c.live (λ name. get (pointwise nat_eq) c.places name) c.texts c.tokens };
}

/// Whether each of these lists is empty.
fn are_empty(lists: &[List<u32>]) -> bool
    ensures { result ≡ list_all (λ numbers. nat_eq (length numbers) 0) lists.now }
{
    lists.iter().all(|numbers| numbers.is_empty())
}

impl Corpus {
    /// No texts, under this registry. It takes no memory.
    pub fn new(alloc: Global, registry: Registry) -> Self
        requires { ValidRegistry registry }
        ensures { result ≡ record { registry = registry; groups = []; taken = [] } }
    {
        Corpus {
            alloc,
            registry,
            segments: List::new(alloc),
            live: List::new(alloc),
            places: HashMap::new(alloc),
            texts: 0,
            tokens: 0,
        }
    }

    /// The registry.
    pub fn registry(&self) -> &Registry
        ensures registry { result.now ≡ self.now.registry }
        ensures valid { ValidRegistry self.now.registry }
    {
        &self.registry
    }

    /// Whether no text is held.
    pub fn is_empty(&self) -> bool
        ensures { IsTrue result ↔ (corpus_of self.now.groups ≡ []) }
    {
        live_texts_are_numbered();
        numbers_are_live();
        texts_are_decoded();
        are_empty(self.live.as_slice())
    }

    /// Whether a text of this name is held.
    pub fn holds(&self, name: &Value) -> bool
        ensures { IsTrue result ↔ HoldsName self.now.groups name.now }
    {
        self.places.contains_key(name)
    }

    /// Whether there is no room for a text of so many tokens. Removed texts take room too.
    pub fn is_full(&self, tokens: usize) -> bool
        ensures { IsTrue result ↔ IsFull self.now.groups tokens }
    {
        self.texts >= CORPUS_TEXTS_LIMIT || tokens > CORPUS_TOKENS_LIMIT - self.tokens
    }

    /// The segments, and for each of them the ascending numbers of its live texts.
    pub fn held(&self) -> (&List<Segment>, &List<List<u32>>)
        ensures stand { (images : Items ℕ → Items ℕ → Items ℕ) → AreImagesBy images self.now.taken → StandFor images self.now.registry self.now.groups result.0.now result.1.now }
        ensures tables { All (AreTablesUnder self.now.registry) result.0.now }
        ensures numbers { AllZip AreLive result.0.now result.1.now }
        ensures groups { ValidGroups self.now.registry self.now.groups }
    {
        texts_are_decoded();
        images_are_decoded();
        numbers_are_live();
        (&self.segments, &self.live)
    }
}
