//! A shop that refuses chosen texts.

ghost use Rattle.std.specs.Prelude.{◌≡◌, ◌↔◌, ◌⊎◌, IsTrue, [], ◌∷◌, ◌++◌, Contains, IfOk, IsErrOf};
ghost use Rattle.mt_pattern_spec.specs.Patterns.{IsPattern, IsTooDeep};

use super::id_set::IdSet;
use super::regexes::{Built, RegexShop};
use super::shop::{PatternShop, ShopError};
use mt_base::{List, NoMemory, Value};
use mt_lexicon::Lexicon;
use std::alloc::Global;
use std::marker::Model;

/// A `RegexShop` that also refuses chosen texts, each time that they come, before `regex` sees them.
#[derive(Drop)]
pub struct FussyShop {
    texts: List<Value>,
    shop: RegexShop,
}

impl Model for FussyShop {
    ghost use Rattle.mt_pattern.specs.Shops.{Fussy};

    ghost Value = { Fussy };

    ghost view = { λ f. record { texts = f.texts; refused = f.shop } };
}

impl FussyShop {
    /// A shop that refuses these texts, and refused nothing yet. It takes no memory until it refuses a text.
    pub fn new(alloc: Global, texts: List<Value>) -> Self
        ensures { result ≡ record { texts = texts; refused = [] } }
    {
        FussyShop {
            texts,
            shop: RegexShop::new(alloc),
        }
    }

    /// Whether this is one of the texts that it refuses.
    fn refuses(&self, text: &str) -> bool
        ensures { IsTrue result ↔ Contains self.now.texts text.now }
    {
        self.texts
            .as_slice()
            .iter()
            .any(|refused| refused.as_str() == text)
    }
}

impl PatternShop for FussyShop {
    type Pattern = Built;

    ghost refused = { λ f. f.refused };

    ghost text_of = { λ p. p };

    fn build(&mut self, alloc: Global, text: &str) -> Result<Built, ShopError>
        ensures chosen { Contains self.old.texts text.now → IsErrOf result ShopError.Refused ⊎ IsErrOf result ShopError.NoMemory }
        ensures texts { self.new.texts ≡ self.old.texts }
        ensures text { IfOk result (λ pattern. pattern ≡ text.now) }
        ensures pattern { IfOk result (λ _. IsPattern text.now) }
        ensures syntax { IsErrOf result ShopError.Syntax → IsPattern text.now → IsTooDeep text.now }
        ensures only { IsErrOf result ShopError.Refused → Contains self.old.texts text.now ⊎ IsPattern text.now }
        ensures refused { IsErrOf result ShopError.Refused → self.new.refused ≡ self.old.refused ++ text.now ∷ [] }
        ensures kept { ¬ IsErrOf result ShopError.Refused → self.new.refused ≡ self.old.refused }
    {
        if self.refuses(text) {
            return Err(self.shop.refuse(alloc, text));
        }
        self.shop.build(alloc, text)
    }

    fn accepts(
        &mut self,
        alloc: Global,
        pattern: &mut Built,
        value: &str,
    ) -> Result<bool, NoMemory> {
        self.shop.accepts(alloc, pattern, value)
    }

    fn accepts_each(
        &mut self,
        alloc: Global,
        pattern: &mut Built,
        lexicons: &[&Lexicon],
    ) -> Result<List<IdSet>, NoMemory> {
        self.shop.accepts_each(alloc, pattern, lexicons)
    }
}
