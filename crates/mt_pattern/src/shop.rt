//! The trait of pattern shops.

ghost use Rattle.std.specs.Prelude.{◌≡◌, ℕ, List as Items, [], ◌∷◌, ◌++◌, map, IfOk, IsErrOf};
ghost use Rattle.mt_pattern_spec.specs.Patterns.{IsPattern, IsTooDeep, finds};

use super::id_set::IdSet;
use mt_base::{List, NoMemory};
use mt_lexicon::Lexicon;
use std::alloc::Global;

/// Why no pattern was built.
#[derive(Clone, Copy, Debug, PartialEq, Eq, Drop)]
pub enum ShopError {
    /// The text is no pattern, or it nests too deep.
    Syntax,
    /// The shop refused the text, and keeps it.
    Refused,
    /// There was no memory for it.
    NoMemory,
}

/// Builds patterns, and searches for them in values.
pub trait PatternShop {
    /// What is built.
    type Pattern: Drop;

    /// The texts that were refused, first to last.
    ghost refused: { Self → Items (Items ℕ) };

    /// The text that a pattern was built from.
    ghost text_of: { Self.Pattern → Items ℕ };

    /// Builds the pattern of a text.
    fn build(&mut self, alloc: Global, text: &str) -> Result<Self::Pattern, ShopError>
        ensures text { IfOk result (λ pattern. text_of pattern ≡ text.now) }
        ensures pattern { IfOk result (λ _. IsPattern text.now) }
        ensures syntax { IsErrOf result ShopError.Syntax → IsPattern text.now → IsTooDeep text.now }
        ensures refused { IsErrOf result ShopError.Refused → refused self.new ≡ refused self.old ++ text.now ∷ [] }
        ensures kept { ¬ IsErrOf result ShopError.Refused → refused self.new ≡ refused self.old };

    /// Whether a pattern has a match in a value.
    fn accepts(
        &mut self,
        alloc: Global,
        pattern: &mut Self::Pattern,
        value: &str,
    ) -> Result<bool, NoMemory>
        ensures found { IfOk result (λ found. found ≡ finds (text_of pattern.old) value.now) }
        ensures text { text_of pattern.new ≡ text_of pattern.old }
        ensures kept { refused self.new ≡ refused self.old };

    /// Marks the values of each lexicon in which a pattern has a match. It answers for each value as `accepts` does, and makes what it
    /// needs for that once for all of them.
    fn accepts_each(
        &mut self,
        alloc: Global,
        pattern: &mut Self::Pattern,
        lexicons: &[&Lexicon],
    ) -> Result<List<IdSet>, NoMemory>
        ensures found { IfOk result (λ sets. sets ≡ map (λ lexicon. map (finds (text_of pattern.old)) lexicon.now) lexicons.now) }
        ensures text { text_of pattern.new ≡ text_of pattern.old }
        ensures kept { refused self.new ≡ refused self.old };
}
