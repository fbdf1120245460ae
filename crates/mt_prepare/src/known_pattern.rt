//! Patterns, with what is known of their texts.

ghost use Rattle.std.specs.Prelude.{◌≡◌, IfOk, IsTrue};
ghost use Rattle.std.specs.List.{AllPass};
ghost use Rattle.mt_pattern_spec.specs.Patterns.{MarksAccepted};
ghost use Rattle.mt_pattern.specs.Plain.{AcceptsJust, is_plain_byte};

use mt_base::NoMemory;
use mt_lexicon::Lexicon;
use mt_pattern::{IdSet, PatternShop, WholePattern};
use std::alloc::Global;
use std::marker::Model;

/// A pattern, with whether each character of its text stands for itself, which is asked for each segment. It is seen as its text.
#[derive(Drop)]
pub(crate) struct KnownPattern<P: PatternShop> {
    pattern: WholePattern<P>,
    is_plain: bool,
}

impl<P: PatternShop> Model for KnownPattern<P> {
    ghost use Rattle.std.specs.Prelude.{ℕ, IsTrue};
    ghost use Rattle.std.specs.Prelude.{List as Items};
    ghost use Rattle.std.specs.List.{AllPass};
    ghost use Rattle.mt_pattern.specs.Plain.{is_plain_byte};

    ghost Value = { Items ℕ };

    ghost view = { λ p. p.pattern };

    ghost invariant = { λ p. IsTrue p.is_plain → AllPass is_plain_byte p.pattern };
}

impl<P: PatternShop> KnownPattern<P> {
    /// The pattern, whose text is looked at once.
    pub(crate) fn new(pattern: WholePattern<P>) -> Self
        ensures { result ≡ pattern }
    {
        let is_plain = pattern.is_plain();
        KnownPattern { pattern, is_plain }
    }

    /// Whether each character of the text stands for itself, so that the pattern accepts one value: the text.
    pub(crate) fn is_plain(&self) -> bool
        ensures { IsTrue result → AllPass is_plain_byte self.now }
    {
        self.is_plain
    }

    /// The number of the one value that a pattern of plain characters accepts, where the lexicon has it.
    pub(crate) fn own_number(&self, lexicon: &Lexicon) -> Option<u32>
        requires { AllPass is_plain_byte self.now }
        ensures { AcceptsJust self.now lexicon.now result }
    {
        self.pattern.own_number(lexicon)
    }

    /// The numbers of the values that the pattern accepts.
    pub(crate) fn ids(
        &mut self,
        alloc: Global,
        lexicon: &Lexicon,
        shop: &mut P,
    ) -> Result<IdSet, NoMemory>
        ensures marks { IfOk result (λ marks. MarksAccepted self.old lexicon.now marks) }
        ensures text { self.new ≡ self.old }
        ensures kept { P.refused shop.new ≡ P.refused shop.old }
    {
        self.pattern.ids(alloc, lexicon, shop)
    }
}
