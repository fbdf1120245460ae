//! Patterns that are to match whole values, and the values that they accept.

ghost use Rattle.std.specs.List.{AllPass, AllZip};
ghost use Rattle.std.specs.Prelude.{◌≡◌, map, string_bytes, IsTrue, IfOk, OnOk, IsErrOf};
ghost use Rattle.mt_pattern_spec.specs.Patterns.{IsPattern, MayBeNoPattern, MarksAccepted, finds, wrapped};
ghost use Rattle.mt_pattern.specs.Plain.{AcceptsJust, is_plain_byte};
ghost use Rattle.mt_pattern.specs.Shops.{RefusedOne};

use super::id_set::IdSet;
use super::known::{Known, keep, recalled};
use super::plain::{is_plain, mark_itself, mark_itself_in_each, own_number};
use super::shop::{PatternShop, ShopError};
use mt_base::{List, NoMemory, Value};
use mt_lexicon::Lexicon;
use std::alloc::Global;
use std::marker::Model;

/// A lexicon with more values is searched anew: what the shop makes for it costs little beside them.
const FEW_VALUES: u32 = 256;

/// Why there is no set of numbers.
#[derive(Clone, Copy, Debug, PartialEq, Eq, Drop)]
pub enum IdsError {
    /// The text is no pattern, or, alone or between marks for a value's start and end, it nests too deep.
    Syntax,
    /// The shop refused the text, alone or between those marks.
    Refused,
    /// There was no memory for it.
    NoMemory,
}

impl From<NoMemory> for IdsError {
    ghost use Rattle.std.specs.Prelude.{◌≡◌};
    ghost use Rattle.mt_pattern.specs.declared.build.IdsError.TheVariants.{NoMemory};

    ghost from_gives = { λ _ error. error ≡ NoMemory };

    fn from(_: NoMemory) -> Self {
        IdsError::NoMemory
    }
}

impl From<ShopError> for IdsError {
    ghost use Rattle.mt_pattern.specs.Shops.{same_cause};
    ghost use Rattle.std.specs.Prelude.{◌≡◌};

    ghost from_gives = { λ given error. error ≡ same_cause given };

    fn from(error: ShopError) -> Self {
        match error {
            ShopError::Syntax => IdsError::Syntax,
            ShopError::Refused => IdsError::Refused,
            ShopError::NoMemory => IdsError::NoMemory,
        }
    }
}

/// A pattern that is to match whole values: a text that is a pattern, also between marks for a value's start and end, and what a shop
/// built of it there. It is built once and then asked of as many lexicons as there are, and keeps what it answers for the values of small ones.
/// Contracts see it as the text.
#[derive(Drop)]
pub struct WholePattern<P: PatternShop> {
    text: Value,
    whole: P::Pattern,
    known: Known,
}

impl<P: PatternShop> Model for WholePattern<P> {
    ghost use Rattle.std.specs.Prelude.{◌≡◌, ℕ, List};
    ghost use Rattle.mt_pattern_spec.specs.Patterns.{IsPattern, finds, wrapped};
    ghost use Rattle.mt_pattern.specs.Known.{AreKnown};

    ghost Value = { List ℕ };

    ghost view = { λ w. w.text };

    ghost invariant = { λ w. IsPattern w.text × IsPattern (wrapped w.text) × (P.text_of w.whole ≡ wrapped w.text) × AreKnown (finds (wrapped w.text)) w.known };
}

impl<P: PatternShop> WholePattern<P> {
    /// The pattern of whole values that a text is. The text is built by itself first, so that only what is a pattern by itself is put
    /// between the marks for a value's start and end.
    pub fn build(alloc: Global, text: &str, shop: &mut P) -> Result<Self, IdsError>
        ensures text { IfOk result (λ whole. whole ≡ text.now) }
        ensures patterns { OnOk result (IsPattern text.now × IsPattern (wrapped text.now)) }
        ensures syntax { IsErrOf result IdsError.Syntax → MayBeNoPattern text.now }
        ensures refused { IsErrOf result IdsError.Refused → RefusedOne (P.refused shop.old) text.now (P.refused shop.new) }
        ensures kept { ¬ IsErrOf result IdsError.Refused → P.refused shop.new ≡ P.refused shop.old }
    {
        shop.build(alloc, text)?;
        let marked = in_marks(alloc, text)?;
        let whole = shop.build(alloc, marked.as_str())?;
        let text = Value::new(alloc, text)?;
        let known = Known::new(alloc);
        Ok(WholePattern { text, whole, known })
    }

    /// Whether each character of the text stands for itself, so that the pattern accepts one value: the text.
    pub fn is_plain(&self) -> bool
        ensures plain { IsTrue result → AllPass is_plain_byte self.now }
        ensures all { AllPass is_plain_byte self.now → IsTrue result }
    {
        is_plain(self.text.as_str())
    }

    /// The number of the one value that a pattern of plain characters accepts, where the lexicon has it. It takes no memory.
    pub fn own_number(&self, lexicon: &Lexicon) -> Option<u32>
        requires { AllPass is_plain_byte self.now }
        ensures { AcceptsJust self.now lexicon.now result }
    {
        let _utf8 = self.text.as_str();
        own_number(lexicon, &self.text)
    }

    /// The numbers of the values that the pattern accepts. A text of plain characters accepts itself alone, and is looked up; where it is kept of
    /// all values whether they are accepted, the shop is not asked.
    pub fn ids(&mut self, alloc: Global, lexicon: &Lexicon, shop: &mut P) -> Result<IdSet, NoMemory>
        ensures marks { IfOk result (λ marks. MarksAccepted self.old lexicon.now marks) }
        ensures text { self.new ≡ self.old }
        ensures kept { P.refused shop.new ≡ P.refused shop.old }
    {
        if is_plain(self.text.as_str()) {
            return mark_itself(alloc, lexicon, &self.text);
        }
        if lexicon.len() > FEW_VALUES {
            return answered(alloc, &mut self.whole, lexicon, shop);
        }
        if let Some(marks) = recalled(alloc, &self.known, lexicon)? {
            return Ok(marks);
        }
        let marks = answered(alloc, &mut self.whole, lexicon, shop)?;
        keep(alloc, &mut self.known, lexicon, &marks)?;
        Ok(marks)
    }

    /// The numbers of the values of each lexicon that the pattern accepts. A text of plain characters accepts itself alone, and is looked
    /// up; for another one the shop makes what it searches with once for all lexicons.
    pub fn ids_of_each(
        &mut self,
        alloc: Global,
        lexicons: &[&Lexicon],
        shop: &mut P,
    ) -> Result<List<IdSet>, NoMemory>
        ensures marks { IfOk result (λ sets. AllZip (λ lexicon marks. MarksAccepted self.old lexicon.now marks) lexicons.now sets) }
        ensures text { self.new ≡ self.old }
        ensures kept { P.refused shop.new ≡ P.refused shop.old }
    {
        if is_plain(self.text.as_str()) {
            return mark_itself_in_each(alloc, lexicons, &self.text);
        }
        shop.accepts_each(alloc, &mut self.whole, lexicons)
    }
}

/// Marks the values of a lexicon in which a shop's pattern has a match.
fn answered<P: PatternShop>(
    alloc: Global,
    pattern: &mut P::Pattern,
    lexicon: &Lexicon,
    shop: &mut P,
) -> Result<IdSet, NoMemory>
    ensures found { IfOk result (λ marks. marks ≡ map (finds (P.text_of pattern.old)) lexicon.now) }
    ensures text { P.text_of pattern.new ≡ P.text_of pattern.old }
    ensures kept { P.refused shop.new ≡ P.refused shop.old }
{
    let sets = shop.accepts_each(alloc, pattern, &[lexicon])?;
    match sets.into_vec().pop() {
        Some(marks) => Ok(marks),
        None => unreachable!(),
    }
}

/// The text between the marks for a value's start and end.
fn in_marks(alloc: Global, text: &str) -> Result<String, NoMemory>
    ensures { IfOk result (λ whole. string_bytes whole ≡ wrapped text.now) }
{
    Ok(format!(in alloc; r"\A(?:{text})\z")?)
}

/// The numbers of the values that a text accepts as a pattern: it is built and asked of one lexicon.
pub fn ids<P: PatternShop>(
    alloc: Global,
    lexicon: &Lexicon,
    text: &str,
    shop: &mut P,
) -> Result<IdSet, IdsError>
    ensures marks { IfOk result (λ marks. MarksAccepted text.now lexicon.now marks) }
    ensures patterns { OnOk result (IsPattern text.now × IsPattern (wrapped text.now)) }
    ensures syntax { IsErrOf result IdsError.Syntax → MayBeNoPattern text.now }
    ensures refused { IsErrOf result IdsError.Refused → RefusedOne (P.refused shop.old) text.now (P.refused shop.new) }
    ensures kept { ¬ IsErrOf result IdsError.Refused → P.refused shop.new ≡ P.refused shop.old }
{
    let mut pattern = WholePattern::build(alloc, text, shop)?;
    Ok(pattern.ids(alloc, lexicon, shop)?)
}
