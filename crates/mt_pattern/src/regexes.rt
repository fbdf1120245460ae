//! The shop over `regex`.

ghost use Rattle.std.specs.Prelude.{◌≡◌, ◌⊎◌, ℕ, [], ◌∷◌, ◌++◌, map, IfOk, IsErrOf};
ghost use Rattle.mt_pattern_spec.specs.Patterns.{IsPattern, IsTooDeep, finds};
ghost use Rattle.regex.specs.Strings.{matcher_pattern};
ghost use Rattle.mt_pattern.specs.Searches.{Tells, TellsEach};

use super::id_set::IdSet;
use super::shop::{PatternShop, ShopError};
use mt_base::{List, NoMemory, Value};
use mt_lexicon::Lexicon;
use regex::{Error, Matcher, Regex};
use std::alloc::Global;
use std::marker::Model;

/// A pattern that `regex` built, seen as its text.
#[derive(Drop)]
pub struct Built {
    regex: Regex,
}

impl Model for Built {
    ghost use Rattle.std.specs.Prelude.{◌≡◌, ℕ, List};
    ghost use Rattle.regex.specs.Patterns.{default_config};
    ghost use Rattle.regex.specs.Strings.{regex_source, regex_config, IsReadFromSource};

    ghost Value = { List ℕ };

    ghost view = { λ b. regex_source b.regex };

    ghost invariant = { λ b. (regex_config b.regex ≡ default_config) × IsReadFromSource b.regex };
}

impl Built {
    /// Marks the values of each lexicon in which the pattern has a match, by one matcher for all.
    fn mark_each(&self, alloc: Global, lexicons: &[&Lexicon]) -> Result<List<IdSet>, NoMemory>
        ensures { IfOk result (λ sets. sets ≡ map (λ lexicon. map (finds self.now) lexicon.now) lexicons.now) }
    {
        let mut matcher = self.regex.matcher(alloc)?;
        let mut sets = List::with_capacity(alloc, lexicons.len())?;
        for lexicon in lexicons {
            sets.push(mark_values(alloc, &mut matcher, lexicon)?)?;
        }
        Ok(sets)
    }
}

/// Marks the values in which there is a match.
fn mark_values(alloc: Global, matcher: &mut Matcher, lexicon: &Lexicon) -> Result<IdSet, NoMemory>
    ensures found { IfOk result (λ marks. TellsEach (matcher_pattern matcher.old) lexicon.now marks) }
    ensures same { matcher_pattern matcher.new ≡ matcher_pattern matcher.old }
{
    let mut marks = IdSet::new(alloc, lexicon.len())?;
    for id in 0..lexicon.len() {
        marks.insert_if(id, has_match(matcher, lexicon.value(id)));
    }
    Ok(marks)
}

/// Whether there is a match somewhere in a value.
fn has_match(matcher: &mut Matcher, value: &str) -> bool
    ensures found { Tells (matcher_pattern matcher.old) value.now result }
    ensures same { matcher_pattern matcher.new ≡ matcher_pattern matcher.old }
{
    matcher.is_match(value)
}

/// Patterns by `regex`, with its default options. A text that is a pattern and yet not built, though memory sufficed, is refused: it is
/// too big for `regex`. The shop is seen as the list of the texts that it refused.
#[derive(Drop)]
pub struct RegexShop {
    refused: List<Value>,
}

impl Model for RegexShop {
    ghost use Rattle.std.specs.Prelude.{ℕ};
    ghost use Rattle.std.specs.Prelude.{List as Items};

    ghost Value = { Items (Items ℕ) };

    ghost view = { λ s. s.refused };
}

impl RegexShop {
    /// A shop that refused nothing yet. It takes no memory until it refuses a text.
    pub fn new(alloc: Global) -> Self
        ensures { result ≡ [] }
    {
        RegexShop {
            refused: List::new(alloc),
        }
    }

    /// Keeps a refused text. Without memory nothing changes.
    pub(crate) fn refuse(&mut self, alloc: Global, text: &str) -> ShopError
        ensures refused { result ≡ ShopError.Refused → self.new ≡ self.old ++ text.now ∷ [] }
        ensures starved { ¬ (result ≡ ShopError.Refused) → (result ≡ ShopError.NoMemory) × (self.new ≡ self.old) }
    {
        let Ok(kept) = Value::new(alloc, text) else {
            return ShopError::NoMemory;
        };
        match self.refused.push(kept) {
            Ok(()) => ShopError::Refused,
            Err(_) => ShopError::NoMemory,
        }
    }
}

impl PatternShop for RegexShop {
    type Pattern = Built;

    ghost refused = { λ s. s };

    ghost text_of = { λ p. p };

    fn build(&mut self, alloc: Global, text: &str) -> Result<Built, ShopError>
        ensures text { IfOk result (λ pattern. pattern ≡ text.now) }
        ensures pattern { IfOk result (λ _. IsPattern text.now) }
        ensures syntax { IsErrOf result ShopError.Syntax → IsPattern text.now → IsTooDeep text.now }
        ensures too_big { IsErrOf result ShopError.Refused → IsPattern text.now }
        ensures refused { IsErrOf result ShopError.Refused → self.new ≡ self.old ++ text.now ∷ [] }
        ensures kept { ¬ IsErrOf result ShopError.Refused → self.new ≡ self.old }
    {
        match Regex::new(alloc, text) {
            Ok(regex) => Ok(Built { regex }),
            Err(Error::Syntax(_)) => Err(ShopError::Syntax),
            Err(Error::OutOfMemory) => Err(ShopError::NoMemory),
            Err(Error::CompiledTooBig) => Err(self.refuse(alloc, text)),
            Err(Error::Internal) => unreachable!(),
        }
    }

    fn accepts(
        &mut self,
        alloc: Global,
        pattern: &mut Built,
        value: &str,
    ) -> Result<bool, NoMemory> {
        let mut matcher = pattern.regex.matcher(alloc)?;
        Ok(has_match(&mut matcher, value))
    }

    fn accepts_each(
        &mut self,
        alloc: Global,
        pattern: &mut Built,
        lexicons: &[&Lexicon],
    ) -> Result<List<IdSet>, NoMemory> {
        pattern.mark_each(alloc, lexicons)
    }
}
