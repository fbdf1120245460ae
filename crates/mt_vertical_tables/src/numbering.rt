//! Values numbered.

ghost use Rattle.std.specs.Prelude.{◌≡◌, ◌-◌, ◌^◌, ◌<◌, [], ◌∷◌, ◌++◌, length, IfOk, OnOk};
ghost use Rattle.std.specs.List.{All};
ghost use Rattle.mt_lexicon.specs.Joins.{renumbered};
ghost use Rattle.mt_store_spec.specs.Lexicons.{IsLexiconOf, Renumbers};

use super::known::Seen;
use mt_base::NoMemory;
use mt_lexicon::{Lexicon, Renumbering};
use std::alloc::Global;
use std::marker::Model;

/// Values in order, seen as their list. Each distinct one is kept once, under a number, and the numbers stand for the values.
#[derive(Drop)]
pub(crate) struct Numbering {
    seen: Seen,
    numbers: Vec<u32>,
}

impl Model for Numbering {
    ghost use Rattle.std.specs.Prelude.{ℕ, List};
    ghost use Rattle.mt_segment.specs.Numbered.{IsNumbered, stands_for};

    ghost Value = { List (List ℕ) };

    ghost view = { λ n. stands_for n.seen n.numbers.items };

    ghost invariant = { λ n. IsNumbered n.seen n.numbers.items };
}

impl Numbering {
    /// No values.
    pub(crate) fn new(alloc: Global) -> Result<Self, NoMemory>
        ensures { IfOk result (λ numbering. numbering ≡ []) }
    {
        Ok(Numbering {
            seen: Seen::new(alloc)?,
            numbers: Vec::new(alloc),
        })
    }

    /// How many values there are.
    pub(crate) fn len(&self) -> usize
        ensures { result ≡ length self.now }
    {
        self.numbers.len()
    }

    /// Adds a value at the end.
    pub(crate) fn push(&mut self, value: &str) -> Result<(), NoMemory>
        requires { length self.old < 2 ^ 32 - 1 }
        ensures { OnOk result (self.new ≡ self.old ++ value.now ∷ []) }
    {
        self.numbers.reserve(1)?;
        let number = self.seen.add(value)?;
        self.numbers.push_reserved(number);
        Ok(())
    }

    /// The lexicon of the values, and the number there of each value in order, in no more room than they take.
    pub(crate) fn finish(self) -> Result<(Lexicon, Vec<u32>), NoMemory>
        ensures lexicon { IfOk result (λ r. IsLexiconOf self r.0) }
        ensures numbers { IfOk result (λ r. Renumbers r.1.items self r.0) }
    {
        let Numbering { seen, mut numbers } = self;
        let (lexicon, next) = seen.finish()?;
        renumber(numbers.as_mut_slice(), &next);
        numbers.shrink_to_fit();
        Ok((lexicon, numbers))
    }
}

/// Puts new numbers in the place of old ones.
pub(crate) fn renumber(numbers: &mut [u32], next: &Renumbering)
    requires { All (λ n. n < length next.now) numbers.old }
    ensures { numbers.new ≡ renumbered next.now numbers.old }
{
    for number in numbers.iter_mut() {
        *number = next.get(*number);
    }
}
