//! Values numbered.

ghost use Rattle.std.specs.Prelude.{◌≡◌, ◌-◌, ◌^◌, ◌<◌, [], ◌∷◌, ◌++◌, length, IfOk, OnOk, OnErr};
ghost use Rattle.std.specs.List.{All};
ghost use Rattle.mt_lexicon.specs.Joins.{renumbered};
ghost use Rattle.mt_store_spec.specs.Lexicons.{IsLexiconOf, Renumbers};

use mt_base::{List, NoMemory};
use mt_lexicon::{Lexicon, LexiconBuilder, Renumbering};
use std::alloc::Global;
use std::marker::Model;

/// Values in order, seen as their list. Each distinct one is kept once, under a number, and the numbers stand for the values.
#[derive(Drop)]
pub(crate) struct Numbering {
    seen: LexiconBuilder,
    numbers: Vec<u32>,
}

impl Model for Numbering {
    ghost use Rattle.std.specs.Prelude.{ℕ, List};
    ghost use Rattle.mt_segment.specs.Numbered.{IsNumbered, stands_for};

    ghost Value = { List (List ℕ) };

    ghost view = { λ n. stands_for n.seen n.numbers.items };

    ghost invariant = { λ n. IsNumbered n.seen n.numbers.items };
}

impl Numbering {
    /// No values, with room for so many.
    pub(crate) fn new(alloc: Global, capacity: usize) -> Result<Self, NoMemory>
        ensures { IfOk result (λ numbering. numbering ≡ []) }
    {
        Ok(Numbering {
            seen: LexiconBuilder::new(alloc)?,
            numbers: Vec::with_capacity(alloc, capacity)?,
        })
    }

    /// Adds a value at the end. Without memory nothing changes.
    pub(crate) fn push(&mut self, value: &str) -> Result<(), NoMemory>
        requires { length self.old < 2 ^ 32 - 1 }
        ensures ok { OnOk result (self.new ≡ self.old ++ value.now ∷ []) }
        ensures err { OnErr result (self.new ≡ self.old) }
    {
        self.numbers.reserve(1)?;
        let number = self.seen.add(value)?;
        self.numbers.push_reserved(number);
        Ok(())
    }

    /// The lexicon of the values, and the number there of each value in order.
    pub(crate) fn finish(self) -> Result<(Lexicon, List<u32>), NoMemory>
        ensures lexicon { IfOk result (λ r. IsLexiconOf self r.0) }
        ensures numbers { IfOk result (λ r. Renumbers r.1 self r.0) }
    {
        let Numbering { seen, mut numbers } = self;
        let (lexicon, renumbering) = seen.finish()?;
        renumber(numbers.as_mut_slice(), &renumbering);
        Ok((lexicon, List::from_vec(numbers)))
    }
}

/// Puts new numbers in the place of old ones.
fn renumber(numbers: &mut [u32], next: &Renumbering)
    requires { All (λ n. n < length next.now) numbers.old }
    ensures { numbers.new ≡ renumbered next.now numbers.old }
{
    for number in numbers.iter_mut() {
        *number = next.get(*number);
    }
}
