//! Values by the numbers that they have in their lexicon.

ghost use Rattle.std.specs.Prelude.{◌≡◌, ◌+◌, ◌^◌, ◌<◌, ◌≤◌, [], ◌∷◌, ◌++◌, length, IfOk, OnOk};
ghost use Rattle.std.specs.List.{All, AllZip};
ghost use Rattle.mt_lexicon.specs.Joins.{renumbered};
ghost use Rattle.mt_store_spec.specs.Lexicons.{IsLexiconOf, Renumbers, all_values};
ghost use Rattle.mt_text_spec.specs.Texts.{text_tokens_limit};

use super::numbering::{Numbering, renumber};
use super::unmade::Unmade;
use mt_base::limits::TEXT_TOKENS_LIMIT;
use mt_base::{List, NoMemory};
use mt_lexicon::{Lexicon, LexiconMerger, Renumbering, is_shortest};
use std::alloc::Global;
use std::marker::Model;

/// Values in order, seen as their list: their lexicon, and the number there of each.
#[derive(Drop)]
pub(crate) struct Numbered {
    lexicon: Lexicon,
    numbers: Vec<u32>,
}

impl Model for Numbered {
    ghost use Rattle.std.specs.Prelude.{ℕ, List, ◌<◌, length};
    ghost use Rattle.std.specs.List.{All};
    ghost use Rattle.mt_store_spec.specs.Lexicons.{IsLexiconOf};
    ghost use Rattle.mt_segment.specs.Numbered.{stands_for};

    ghost Value = { List (List ℕ) };

    ghost view = { λ n. stands_for n.lexicon n.numbers.items };

    ghost invariant = { λ n. IsLexiconOf (stands_for n.lexicon n.numbers.items) n.lexicon × All (λ number. number < length n.lexicon) n.numbers.items };
}

impl Numbered {
    /// Values that were numbered as they were seen.
    pub(crate) fn new(numbering: Numbering) -> Result<Self, NoMemory>
        ensures { IfOk result (λ numbered. numbered ≡ numbering) }
    {
        let (lexicon, numbers) = numbering.finish()?;
        Ok(Numbered { lexicon, numbers })
    }

    /// These values, and others behind them, where they are not too many for a text.
    pub(crate) fn followed_by(self, alloc: Global, others: Numbered) -> Result<Self, Unmade>
        ensures both { IfOk result (λ both. both ≡ self ++ others) }
        ensures few { IfOk result (λ both. length both ≤ text_tokens_limit) }
    {
        is_shortest();
        let Numbered {
            lexicon: first,
            mut numbers,
        } = self;
        let Numbered {
            lexicon: second,
            numbers: more,
        } = others;
        if numbers.len() + more.len() > TEXT_TOKENS_LIMIT {
            return Err(Unmade::Refused);
        }
        let (lexicon, next) = merged(alloc, &first, &second)?;
        renumber(numbers.as_mut_slice(), next.get(0));
        push_renumbered(&mut numbers, more.as_slice(), next.get(1))?;
        Ok(Numbered { lexicon, numbers })
    }

    /// The lexicon of the values, and the number there of each in order.
    pub(crate) fn into_parts(self) -> (Lexicon, Vec<u32>)
        ensures lexicon { IsLexiconOf self result.0 }
        ensures numbers { Renumbers result.1.items self result.0 }
    {
        (self.lexicon, self.numbers)
    }
}

/// The lexicon of the values of both lexicons, and for each of them the numbers of its values there.
fn merged(
    alloc: Global,
    first: &Lexicon,
    second: &Lexicon,
) -> Result<(Lexicon, List<Renumbering>), NoMemory>
    requires { length first.now + length second.now < 2 ^ 32 }
    ensures lexicon { IfOk result (λ r. IsLexiconOf (all_values (first.now ∷ second.now ∷ [])) r.0) }
    ensures numbers { IfOk result (λ r. AllZip (λ part numbers. Renumbers numbers part r.0) (first.now ∷ second.now ∷ []) r.1) }
{
    is_shortest();
    let mut merger = LexiconMerger::new(alloc)?;
    merger.add(first)?;
    merger.add(second)?;
    merger.finish()
}

/// Adds new numbers for old ones, in no more room than they take.
fn push_renumbered(numbers: &mut Vec<u32>, old: &[u32], next: &Renumbering) -> Result<(), NoMemory>
    requires { All (λ n. n < length next.now) old.now }
    ensures { OnOk result (numbers.new.items ≡ numbers.old.items ++ renumbered next.now old.now) }
{
    numbers.reserve_exact(old.len())?;
    for number in old {
        numbers.push_reserved(next.get(*number));
    }
    Ok(())
}
