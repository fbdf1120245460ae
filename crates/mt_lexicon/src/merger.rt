//! Lexicons joined into one.

ghost use Rattle.std.specs.Prelude.{◌≡◌, ◌+◌, ◌^◌, ◌<◌, ◌≤◌, [], ◌∷◌, ◌++◌, length, map, IfOk, OnOk, OnErr};
ghost use Rattle.std.specs.List.{AllZip};
ghost use Rattle.mt_store_spec.specs.Lexicons.{IsLexiconOf, Renumbers, AreFew, all_values};
ghost use Rattle.mt_lexicon.specs.Joins.{Joins, JoinsMerged, Merges, ComesNext, renumbered};

use super::lexicon::Lexicon;
use super::renumbering::Renumbering;
use mt_base::{List, NoMemory, Strings};
use std::alloc::Global;
use std::cmp::Ordering;
use std::marker::Model;

/// Joins lexicons into one, and is seen as the list of them, each a list of values.
#[derive(Drop)]
pub struct LexiconMerger<'a> {
    alloc: Global,
    parts: Vec<&'a Lexicon>,
}

impl<'a> Model for LexiconMerger<'a> {
    ghost use Rattle.std.specs.Prelude.{ℕ, map};
    ghost use Rattle.std.specs.Prelude.{List as Items};

    ghost Value = { Items (Items (Items ℕ)) };

    ghost view = { λ m. map (λ part. part.now) m.parts.items };
}

impl<'a> LexiconMerger<'a> {
    /// No lexicons.
    pub fn new(alloc: Global) -> Result<Self, NoMemory>
        ensures { IfOk result (λ merger. merger ≡ []) }
    {
        Ok(LexiconMerger {
            alloc,
            parts: Vec::new(alloc),
        })
    }

    /// Adds a lexicon. Without memory nothing changes.
    pub fn add(&mut self, part: &'a Lexicon) -> Result<(), NoMemory>
        ensures ok { OnOk result (self.new ≡ self.old ++ part.now ∷ []) }
        ensures err { OnErr result (self.new ≡ self.old) }
    {
        self.parts.push(part)?;
        Ok(())
    }

    /// The lexicon of the values of all lexicons, and for each of them, in the order of adding, the numbers of its values there.
    ///
    /// The lexicons are joined in pairs, and what comes of them in pairs again, so that each value is passed as often as the number of
    /// lexicons can be halved.
    pub fn finish(self) -> Result<(Lexicon, List<Renumbering>), NoMemory>
        requires { AreFew (all_values self) }
        ensures lexicon { IfOk result (λ r. IsLexiconOf (all_values self.entry) r.0) }
        ensures short { IfOk result (λ r. length r.0 ≤ length (all_values self.entry)) }
        ensures numbers { IfOk result (λ r. AllZip (λ part numbers. Renumbers numbers part r.0) self.entry r.1) }
    {
        let merged = merge(self.alloc, self.parts.as_slice())?;
        Ok((merged.lexicon, List::from_vec(merged.renumberings)))
    }
}

/// The lexicon of some parts, and the numbers of each part's values there.
#[derive(Drop)]
struct Merged {
    lexicon: Lexicon,
    renumberings: Vec<Renumbering>,
}

/// Joins parts in halves.
fn merge(alloc: Global, parts: &[&Lexicon]) -> Result<Merged, NoMemory>
    requires { AreFew (all_values (map (λ part. part.now) parts.now)) }
    ensures { IfOk result (λ merged. Merges (map (λ part. part.now) parts.now) merged.lexicon merged.renumberings.items) }
{
    if parts.len() <= 2 {
        return merge_few(alloc, parts);
    }
    let (front, back) = parts.split_at(parts.len() / 2);
    let front = merge(alloc, front)?;
    let back = merge(alloc, back)?;
    join_merged(alloc, front, back)
}

/// Joins at most two parts.
fn merge_few(alloc: Global, parts: &[&Lexicon]) -> Result<Merged, NoMemory>
    requires few { length parts.now ≤ 2 }
    requires fits { AreFew (all_values (map (λ part. part.now) parts.now)) }
    ensures { IfOk result (λ merged. Merges (map (λ part. part.now) parts.now) merged.lexicon merged.renumberings.items) }
{
    let nothing = Lexicon::from_strings(Strings::new(alloc));
    let mut renumberings = Vec::new(alloc);
    let Some((first, others)) = parts.split_first() else {
        return Ok(Merged {
            lexicon: nothing,
            renumberings,
        });
    };
    let Some((second, _)) = others.split_first() else {
        let joined = join(alloc, first, &nothing)?;
        renumberings.push(joined.first)?;
        return Ok(Merged {
            lexicon: joined.lexicon,
            renumberings,
        });
    };
    let joined = join(alloc, first, second)?;
    renumberings.push(joined.first)?;
    renumberings.push(joined.second)?;
    Ok(Merged {
        lexicon: joined.lexicon,
        renumberings,
    })
}

/// Joins what two halves of the parts came to.
fn join_merged(alloc: Global, first: Merged, second: Merged) -> Result<Merged, NoMemory>
    requires { AreFew (first.lexicon ++ second.lexicon) }
    ensures { IfOk result (λ merged. JoinsMerged first.lexicon second.lexicon merged.lexicon first.renumberings.items second.renumberings.items merged.renumberings.items) }
{
    let joined = join(alloc, &first.lexicon, &second.lexicon)?;
    let mut renumberings = first.renumberings;
    let mut others = second.renumberings;
    renumber_all(renumberings.as_mut_slice(), &joined.first);
    renumber_all(others.as_mut_slice(), &joined.second);
    renumberings.append(&mut others)?;
    Ok(Merged {
        lexicon: joined.lexicon,
        renumberings,
    })
}

/// Lets all go on by the next renumbering.
fn renumber_all(all: &mut [Renumbering], next: &Renumbering)
    ensures { all.new ≡ map (renumbered next.now) all.old }
{
    for numbers in all.iter_mut() {
        numbers.then(next);
    }
}

/// Two lexicons joined: the lexicon of the values of both, and for each of them the numbers of its values there.
#[derive(Debug, Drop)]
struct Joined {
    lexicon: Lexicon,
    first: Renumbering,
    second: Renumbering,
}

/// Joins two lexicons, in one pass over both.
fn join(alloc: Global, first: &Lexicon, second: &Lexicon) -> Result<Joined, NoMemory>
    requires { AreFew (first.now ++ second.now) }
    ensures { IfOk result (λ joined. Joins first.now second.now joined.lexicon joined.first joined.second) }
{
    let mut numbers = Vec::with_capacity(alloc, first.len() as usize)?;
    let mut others = Vec::with_capacity(alloc, second.len() as usize)?;
    let mut values = Strings::with_capacity(alloc, numbers.capacity().max(others.capacity()), 0)?;
    let mut i = 0;
    let mut j = 0;
    while let Some(order) = next_order(first, i, second, j) {
        let number = values.len() as u32;
        match order {
            Ordering::Less => {
                values.push(first.value(i))?;
                numbers.push(number)?;
                i += 1;
            }
            Ordering::Greater => {
                values.push(second.value(j))?;
                others.push(number)?;
                j += 1;
            }
            Ordering::Equal => {
                values.push(first.value(i))?;
                numbers.push(number)?;
                others.push(number)?;
                i += 1;
                j += 1;
            }
        }
    }
    values.shrink_to_fit();
    Ok(Joined {
        lexicon: Lexicon::from_strings(values),
        first: Renumbering::from_vec(numbers),
        second: Renumbering::from_vec(others),
    })
}

/// Which of two lexicons has the next value, from these numbers on: the order of the first's next value to the second's, where the end
/// of a lexicon is above every value, or `None` at the end of both.
fn next_order(first: &Lexicon, i: u32, second: &Lexicon, j: u32) -> Option<Ordering>
    requires first { i ≤ length first.now }
    requires second { j ≤ length second.now }
    ensures { ComesNext first.now i second.now j result }
{
    if i == first.len() {
        if j == second.len() {
            None
        } else {
            Some(Ordering::Greater)
        }
    } else if j == second.len() {
        Some(Ordering::Less)
    } else {
        Some(first.value(i).cmp(second.value(j)))
    }
}
