//! What is found in counts.

ghost use Rattle.std.specs.Prelude.{◌≡◌, ℕ, ◌^◌, ◌<◌, ◌≤◌, length, IfOk, IfSome, IfNone};
ghost use Rattle.std.specs.List.{All};
ghost use Rattle.mt_counts.specs.Names.{AreDistinct};
ghost use Rattle.mt_thesaurus.specs.Building.{AreApart, AreScored, HasNumber, IsOfEntry, IsWithin};

use super::placed::Placed;
use indexmap::IndexSet;
use mt_base::{NoMemory, Value};
use mt_counts::{Entry, Numbered};
use mt_score::laws::score_is_unique;
use mt_score::score;
use std::alloc::Global;

/// The words by their numbers.
pub(crate) fn words_of(alloc: Global, numbered: &Numbered) -> Result<IndexSet<Value>, NoMemory>
    requires { AreDistinct numbered.now.words }
    ensures are { IfOk result (λ words. words.keys ≡ numbered.now.words) }
    ensures few { IfOk result (λ words. length words.keys < 2 ^ 32) }
{
    let mut words = IndexSet::new(alloc);
    for number in 0..numbered.words() {
        words.insert(Value::new(alloc, numbered.word(number))?)?;
    }
    Ok(words)
}

/// The scores of all entries that have one.
pub(crate) fn placed_of(alloc: Global, numbered: &Numbered) -> Result<Vec<Placed>, NoMemory>
    requires within { All IsWithin numbered.now.entries }
    requires apart { AreApart numbered.now.entries }
    ensures are { IfOk result (λ placed. AreScored numbered.now.entries (length numbered.now.entries) placed.items) }
    ensures few { IfOk result (λ placed. length placed.items < 2 ^ 32) }
{
    score_is_unique();
    let mut placed = Vec::new(alloc);
    for place in 0..numbered.len() {
        let entry = numbered.get(place);
        match scored(&entry) {
            Some(item) => placed.push(item)?,
            None => {}
        }
    }
    Ok(placed)
}

/// The score of an entry, where it is above 0.
fn scored(entry: &Entry) -> Option<Placed>
    requires { IsWithin entry.now }
    ensures some { IfSome result (λ placed. IsOfEntry entry.now placed) }
    ensures none { IfNone result ((score : ℕ) → HasNumber entry.now score → ⊥) }
{
    score_is_unique();
    if entry.both == 0 {
        return None;
    }
    let score = score(
        2 * u128::from(entry.both),
        u128::from(entry.left) + u128::from(entry.right),
    );
    if score > 0 {
        Some(Placed {
            group: entry.word,
            member: entry.context,
            score: score as u8,
        })
    } else {
        None
    }
}
