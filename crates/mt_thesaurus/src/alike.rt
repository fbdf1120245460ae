//! The words that are like a lemma.

ghost use Rattle.std.specs.Prelude.{◌≡◌, ℕ, ◌+◌, ◌*◌, ◌^◌, ◌<◌, length, map, slice_index, IfOk};
ghost use Rattle.std.specs.List.{All, AllZip, Contains};
ghost use Rattle.mt_word_sketch_spec.specs.Ranks.{FirstRanked};
ghost use Rattle.mt_word_sketch_spec.specs.Order.{ranked_of};
ghost use Rattle.mt_ranks.specs.Bests.{AreDistinct, IsBest};
ghost use Rattle.mt_thesaurus.specs.Told.{AreOthers, similar_at, weighed_all};

use indexmap::IndexSet;
use mt_base::{List, NoMemory, Value};
use mt_ranks::{Chosen, RankedWord, first_of_all};
use std::alloc::Global;

/// A word by its number, and the fraction by which it is ranked.
#[derive(Clone, Copy)]
pub(crate) struct Similar {
    word: u32,
    part: u128,
    whole: u128,
}

/// The numbers of all words but one that share something with it.
pub(crate) fn others_of(alloc: Global, parts: &[u128], lemma: usize) -> Result<Vec<u32>, NoMemory>
    requires { length parts.now < 2 ^ 32 }
    ensures { IfOk result (λ numbers. AreOthers parts.now lemma (length parts.now) numbers.items) }
{
    let mut numbers = Vec::new(alloc);
    for word in 0..parts.len() {
        if word != lemma && parts[word] > 0 {
            numbers.push(word as u32)?;
        }
    }
    Ok(numbers)
}

/// The first `max` of words by their fractions. No others are copied.
pub(crate) fn first_ranked(
    alloc: Global,
    words: &IndexSet<Value>,
    numbers: &[u32],
    parts: &[u128],
    sums: &[u64],
    lemma: u32,
    max: usize,
) -> Result<List<RankedWord>, NoMemory>
    requires below { All (λ word. word < length words.now.keys) numbers.now }
    requires parts { length parts.now ≡ length words.now.keys }
    requires sums { length sums.now ≡ length words.now.keys }
    requires lemma { lemma < length sums.now }
    requires some { 0 < slice_index sums.now lemma }
    ensures { AreDistinct (weighed_all words.now.keys parts.now sums.now lemma numbers.now)
        → IfOk result (λ shown. FirstRanked ranked_of (Contains (weighed_all words.now.keys parts.now sums.now lemma numbers.now)) max shown) }
{
    let best = best_of(alloc, words, numbers, parts, sums, lemma, max)?;
    let mut lists = Vec::new(alloc);
    lists.push(best)?;
    first_of_all(alloc, lists, max)
}

/// The best `max` of words.
fn best_of(
    alloc: Global,
    words: &IndexSet<Value>,
    numbers: &[u32],
    parts: &[u128],
    sums: &[u64],
    lemma: u32,
    max: usize,
) -> Result<List<RankedWord>, NoMemory>
    requires below { All (λ word. word < length words.now.keys) numbers.now }
    requires parts { length parts.now ≡ length words.now.keys }
    requires sums { length sums.now ≡ length words.now.keys }
    requires lemma { lemma < length sums.now }
    requires some { 0 < slice_index sums.now lemma }
    ensures { IfOk result (IsBest max (weighed_all words.now.keys parts.now sums.now lemma numbers.now)) }
{
    let mut chosen = Chosen::new(alloc, max);
    for number in numbers {
        let similar = fraction(*number, parts, sums, lemma);
        let Some(word) = words.get_index(*number as usize) else {
            unreachable!()
        };
        chosen.offer(RankedWord::borrowed(word.as_str(), similar.part, similar.whole))?;
    }
    chosen.copied(alloc)
}

/// The fraction of a word.
fn fraction(word: u32, parts: &[u128], sums: &[u64], lemma: u32) -> Similar
    requires part { word < length parts.now }
    requires sum { word < length sums.now }
    requires lemma { lemma < length sums.now }
    ensures { result ≡ similar_at parts.now sums.now lemma word }
{
    let sum = u128::from(sums[lemma as usize]) + u128::from(sums[word as usize]);
    Similar {
        word,
        part: parts[word as usize],
        whole: 800 * sum,
    }
}
