//! The first so many.

ghost use Rattle.std.specs.Prelude.{List as Items, [], ◌∷◌, ◌++◌, IfOk, OnOk};
ghost use Rattle.std.specs.BinaryHeap.{heap_items, IsHeap};
ghost use Rattle.std.specs.List.{AllZip, Contains, flat_map};
ghost use Rattle.mt_word_sketch_spec.specs.Ranks.{FirstRanked};
ghost use Rattle.mt_word_sketch_spec.specs.Order.{Weighed, ranked_of, weighed_cmp};
ghost use Rattle.mt_ranks.specs.Bests.{AreDistinct, IsBest};

use super::ranked::{RankedWord, Word};
use mt_base::{List, NoMemory};
use std::alloc::Global;
use std::collections::BinaryHeap;

/// The first `max` words in the order of their ranks. It sorts no others.
pub fn first(
    alloc: Global,
    words: List<RankedWord>,
    max: usize,
) -> Result<List<RankedWord>, NoMemory>
    requires { AreDistinct words }
    ensures { IfOk result (λ shown. FirstRanked ranked_of (Contains words) max shown) }
{
    let words = words.into_vec();
    let mut kept = BinaryHeap::with_capacity(alloc, max.min(words.len()))?;
    for word in words {
        offer(&mut kept, word, max)?;
    }
    Ok(List::from_vec(kept.into_sorted_vec()))
}

/// The first `max` of all words, where each list has the best `max` of some of them.
pub fn first_of_all(
    alloc: Global,
    lists: Vec<List<RankedWord>>,
    max: usize,
) -> Result<List<RankedWord>, NoMemory>
    ensures { (parts : Items (Items Weighed)) → AllZip (IsBest max) parts lists.items → AreDistinct (flat_map (λ part. part) parts)
        → IfOk result (λ shown. FirstRanked ranked_of (Contains (flat_map (λ part. part) parts)) max shown) }
{
    let mut kept = BinaryHeap::new(alloc);
    for list in lists {
        offer_all(&mut kept, list, max)?;
    }
    Ok(List::from_vec(kept.into_sorted_vec()))
}

/// Keeps the best `max` with some more to choose from.
fn offer_all(
    kept: &mut BinaryHeap<RankedWord>,
    words: List<RankedWord>,
    max: usize,
) -> Result<(), NoMemory>
    requires { IsHeap weighed_cmp (heap_items kept.old) }
    ensures heap { OnOk result (IsHeap weighed_cmp (heap_items kept.new)) }
    ensures best { OnOk result ((seen : Items Weighed) → IsBest max seen (heap_items kept.old) → IsBest max (seen ++ words) (heap_items kept.new)) }
{
    for word in words.into_vec() {
        offer(kept, word, max)?;
    }
    Ok(())
}

/// Keeps the best `max` with one more to choose from. The last of them is on top.
pub(crate) fn offer<W: Word>(
    kept: &mut BinaryHeap<RankedWord<W>>,
    word: RankedWord<W>,
    max: usize,
) -> Result<(), NoMemory>
    requires { IsHeap weighed_cmp (heap_items kept.old) }
    ensures heap { IsHeap weighed_cmp (heap_items kept.new) }
    ensures best { OnOk result ((seen : Items Weighed) → IsBest max seen (heap_items kept.old) → IsBest max (seen ++ word ∷ []) (heap_items kept.new)) }
{
    if kept.len() < max {
        kept.push(word)?;
        return Ok(());
    }
    match kept.peek() {
        None => Ok(()),
        Some(last) => {
            if *last <= word {
                return Ok(());
            }
            match kept.pop() {
                None => Ok(()),
                Some(_) => {
                    kept.push(word)?;
                    Ok(())
                }
            }
        }
    }
}
