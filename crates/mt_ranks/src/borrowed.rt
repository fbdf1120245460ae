//! The first so many of borrowed words.

ghost use Rattle.std.specs.Prelude.{◌≡◌, List as Items, [], ◌∷◌, ◌++◌, IfOk, OnOk};
ghost use Rattle.mt_word_sketch_spec.specs.Order.{Weighed};
ghost use Rattle.mt_ranks.specs.Bests.{IsBest};

use super::best::offer;
use super::ranked::RankedWord;
use mt_base::{List, NoMemory, Value};
use std::alloc::Global;
use std::collections::BinaryHeap;
use std::marker::Model;

/// The first so many of the words that were offered, which are borrowed, in no order.
#[derive(Drop)]
pub struct Chosen<'a> {
    kept: BinaryHeap<RankedWord<&'a str>>,
    max: usize,
}

impl<'a> Model for Chosen<'a> {
    ghost use Rattle.std.specs.BinaryHeap.{heap_items, IsHeap};
    ghost use Rattle.mt_word_sketch_spec.specs.Order.{weighed_cmp};
    ghost use Rattle.mt_ranks.specs.Bests.{Choice};

    ghost Value = { Choice };

    ghost view = { λ c. record { max = c.max; words = heap_items c.kept } };

    ghost invariant = { λ c. IsHeap weighed_cmp (heap_items c.kept) };
}

impl<'a> Chosen<'a> {
    /// None of no words, and at most `max` of those to come. It takes no memory.
    pub fn new(alloc: Global, max: usize) -> Self
        ensures max { result.max ≡ max }
        ensures words { result.words ≡ [] }
    {
        Chosen {
            kept: BinaryHeap::new(alloc),
            max,
        }
    }

    /// Chooses from one word more.
    pub fn offer(&mut self, word: RankedWord<&'a str>) -> Result<(), NoMemory>
        ensures max { self.new.max ≡ self.old.max }
        ensures best { OnOk result ((seen : Items Weighed) → IsBest self.old.max seen self.old.words → IsBest self.old.max (seen ++ word.entry ∷ []) self.new.words) }
    {
        offer(&mut self.kept, word, self.max)
    }

    /// The words that are chosen, as their own.
    pub fn copied(&self, alloc: Global) -> Result<List<RankedWord>, NoMemory>
        ensures { IfOk result (λ words. words ≡ self.now.words) }
    {
        copied(alloc, self.kept.as_slice())
    }
}

/// The same words as their own.
fn copied(alloc: Global, words: &[RankedWord<&str>]) -> Result<List<RankedWord>, NoMemory>
    ensures { IfOk result (λ all. all ≡ words.now) }
{
    let mut all = List::with_capacity(alloc, words.len())?;
    for word in words {
        let own = Value::new(alloc, word.word())?;
        all.push(RankedWord::new(own, word.part(), word.whole()))?;
    }
    Ok(all)
}
