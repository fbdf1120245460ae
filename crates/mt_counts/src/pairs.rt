//! The second words that stand under a name with a first one.

ghost use Rattle.std.specs.Prelude.{◌≡◌, ℕ, List as Items, ◌<◌, ◌++◌, length, map, slice_index, IfOk, IfSome, IfNone, OnOk};
ghost use Rattle.std.specs.Map.{keys_of};
ghost use Rattle.mt_counts.specs.Listed.{IsPair, pair_at};
ghost use Rattle.mt_counts.specs.Tables.{AreInside, counted, named_word, row_at, text_at};
ghost use Rattle.mt_counts.specs.Tallies.{HasKeysBelow, IsAt, ListsOnce};

use super::counts::Counts;
use super::names::Names;
use super::tables::Tables;
use super::tally::Tally;
use mt_base::{List, NoMemory, Value};
use std::alloc::Global;

/// A second word that stands under a name with a first one.
#[derive(Drop)]
pub struct Pair {
    pub word: Value,
    /// How often both words stand under the name.
    pub both: u64,
    /// How often the second word stands under it with any first one.
    pub right: u64,
}

impl Counts {
    /// The second words that stand under a name with a first one, each once, in any order. It costs by how many pairs the first word has under the name.
    pub fn collocates(&self, alloc: Global, name: &str, word: &str) -> Result<List<Pair>, NoMemory>
        ensures { IfOk result (λ pairs. ListsOnce (IsPair self.now name.now word.now) pairs) }
    {
        match row_of(
            &self.tables.rows,
            &self.tables.names,
            &self.tables.words,
            name,
            word,
        ) {
            Some(row) => self.tables.pairs(alloc, row),
            None => Ok(List::new(alloc)),
        }
    }
}

/// The row of a word and a name.
pub(crate) fn row_of(
    rows: &Tally,
    names: &Names,
    words: &Names,
    name: &str,
    word: &str,
) -> Option<u32>
    requires below { HasKeysBelow (length words.now) (length names.now) rows.now }
    ensures found { IfSome result (λ row. row < length rows.now) }
    ensures is { IfSome result (λ row. named_word names.now words.now (row_at (keys_of rows.now) row) ≡ (name.now, word.now)) }
    ensures none { IfNone result ((row : ℕ) → row < length rows.now → named_word names.now words.now (row_at (keys_of rows.now) row) ≡ (name.now, word.now) → ⊥) }
{
    names.len();
    words.len();
    match names.find(name) {
        Some(number) => match words.find(word) {
            Some(first) => rows.find(first, number),
            None => None,
        },
        None => None,
    }
}

impl Tables {
    /// The second words of a row.
    fn pairs(&self, alloc: Global, row: u32) -> Result<List<Pair>, NoMemory>
        requires inside { AreInside self.now }
        requires row { row < length self.now.rows }
        ensures { (name word : Items ℕ) → named_word self.now.names self.now.words (row_at (keys_of self.now.rows) row) ≡ (name, word) → IfOk result (λ pairs. ListsOnce (IsPair (counted self.now) name word) pairs) }
    {
        self.names.len();
        self.words.len();
        self.rows.len();
        self.both.len();
        let ((_, name), _) = self.rows.get(row as usize);
        let places = self.both.places(alloc, row)?;
        let mut pairs = List::new(alloc);
        self.add_pairs(alloc, name, places.as_slice(), &mut pairs)?;
        Ok(pairs)
    }

    /// Adds the pairs at some places, under a name.
    fn add_pairs(
        &self,
        alloc: Global,
        name: u32,
        places: &[u32],
        pairs: &mut List<Pair>,
    ) -> Result<(), NoMemory>
        requires inside { AreInside self.now }
        requires places { (k : ℕ) → k < length places.now → slice_index places.now k < length self.now.both }
        ensures { OnOk result (pairs.new ≡ pairs.old ++ map (pair_at self.now.words self.now.both self.now.columns name) places.now) }
    {
        for place in places {
            let ((_, second), both) = self.both.get(*place as usize);
            let right = self.columns.count_of(second, name);
            let word = Value::new(alloc, self.words.get(second as usize))?;
            pairs.push(Pair { word, both, right })?;
        }
        Ok(())
    }
}
