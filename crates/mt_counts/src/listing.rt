//! What stands with a word.

ghost use Rattle.std.specs.Prelude.{◌≡◌, ℕ, ◌<◌, ◌++◌, length, map, slice_index, IfOk, OnOk};
ghost use Rattle.mt_counts.specs.Listed.{AreFirstWords, IsHead, StandsFirst, head_at};
ghost use Rattle.mt_counts.specs.Tables.{AreInside, counted, text_at};
ghost use Rattle.mt_counts.specs.Tallies.{IsAt, ListsOnce};

use super::counts::Counts;
use super::names::Names;
use super::tables::Tables;
use super::tally::Tally;
use mt_base::{List, NoMemory, Value};
use std::alloc::Global;

/// A name that a word stands under.
#[derive(Drop)]
pub struct Head {
    pub name: Value,
    /// Whether the name is that of a unary relation.
    pub unary: bool,
    /// How often the word stands under it: as its first word, with any second one, or as its one word.
    pub count: u64,
}

impl Counts {
    /// The names under which a word stands, each once, in any order. It costs by how many they are.
    pub fn heads(&self, alloc: Global, word: &str) -> Result<List<Head>, NoMemory>
        ensures { IfOk result (λ heads. ListsOnce (IsHead self.now word.now) heads) }
    {
        match self.tables.words.find(word) {
            Some(x) => self.tables.heads(alloc, x),
            None => Ok(List::new(alloc)),
        }
    }

    /// The words that stand somewhere as a first one, ascending by their bytes, each once.
    pub fn words(&self, alloc: Global) -> Result<List<Value>, NoMemory>
        ensures { IfOk result (λ words. AreFirstWords self.now words) }
    {
        let mut words = self.tables.first_words(alloc)?;
        words.sort_unstable();
        Ok(words)
    }
}

impl Tables {
    /// The words that have rows with counts.
    fn first_words(&self, alloc: Global) -> Result<List<Value>, NoMemory>
        requires { AreInside self.now }
        ensures { IfOk result (λ words. ListsOnce (StandsFirst (counted self.now)) words) }
    {
        self.names.len();
        self.rows.len();
        let mut words = List::new(alloc);
        for x in 0..self.words.len() {
            if self.rows.has(x as u32) {
                words.push(Value::new(alloc, self.words.get(x))?)?;
            }
        }
        Ok(words)
    }

    /// The names under which the word with a number stands.
    fn heads(&self, alloc: Global, word: u32) -> Result<List<Head>, NoMemory>
        requires inside { AreInside self.now }
        requires word { word < length self.now.words }
        ensures { IfOk result (λ heads. ListsOnce (IsHead (counted self.now) (text_at self.now.words word)) heads) }
    {
        self.names.len();
        self.words.len();
        self.rows.len();
        self.alone.len();
        let rows = self.rows.places(alloc, word)?;
        let alone = self.alone.places(alloc, word)?;
        let mut heads = List::new(alloc);
        add_heads(
            alloc,
            &self.names,
            &self.rows,
            rows.as_slice(),
            false,
            &mut heads,
        )?;
        add_heads(
            alloc,
            &self.names,
            &self.alone,
            alone.as_slice(),
            true,
            &mut heads,
        )?;
        Ok(heads)
    }
}

/// Adds the names at some places of a tally.
fn add_heads(
    alloc: Global,
    names: &Names,
    tally: &Tally,
    places: &[u32],
    unary: bool,
    heads: &mut List<Head>,
) -> Result<(), NoMemory>
    requires places { (k : ℕ) → k < length places.now → slice_index places.now k < length tally.now }
    requires names { (key : ℕ × ℕ) (place : ℕ) → IsAt tally.now key place → key.1 < length names.now }
    ensures { OnOk result (heads.new ≡ heads.old ++ map (head_at names.now tally.now unary) places.now) }
{
    for place in places {
        let ((_, name), count) = tally.get(*place as usize);
        let name = Value::new(alloc, names.get(name as usize))?;
        heads.push(Head { name, unary, count })?;
    }
    Ok(())
}
