//! What stands together, by numbers.

ghost use Rattle.std.specs.Prelude.{◌≡◌, ◌^◌, ◌<◌, length, slice_get, Some};
ghost use Rattle.mt_counts.specs.Numbered.{IsNumberingOf, place_of};
ghost use Rattle.mt_counts.specs.Totals.{count_at};

use super::counts::Counts;
use super::tables::Tables;
use super::tally::Tally;
use std::marker::Model;

/// How often two words stand under a name.
#[derive(Clone, Copy)]
pub struct Entry {
    /// The number of the first word.
    pub word: u32,
    /// The number of the name with the second word.
    pub context: u32,
    /// How often both words stand under the name.
    pub both: u64,
    /// How often the first word does, with any second one.
    pub left: u64,
    /// How often the second word does, with any first one.
    pub right: u64,
}

/// Counts of two words as they are kept, by the numbers of first words and of contexts. A context is a name with a second word.
#[derive(Drop)]
pub struct Numbered<'a> {
    tables: &'a Tables,
}

impl<'a> Model for Numbered<'a> {
    ghost use Rattle.mt_counts.specs.Numbered.{Numbering, numbering_of};
    ghost use Rattle.mt_counts.specs.Tables.{AreInside};

    ghost Value = { Numbering };

    ghost view = { λ n. numbering_of n.tables.now };

    ghost invariant = { λ n. AreInside n.tables.now };
}

impl Counts {
    /// The counts of two words by numbers. It takes no memory.
    pub fn numbered(&self) -> Numbered<'_>
        ensures { IsNumberingOf self.now result }
    {
        self.tables.names.len();
        self.tables.words.len();
        self.tables.rows.len();
        self.tables.both.len();
        self.tables.columns.len();
        Numbered {
            tables: &self.tables,
        }
    }
}

impl<'a> Numbered<'a> {
    /// How many words have a number.
    pub fn words(&self) -> usize
        ensures count { result ≡ length self.now.words }
        ensures few { result < 2 ^ 32 }
    {
        self.tables.words.len()
    }

    /// The word with a number.
    pub fn word(&self, number: usize) -> &str
        requires { number < length self.now.words }
        ensures { slice_get self.now.words number ≡ Some result.now }
    {
        self.tables.words.get(number)
    }

    /// How many entries there are. Some may have the count 0.
    pub fn len(&self) -> usize
        ensures count { result ≡ length self.now.entries }
        ensures few { result < 2 ^ 32 }
    {
        self.tables.both.len()
    }

    /// The entry at a place.
    pub fn get(&self, place: usize) -> Entry
        requires { place < length self.now.entries }
        ensures { slice_get self.now.entries place ≡ Some result }
    {
        let ((row, second), both) = self.tables.both.get(place);
        let ((word, name), left) = self.tables.rows.get(row as usize);
        let (context, right) = numbered_count(&self.tables.columns, second, name);
        Entry {
            word,
            context,
            both,
            left,
            right,
        }
    }
}

/// The place of a pair and its count, or the number of pairs and 0 where it has none.
fn numbered_count(tally: &Tally, group: u32, member: u32) -> (u32, u64)
    ensures place { result.0 ≡ place_of tally.now (group, member) }
    ensures count { result.1 ≡ count_at tally.now (group, member) }
{
    let len = tally.len();
    match tally.find(group, member) {
        Some(place) => (place, tally.get(place as usize).1),
        None => (len as u32, 0),
    }
}
