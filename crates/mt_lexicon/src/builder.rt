//! Numbering values as they are seen.

ghost use Rattle.std.specs.Prelude.{◌≡◌, ◌-◌, ◌^◌, ◌<◌, [], length, map, slice_get, slice_index, slice_index_or, Some, IfOk, IfSome, IfNone, OnOk, OnErr};
ghost use Rattle.std.specs.List.{All, Contains};
ghost use Rattle.mt_lexicon.specs.Entries.{IsNumbering, IsSortedNumbering, AreDistinct, BeginsBy};
ghost use Rattle.mt_lexicon.specs.Hashed as spec;
ghost use Rattle.mt_store_spec.specs.Lexicons.{IsLexiconOf, Renumbers, seen_with};

use super::lexicon::Lexicon;
use super::renumbering::Renumbering;
use super::table::{Table, hash_of};
use mt_base::{NoMemory, Strings};
use std::alloc::Global;
use std::marker::Model;

/// Numbers values from 0 in the order in which they are first seen, and is seen as the list of them. Each is kept once, in one block
/// with the others, and hashed once each time it is added.
#[derive(Drop)]
pub struct LexiconBuilder {
    alloc: Global,
    seen: Strings,
    table: Table,
}

impl Model for LexiconBuilder {
    ghost use Rattle.std.specs.Prelude.{ℕ, ◌<◌, ◌^◌, List, length};
    ghost use Rattle.mt_lexicon.specs.Entries.{AreDistinct};
    ghost use Rattle.mt_lexicon.specs.Hashed.{AreHashed};

    ghost Value = { List (List ℕ) };

    ghost view = { λ b. b.seen };

    ghost invariant = { λ b. AreHashed b.seen b.table.0 × AreDistinct b.seen × (length b.seen < 2 ^ 32) };
}

impl LexiconBuilder {
    /// No values. It takes no memory.
    pub fn new(alloc: Global) -> Result<Self, NoMemory>
        ensures { IfOk result (λ builder. builder ≡ []) }
    {
        Ok(LexiconBuilder {
            alloc,
            seen: Strings::new(alloc),
            table: Table::new(alloc),
        })
    }

    /// The number of a value: the one that it has, or the next one where it is seen for the first time. A value that was seen before
    /// takes no memory. Without memory nothing changes.
    pub fn add(&mut self, value: &str) -> Result<u32, NoMemory>
        requires { length self.old < 2 ^ 32 - 1 }
        ensures values { OnOk result (self.new ≡ seen_with self.old value.now) }
        ensures number { IfOk result (λ number. slice_get self.new number ≡ Some value.now) }
        ensures err { OnErr result (self.new ≡ self.old) }
    {
        let hash = hash_of(value);
        if let Some(number) = self.number_of(value, hash) {
            return Ok(number);
        }
        self.table.reserve(self.alloc)?;
        let number = self.seen.len() as u32;
        self.seen.push(value)?;
        self.table.push(hash);
        Ok(number)
    }

    /// The number of a value that has this hash, or `None` where it was not seen.
    fn number_of(&self, value: &str, hash: u32) -> Option<u32>
        requires { hash ≡ spec.hash_of value.now }
        ensures found { IfSome result (λ number. slice_get self.now number ≡ Some value.now) }
        ensures none { IfNone result (¬ Contains self.now value.now) }
    {
        let mut below = self.table.last(hash);
        while below > 0 {
            let number = below - 1;
            if self.seen.get(number as usize) == value {
                return Some(number);
            }
            below = self.table.before(number);
        }
        None
    }

    /// The lexicon of the values, and the number there for each number given.
    pub fn finish(self) -> Result<(Lexicon, Renumbering), NoMemory>
        ensures lexicon { IfOk result (λ r. IsLexiconOf self r.0) }
        ensures numbers { IfOk result (λ r. Renumbers r.1 self r.0) }
        ensures count { IfOk result (λ r. length r.0 ≡ length self) }
    {
        let LexiconBuilder { alloc, seen, table } = self;
        drop(table);
        let order = order_of(alloc, &seen)?;
        arranged(alloc, &seen, order.as_slice())
    }
}

/// The values in an order, and for each number the place of its value there.
fn arranged(
    alloc: Global,
    seen: &Strings,
    order: &[u32],
) -> Result<(Lexicon, Renumbering), NoMemory>
    requires few { length seen.now < 2 ^ 32 }
    requires order { IsSortedNumbering seen.now (map (λ n. (slice_index_or seen.now n [], n)) order.now) }
    ensures lexicon { IfOk result (λ r. IsLexiconOf seen.now r.0) }
    ensures numbers { IfOk result (λ r. Renumbers r.1 seen.now r.0) }
    ensures count { IfOk result (λ r. length r.0 ≡ length seen.now) }
{
    let mut values = Strings::with_capacity(alloc, order.len(), bytes_of(seen))?;
    let mut numbers = vec![in alloc; 0u32; order.len()]?;
    for number in order {
        numbers[*number as usize] = values.len() as u32;
        values.push(seen.get(*number as usize))?;
    }
    Ok((
        Lexicon::from_strings(values),
        Renumbering::from_vec(numbers),
    ))
}

/// A value behind its first bytes, and its number by first sight. Entries stand in the order of their values, which mostly the first
/// bytes tell alone.
#[derive(Debug, PartialEq, Eq, PartialOrd, Ord, Drop)]
struct Entry<'a> {
    first: u64,
    value: &'a str,
    number: u32,
}

/// The places of the values, in ascending order of the values. What they are sorted by is let go before there is a second copy of them.
fn order_of(alloc: Global, values: &Strings) -> Result<Vec<u32>, NoMemory>
    requires few { length values.now < 2 ^ 32 }
    requires distinct { AreDistinct values.now }
    ensures { IfOk result (λ order. IsSortedNumbering values.now (map (λ n. (slice_index_or values.now n [], n)) order.items)) }
{
    let entries = sorted_entries(alloc, values)?;
    let mut order = Vec::with_capacity(alloc, entries.len())?;
    for entry in &entries {
        order.push(entry.number)?;
    }
    Ok(order)
}

/// The values with their places, in ascending order.
fn sorted_entries(alloc: Global, values: &Strings) -> Result<Vec<Entry<'_>>, NoMemory>
    requires few { length values.now < 2 ^ 32 }
    requires distinct { AreDistinct values.now }
    ensures { IfOk result (λ entries. IsSortedNumbering values.now (map (λ entry. (entry.value.now, entry.number)) entries.items)) }
{
    let mut entries = numbered_entries(alloc, values)?;
    entries.sort_unstable();
    Ok(entries)
}

/// The values with their places, in their order.
fn numbered_entries(alloc: Global, values: &Strings) -> Result<Vec<Entry<'_>>, NoMemory>
    requires { length values.now < 2 ^ 32 }
    ensures numbering { IfOk result (λ entries. IsNumbering values.now (length values.now) (map (λ entry. (entry.value.now, entry.number)) entries.items)) }
    ensures first { IfOk result (λ entries. All (λ entry. BeginsBy entry.value.now entry.first) entries.items) }
{
    let count = values.len() as u32;
    let mut entries = Vec::with_capacity(alloc, values.len())?;
    for number in 0..count {
        let value = values.get(number as usize);
        entries.push(Entry {
            first: first_eight(value),
            value,
            number,
        })?;
    }
    Ok(entries)
}

/// The first eight bytes as one number, which orders as they do.
fn first_eight(value: &str) -> u64
    ensures { BeginsBy value.now result }
{
    let bytes = value.as_bytes();
    let mut first = 0u64;
    for place in 0..8usize {
        first = first * 256 + u64::from(byte_at(bytes, place));
    }
    first
}

/// The byte at a place, and 0 behind the last one.
fn byte_at(bytes: &[u8], place: usize) -> u8
    ensures { result ≡ slice_index bytes.now place }
{
    if place < bytes.len() { bytes[place] } else { 0 }
}

/// How many bytes the values have, for the memory that is taken for them.
fn bytes_of(values: &Strings) -> usize {
    let mut bytes = 0usize;
    for number in 0..values.len() {
        bytes = bytes.saturating_add(values.get(number).len());
    }
    bytes
}
