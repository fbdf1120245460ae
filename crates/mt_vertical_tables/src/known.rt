//! Values numbered as they are first seen, most of which are known when they come again.

ghost use Rattle.std.specs.Prelude.{◌≡◌, ◌-◌, ◌^◌, ◌<◌, ◌≤◌, ℕ, List as Items, [], length, slice_get, Some, IfOk, IfSome, OnOk, OnErr};
ghost use Rattle.std.specs.List.{All, Contains};
ghost use Rattle.mt_store_spec.specs.Lexicons.{IsLexiconOf, Renumbers, seen_with};
ghost use Rattle.mt_vertical_tables.specs.Packing.{IsKnown, IsPacked, key_of};

use mt_base::NoMemory;
use mt_lexicon::{Lexicon, LexiconBuilder, Renumbering};
use std::alloc::Global;
use std::marker::Model;

/// So many bits of what is made of a key pick its entry. The 2^14 entries take 256 KB.
const PLACE_BITS: u32 = 14;

/// The most bytes of a value that is packed. With the 1 in front they fill the key of an entry.
const LONGEST: usize = 11;

/// A value that was seen, packed, and its number. The key stands in two parts, so that an entry takes no more than 16 bytes. Where it is 0, the entry tells of none.
#[derive(Clone, Copy)]
struct Known {
    low: u64,
    high: u32,
    number: u32,
}

impl Known {
    /// The entry of a value with this key.
    fn new(key: u128, number: u32) -> Self
        requires { key < 2 ^ 96 }
        ensures key { key_of result ≡ key }
        ensures number { result.number ≡ number }
    {
        Known {
            low: (key % (1 << 64)) as u64,
            high: (key / (1 << 64)) as u32,
            number,
        }
    }

    /// The key.
    fn key(&self) -> u128
        ensures { result ≡ key_of self.now }
    {
        u128::from(self.high) * (1 << 64) + u128::from(self.low)
    }
}

/// Numbers values as a `LexiconBuilder` does, and is seen as the list of them. Beside it is a table of short values whose numbers are known. The value itself picks its entry
/// there, so mostly one that comes again is looked for at one place, and no other memory is read.
#[derive(Drop)]
pub(crate) struct Seen {
    builder: LexiconBuilder,
    known: Vec<Known>,
}

impl Model for Seen {
    ghost use Rattle.std.specs.Prelude.{ℕ, List};
    ghost use Rattle.std.specs.List.{All};
    ghost use Rattle.mt_vertical_tables.specs.Packing.{IsKnown};

    ghost Value = { List (List ℕ) };

    ghost view = { λ s. s.builder };

    ghost invariant = { λ s. All (IsKnown s.builder) s.known.items };
}

impl Seen {
    /// No values.
    pub(crate) fn new(alloc: Global) -> Result<Self, NoMemory>
        ensures { IfOk result (λ seen. seen ≡ []) }
    {
        let builder = LexiconBuilder::new(alloc)?;
        let known = no_entries(alloc, 1 << PLACE_BITS)?;
        Ok(Seen { builder, known })
    }

    /// The number of a value: the one that it has, or the next one where it is seen for the first time. Without memory nothing changes.
    pub(crate) fn add(&mut self, value: &str) -> Result<u32, NoMemory>
        requires { length self.old < 2 ^ 32 - 1 }
        ensures values { OnOk result (self.new ≡ seen_with self.old value.now) }
        ensures number { IfOk result (λ number. slice_get self.new number ≡ Some value.now) }
        ensures err { OnErr result (self.new ≡ self.old) }
    {
        if value.len() > LONGEST {
            return self.builder.add(value);
        }
        let key = packed(value);
        let place = place_of(key);
        if let Some(number) = number_at(self.known.as_slice(), place, key) {
            return Ok(number);
        }
        let number = self.builder.add(value)?;
        put(self.known.as_mut_slice(), place, Known::new(key, number));
        Ok(number)
    }

    /// The lexicon of the values, and the number there for each number given.
    pub(crate) fn finish(self) -> Result<(Lexicon, Renumbering), NoMemory>
        ensures lexicon { IfOk result (λ r. IsLexiconOf self r.0) }
        ensures numbers { IfOk result (λ r. Renumbers r.1 self r.0) }
    {
        let Seen { builder, known } = self;
        drop(known);
        builder.finish()
    }
}

/// So many entries, none of which tells of a value.
fn no_entries(alloc: Global, count: usize) -> Result<Vec<Known>, NoMemory>
    ensures { IfOk result (λ known. (seen : Items (Items ℕ)) → All (IsKnown seen) known.items) }
{
    let known = vec![in alloc; Known {
        low: 0,
        high: 0,
        number: 0
    }; count]?;
    Ok(known)
}

/// A short value as one number, in which its bytes stand behind a 1.
fn packed(value: &str) -> u128
    requires { length value.now ≤ 11 }
    ensures packed { IsPacked value.now result }
    ensures low { result < 2 ^ 96 }
{
    let bytes = value.as_bytes();
    let mut key = 1u128;
    for place in 0..bytes.len() {
        key = key * 256 + u128::from(bytes[place]);
    }
    key
}

/// The place of the entry for a key. Any would do, but keys that stand at one place drive each other out.
fn place_of(key: u128) -> usize {
    let low = (key & 0xFFFF_FFFF_FFFF_FFFF) as u64;
    let high = (key >> 64) as u64;
    let mixed = (low ^ high).wrapping_mul(0x9e37_79b9_7f4a_7c15);
    (mixed >> (64 - PLACE_BITS)) as usize
}

/// The number in the entry at a place, where the entry has this key.
fn number_at(known: &[Known], place: usize, key: u128) -> Option<u32>
    ensures { (seen : Items (Items ℕ)) (value : Items ℕ) → All (IsKnown seen) known.now → IsPacked value key → IfSome result (λ number. slice_get seen number ≡ Some value) }
{
    if place >= known.len() {
        return None;
    }
    let entry = known[place];
    if entry.key() == key {
        Some(entry.number)
    } else {
        None
    }
}

/// Puts an entry in the place of another, if there is such a place.
fn put(known: &mut [Known], place: usize, entry: Known)
    ensures known { (seen : Items (Items ℕ)) → All (IsKnown seen) known.old → IsKnown seen entry → All (IsKnown seen) known.new }
    ensures count { length known.new ≡ length known.old }
{
    if place < known.len() {
        known[place] = entry;
    }
}
