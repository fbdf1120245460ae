//! A writer of bits.

ghost use Rattle.std.specs.Prelude.{◌≡◌, ℕ, ◌+◌, ◌*◌, ◌^◌, ◌<◌, ◌≤◌, Bool, false, List as Items, [], ◌++◌, length, take, replicate, vec_len, vec_capacity, IfOk, OnOk, OnErr};
ghost use Rattle.std.specs.Int.{w64, to_be_bytes};
ghost use Rattle.mt_store_spec.specs.Codes.{digits, delta, bits};
ghost use Rattle.mt_store_spec.specs.Positions.{codes, next_least};
ghost use Rattle.mt_postings.specs.Following.{Follow};

use mt_base::{List, NoMemory};
use std::alloc::Global;
use std::marker::Model;

/// The last bits, fewer than 64, in the lowest places of a word.
#[derive(Clone, Copy, Drop)]
struct Last {
    word: u64,
    /// How many bits `word` has.
    held: u32,
}

/// Bits that are gathered into a word of 64 and go into the bytes a word at a time.
#[derive(Drop)]
pub struct BitWriter {
    bytes: Vec<u8>,
    last: Last,
}

impl Model for BitWriter {
    ghost use Rattle.std.specs.Prelude.{List, Bool, ℕ, ◌<◌, ◌≤◌, ◌+◌, ◌^◌, ◌++◌, vec_len, vec_capacity};
    ghost use Rattle.mt_store_spec.specs.Codes.{digits, bits};

    ghost Value = { List Bool };

    ghost view = { λ w. bits w.bytes.items ++ digits w.last.held w.last.word };

    ghost invariant = { λ w. (w.last.held < 64) × (w.last.word < 2 ^ w.last.held) × (0 < w.last.held → vec_len w.bytes + 8 ≤ vec_capacity w.bytes) };
}

/// The code of a number as the lowest bits of a word, and how many they are.
#[inline(always)]
fn delta_word(n: u32) -> (u64, u32)
    requires { 1 ≤ n }
    ensures code { digits result.1 result.0 ≡ delta n }
    ensures fits { result.0 < 2 ^ result.1 }
    ensures length { result.1 ≤ 42 }
{
    let low = n.ilog2();
    let zeros = (low + 1).ilog2();
    let word = ((low as u64) << low) + n as u64;
    (word, 2 * zeros + 1 + low)
}

/// How many bits the code of a number has.
#[inline]
pub(crate) fn delta_len(n: u32) -> u32
    requires { 1 ≤ n }
    ensures exact { result ≡ length (delta n) }
    ensures most { result ≤ 42 }
{
    let low = n.ilog2();
    2 * (low + 1).ilog2() + 1 + low
}

/// The first bits of bytes, fewer than eight, in the lowest places of a word.
fn first_bits(bytes: &[u8], count: u32) -> u64
    requires few { count < 8 }
    requires within { count ≤ 8 * length bytes.now }
    ensures bits { digits count result ≡ take count (bits bytes.now) }
    ensures fits { result < 2 ^ count }
{
    match bytes.split_first() {
        Some((byte, _rest)) => u64::from(*byte) >> (8 - count),
        None => 0,
    }
}

/// Adds a word at the end, with room for another after it.
fn push_word(bytes: &mut Vec<u8>, word: u64) -> Result<(), NoMemory>
    ensures ok { OnOk result (bytes.new.items ≡ bytes.old.items ++ to_be_bytes w64 word) }
    ensures room { OnOk result (vec_len bytes.new + 8 ≤ vec_capacity bytes.new) }
    ensures err { OnErr result (bytes.new.items ≡ bytes.old.items) }
    ensures kept { OnErr result (vec_len bytes.new ≡ vec_len bytes.old) }
    ensures capacity { vec_capacity bytes.old ≤ vec_capacity bytes.new }
{
    bytes.reserve(16)?;
    bytes.extend_from_slice(&word.to_be_bytes())?;
    Ok(())
}

/// Makes room for a word. Where bits are held, there is room already.
#[inline(always)]
fn make_room(bytes: &mut Vec<u8>, held: u32) -> Result<(), NoMemory>
    requires { 0 < held → vec_len bytes.old + 8 ≤ vec_capacity bytes.old }
    ensures items { bytes.new.items ≡ bytes.old.items }
    ensures room { OnOk result (vec_len bytes.new + 8 ≤ vec_capacity bytes.new) }
    ensures kept { vec_len bytes.new ≡ vec_len bytes.old }
    ensures capacity { vec_capacity bytes.old ≤ vec_capacity bytes.new }
{
    if held == 0 {
        bytes.reserve(8)?;
    }
    Ok(())
}

/// Adds bits after the last ones, and gives what the last ones are then. Without memory nothing is added.
#[inline(always)]
fn add_bits(bytes: &mut Vec<u8>, last: Last, word: u64, count: u32) -> Result<Last, NoMemory>
    requires below { last.held < 64 }
    requires within { last.word < 2 ^ last.held }
    requires room { vec_len bytes.old + 8 ≤ vec_capacity bytes.old }
    requires fits { word < 2 ^ count }
    requires few { count ≤ 42 }
    ensures ok { IfOk result (λ now. bits bytes.new.items ++ digits now.held now.word ≡
        (bits bytes.old.items ++ digits last.held last.word) ++ digits count word) }
    ensures below { IfOk result (λ now. now.held < 64) }
    ensures within { IfOk result (λ now. now.word < 2 ^ now.held) }
    ensures err { OnErr result (bytes.new.items ≡ bytes.old.items) }
    ensures room { vec_len bytes.new + 8 ≤ vec_capacity bytes.new }
{
    let held = last.held + count;
    if held < 64 {
        let more = (last.word << count) + word;
        Ok(Last { word: more, held })
    } else {
        let rest = held - 64;
        let full = (last.word << (64 - last.held)) + (word >> rest);
        push_word(bytes, full)?;
        let low = word & ((1 << rest) - 1);
        Ok(Last {
            word: low,
            held: rest,
        })
    }
}

/// Adds the codes of positions that follow others: what the last bits are then, the least position that may follow
/// these, and how many bits the codes have.
fn add_gaps(
    bytes: &mut Vec<u8>,
    last: Last,
    least: u32,
    positions: &[u32],
) -> Result<(Last, u32, u64), NoMemory>
    requires below { last.held < 64 }
    requires within { last.word < 2 ^ last.held }
    requires room { vec_len bytes.old + 8 ≤ vec_capacity bytes.old }
    requires follow { Follow least positions.now }
    requires few { length positions.now < 4294967296 }
    ensures ok { IfOk result (λ r. bits bytes.new.items ++ digits r.0.held r.0.word ≡
        (bits bytes.old.items ++ digits last.held last.word) ++ codes least positions.now) }
    ensures below { IfOk result (λ r. r.0.held < 64) }
    ensures within { IfOk result (λ r. r.0.word < 2 ^ r.0.held) }
    ensures next { IfOk result (λ r. r.1 ≡ next_least least positions.now) }
    ensures count { IfOk result (λ r. r.2 ≡ length (codes least positions.now)) }
    ensures most { IfOk result (λ r. r.2 ≤ 42 * length positions.now) }
    ensures room { vec_len bytes.new + 8 ≤ vec_capacity bytes.new }
{
    let mut last = last;
    let mut next = least;
    let mut bits = 0;
    for position in positions {
        let (word, count) = delta_word(*position - next + 1);
        last = add_bits(bytes, last, word, count)?;
        next = *position + 1;
        bits += u64::from(count);
    }
    Ok((last, next, bits))
}

impl BitWriter {
    /// No bits yet. It takes no memory.
    pub fn new(alloc: Global) -> Self
        ensures { result ≡ [] }
    {
        BitWriter {
            bytes: Vec::new(alloc),
            last: Last { word: 0, held: 0 },
        }
    }

    /// The first bits of bytes, fewer than eight.
    pub(crate) fn after(alloc: Global, bytes: &[u8], count: u32) -> Result<Self, NoMemory>
        requires few { count < 8 }
        requires within { count ≤ 8 * length bytes.now }
        ensures { IfOk result (λ writer. writer ≡ take count (bits bytes.now)) }
    {
        Ok(BitWriter {
            bytes: Vec::with_capacity(alloc, 8)?,
            last: Last {
                word: first_bits(bytes, count),
                held: count,
            },
        })
    }

    /// Writes the Elias delta code of a number. Without memory nothing is written.
    #[inline(always)]
    pub fn put_delta(&mut self, n: u32) -> Result<(), NoMemory>
        requires { 1 ≤ n }
        ensures ok { OnOk result (self.new ≡ self.old ++ delta n) }
        ensures err { OnErr result (self.new ≡ self.old) }
    {
        let (word, count) = delta_word(n);
        self.put(word, count)
    }

    /// Writes the lowest `count` bits of a word.
    #[inline(always)]
    fn put(&mut self, word: u64, count: u32) -> Result<(), NoMemory>
        requires fits { word < 2 ^ count }
        requires few { count ≤ 42 }
        ensures ok { OnOk result (self.new ≡ self.old ++ digits count word) }
        ensures err { OnErr result (self.new ≡ self.old) }
    {
        make_room(&mut self.bytes, self.last.held)?;
        self.last = add_bits(&mut self.bytes, self.last, word, count)?;
        Ok(())
    }

    /// Writes the codes of positions that follow others: the least that may follow these, and how many bits the codes have.
    pub(crate) fn put_gaps(&mut self, least: u32, positions: &[u32]) -> Result<(u32, u64), NoMemory>
        requires follow { Follow least positions.now }
        requires few { length positions.now < 4294967296 }
        ensures ok { OnOk result (self.new ≡ self.old ++ codes least positions.now) }
        ensures next { IfOk result (λ r. r.0 ≡ next_least least positions.now) }
        ensures count { IfOk result (λ r. r.1 ≡ length (codes least positions.now)) }
        ensures most { IfOk result (λ r. r.1 ≤ 42 * length positions.now) }
    {
        make_room(&mut self.bytes, self.last.held)?;
        let (last, next, bits) = add_gaps(&mut self.bytes, self.last, least, positions)?;
        self.last = last;
        Ok((next, bits))
    }

    /// The bytes of what was written, after as many zeros as fill the last byte. It takes no memory.
    pub fn finish(self) -> List<u8>
        ensures { (padding : ℕ) × (padding < 8) × (bits result ≡ self ++ replicate padding false) }
    {
        let BitWriter {
            mut bytes,
            last: Last { word, held },
        } = self;
        if held == 0 {
            return List::from_vec(bytes);
        }
        let last = (word << (64 - held)).to_be_bytes();
        let count = (held as usize + 7) / 8;
        // The room was taken when the bits came.
        match bytes.extend_from_slice(&last[..count]) {
            Ok(()) => List::from_vec(bytes),
            Err(_) => unreachable!(),
        }
    }
}
