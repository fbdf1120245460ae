//! A reader of bits.

ghost use Rattle.std.specs.Prelude.{◌≡◌, ℕ, ◌+◌, ◌-◌, ◌*◌, ◌^◌, ◌<◌, ◌≤◌, ◌↔◌, Bool, false, List as Items, ◌++◌, length, take, drop, replicate, MatchBool, IfOk, IfErr, OnErr};
ghost use Rattle.mt_store_spec.specs.Codes.{digits, delta, bits, Unread, IsTooLarge, IsCut};
ghost use Rattle.mt_postings.specs.Words.{Shows, Begins};
ghost use Rattle.mt_postings.specs.Refused.{IsRefused};

use super::code::{code_in, short_code_in};
use super::error::CodeError;
use std::marker::Model;

/// The bits of bytes, read from the most significant of each on.
#[derive(Drop)]
pub struct BitReader<'a> {
    bytes: &'a [u8],
    /// The place of the next bit.
    at: u64,
    /// Some of the next bits, the first of them in the highest place.
    word: u64,
    /// How many bits `word` has.
    held: u32,
}

impl<'a> Model for BitReader<'a> {
    ghost use Rattle.std.specs.Prelude.{ℕ, ◌<◌, ◌≤◌, ◌*◌, length, drop};
    ghost use Rattle.mt_store_spec.specs.Codes.{bits, Unread};

    ghost Value = { Unread };

    ghost view = { λ r. record { left = drop r.at (bits r.bytes.now); place = r.at } };

    ghost use Rattle.mt_postings.specs.Words.{Holds};

    ghost invariant = { λ r. (r.at ≤ 8 * length r.bytes.now) × (length r.bytes.now < 4294967296)
        × Holds r.held r.word (drop r.at (bits r.bytes.now)) };
}

/// Bytes, and zeros after them.
fn padded(bytes: &[u8]) -> [u8; 8]
    requires { length bytes.now < 8 }
    ensures { result ≡ bytes.now ++ replicate (8 - length bytes.now) 0 }
{
    let mut padded = [0; 8];
    padded[..bytes.len()].copy_from_slice(bytes);
    padded
}

/// The first eight bytes as a word. Where there are fewer, zeros stand for the others.
#[inline(always)]
fn first_word(bytes: &[u8]) -> u64
    ensures { digits 64 result ≡ take 64 (bits bytes.now ++ replicate 64 false) }
{
    match bytes.first_chunk::<8>() {
        Some(chunk) => u64::from_be_bytes(*chunk),
        None => u64::from_be_bytes(padded(bytes)),
    }
}

impl<'a> BitReader<'a> {
    /// A reader before the first bit.
    pub fn new(bytes: &'a [u8]) -> Self
        requires { length bytes.now < 4294967296 }
        ensures { result ≡ record { left = bits bytes.now; place = 0 } }
    {
        BitReader {
            bytes,
            at: 0,
            word: 0,
            held: 0,
        }
    }

    /// Goes on to a later bit.
    #[inline]
    pub(crate) fn move_to(&mut self, bit: u64)
        requires later { self.old.place ≤ bit }
        requires within { bit ≤ self.old.place + length self.old.left }
        ensures { self.new ≡ record { left = drop (bit - self.old.place) self.old.left; place = bit } }
    {
        self.at = bit;
        self.word = 0;
        self.held = 0;
    }

    /// The next 57 bits, the first of them in the highest place.
    #[inline(always)]
    fn next_word(&self) -> u64
        ensures { Shows result self.now.left }
    {
        let from = (self.at / 8) as usize;
        let skip = (self.at % 8) as u32;
        first_word(&self.bytes[from..]) << skip
    }

    /// Why no number is read here, where the word shows the next bits.
    #[inline(always)]
    fn refusal(&self, word: u64) -> CodeError
        requires shown { Shows word self.now.left }
        requires none { (n k : ℕ) → Begins word n k → k ≤ 57 → k ≤ length self.now.left → ⊥ }
        ensures { IsRefused self.now result }
    {
        let left = 8 * self.bytes.len() as u64 - self.at;
        if word >> 58 == 0 {
            return if left < 6 {
                CodeError::Cut(self.at)
            } else {
                CodeError::TooLarge(self.at)
            };
        }
        let head = 2 * (63 - word.ilog2()) + 1;
        if left < head as u64 {
            return CodeError::Cut(self.at);
        }
        if word >> (64 - head) > 32 {
            return CodeError::TooLarge(self.at);
        }
        CodeError::Cut(self.at)
    }

    /// Reads the number whose Elias delta code is next. It takes no memory.
    #[inline(always)]
    pub fn get_delta(&mut self) -> Result<u32, CodeError>
        ensures positive { IfOk result (λ n. 1 ≤ n) }
        ensures number { IfOk result (λ n. self.old.left ≡ delta n ++ self.new.left) }
        ensures place { IfOk result (λ n. self.new.place ≡ self.old.place + length (delta n)) }
        ensures too_large { (result ≡ Err (CodeError.TooLarge self.old.place)) ↔ IsTooLarge self.old.left }
        ensures cut { (result ≡ Err (CodeError.Cut self.old.place)) ↔ IsCut self.old.left }
        ensures err { IfErr result (λ e. IsRefused self.old e) }
        ensures unchanged { OnErr result (self.new ≡ self.old) }
    {
        match short_code_in(self.word, self.held) {
            Some((n, length)) => {
                self.at += length as u64;
                self.word <<= length;
                self.held -= length;
                Ok(n)
            }
            None => self.get_from_bytes(),
        }
    }

    /// The same, by a word that is read from the bytes anew. What the code leaves of it is held.
    #[inline(always)]
    fn get_from_bytes(&mut self) -> Result<u32, CodeError>
        ensures positive { IfOk result (λ n. 1 ≤ n) }
        ensures number { IfOk result (λ n. self.old.left ≡ delta n ++ self.new.left) }
        ensures place { IfOk result (λ n. self.new.place ≡ self.old.place + length (delta n)) }
        ensures too_large { (result ≡ Err (CodeError.TooLarge self.old.place)) ↔ IsTooLarge self.old.left }
        ensures cut { (result ≡ Err (CodeError.Cut self.old.place)) ↔ IsCut self.old.left }
        ensures err { IfErr result (λ e. IsRefused self.old e) }
        ensures unchanged { OnErr result (self.new ≡ self.old) }
    {
        let left = 8 * self.bytes.len() as u64 - self.at;
        let word = self.next_word();
        let held = left.min(57) as u32;
        match code_in(word, held) {
            Some((n, length)) => {
                self.at += length as u64;
                self.word = word << length;
                self.held = held - length;
                Ok(n)
            }
            None => Err(self.refusal(word)),
        }
    }

    /// The place of the next bit.
    pub(crate) fn place(&self) -> u64
        ensures { result ≡ self.now.place }
    {
        self.at
    }

    /// Whether fewer than eight bits are left, all of them zeros.
    pub(crate) fn is_padding(&self) -> bool
        ensures { MatchBool result
            ((n : ℕ) × (n < 8) × (self.now.left ≡ replicate n false))
            ((n : ℕ) → n < 8 → self.now.left ≡ replicate n false → ⊥) }
    {
        8 * self.bytes.len() as u64 - self.at < 8 && self.next_word() >> 56 == 0
    }
}
