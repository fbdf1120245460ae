//! Posting lists.

ghost use Rattle.std.specs.Prelude.{◌≡◌, ℕ, ◌+◌, ◌^◌, ◌<◌, ◌⊎◌, ◌↔◌, List as Items, ◌++◌, length, map, All, Contains, flat_map, IfOk, IfErr, OnOk, OnErr};
ghost use Rattle.mt_store_spec.specs.Codes.{bits};
ghost use Rattle.mt_store_spec.specs.Positions.{ArePositions, codes, moved, IsCode, IsTooLargeAt, IsCutAt, IsPaddingAt};
ghost use Rattle.mt_postings.specs.Forms.{positions_lent, IsShort};
ghost use Rattle.mt_postings.specs.Merge.{merge};
ghost use Rattle.mt_postings.specs.Refused.{IsNoList};

use super::cursor::Cursor;
use super::decoding::decoded;
use super::error::DecodeError;
use super::kept::{Kept, Lent, keep};
use super::moving::moved_positions;
use super::union::Union;
use super::writer::{BitWriter, delta_len};
use mt_base::{List, NoMemory};
use std::alloc::Global;
use std::marker::Model;

/// Ascending positions, none greater than 2^32 − 2.
#[derive(Debug, Drop)]
pub struct Postings {
    alloc: Global,
    kept: Kept,
}

impl Model for Postings {
    ghost use Rattle.std.specs.Prelude.{ℕ, List};
    ghost use Rattle.mt_store_spec.specs.Positions.{ArePositions};

    ghost Value = { List ℕ };

    ghost use Rattle.mt_postings.specs.Forms.{positions_kept, IsFitting};

    ghost view = { λ p. positions_kept p.kept };

    ghost invariant = { λ p. ArePositions (positions_kept p.kept) × IsFitting p.kept };
}

impl Postings {
    /// The list of these positions.
    #[inline(always)]
    pub fn from_slice(alloc: Global, positions: &[u32]) -> Result<Self, NoMemory>
        requires { ArePositions positions.now }
        ensures { IfOk result (λ p. p ≡ positions.now) }
    {
        Ok(Postings {
            alloc,
            kept: keep(alloc, positions)?,
        })
    }

    /// The positions as they are kept.
    fn lent(&self) -> Lent<'_>
        ensures all { positions_lent result ≡ self.now }
        ensures valid { ArePositions self.now }
        ensures short { IsShort result }
    {
        self.kept.lent()
    }

    /// The positions as numbers.
    fn spelt(&self, alloc: Global) -> Result<Vec<u32>, NoMemory>
        ensures all { IfOk result (λ all. all.items ≡ self.now) }
        ensures valid { ArePositions self.now }
    {
        let mut all = Vec::new(alloc);
        self.push_to(&mut all)?;
        Ok(all)
    }

    /// How many positions there are. It takes no memory.
    pub fn len(&self) -> u32
        ensures count { result ≡ length self.now }
        ensures valid { ArePositions self.now }
    {
        match self.lent() {
            Lent::Numbers(numbers) => numbers.len() as u32,
            Lent::Code(coded) => coded.len(),
        }
    }

    /// A cursor before the first position. It takes no memory.
    pub fn cursor(&self) -> Cursor<'_>
        ensures all { result ≡ self.now }
        ensures valid { ArePositions self.now }
    {
        match self.lent() {
            Lent::Numbers(numbers) => Cursor::numbers(numbers),
            Lent::Code(coded) => Cursor::codes(coded.places()),
        }
    }

    /// The positions of both lists, each once.
    pub fn union(&self, alloc: Global, other: &Postings) -> Result<Self, NoMemory>
        ensures members { IfOk result (λ all. (p : ℕ) → Contains all p ↔ (Contains self.now p ⊎ Contains other.now p)) }
        ensures valid { IfOk result (λ all. ArePositions all) }
    {
        let left = self.spelt(alloc)?;
        let right = other.spelt(alloc)?;
        let all = merged(alloc, left.as_slice(), right.as_slice())?;
        Postings::from_slice(alloc, all.as_slice())
    }

    /// The positions of all the lists, each once. They are sorted once.
    pub fn union_of(alloc: Global, lists: &[&Postings]) -> Result<Self, NoMemory>
        ensures members { IfOk result (λ all. (p : ℕ) →
            Contains all p ↔ Contains (flat_map (λ list. list.now) lists.now) p) }
        ensures valid { IfOk result (λ all. ArePositions all) }
    {
        let mut union = Union::new(alloc);
        for list in lists {
            union.add(*list)?;
        }
        union.finish()
    }

    /// Adds the positions of a part at the end, each greater by `shift`. Without memory nothing changes.
    pub fn append_shifted(&mut self, part: &Postings, shift: u32) -> Result<(), NoMemory>
        requires { ArePositions (self.old ++ map (λ p. p + shift) part.now) }
        ensures ok { OnOk result (self.new ≡ self.old ++ map (λ p. p + shift) part.now) }
        ensures err { OnErr result (self.new ≡ self.old) }
    {
        let positions = part.spelt(self.alloc)?;
        let mut more = Vec::new(self.alloc);
        push_shifted(&mut more, positions.as_slice(), shift)?;
        self.append(more.as_slice())
    }

    /// Adds the positions of a part that are at least `from` and less than `to`, moved so that `from` becomes `place`. Without
    /// memory nothing changes.
    pub fn append_moved(
        &mut self,
        part: &Postings,
        from: u32,
        to: u32,
        place: u32,
    ) -> Result<(), NoMemory>
        requires { ArePositions (self.old ++ moved from to place part.now) }
        ensures ok { OnOk result (self.new ≡ self.old ++ moved from to place part.now) }
        ensures err { OnErr result (self.new ≡ self.old) }
    {
        let more = moved_positions(self.alloc, part, from, to, place)?;
        self.append(more.as_slice())
    }

    /// Adds positions at the end. Without memory nothing changes.
    fn append(&mut self, more: &[u32]) -> Result<(), NoMemory>
        requires { ArePositions (self.old ++ more.now) }
        ensures ok { OnOk result (self.new ≡ self.old ++ more.now) }
        ensures err { OnErr result (self.new ≡ self.old) }
    {
        if let Kept::Code(coded) = &mut self.kept {
            return coded.append(self.alloc, more);
        }
        let mut all = self.spelt(self.alloc)?;
        all.extend_from_slice(more)?;
        self.kept = keep(self.alloc, all.as_slice())?;
        Ok(())
    }

    /// Adds the positions at the end of others. Without memory these stay as they are.
    pub(crate) fn push_to(&self, all: &mut Vec<u32>) -> Result<(), NoMemory>
        ensures ok { OnOk result (all.new.items ≡ all.old.items ++ self.now) }
        ensures err { OnErr result (all.new.items ≡ all.old.items) }
        ensures valid { ArePositions self.now }
    {
        match self.lent() {
            Lent::Numbers(numbers) => {
                all.extend_from_slice(numbers)?;
                Ok(())
            }
            Lent::Code(coded) => coded.push_to(all),
        }
    }

    /// The code of the list: the Elias delta codes of the first position plus one and of each gap, and zeros to fill the
    /// last byte. That of no positions has no bytes.
    pub fn encode(&self, alloc: Global) -> Result<List<u8>, NoMemory>
        ensures code { IfOk result (λ bytes. IsCode bytes self.now) }
        ensures short { IfOk result (λ bytes. length bytes < 4294967296) }
    {
        match self.lent() {
            Lent::Numbers(numbers) => code_of(alloc, numbers),
            Lent::Code(coded) => Ok(List::from_vec(Vec::from_slice(alloc, coded.code())?)),
        }
    }

    /// Adds the code at the end of bytes. Without memory these stay as they are.
    pub fn encode_to(&self, out: &mut List<u8>) -> Result<(), NoMemory>
        ensures ok { OnOk result ((code : Items ℕ) × IsCode code self.now × (out.new ≡ out.old ++ code)) }
        ensures err { OnErr result (out.new ≡ out.old) }
    {
        match self.lent() {
            Lent::Numbers(numbers) => {
                let code = code_of(self.alloc, numbers)?;
                out.extend(code.as_slice())
            }
            Lent::Code(coded) => out.extend(coded.code()),
        }
    }

    /// How many bytes the code has. It takes no memory.
    pub fn code_len(&self) -> u32
        ensures { (bytes : Items ℕ) → IsCode bytes self.now → length bytes ≡ result }
    {
        match self.lent() {
            Lent::Numbers(numbers) => ((code_bits(numbers) + 7) / 8) as u32,
            Lent::Code(coded) => coded.code().len() as u32,
        }
    }

    /// The list of `count` positions whose code the bytes are.
    pub fn decode(alloc: Global, count: u32, bytes: &[u8]) -> Result<Self, DecodeError>
        requires { length bytes.now < 4294967296 }
        ensures ok { IfOk result (λ p. IsCode bytes.now p × (length p ≡ count)) }
        ensures err { IfErr result (λ e. IsNoList count (bits bytes.now) e) }
        ensures code { (p : Items ℕ) → IsCode bytes.now p → length p ≡ count →
            (result ≡ Ok p) ⊎ (result ≡ Err DecodeError.NoMemory) }
        ensures too_large { (bit : ℕ) → IsTooLargeAt count (bits bytes.now) bit →
            (result ≡ Err (DecodeError.TooLarge bit)) ⊎ (result ≡ Err DecodeError.NoMemory) }
        ensures cut { (bit : ℕ) → IsCutAt count (bits bytes.now) bit →
            (result ≡ Err (DecodeError.Cut bit)) ⊎ (result ≡ Err DecodeError.NoMemory) }
        ensures padding { (bit : ℕ) → IsPaddingAt count (bits bytes.now) bit →
            (result ≡ Err (DecodeError.Padding bit)) ⊎ (result ≡ Err DecodeError.NoMemory) }
    {
        match decoded(alloc, count, bytes) {
            Ok(positions) => match Postings::from_slice(alloc, positions.as_slice()) {
                Ok(postings) => Ok(postings),
                Err(_) => Err(DecodeError::NoMemory),
            },
            Err(refusal) => Err(refusal),
        }
    }
}

/// The code of positions.
fn code_of(alloc: Global, positions: &[u32]) -> Result<List<u8>, NoMemory>
    requires { ArePositions positions.now }
    ensures code { IfOk result (λ bytes. IsCode bytes positions.now) }
    ensures short { IfOk result (λ bytes. length bytes < 4294967296) }
{
    let mut writer = BitWriter::new(alloc);
    let mut least = 0;
    for position in positions {
        writer.put_delta(*position - least + 1)?;
        least = *position + 1;
    }
    Ok(writer.finish())
}

/// How many bits the codes of these positions have.
fn code_bits(positions: &[u32]) -> u64
    requires { ArePositions positions.now }
    ensures exact { result ≡ length (codes 0 positions.now) }
    ensures most { result < 2 ^ 34 }
{
    let mut bits = 0;
    let mut least = 0;
    for position in positions {
        bits += u64::from(delta_len(*position - least + 1));
        least = *position + 1;
    }
    bits
}

/// The positions of two lists in ascending order, each once.
fn merged(alloc: Global, left: &[u32], right: &[u32]) -> Result<Vec<u32>, NoMemory>
    requires left { ArePositions left.now }
    requires right { ArePositions right.now }
    ensures { IfOk result (λ all. all.items ≡ merge (length left.now + length right.now) left.now right.now) }
{
    let mut all = Vec::with_capacity(alloc, left.len() + right.len())?;
    let mut i = 0;
    let mut j = 0;
    while i < left.len() && j < right.len() {
        let a = left[i];
        let b = right[j];
        all.push_reserved(a.min(b));
        i += (a <= b) as usize;
        j += (b <= a) as usize;
    }
    all.extend_from_slice(&left[i..])?;
    all.extend_from_slice(&right[j..])?;
    Ok(all)
}

/// Adds numbers at the end, each greater by `shift`. Without memory nothing changes.
fn push_shifted(all: &mut Vec<u32>, part: &[u32], shift: u32) -> Result<(), NoMemory>
    requires { All (λ p. p + shift < 4294967296) part.now }
    ensures ok { OnOk result (all.new.items ≡ all.old.items ++ map (λ p. p + shift) part.now) }
    ensures err { OnErr result (all.new.items ≡ all.old.items) }
{
    all.reserve(part.len())?;
    for position in part {
        all.push_reserved(*position + shift);
    }
    Ok(())
}
