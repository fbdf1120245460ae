//! Long posting lists, kept as their codes.

ghost use Rattle.std.specs.Prelude.{◌≡◌, ℕ, ◌+◌, ◌*◌, ◌%◌, ◌<◌, ◌≤◌, List as Items, [], ◌∷◌, ◌++◌, length, drop, vec_len, vec_capacity, IfOk, OnOk, OnErr};
ghost use Rattle.mt_store_spec.specs.Positions.{ArePositions, next_least, codes, IsCode};
ghost use Rattle.mt_postings.specs.Following.{Follow};
ghost use Rattle.mt_postings.specs.Kept.{IsEnd, AreEntries};
ghost use Rattle.mt_postings.specs.declared.coded.Entry.{Entry};

use super::places::Places;
use super::writer::BitWriter;
use mt_base::NoMemory;
use std::alloc::Global;
use std::marker::Model;

/// The position at each 128th place, and the bit at which its code ends.
#[derive(Clone, Copy, Debug, Drop)]
pub(crate) struct Entry {
    pub(crate) position: u32,
    pub(crate) bit: u64,
}

/// Where positions end: how many they are, the least that may follow, and the bit at which its code begins.
#[derive(Clone, Copy, Debug, Drop)]
pub(crate) struct End {
    count: u32,
    least: u32,
    bit: u64,
}

/// A list that is kept as its code, with an entry for each 128th position.
#[derive(Debug, Drop)]
pub(crate) struct Coded {
    bytes: Vec<u8>,
    entries: Vec<Entry>,
    end: End,
}

impl Model for Coded {
    ghost use Rattle.std.specs.Prelude.{ℕ, List};
    ghost use Rattle.mt_store_spec.specs.Codes.{bits};
    ghost use Rattle.mt_postings.specs.Kept.{positions_in, IsKept};

    ghost Value = { List ℕ };

    ghost view = { λ c. positions_in c.end.count 0 (bits c.bytes.items) };

    ghost invariant = { λ c. IsKept (positions_in c.end.count 0 (bits c.bytes.items)) c.bytes.items c.entries.items
        c.end.count c.end.least c.end.bit };
}

/// Adds an entry where the position that was passed last is a 128th.
fn note(entries: &mut Vec<Entry>, end: &End) -> Result<(), NoMemory>
    requires { 1 ≤ end.now.least }
    ensures { OnOk result ((ps run : Items ℕ) (before : Items Entry) → 1 ≤ length run → length ps % 128 + length run ≤ 128 →
        IsEnd (ps ++ run) end.now.count end.now.least end.now.bit →
        AreEntries ps (before ++ entries.old.items) → AreEntries (ps ++ run) (before ++ entries.new.items)) }
{
    if end.count % 128 == 0 {
        entries.push(Entry {
            position: end.least - 1,
            bit: end.bit,
        })?;
    }
    Ok(())
}

/// Writes the codes of positions that follow others.
fn write_run(writer: &mut BitWriter, end: &mut End, run: &[u32]) -> Result<(), NoMemory>
    requires follow { Follow end.old.least run.now }
    requires few { end.old.count + length run.now < 4294967296 }
    requires short { end.old.bit + 42 * length run.now < 18446744073709551616 }
    ensures written { OnOk result (writer.new ≡ writer.old ++ codes end.old.least run.now) }
    ensures count { OnOk result (end.new.count ≡ end.old.count + length run.now) }
    ensures least { OnOk result (end.new.least ≡ next_least end.old.least run.now) }
    ensures bit { OnOk result (end.new.bit ≡ end.old.bit + length (codes end.old.least run.now)) }
    ensures most { OnOk result (end.new.bit ≤ end.old.bit + 42 * length run.now) }
{
    let (least, bits) = writer.put_gaps(end.least, run)?;
    end.count += run.len() as u32;
    end.least = least;
    end.bit += bits;
    Ok(())
}

/// How many of so many positions come up to the next 128th.
fn run_len(count: u32, left: usize) -> usize
    requires { 1 ≤ left }
    ensures some { 1 ≤ result }
    ensures within { result ≤ left }
    ensures up_to { count % 128 + result ≤ 128 }
{
    left.min((128 - count % 128) as usize)
}

/// Writes the codes of positions that follow others, and gives their entries.
fn write(
    alloc: Global,
    writer: &mut BitWriter,
    end: &mut End,
    more: &[u32],
) -> Result<Vec<Entry>, NoMemory>
    requires follow { Follow end.old.least more.now }
    requires few { end.old.count + length more.now < 4294967296 }
    requires short { end.old.bit ≤ 17179869180 }
    ensures written { OnOk result (writer.new ≡ writer.old ++ codes end.old.least more.now) }
    ensures ends { OnOk result ((ps : Items ℕ) → IsEnd ps end.old.count end.old.least end.old.bit →
        IsEnd (ps ++ more.now) end.new.count end.new.least end.new.bit) }
    ensures entries { IfOk result (λ entries. (ps : Items ℕ) (before : Items Entry) → IsEnd ps end.old.count end.old.least end.old.bit →
        AreEntries ps before → AreEntries (ps ++ more.now) (before ++ entries.items)) }
{
    let mut entries = Vec::new(alloc);
    let mut rest = more;
    while !rest.is_empty() {
        let (run, later) = rest.split_at(run_len(end.count, rest.len()));
        write_run(writer, end, run)?;
        note(&mut entries, end)?;
        rest = later;
    }
    Ok(entries)
}

/// The bytes from one on.
fn from_byte(bytes: &[u8], from: usize) -> &[u8]
    requires { from ≤ length bytes.now }
    ensures { result.now ≡ drop from bytes.now }
{
    &bytes[from..]
}

/// Adds items at the end, for which there is room.
fn put_all<T: Copy>(all: &mut Vec<T>, more: &[T])
    requires { vec_len all.old + length more.now ≤ vec_capacity all.old }
    ensures { all.new.items ≡ all.old.items ++ more.now }
{
    match all.extend_from_slice(more) {
        Ok(()) => {}
        Err(_) => unreachable!(),
    }
}

impl Coded {
    /// The list of these positions.
    pub(crate) fn from_slice(alloc: Global, positions: &[u32]) -> Result<Self, NoMemory>
        requires { ArePositions positions.now }
        ensures { IfOk result (λ c. c ≡ positions.now) }
    {
        let mut coded = Coded {
            bytes: Vec::new(alloc),
            entries: Vec::new(alloc),
            end: End {
                count: 0,
                least: 0,
                bit: 0,
            },
        };
        coded.append(alloc, positions)?;
        Ok(coded)
    }

    /// How many positions there are.
    pub(crate) fn len(&self) -> u32
        ensures count { result ≡ length self.now }
        ensures valid { ArePositions self.now }
    {
        self.end.count
    }

    /// The code.
    pub(crate) fn code(&self) -> &[u8]
        ensures code { IsCode result.now self.now }
        ensures short { length result.now < 4294967296 }
    {
        self.bytes.as_slice()
    }

    /// A reader before the first position.
    pub(crate) fn places(&self) -> Places<'_>
        ensures all { result ≡ self.now }
        ensures valid { ArePositions self.now }
    {
        Places::new(
            self.bytes.as_slice(),
            self.entries.as_slice(),
            self.end.count,
        )
    }

    /// Adds positions at the end. Without memory nothing changes.
    pub(crate) fn append(&mut self, alloc: Global, more: &[u32]) -> Result<(), NoMemory>
        requires { ArePositions (self.old ++ more.now) }
        ensures ok { OnOk result (self.new ≡ self.old ++ more.now) }
        ensures err { OnErr result (self.new ≡ self.old) }
    {
        let whole = (self.end.bit / 8) as usize;
        let mut writer = BitWriter::after(
            alloc,
            from_byte(self.bytes.as_slice(), whole),
            (self.end.bit % 8) as u32,
        )?;
        let mut end = self.end;
        let entries = write(alloc, &mut writer, &mut end, more)?;
        let tail = writer.finish();
        self.bytes.reserve(tail.len())?;
        self.entries.reserve(entries.len())?;
        self.bytes.truncate(whole);
        put_all(&mut self.bytes, tail.as_slice());
        put_all(&mut self.entries, entries.as_slice());
        self.end = end;
        Ok(())
    }

    /// Adds the positions at the end of others. Without memory these stay as they are.
    pub(crate) fn push_to(&self, all: &mut Vec<u32>) -> Result<(), NoMemory>
        ensures ok { OnOk result (all.new.items ≡ all.old.items ++ self.now) }
        ensures err { OnErr result (all.new.items ≡ all.old.items) }
    {
        all.reserve(self.end.count as usize)?;
        push_all(self.places(), all);
        Ok(())
    }
}

/// Adds the positions that are left at the end of others, where there is room.
fn push_all(mut places: Places<'_>, all: &mut Vec<u32>)
    requires { vec_len all.old + length places ≤ vec_capacity all.old }
    ensures { all.new.items ≡ all.old.items ++ places.entry }
{
    while let Some(position) = places.next() {
        all.push_reserved(position);
    }
}
