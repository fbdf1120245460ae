//! A reader as a source, a writer as a sink and a folder as a shelf. They tell no bytes and no files to those that use them as such.

ghost use Rattle.std.specs.Prelude.{◌≡◌, ◌≢◌, ◌<◌, ◌≤◌, [], length, None, Some, Ok, Err, IfOk, OnOk, OnErr};
ghost use Rattle.std.specs.Io.KnownBytes.{ReadConsumes, WriteAppends};
ghost use Rattle.mt_outside.specs.Faults.{Rose, one_more};
ghost use Rattle.mt_outside.specs.Shelves.{Finds};
ghost use Rattle.mt_outside.specs.Told.{Told};
ghost use Rattle.mt_prog.specs.Blocks.{ReadsOn};

use mt_base::{List, Value};
use mt_outside::{Failed, Loaded, Shelf, ShelfError, Sink, SinkError, Source};
use std::alloc::Global;
use std::fs;
use std::fs::File;
use std::io::{ErrorKind, Read, Stdin, Stdout, Write};

#[cfg(test)]
mod tests;

/// The standard input.
pub type StdinSource = ReaderSource<Stdin>;

/// The standard output.
pub type StdoutSink = WriterSink<Stdout>;

/// A reader. A read that it refuses is a fault.
#[derive(Drop)]
pub struct ReaderSource<R> {
    reader: R,
    faults: u64,
}

impl<R: Read> ReaderSource<R> {
    /// No read has failed yet.
    pub fn new(reader: R) -> Self
        ensures { result ≡ record { reader = reader; faults = 0 } }
    {
        ReaderSource { reader, faults: 0 }
    }
}

impl<R: Read> Source for ReaderSource<R> {
    ghost faults = { λ s. s.faults };

    ghost left = { λ _. None };

    fn read(&mut self, buf: &mut [u8]) -> Result<usize, Failed>
        ensures within { IfOk result (λ n. n ≤ length buf.new) }
        ensures bytes { ReadConsumes (R.remaining self.old.reader) (R.remaining self.new.reader) result buf.new }
        ensures ok { OnOk result (self.new.faults ≡ self.old.faults) }
        ensures err { OnErr result (self.new.faults ≡ one_more self.old.faults) }
        ensures rises { self.old.faults ≤ self.new.faults }
        ensures failed { OnErr result (Rose self.old.faults self.new.faults) }
    {
        match self.reader.read(buf) {
            Ok(n) => Ok(n),
            Err(_) => {
                self.faults = self.faults.saturating_add(1);
                Err(Failed)
            }
        }
    }
}

/// A writer. A write that it refuses is a fault, and so is one that takes nothing of a piece that is not empty.
#[derive(Drop)]
pub struct WriterSink<W> {
    writer: W,
    faults: u64,
}

impl<W: Write> WriterSink<W> {
    /// No write has failed yet.
    pub fn new(writer: W) -> Self
        ensures { result ≡ record { writer = writer; faults = 0 } }
    {
        WriterSink { writer, faults: 0 }
    }
}

impl<W: Write> Sink for WriterSink<W> {
    ghost faults = { λ s. s.faults };

    ghost held = { λ _. None };

    fn write(&mut self, piece: &[u8]) -> Result<usize, SinkError>
        ensures within { IfOk result (λ n. n ≤ length piece.now) }
        ensures some { 0 < length piece.now → IfOk result (λ n. 0 < n) }
        ensures bytes { WriteAppends (W.contents self.old.writer) (W.contents self.new.writer) result piece.now }
        ensures ok { OnOk result (self.new.faults ≡ self.old.faults) }
        ensures err { OnErr result (self.new.faults ≡ one_more self.old.faults) }
        ensures memory { result ≢ Err SinkError.NoMemory }
        ensures rises { self.old.faults ≤ self.new.faults }
        ensures failed { OnErr result (Rose self.old.faults self.new.faults) }
    {
        match self.writer.write(piece) {
            Ok(n) if n > 0 || piece.is_empty() => Ok(n),
            _ => {
                self.faults = self.faults.saturating_add(1);
                Err(SinkError::Failed)
            }
        }
    }
}

/// The files of the folder in which the program starts. What files are read by is kept from one to the next, so that many small ones cost no memory.
#[derive(Drop)]
pub struct FolderShelf<'a> {
    rt: &'a HostRuntime,
    alloc: Global,
    failed: List<Value>,
    block: Vec<u8>,
}

impl<'a> FolderShelf<'a> {
    /// No call has failed yet.
    pub fn new(rt: &'a HostRuntime) -> Self
        ensures { result.failed ≡ [] }
    {
        let alloc = rt.alloc();
        FolderShelf {
            rt,
            alloc,
            failed: List::new(alloc),
            block: Vec::new(alloc),
        }
    }
}

impl Shelf for FolderShelf<'_> {
    ghost files = { λ _. None };

    ghost failed = { λ s. s.failed };

    fn load(
        &mut self,
        alloc: Global,
        name: &str,
        limit: u32,
        out: &mut List<u8>,
    ) -> Result<Loaded, ShelfError> {
        let failed = self.failed.len();
        self.failed.push(Value::new(alloc, name)?)?;
        let loaded = load_file(self.rt, name, limit, &mut self.block, out);
        if loaded != Err(ShelfError::Failed) {
            self.failed.truncate(failed);
        }
        loaded
    }

    fn store(&mut self, name: &str, bytes: &[u8]) -> Result<(), ShelfError> {
        let failed = self.failed.len();
        self.failed.push(Value::new(self.alloc, name)?)?;
        match fs::write(self.rt, name, bytes) {
            Ok(()) => {
                self.failed.truncate(failed);
                Ok(())
            }
            Err(_) => Err(ShelfError::Failed),
        }
    }
}

/// Reads the file of this name. One that is not there is no fault.
fn load_file(
    rt: &HostRuntime,
    name: &str,
    limit: u32,
    block: &mut Vec<u8>,
    out: &mut List<u8>,
) -> Result<Loaded, ShelfError>
    ensures { result ≡ Ok Loaded.Whole → length out.new ≤ limit }
{
    match File::open(rt, name) {
        Ok(mut file) => read_whole(&mut file, limit, block, out),
        Err(error) if error.kind() == ErrorKind::NotFound => Ok(Loaded::Absent),
        Err(_) => Err(ShelfError::Failed),
    }
}

/// How many bytes are read at once.
const BLOCK: usize = 262_144;

/// Reads to the end, or one byte more than the limit, by way of `block`, which takes memory only where it is not yet as large as is read at once.
fn read_whole<R: Read>(
    reader: &mut R,
    limit: u32,
    block: &mut Vec<u8>,
    out: &mut List<u8>,
) -> Result<Loaded, ShelfError>
    ensures within { result ≡ Ok Loaded.Whole → length out.new ≤ limit }
    ensures told { IfOk result (λ loaded. Told (R.remaining reader.old) (λ all.
        Finds (Some all) limit out.new loaded)) }
{
    let Ok(()) = block.resize(BLOCK, 0) else {
        return Err(ShelfError::NoMemory);
    };
    out.truncate(0);
    let mut room = limit as usize + 1;
    while room > 0 {
        match read_block(reader, block, room.min(BLOCK), out)? {
            0 => return Ok(Loaded::Whole),
            n => room -= n,
        }
    }
    Ok(Loaded::TooLong)
}

/// Reads up to so many bytes once, behind what is there, by way of `block`, and answers how many.
fn read_block<R: Read>(
    reader: &mut R,
    block: &mut [u8],
    most: usize,
    out: &mut List<u8>,
) -> Result<usize, ShelfError>
    requires some { 0 < most }
    requires room { most ≤ length block.old }
    ensures within { IfOk result (λ n. n ≤ most) }
    ensures block { length block.new ≡ length block.old }
    ensures read { IfOk result (λ n. ReadsOn (R.remaining reader.old) (R.remaining reader.new) n out.old out.new) }
{
    match reader.read(&mut block[..most]) {
        Ok(n) => {
            out.extend(&block[..n])?;
            Ok(n)
        }
        Err(_) => Err(ShelfError::Failed),
    }
}
