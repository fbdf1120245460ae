//! Reads a table of scripts and their items, cuts each script at every place, and says which are read otherwise. A long script is cut
//! at about a hundred places and near its end. One script is read before with no memory taken but the reader's.
//!
//! A row is a script, ` => ` and its items, each with a `|` behind it. In a row `$` stands for a line feed, `^` for a carriage return, `%` for
//! the byte FF and `&` for 65,530 letters.
#![tactic(auto)]

ghost use Rattle.std.specs.Prelude.{◌≡◌, false};

mod show;
mod wanting;

use mt_script::{Next, ScriptReader};
use show::show;
use std::alloc::{AllocError, Global};
use std::io;
use std::io::{BufRead, BufReader};

fn main(rt: HostRuntime) -> io::Result<()> {
    let reading = wanting::read(rt.alloc());
    if reading.is_whole() {
        println!(rt;
            "one script is read whole where memory ran out {} times",
            reading.wanted
        )?;
    }
    check_table(&rt)
}

/// Says which rows of the table are read otherwise.
fn check_table(rt: &HostRuntime) -> io::Result<()> {
    let mut read = 0u64;
    let mut failed = 0u64;
    for row in BufReader::new(rt.alloc(), rt.stdin())?.lines(rt.alloc()) {
        let row = row?;
        let Some((script, wants)) = row.split_once(" => ") else {
            continue;
        };
        read = read.saturating_add(1);
        if !is_read(rt.alloc(), script, wants)? {
            failed = failed.saturating_add(1);
            println!(rt; "read otherwise: {row}")?;
        }
    }
    if failed == 0 {
        println!(rt; "{read} scripts, cut at every place, are their items")?;
    }
    Ok(())
}

/// Whether the script has these items, wherever it is cut.
fn is_read(alloc: Global, script: &str, wants: &str) -> Result<bool, AllocError> {
    let script = bytes_of(alloc, script)?;
    let wants = bytes_of(alloc, wants)?;
    let apart = script.len() / 100;
    for at in 0..=script.len() {
        if apart > 1 && at % apart != 0 && script.len() - at > 4 {
            continue;
        }
        let (front, back) = script.split_at(at);
        if items(alloc, front, back)?.as_bytes() != wants.as_slice() {
            return Ok(false);
        }
    }
    Ok(true)
}

/// What is given out until more bytes are wanted or the input has ended, each item with a `|` behind it.
fn drain(alloc: Global, reader: &mut ScriptReader, shown: &mut String) -> Result<(), AllocError>
    ensures { reader.new.ended ≡ reader.old.ended }
{
    for _ in 0..1000 {
        match reader.next_command(alloc) {
            Next::Command(command) => shown.push_str(show(alloc, &command)?.as_str())?,
            Next::Bad => shown.push_str("bad")?,
            Next::CutShort => shown.push_str("cut short")?,
            Next::NoMemory => shown.push_str("no memory")?,
            Next::More | Next::End => return Ok(()),
        }
        shown.push('|')?;
    }
    Ok(())
}

/// Feeds one piece, and shows what is given out then.
fn give(
    alloc: Global,
    reader: &mut ScriptReader,
    piece: &[u8],
    shown: &mut String,
) -> Result<(), AllocError>
    requires { reader.old.ended ≡ false }
    ensures { reader.new.ended ≡ false }
{
    if reader.feed(piece).is_err() {
        return shown.push_str("no memory");
    }
    drain(alloc, reader, shown)
}

/// Shows the items of a script that comes in these two pieces.
fn show_items(
    alloc: Global,
    front: &[u8],
    back: &[u8],
    shown: &mut String,
) -> Result<(), AllocError> {
    let mut reader = ScriptReader::new(alloc);
    give(alloc, &mut reader, front, shown)?;
    give(alloc, &mut reader, back, shown)?;
    reader.end();
    drain(alloc, &mut reader, shown)
}

/// The items of a script that comes in these two pieces.
fn items(alloc: Global, front: &[u8], back: &[u8]) -> Result<String, AllocError> {
    let mut shown = String::new(alloc);
    show_items(alloc, front, back, &mut shown)?;
    Ok(shown)
}

/// The bytes that a row of the table stands for.
fn bytes_of(alloc: Global, row: &str) -> Result<Vec<u8>, AllocError> {
    let mut bytes = Vec::with_capacity(alloc, row.len())?;
    for b in row.as_bytes() {
        match *b {
            b'$' => bytes.push(b'\n')?,
            b'^' => bytes.push(b'\r')?,
            b'%' => bytes.push(0xff)?,
            b'&' => push_letters(&mut bytes)?,
            other => bytes.push(other)?,
        }
    }
    Ok(bytes)
}

/// Adds so many letters that `count ` before them makes the longest command line.
fn push_letters(bytes: &mut Vec<u8>) -> Result<(), AllocError> {
    for _ in 0..65_530 {
        bytes.push(b'a')?;
    }
    Ok(())
}
