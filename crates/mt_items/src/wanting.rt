//! One script read where memory runs out.
//!
//! Nothing but the reader takes memory here. Run with each of its allocations failing in turn, this shows that the reader goes on
//! after a refusal as if the call had not been made.

ghost use Rattle.std.specs.Prelude.{◌≡◌, false};

use mt_base::List;
use mt_script::{Ask, Command, Next, ScriptReader};
use std::alloc::Global;

/// The script, in pieces that end inside a word, a body and a batch. Its last line lacks its line feed.
const PIECES: [&[u8]; 4] = [
    b"regis",
    b"try r1\r\n# no\ntext a 2\nx\n",
    b"y\nbogus\nrules 1\nr\nbatch 2 merge 0 1\ncount c\nbad",
    b"\nfreq w -1 c\nbatch 2\nthes 3 d\nquery q",
];

/// What was seen of the script.
#[derive(Clone, Copy, Debug, PartialEq, Eq, Drop)]
pub struct Reading {
    /// How many items are those of the script.
    pub told: u32,
    /// How many are not.
    pub other: u32,
    /// How often memory ran out.
    pub wanted: u32,
}

impl Reading {
    /// Whether each item was given out once.
    pub fn is_whole(&self) -> bool {
        self.told == 8 && self.other == 0
    }
}

fn has_bytes(body: &List<u8>, bytes: &[u8]) -> bool {
    body.as_slice() == bytes
}

/// Whether the script has this item at this place, counted from 0. Behind the last one it ends.
fn is_item(place: u32, next: &Next) -> bool {
    match next {
        Next::Command(Command::Registry { file }) => place == 0 && file.as_str() == "r1",
        Next::Command(Command::Text { name, body }) => {
            place == 1 && name.as_str() == "a" && has_bytes(body, b"x\ny\n")
        }
        Next::Bad => place == 2,
        Next::Command(Command::Rules { body }) => place == 3 && has_bytes(body, b"r\n"),
        Next::Command(Command::Batch { lines, merge }) => {
            lines.len() == 2
                && (place == 4 && *merge == Some((0, 1)) || place == 6 && merge.is_none())
        }
        Next::Command(Command::Ask(Ask::Freq { attr, offset, cql })) => {
            place == 5 && attr.as_str() == "w" && *offset == -1 && cql.as_str() == "c"
        }
        Next::End => place == 7,
        _ => false,
    }
}

/// What comes next, asked again where memory ran out.
fn next_of_two(alloc: Global, reader: &mut ScriptReader, reading: &mut Reading) -> Next
    ensures { reader.new.ended ≡ reader.old.ended }
{
    match reader.next_command(alloc) {
        Next::NoMemory => {
            reading.wanted = reading.wanted.saturating_add(1);
            reader.next_command(alloc)
        }
        next => next,
    }
}

/// Takes what is given out until more is wanted, at most so many items.
fn take(alloc: Global, reader: &mut ScriptReader, reading: &mut Reading)
    ensures { reader.new.ended ≡ reader.old.ended }
{
    for _ in 0..8 {
        let next = next_of_two(alloc, reader, reading);
        if matches!(next, Next::More) {
            return;
        }
        if is_item(reading.told, &next) {
            reading.told = reading.told.saturating_add(1);
        } else {
            reading.other = reading.other.saturating_add(1);
        }
        if matches!(next, Next::End) {
            return;
        }
    }
}

/// Feeds a piece, again where memory ran out, and takes what is given out then.
fn give(alloc: Global, reader: &mut ScriptReader, piece: &[u8], reading: &mut Reading)
    requires { reader.old.ended ≡ false }
    ensures { reader.new.ended ≡ false }
{
    if reader.feed(piece).is_err() {
        reading.wanted = reading.wanted.saturating_add(1);
        if reader.feed(piece).is_err() {
            reading.other = reading.other.saturating_add(1);
        }
    }
    take(alloc, reader, reading)
}

/// Reads the script.
pub fn read(alloc: Global) -> Reading {
    let mut reading = Reading {
        told: 0,
        other: 0,
        wanted: 0,
    };
    let mut reader = ScriptReader::new(alloc);
    let [first, second, third, fourth] = PIECES;
    give(alloc, &mut reader, first, &mut reading);
    give(alloc, &mut reader, second, &mut reading);
    give(alloc, &mut reader, third, &mut reading);
    give(alloc, &mut reader, fourth, &mut reading);
    reader.end();
    take(alloc, &mut reader, &mut reading);
    reading
}
