//! The lines of a file, a body or any bytes.

ghost use Rattle.std.specs.Prelude.{◌≡◌, ◌<◌, ◌≤◌, ℕ, ◌∷◌, List, length};
ghost use Rattle.std.specs.Iterator.{YieldsFirstRef, item_count};
ghost use Rattle.std.specs.Str.Lines.{lines, strip_carriage_return};

use memchr::memchr;
use std::marker::Model;

/// The lines of a file, a body or any bytes, first to last, seen as the list of lines that are still to come.
///
/// A line ends at a line feed, and one carriage return directly before that line feed is no part of it. What follows the last line
/// feed is a line where it is not empty, and keeps a carriage return. These are the lines of Rust's `str::lines`, of bytes that need
/// not be UTF-8. No memory is taken.
#[derive(Debug, Drop)]
pub struct Lines<'a> {
    rest: &'a [u8],
}

impl<'a> Model for Lines<'a> {
    ghost Value = { List (List ℕ) };

    ghost view = { λ l. lines l.rest.now };
}

impl<'a> Lines<'a> {
    /// The lines of these bytes.
    pub fn new(bytes: &'a [u8]) -> Self
        ensures value { result ≡ lines bytes.now }
        ensures count { length result ≤ length bytes.now }
    {
        Lines { rest: bytes }
    }
}

impl<'a> Iterator for Lines<'a> {
    type Item = &'a [u8];

    ghost next_gives = { YieldsFirstRef (λ l. l) };

    ghost remaining = { item_count (λ l. l) };

    fn next(&mut self) -> Option<&'a [u8]> {
        if self.rest.is_empty() {
            return None;
        }
        let (line, rest) = split_first_line(self.rest);
        self.rest = rest;
        Some(line)
    }
}

/// The first line, and what follows its line feed.
fn split_first_line<'a>(bytes: &'a [u8]) -> (&'a [u8], &'a [u8])
    requires { 0 < length bytes.now }
    ensures { lines bytes.now ≡ result.0.now ∷ lines result.1.now }
{
    match memchr(b'\n', bytes) {
        Some(at) => (without_return(&bytes[..at]), &bytes[at + 1..]),
        None => (bytes, &bytes[bytes.len()..]),
    }
}

/// The bytes, less the one carriage return at their end, if they have one.
fn without_return<'a>(line: &'a [u8]) -> &'a [u8]
    ensures { result.now ≡ strip_carriage_return line.now }
{
    match line.split_last() {
        Some((b'\r', front)) => front,
        _ => line,
    }
}
