//! The first line of a text and its value in a column, found by bits that mark tabs and line feeds.

ghost use Rattle.std.specs.Prelude.{◌≡◌, ℕ, ◌<◌, ◌≤◌, ◌∷◌, List, length, IfSome, IsTrue, option_map};
ghost use Rattle.std.specs.Str.Lines.{lines, strip_carriage_return};
ghost use Rattle.memchr.specs.Find.{IsFirst, IsFirstByte, Passes, is_byte};
ghost use Rattle.mt_vertical.specs.Columns.{column_in};
ghost use Rattle.mt_vertical.specs.Lines.{IsToken};
ghost use Rattle.mt_vertical_tables.specs.Marks.{AreMarks, AreTabs, BeginsWith, IsBehindColumn, IsFirstColumn, IsFirstValue, IsValue};

use memchr::memchr;
use mt_vertical::token_value;
use std::simd::prelude::*;

/// The places of so many bytes are marked at once.
const WIDTH: usize = 32;

/// The value in a column of the first line of a text, if that is a token, and what follows the line.
pub(crate) fn first_value(text: &str, column: usize) -> (Option<&str>, &str)
    requires { 0 < length text.now }
    ensures { IsFirstValue column text.now (option_map (λ value. value.now) result.0) result.1.now }
{
    let bytes = text.as_bytes();
    if bytes.len() < WIDTH {
        let (line, rest) = cut_line(text, memchr(b'\n', bytes));
        return (value_of(line, column), rest);
    }
    let tabs = marks_of(bytes, b'\t');
    let (line, rest) = cut_line(text, line_feed(bytes));
    (marked_value(line, tabs, column), rest)
}

/// The bits of those of the first 32 bytes that are this one.
fn marks_of(bytes: &[u8], byte: u8) -> u64
    requires { 32 ≤ length bytes.now }
    ensures { AreMarks byte bytes.now result }
{
    u8x32::from_slice(bytes)
        .simd_eq(u8x32::splat(byte))
        .to_bitmask()
}

/// The first marked place, if it is below an end.
fn first_mark(marks: u64, end: usize) -> Option<usize>
    requires { end ≤ 32 }
    ensures { (byte : ℕ) (bytes : List ℕ) → AreMarks byte bytes marks → end ≤ length bytes → IsFirst (Passes (is_byte byte) bytes) 0 end result }
{
    if marks == 0 {
        return None;
    }
    let place = marks.trailing_zeros() as usize;
    if place < end { Some(place) } else { None }
}

/// The place of the first line feed. Mostly it is near.
fn line_feed(bytes: &[u8]) -> Option<usize>
    requires { 32 ≤ length bytes.now }
    ensures { IsFirstByte (is_byte 10) bytes.now result }
{
    match first_mark(marks_of(bytes, b'\n'), WIDTH) {
        Some(place) => Some(place),
        None => memchr(b'\n', bytes),
    }
}

/// The first line of a text, whose first line feed is at this place, and what follows it.
fn cut_line(text: &str, feed: Option<usize>) -> (&str, &str)
    requires some { 0 < length text.now }
    requires feed { IsFirstByte (is_byte 10) text.now feed }
    ensures first { lines text.now ≡ result.0.now ∷ lines result.1.now }
    ensures begins { BeginsWith text.now result.0.now }
    ensures less { length result.1.now < length text.now }
{
    match feed {
        Some(place) => (without_return(&text[..place]), &text[place + 1..]),
        None => (text, ""),
    }
}

/// The line without a carriage return at its end.
fn without_return(line: &str) -> &str
    ensures { result.now ≡ strip_carriage_return line.now }
{
    match line.as_bytes().last() {
        Some(last) => {
            if *last == b'\r' {
                &line[..line.len() - 1]
            } else {
                line
            }
        }
        None => line,
    }
}

/// The value of a line in a column, if the line is a token. Its tabs are marked as far as the marks reach.
fn marked_value(line: &str, tabs: u64, column: usize) -> Option<&str>
    requires { AreMarks 9 line.now tabs }
    ensures { IsValue column line.now (option_map (λ value. value.now) result) }
{
    if line.len() <= WIDTH && begins_as_token(line) {
        if let Some(value) = marked_column(line, tabs, column) {
            return Some(value);
        }
    }
    value_of(line, column)
}

/// The value of a line in a column, if the line is a token.
fn value_of(line: &str, column: usize) -> Option<&str>
    ensures { IsValue column line.now (option_map (λ value. value.now) result) }
{
    token_value(line, column)
}

/// Whether the first byte alone shows that the line is a token. It does in most lines.
fn begins_as_token(line: &str) -> bool
    ensures { IsTrue result → IsToken line.now }
{
    match line.as_bytes().first() {
        Some(first) => *first != b' ' && *first != b'<',
        None => false,
    }
}

/// The column of a line with this number, if the line has so many.
fn marked_column(line: &str, tabs: u64, column: usize) -> Option<&str>
    requires { AreTabs line.now tabs }
    ensures { IfSome result (λ value. value.now ≡ column_in column line.now) }
{
    let mut rest = line;
    let mut marks = tabs;
    for _ in 0..column {
        let (others, other_marks) = behind_column(rest, marks)?;
        rest = others;
        marks = other_marks;
    }
    Some(first_column(rest, marks))
}

/// What follows the first tab, and its tabs.
fn behind_column(text: &str, tabs: u64) -> Option<(&str, u64)>
    requires { AreTabs text.now tabs }
    ensures { IfSome result (λ rest. IsBehindColumn text.now rest.0.now rest.1) }
{
    let place = first_mark(tabs, text.len())?;
    Some((&text[place + 1..], tabs >> (place + 1)))
}

/// What stands before the first tab.
fn first_column(text: &str, tabs: u64) -> &str
    requires { AreTabs text.now tabs }
    ensures { IsFirstColumn text.now result.now }
{
    match first_mark(tabs, text.len()) {
        Some(place) => &text[..place],
        None => text,
    }
}
