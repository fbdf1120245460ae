//! The table of grammars.

use mt_base::NoMemory;
use std::alloc::Global;

/// A grammar of the table.
#[derive(Drop)]
pub struct Case {
    /// What the grammar shows.
    pub title: String,
    /// Its file.
    pub bytes: Vec<u8>,
}

/// Takes a row of the table: a title, or lines of the grammar that was begun last.
pub fn take_row(alloc: Global, cases: &mut Vec<Case>, row: &str) -> Result<(), NoMemory> {
    if let Some(title) = row.strip_prefix("=== ") {
        cases.push(Case {
            title: String::from_str(alloc, title)?,
            bytes: Vec::new(alloc),
        })?;
        return Ok(());
    }
    match cases.last_mut() {
        None => Ok(()),
        Some(case) => add_row(&mut case.bytes, row),
    }
}

/// Adds the lines of a row.
fn add_row(bytes: &mut Vec<u8>, row: &str) -> Result<(), NoMemory> {
    if let Some(line) = row.strip_prefix("--- ") {
        return add_text(bytes, line);
    }
    match repeated(row) {
        Some((count, line)) => add_lines(bytes, count, line),
        None => add_lines(bytes, 1, row),
    }
}

/// The number and the line of a row that stands for many.
fn repeated(row: &str) -> Option<(u16, &str)> {
    let (count, line) = row.strip_prefix("+++ ")?.split_once(' ')?;
    match count.parse::<u16>() {
        Ok(count) => Some((count, line)),
        Err(_) => None,
    }
}

/// Adds so many times a line with its line feed.
fn add_lines(bytes: &mut Vec<u8>, count: u16, line: &str) -> Result<(), NoMemory> {
    for _ in 0..count {
        add_text(bytes, line)?;
        bytes.push(b'\n')?;
    }
    Ok(())
}

/// Adds the bytes that a text of the table stands for.
fn add_text(bytes: &mut Vec<u8>, text: &str) -> Result<(), NoMemory> {
    for b in text.as_bytes() {
        match *b {
            b'^' => bytes.push(b'\r')?,
            b'~' => bytes.push(0xff)?,
            other => bytes.push(other)?,
        }
    }
    Ok(())
}
