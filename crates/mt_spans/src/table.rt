//! The table of cases.

use mt_base::NoMemory;
use std::alloc::Global;

/// Texts, and what is asked of them.
#[derive(Drop)]
pub struct Case {
    /// What the case shows.
    pub title: String,
    /// The texts' verticals.
    pub texts: Vec<String>,
    /// Numbers of texts, rooms and a query, in one line each.
    pub asks: Vec<String>,
}

/// A registry and the cases under it.
#[derive(Drop)]
pub struct Table {
    /// The registry's file.
    pub registry: String,
    /// The cases.
    pub cases: Vec<Case>,
}

impl Table {
    /// The table of no lines.
    pub fn new(alloc: Global) -> Self {
        Table {
            registry: String::new(alloc),
            cases: Vec::new(alloc),
        }
    }

    /// Takes a line: a title, a line of the case that was begun last, or one of the registry before any case.
    pub fn take_line(&mut self, alloc: Global, line: &str) -> Result<(), NoMemory> {
        if let Some(title) = line.strip_prefix("=== ") {
            self.cases.push(Case {
                title: String::from_str(alloc, title)?,
                texts: Vec::new(alloc),
                asks: Vec::new(alloc),
            })?;
            return Ok(());
        }
        match self.cases.last_mut() {
            None => push_line(&mut self.registry, line),
            Some(case) => case.take_line(alloc, line),
        }
    }
}

impl Case {
    /// Takes a line: what is asked, the head of a text, or a line of the text that was begun last.
    fn take_line(&mut self, alloc: Global, line: &str) -> Result<(), NoMemory> {
        if let Some(ask) = line.strip_prefix("? ") {
            return Ok(self.asks.push(String::from_str(alloc, ask)?)?);
        }
        if line == "--- text" {
            return Ok(self.texts.push(String::new(alloc))?);
        }
        match self.texts.last_mut() {
            None => Ok(()),
            Some(text) => push_line(text, line),
        }
    }
}

/// Adds a line with its line feed.
fn push_line(lines: &mut String, line: &str) -> Result<(), NoMemory> {
    lines.push_str(line)?;
    lines.push('\n')?;
    Ok(())
}
