//! Cases: a registry and texts.

use mt_base::NoMemory;
use std::alloc::Global;

/// The lines of a registry and those of each text.
#[derive(Drop)]
pub struct Case {
    /// What the case shows.
    pub title: String,
    /// The registry's file.
    pub registry: String,
    /// The texts' verticals.
    pub texts: Vec<String>,
}

/// Takes a line of the table: a title, the head of a text, or a line of the registry or text that was begun last.
pub fn take_line(alloc: Global, cases: &mut Vec<Case>, line: &str) -> Result<(), NoMemory> {
    if let Some(title) = line.strip_prefix("=== ") {
        cases.push(Case {
            title: String::from_str(alloc, title)?,
            registry: String::new(alloc),
            texts: Vec::new(alloc),
        })?;
        return Ok(());
    }
    match cases.last_mut() {
        None => Ok(()),
        Some(case) if line == "--- text" => Ok(case.texts.push(String::new(alloc))?),
        Some(case) => add_line(case, line),
    }
}

/// Adds a line to the last text, or to the registry where no text is begun.
fn add_line(case: &mut Case, line: &str) -> Result<(), NoMemory> {
    match case.texts.last_mut() {
        None => push_line(&mut case.registry, line),
        Some(text) => push_line(text, line),
    }
}

/// Adds a line with its line feed.
fn push_line(lines: &mut String, line: &str) -> Result<(), NoMemory> {
    lines.push_str(line)?;
    lines.push('\n')?;
    Ok(())
}
