//! Commands as the table shows them: a query or a lemma in angle brackets, a body in square ones.

use mt_base::{List, Value};
use mt_script::{Ask, BatchLine, Command};
use std::alloc::{AllocError, Global};
use std::str;

fn show_body(body: &List<u8>) -> &str {
    match str::from_utf8(body.as_slice()) {
        Ok(text) => text,
        Err(_) => "?",
    }
}

fn show_ask(alloc: Global, ask: &Ask) -> Result<String, AllocError> {
    Ok(match ask {
        Ask::Count { cql } => format!(in alloc; "count <{}>", cql.as_str())?,
        Ask::Query { cql } => format!(in alloc; "query <{}>", cql.as_str())?,
        Ask::Freq { attr, offset, cql } => {
            format!(in alloc; "freq {} {offset} <{}>", attr.as_str(), cql.as_str())?
        }
        Ask::Colloc {
            attr,
            from,
            to,
            min,
            cql,
        } => format!(in alloc;
            "colloc {} {from} {to} {min} <{}>",
            attr.as_str(),
            cql.as_str()
        )?,
        Ask::Sketch { min, max, lemma } => {
            format!(in alloc; "sketch {min} {max} <{}>", lemma.as_str())?
        }
        Ask::Thes { max, lemma } => format!(in alloc; "thes {max} <{}>", lemma.as_str())?,
    })
}

fn show_batch(
    alloc: Global,
    lines: &List<BatchLine>,
    merge: Option<(u32, u32)>,
) -> Result<String, AllocError> {
    let mut shown = String::from_str(alloc, "batch")?;
    if let Some((from, to)) = merge {
        shown.push_str(format!(in alloc; " {from}-{to}")?.as_str())?;
    }
    for line in lines.as_slice() {
        shown.push_str("; ")?;
        match line {
            BatchLine::Good(ask) => shown.push_str(show_ask(alloc, ask)?.as_str())?,
            BatchLine::Bad => shown.push_str("bad")?,
        }
    }
    Ok(shown)
}

fn show_words(alloc: Global, words: &[&str]) -> Result<String, AllocError> {
    let mut shown = String::new(alloc);
    for (i, word) in words.iter().enumerate() {
        if i > 0 {
            shown.push(' ')?;
        }
        shown.push_str(word)?;
    }
    Ok(shown)
}

fn show_named(alloc: Global, word: &str, names: &[&Value]) -> Result<String, AllocError> {
    let mut shown = String::from_str(alloc, word)?;
    for name in names {
        shown.push(' ')?;
        shown.push_str(name.as_str())?;
    }
    Ok(shown)
}

/// A command as the table shows it.
pub fn show(alloc: Global, command: &Command) -> Result<String, AllocError> {
    Ok(match command {
        Command::Registry { file } => show_named(alloc, "registry", &[file])?,
        Command::Text { name, body } => {
            format!(in alloc; "text {} [{}]", name.as_str(), show_body(body))?
        }
        Command::Add { name, file } => show_named(alloc, "add", &[name, file])?,
        Command::Generate { name, seed, tokens } => {
            format!(in alloc; "generate {} {seed} {tokens}", name.as_str())?
        }
        Command::Ask(ask) => show_ask(alloc, ask)?,
        Command::Grammar { file } => show_named(alloc, "grammar", &[file])?,
        Command::Rules { body } => format!(in alloc; "rules [{}]", show_body(body))?,
        Command::Merge { from, to } => format!(in alloc; "merge {from} {to}")?,
        Command::Batch { lines, merge } => show_batch(alloc, lines, *merge)?,
        Command::Segments => show_words(alloc, &["segments"])?,
        Command::Save { name } => show_named(alloc, "save", &[name])?,
        Command::Load { name } => show_named(alloc, "open", &[name])?,
        Command::Quit => show_words(alloc, &["quit"])?,
        _ => show_late(alloc, command)?,
    })
}

fn show_late(alloc: Global, command: &Command) -> Result<String, AllocError> {
    Ok(match command {
        Command::Remove { name } => show_named(alloc, "remove", &[name])?,
        Command::Subcorpus { name, cql } => {
            format!(in alloc; "subcorpus {} <{}>", name.as_str(), cql.as_str())?
        }
        Command::Subcount { name, cql } => {
            format!(in alloc; "subcount {} <{}>", name.as_str(), cql.as_str())?
        }
        Command::Keywords { name, attr, n, max } => {
            format!(in alloc; "keywords {} {} {n} {max}", name.as_str(), attr.as_str())?
        }
        Command::Partner { name, kind } => show_named(alloc, "partner", &[name, kind])?,
        _ => show_words(alloc, &["?"])?,
    })
}
