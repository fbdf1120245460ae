//! Reads a table of query texts and of what they mean under the standard registry, where a bare string is a word, and says which mean otherwise.
//!
//! A row is a text, ` => ` and what it means: the printed text of a query, or `!` with the place and the cause of a refusal.
#![tactic(auto)]

use mt_base::Registry;
use mt_cql::{Cause, QueryError, parse, print};
use std::alloc::{AllocError, Global};
use std::io;
use std::io::{BufRead, BufReader};

fn main(rt: HostRuntime) -> io::Result<()> {
    let mut read = 0u64;
    let mut failed = 0u64;
    for row in BufReader::new(rt.alloc(), rt.stdin())?.lines(rt.alloc()) {
        let row = row?;
        let Some((text, wants)) = row.split_once(" => ") else {
            continue;
        };
        read = read.saturating_add(1);
        let is = meaning(rt.alloc(), text)?;
        if is.as_str() != wants {
            failed = failed.saturating_add(1);
            println!(rt; "means otherwise: {text} => {is}")?;
        }
    }
    if failed == 0 {
        println!(rt; "{read} texts mean what they should")?;
    }
    Ok(())
}

/// What a text means, as a row has it.
fn meaning(alloc: Global, text: &str) -> Result<String, AllocError> {
    match printed(alloc, text) {
        Ok(text) => Ok(text),
        Err(QueryError::Syntax { at, cause }) => {
            let cause = name(cause);
            format!(in alloc; "! {at} {cause}")
        }
        Err(QueryError::Unknown { at }) => format!(in alloc; "! {at} Unknown"),
        Err(QueryError::TooLarge) => String::from_str(alloc, "! TooLarge"),
        Err(QueryError::NoMemory) => Err(AllocError),
    }
}

/// The printed text of the query that a text is read as.
fn printed(alloc: Global, text: &str) -> Result<String, QueryError> {
    let Ok(registry) = Registry::standard(alloc) else {
        return Err(QueryError::NoMemory);
    };
    let query = parse(alloc, text, &registry, 0)?;
    let text = print(alloc, &query, &registry)?;
    match String::from_str(alloc, text.as_str()) {
        Ok(text) => Ok(text),
        Err(_) => Err(QueryError::NoMemory),
    }
}

/// A cause in a word.
fn name(cause: Cause) -> &'static str {
    match cause {
        Cause::Token => "Token",
        Cause::String => "String",
        Cause::Char => "Char",
        Cause::Range => "Range",
        Cause::Label => "Label",
    }
}
