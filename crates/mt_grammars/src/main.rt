//! Reads a table of sketch grammars, and prints what each is read as under the standard registry: its relations and their queries, or why it is refused.
//!
//! A row `=== ` with a title begins a grammar, and the rows behind it are its lines. In these `^` stands for a carriage return and `~` for the byte FF; the row
//! `+++ ` with a number and a line stands for so many of it, and the row `--- ` with a line for one without a line feed. Of a relation the first queries are printed.
#![tactic(auto)]

mod show;
mod table;

use mt_base::NoMemory;
use std::io;
use std::io::{BufRead, BufReader};
use table::take_row;

fn main(rt: HostRuntime) -> io::Result<()> {
    let mut cases = Vec::new(rt.alloc());
    for row in BufReader::new(rt.alloc(), rt.stdin())?.lines(rt.alloc()) {
        if take_row(rt.alloc(), &mut cases, row?.as_str()).is_err() {
            return println!(rt; "out of memory");
        }
    }
    match show::cases(rt.alloc(), cases.as_slice()) {
        Ok(text) => print!(rt; "{text}"),
        Err(NoMemory) => println!(rt; "out of memory"),
    }
}
