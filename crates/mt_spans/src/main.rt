//! Prints the rows that queries keep in small texts.
//!
//! The table is a registry and cases. A case is a line `=== ` with its title, behind each line `--- text` the lines of a text, and lines `? ` with what is
//! asked: numbers of texts, rooms, and a query. The rooms are those of the head and of the operands from left to right, and 99 where none is given.
//! For each query the program prints a line: the query, the rows that it keeps, and what is left of the rooms. A row is the text's number, begin and end,
//! and the places of the labels that are set.
#![tactic(auto)]

mod asked;
mod corpus;
mod show;
mod table;

use mt_base::NoMemory;
use std::io;
use std::io::{BufRead, BufReader};
use table::Table;

fn main(rt: HostRuntime) -> io::Result<()> {
    let mut table = Table::new(rt.alloc());
    for line in BufReader::new(rt.alloc(), rt.stdin())?.lines(rt.alloc()) {
        if table.take_line(rt.alloc(), line?.as_str()).is_err() {
            return println!(rt; "out of memory");
        }
    }
    match show::answers(&rt, rt.alloc(), &table) {
        Ok(text) => print!(rt; "{text}"),
        Err(NoMemory) => println!(rt; "out of memory"),
    }
}
