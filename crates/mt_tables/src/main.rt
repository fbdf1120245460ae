//! Prints the tables of segments of small texts.
//!
//! A case is a line `=== ` with its title, the lines of a registry, and behind each line `--- text` the lines of a text. The texts are named by the first
//! letters. For each case the program prints a line a text with its bounds; a line an attribute with its values, one with the number at each place, one
//! with the places of each value, and for a mapped one the table; and a line a kind of structure with its instances. The last segment is put together of its
//! tables.
#![tactic(auto)]

mod case;
mod corpus;
mod joined;
mod show;

use case::take_line;
use mt_base::NoMemory;
use std::io;
use std::io::{BufRead, BufReader};

fn main(rt: HostRuntime) -> io::Result<()> {
    let mut cases = Vec::new(rt.alloc());
    for line in BufReader::new(rt.alloc(), rt.stdin())?.lines(rt.alloc()) {
        if take_line(rt.alloc(), &mut cases, line?.as_str()).is_err() {
            return println!(rt; "out of memory");
        }
    }
    match show::cases(&rt, rt.alloc(), cases.as_slice()) {
        Ok(text) => print!(rt; "{text}"),
        Err(NoMemory) => println!(rt; "out of memory"),
    }
}
