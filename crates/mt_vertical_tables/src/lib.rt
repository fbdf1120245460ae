//! The segment of a large or a small text, made from the bytes of its vertical.
//!
//! Where no attribute is mapped, each column of a large vertical is numbered by two threads, which go over half of the lines each and look at no other column, and the
//! structures are read by one more. Of a small vertical the values stay where its bytes are, and those of each column are sorted. So no text is made of whose values the tables
//! are made again. Whatever has a cause to refuse the bytes is left to the reader of texts: no tables are made then.
#![tactic(auto)]

mod columns;
mod few;
mod halves;
mod known;
mod lines;
mod marked;
mod numbered;
mod numbering;
mod outline;
mod segment;
mod unmade;

pub use segment::read_tables;
