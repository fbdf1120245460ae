//! The script reader: the commands of a script, in whatever pieces its bytes come.
#![tactic(auto)]

mod asks;
mod command;
mod header;
mod heads;
mod keyword;
mod laws;
mod lines;
mod reader;
mod scan;
mod words;

pub use command::{Ask, BatchLine, Command, Next};
pub use laws::{one_header, one_reading};
pub use reader::ScriptReader;
