//! What is so of all texts and all queries, whatever reads them: each text is one thing, a query or a refusal, and no other; a printed query is read as itself;
//! a query is valid exactly where some text is read as it. Each law is the contract of a function that does nothing, so that a crate that wants one calls it.
//!
//! `Machine`, `Exprs`, `Parts` and `Reading` say how a query can be read token by token, by states, and `answer_is_meant` that what is read so is what the
//! text means. A crate that reads queries meets these definitions, and has the law.
#![tactic(auto)]

mod contents;
mod meanings;
mod names;
mod printing;

pub use contents::{contents_are_few, parts_are_small, patterns_as_written};
pub use meanings::{answer_is_meant, one_meaning, one_reading, some_meaning};
pub use names::name_numbers;
pub use printing::{printed_is_read, read_is_valid, valid_where_read};
