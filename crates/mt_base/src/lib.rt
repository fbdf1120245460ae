//! Values, lists, registries, texts, spans and rows, lines and counters of steps: the small types of which the other crates are made. The limits of texts stand
//! here too (`limits`), and which bytes are an identifier (`words`).
//!
//! Contracts see a `Value` as its bytes, a `List` as the list of its items, `Strings` as the list of their bytes, `Tokens` as the record of `specs/Rows.antt`, a
//! `Registry`, a `Text`, a `StructSpan`, a `Span` and a `Row` as the records of `mt_text_spec`, `Lines` as the list of lines to come, and `Steps` as a number.
#![tactic(auto)]

pub mod limits;
mod lines;
mod list;
mod registry;
mod span;
mod steps;
mod strings;
mod text;
mod tokens;
mod value;
mod words;

pub use lines::Lines;
pub use list::List;
pub use registry::{Attr, Kind, Registry};
pub use span::{Row, Span};
use std::alloc::{AllocError, AllocFailed};
pub use steps::Steps;
pub use strings::Strings;
pub use text::{StructSpan, Text};
pub use tokens::Tokens;
pub use value::Value;
pub use words::{begins_identifier, identifier_len, is_identifier};

/// Out of memory: the one answer that any call which takes memory may give at any time.
#[derive(Clone, Copy, Debug, PartialEq, Eq, Drop)]
pub struct NoMemory;

impl From<AllocError> for NoMemory {
    fn from(_: AllocError) -> Self {
        NoMemory
    }
}

impl<T: Drop> From<AllocFailed<T>> for NoMemory {
    fn from(_: AllocFailed<T>) -> Self {
        NoMemory
    }
}

fn shared<T: Send + Sync>() {}

/// That threads may share values and lists of what threads may share is proved by this function.
pub fn are_shared<T: Send + Sync>() {
    shared::<Value>();
    shared::<List<T>>();
    shared::<List<Value>>();
    shared::<Registry>();
    shared::<Strings>();
    shared::<Tokens>();
    shared::<Text>();
    shared::<List<Row>>();
    shared::<NoMemory>();
}
