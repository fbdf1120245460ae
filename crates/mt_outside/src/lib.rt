//! Where bytes come from and go to and where files are kept, by traits, and each in memory, where chosen calls fail.
//!
//! An object may tell what it has: the bytes that a source has left or a sink holds, the files of a shelf. Clauses on
//! bytes and files hold where it does. A call of a source or a sink that fails raises its count of faults, or finds and
//! leaves it at its last value, and any other call leaves it. A shelf keeps the names at which calls failed.
//! Contracts see a `MemorySource` as a `Reading`, a `MemorySink` as a `Writing` and a `MemoryShelf` as a `Shelving`.
#![tactic(auto)]

mod calls;
mod memory_shelf;
mod shelf;
mod sink;
mod source;

pub use memory_shelf::MemoryShelf;
pub use shelf::{Loaded, Shelf, ShelfError};
pub use sink::{MemorySink, Sink, SinkError};
pub use source::{Failed, MemorySource, Source};

fn shared<T: Send + Sync>() {}

/// That threads may share sources, sinks and shelves in memory is proved by this function.
pub fn are_shared() {
    shared::<MemorySource>();
    shared::<MemorySink>();
    shared::<Failed>();
    shared::<SinkError>();
    shared::<MemoryShelf>();
    shared::<Loaded>();
    shared::<ShelfError>();
}
