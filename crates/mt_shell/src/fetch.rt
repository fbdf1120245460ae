//! Reading a file of the shelf.

ghost use Rattle.std.specs.Prelude.{◌≡◌};
ghost use Rattle.mt_shell.specs.Sights.{Sees};
ghost use Rattle.mt_shell.specs.Outsides.{gains};
ghost use Rattle.mt_shell.specs.Fetches.{Finds, gained_of};

use super::edge::Edge;
use mt_base::List;
use mt_outside::{Loaded, ShelfError};
use std::alloc::Global;

/// The most bytes of a file.
const FILE_BYTES_LIMIT: u32 = 67_108_864;

/// What a command finds of a file.
#[derive(Drop)]
pub enum Fetched {
    /// Its bytes.
    Whole(List<u8>),
    /// There is no such file.
    Absent,
    /// It is too long.
    TooLong,
    /// The call failed.
    Failed,
    /// Memory was wanted.
    NoMemory,
}

/// The file of this name, read whole.
pub fn fetch<E: Edge>(alloc: Global, file: &str, edge: &mut E) -> Fetched
    ensures finds { Sees ((E.seen edge.old).files) (λ files. Finds files file.now result) }
    ensures gained { E.seen edge.new ≡ gains (E.seen edge.old) (gained_of file.now result) }
    ensures names { E.names edge.new ≡ E.names edge.old }
{
    let mut bytes = List::new(alloc);
    match edge.load(alloc, file, FILE_BYTES_LIMIT, &mut bytes) {
        Ok(Loaded::Whole) => Fetched::Whole(bytes),
        Ok(Loaded::Absent) => Fetched::Absent,
        Ok(Loaded::TooLong) => Fetched::TooLong,
        Err(ShelfError::Failed) => Fetched::Failed,
        Err(ShelfError::NoMemory) => Fetched::NoMemory,
    }
}
