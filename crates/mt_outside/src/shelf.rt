//! Where files are kept.

ghost use Rattle.std.specs.Prelude.{◌≡◌, ℕ, ◌≤◌, ◌∷◌, [], ◌++◌, List as Items, length, Option, Some, None, Contains, IfOk, OnOk, OnErr, IsErr, IsErrOf, option_copied};
ghost use Rattle.mt_shelf_spec.specs.Files.{Files, no_files, with_file};
ghost use Rattle.mt_outside.specs.Memory.{next_call};
ghost use Rattle.mt_outside.specs.Shelves.{Finds, LosesOne};
ghost use Rattle.mt_outside.specs.Told.{Told};

use mt_base::{List, NoMemory};
use std::alloc::Global;

/// What a load found under a name.
#[derive(Clone, Copy, Debug, PartialEq, Eq, Drop)]
pub enum Loaded {
    /// A file, which was read whole.
    Whole,
    /// No file.
    Absent,
    /// A file that is longer than the limit.
    TooLong,
}

/// Why a call of a shelf did not happen.
#[derive(Clone, Copy, Debug, PartialEq, Eq, Drop)]
pub enum ShelfError {
    /// It failed.
    Failed,
    /// There was no memory for it.
    NoMemory,
}

impl From<NoMemory> for ShelfError {
    ghost use Rattle.std.specs.Prelude.{◌≡◌};
    ghost use Rattle.mt_outside.specs.declared.shelf.ShelfError.TheVariants.{NoMemory as OutOfMemory};

    ghost from_gives = { λ _ e. e ≡ OutOfMemory };

    fn from(_: NoMemory) -> Self {
        ShelfError::NoMemory
    }
}

/// Where files are kept, by name. A shelf that does not tell its files promises nothing of them.
pub trait Shelf {
    /// The files that are kept, where the object tells them.
    ghost files: { Self → Option Files };

    /// The names at which calls failed, in order. Their number is the shelf's count of faults.
    ghost failed: { Self → Items (Items ℕ) };

    /// Reads the file of this name into `out`, in place of what is there, where it has at most `limit` bytes. After any
    /// answer but `Whole` nothing is known of `out`.
    fn load(
        &mut self,
        alloc: Global,
        name: &str,
        limit: u32,
        out: &mut List<u8>,
    ) -> Result<Loaded, ShelfError>
        ensures within { result ≡ Ok Loaded.Whole → length out.new ≤ limit }
        ensures told { IfOk result (λ loaded. Told (files self.old) (λ all.
            Finds (all name.now) limit out.new loaded)) }
        ensures files { files self.new ≡ files self.old }
        ensures ok { OnOk result (failed self.new ≡ failed self.old) }
        ensures no_memory { IsErrOf result ShelfError.NoMemory → failed self.new ≡ failed self.old }
        ensures failed { IsErrOf result ShelfError.Failed → failed self.new ≡ failed self.old ++ name.now ∷ [] };

    /// Puts these bytes under this name, in place of what is there.
    fn store(&mut self, name: &str, bytes: &[u8]) -> Result<(), ShelfError>
        ensures told { OnOk result (Told (files self.old) (λ all.
            files self.new ≡ Some (with_file all name.now bytes.now))) }
        ensures lost { OnErr result (Told (files self.old) (λ all.
            LosesOne name.now all (files self.new))) }
        ensures ok { OnOk result (failed self.new ≡ failed self.old) }
        ensures no_memory { IsErrOf result ShelfError.NoMemory → failed self.new ≡ failed self.old }
        ensures failed { IsErrOf result ShelfError.Failed → failed self.new ≡ failed self.old ++ name.now ∷ [] };
}
