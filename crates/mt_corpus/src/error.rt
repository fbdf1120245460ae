//! Why a text is not added or removed.

use mt_base::NoMemory;

/// Why a text is not added.
#[derive(Clone, Copy, Debug, PartialEq, Eq, Drop)]
pub enum AddError {
    /// A text of the corpus has its name.
    NameTaken,
    /// There is no room for it: removed texts take room too.
    CorpusFull,
    /// There is no memory.
    NoMemory,
}

impl From<NoMemory> for AddError {
    ghost use Rattle.std.specs.Prelude.{◌≡◌};
    ghost use Rattle.mt_corpus.specs.declared.error.AddError.TheVariants.{NoMemory as OutOfMemory};

    ghost from_gives = { λ _ error. error ≡ OutOfMemory };

    fn from(_: NoMemory) -> Self {
        AddError::NoMemory
    }
}

/// No text of the corpus has the name.
#[derive(Clone, Copy, Debug, PartialEq, Eq, Drop)]
pub struct NoSuchText;
