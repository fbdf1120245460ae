//! Why no tables are made.

use mt_base::NoMemory;
use mt_vertical::TextError;
use std::alloc::AllocError;

/// Why no tables are made.
#[derive(Debug, Drop)]
pub(crate) enum Unmade {
    /// A line has a cause to refuse the text, or may have one, or this is not the way to read it.
    Refused,
    /// There was not enough memory. This says nothing of the bytes.
    NoMemory,
}

impl From<NoMemory> for Unmade {
    fn from(_: NoMemory) -> Self {
        Unmade::NoMemory
    }
}

impl From<AllocError> for Unmade {
    fn from(_: AllocError) -> Self {
        Unmade::NoMemory
    }
}

impl From<TextError> for Unmade {
    fn from(error: TextError) -> Self {
        match error {
            TextError::Bad(_) => Unmade::Refused,
            TextError::NoMemory => Unmade::NoMemory,
        }
    }
}
