//! Why there is no table of shapes.

use mt_base::NoMemory;

/// Why there is no table of shapes.
#[derive(Clone, Copy, Debug, Drop)]
pub(crate) enum Refused {
    /// There are too many shapes, or they take too many steps to find.
    TooManyShapes,
    /// There is no memory.
    NoMemory,
}

impl From<NoMemory> for Refused {
    fn from(_: NoMemory) -> Self {
        Refused::NoMemory
    }
}
