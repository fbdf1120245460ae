//! Why there are no rows.

use mt_base::NoMemory;

/// Why there are no rows.
#[derive(Clone, Copy, Debug, PartialEq, Eq, Drop)]
pub enum EvalError {
    /// There are more rows than there is room for.
    TooManyRows,
    /// There is no memory.
    NoMemory,
}

impl From<NoMemory> for EvalError {
    ghost use Rattle.std.specs.Prelude.{◌≡◌};
    ghost use Rattle.mt_rows.specs.declared.error.EvalError.TheVariants.{NoMemory as OutOfMemory};

    ghost from_gives = { λ _ error. error ≡ OutOfMemory };

    fn from(_: NoMemory) -> Self {
        EvalError::NoMemory
    }
}
