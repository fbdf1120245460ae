//! Why texts are not counted.

use mt_base::NoMemory;

/// Why texts are not counted.
#[derive(Clone, Copy, Debug, PartialEq, Eq, Drop)]
pub enum CountError {
    /// The head or an operand of some query has more than 4,194,304 rows in one of the texts alone, before filters and conditions.
    TooManyRows,
    /// There is no memory.
    NoMemory,
}

impl From<NoMemory> for CountError {
    ghost use Rattle.std.specs.Prelude.{◌≡◌};
    ghost use Rattle.mt_grammar_counts.specs.declared.error.CountError.TheVariants.{NoMemory as OutOfMemory};

    ghost from_gives = { λ _ error. error ≡ OutOfMemory };

    fn from(_: NoMemory) -> Self {
        CountError::NoMemory
    }
}
