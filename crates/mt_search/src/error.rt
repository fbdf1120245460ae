//! Why the rows of a query are not told.

use mt_prepare::PatternError;

/// Why the rows of a query are not told.
#[derive(Clone, Copy, Debug, PartialEq, Eq, Drop)]
pub enum RowsError {
    /// A pattern of the query was not built.
    Pattern(PatternError),
    /// The head or an operand has more than 4,194,304 rows in the corpus, before filters and conditions.
    TooManyRows,
    /// There is no memory.
    NoMemory,
}

impl From<PatternError> for RowsError {
    ghost use Rattle.std.specs.Prelude.{◌≡◌};
    ghost use Rattle.mt_search.specs.declared.error.RowsError.TheVariants.{Pattern};

    ghost from_gives = { λ pattern error. error ≡ Pattern pattern };

    fn from(error: PatternError) -> Self {
        RowsError::Pattern(error)
    }
}
