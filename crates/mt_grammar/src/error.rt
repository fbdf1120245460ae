//! Why a file is no sketch grammar.

ghost use Rattle.std.specs.Prelude.{◌≡◌};

use mt_base::NoMemory;
use mt_cql::QueryError;

/// Why a line is refused, but for what is told of a query's text.
#[derive(Clone, Copy, Debug, PartialEq, Eq, Drop)]
pub enum LineCause {
    /// It is not UTF-8.
    NotUtf8,
    /// Another word stands behind `*`.
    Directive,
    /// It is a second kind before one heading.
    Kind,
    /// It names no attribute or no structure that is declared.
    Name,
    /// It is an empty heading, one of more than 256 bytes or with a tab, or lacks what its kind asks for.
    Heading,
    /// It is a query before any heading.
    NoHeading,
    /// It is a 257th heading or a 1,025th query.
    TooMany,
    /// It is a query in which a label that its heading needs stands nowhere.
    Label,
}

/// Why a file is no sketch grammar. Lines count from 1.
#[derive(Clone, Copy, Debug, PartialEq, Eq, Drop)]
pub enum GrammarError {
    /// This line is the first that has a cause, and this is its first.
    Line { line: usize, cause: LineCause },
    /// This line is the first that has a cause: its query is refused. The error is never want of memory.
    Query { line: usize, error: QueryError },
    /// No line has a cause, but there is no heading.
    NoRelation,
    /// There was not enough memory. This says nothing of the file.
    NoMemory,
}

impl From<NoMemory> for GrammarError {
    ghost use Rattle.mt_grammar.specs.declared.error.GrammarError.TheVariants.{NoMemory as OutOfMemory};

    ghost from_gives = { λ _ e. e ≡ OutOfMemory };

    fn from(_: NoMemory) -> Self {
        GrammarError::NoMemory
    }
}
