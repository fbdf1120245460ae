//! Why the patterns of a grammar are not built, as it is told.

ghost use Rattle.std.specs.Prelude.{◌≡◌};
ghost use Rattle.mt_rules.specs.Patterns.{declined_by};

use mt_answer::{Declined, Refusal};
use mt_prepare::PatternError;

/// Why the patterns of a grammar are not built, as it is told.
pub(crate) fn no_pattern(error: PatternError) -> Declined<'static>
    ensures { result ≡ declined_by error }
{
    match error {
        PatternError::Syntax(number) => Declined::Refused(Refusal::BadPattern(number)),
        PatternError::Refused(number) => Declined::PatternRefused(number),
        PatternError::NoMemory => Declined::NoMemory,
    }
}
