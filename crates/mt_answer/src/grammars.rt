//! Why bytes are no sketch grammar.

ghost use Rattle.std.specs.Prelude.{◌≡◌, ℕ, List as Items};
ghost use Rattle.mt_text_spec.specs.Registries as registries;
ghost use Rattle.mt_grammar.specs.Errors.{IsRefusal};
ghost use Rattle.mt_answer.specs.Declines.{IsUnruled};
ghost use Rattle.mt_answer.specs.Errors.{unruled_by};

use super::declined::Declined;
use super::refusal::{Refusal, RuleCause};
use mt_cql::QueryError;
use mt_grammar::GrammarError;

/// Why bytes are no sketch grammar, as it is told, where `read_grammar` gave this error. What is said of bytes holds of them however they are given, by the law
/// `given_no_grammar` of `specs/Given.antt`.
pub fn no_grammar(error: GrammarError) -> Declined<'static>
    ensures told { result ≡ unruled_by error }
    ensures refused { (registry : registries.Registry) (bytes : Items ℕ) → IsRefusal registry bytes error → IsUnruled registry bytes result }
{
    match error {
        GrammarError::Line { line, cause } => {
            Declined::Refused(Refusal::BadGrammar { line, cause })
        }
        GrammarError::Query { line, error } => no_rule(line, error),
        GrammarError::NoRelation => Declined::Refused(Refusal::NoRelation),
        GrammarError::NoMemory => Declined::NoMemory,
    }
}

/// Why the text of a line is no query, as it is told.
fn no_rule(line: usize, error: QueryError) -> Declined<'static>
    ensures { result ≡ unruled_by (GrammarError.Query line error) }
{
    let cause = match error {
        QueryError::TooLarge => RuleCause::TooLarge,
        QueryError::Syntax { at, cause } => RuleCause::Syntax { at, cause },
        QueryError::Unknown { at } => RuleCause::Unknown { at },
        QueryError::NoMemory => return Declined::NoMemory,
    };
    Declined::Refused(Refusal::BadRule { line, cause })
}
