//! Reading the query of a question.

ghost use Rattle.std.specs.Prelude.{Ok, Err, IfOk, IfErr};
ghost use Rattle.mt_text_spec.specs.Registries as registries;
ghost use Rattle.mt_text_spec.specs.Registries.{ValidRegistry};
ghost use Rattle.mt_query_spec.specs.Verdicts.{Means};
ghost use Rattle.mt_query_spec.specs.Valid.{ValidQuery};
ghost use Rattle.mt_eval_spec.specs.Fits.{Fits};
ghost use Rattle.mt_cql.specs.Answered.{Answered};
ghost use Rattle.mt_answer.specs.Declines.{IsUnread};

use super::declined::Declined;
use super::names::name_at;
use super::refusal::Refusal;
use mt_base::Registry;
use mt_cql::{Query, QueryError, parse};
use std::alloc::Global;

/// Reads the query of a question. A bare string is a test of the first attribute that is declared. A text that is no query is declined by the cause and the place of
/// its first fault, by the name that is not declared, or as too large.
pub fn read_query<'a>(
    alloc: Global,
    registry: &Registry,
    cql: &'a str,
) -> Result<Query, Declined<'a>>
    requires { ValidRegistry registry.now }
    ensures read { IfOk result (λ query. Means registry.now 0 cql.now (Ok query)) }
    ensures valid { IfOk result (λ query. ValidQuery registry.now query) }
    ensures fits { IfOk result (λ query. Fits registry.now query) }
    ensures unread { IfErr result (IsUnread registry.now cql.now) }
{
    match parse(alloc, cql, registry, 0) {
        Ok(query) => Ok(query),
        Err(error) => Err(unread(cql, error)),
    }
}

/// Why a text is no query, as it is told.
fn unread(cql: &str, error: QueryError) -> Declined<'_>
    ensures { (registry : registries.Registry) → Answered registry 0 cql.now (Err error) → IsUnread registry cql.now result }
{
    match error {
        QueryError::TooLarge => Declined::Refused(Refusal::QueryTooLarge),
        QueryError::Syntax { at, cause } => Declined::Refused(Refusal::BadQuery { at, cause }),
        QueryError::Unknown { at } => {
            Declined::Refused(Refusal::UnknownName(name_at(cql, at as usize)))
        }
        QueryError::NoMemory => Declined::NoMemory,
    }
}
