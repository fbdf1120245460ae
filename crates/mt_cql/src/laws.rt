//! What is so of the parser's answers.

ghost use Rattle.std.specs.Prelude.{◌≤◌, ℕ, Result, length};
ghost use Rattle.mt_text_spec.specs.Registries.{Registry, ValidRegistry};
ghost use Rattle.mt_text_spec.specs.Queries.{Query};
ghost use Rattle.mt_query_spec.specs.Printed.{printed};
ghost use Rattle.mt_cql.specs.declared.query.Query as read;
ghost use Rattle.mt_cql.specs.declared.query.QueryError.{QueryError};
ghost use Rattle.mt_cql.specs.Answered.{Answered};
ghost use Rattle.mt_cql.specs.Again.{IsAgain};
ghost use Rattle.mt_query_spec.specs.Valid.{ValidQuery};

use mt_query_laws::{one_meaning, printed_is_read};

/// What `parse` answers to the printed text of a valid query is that query, or out of memory, where that text has at most 4,096 bytes.
pub fn print_then_parse()
    ensures { (registry : Registry) (default : ℕ) (query : Query) (again : Result read.Query QueryError) → ValidRegistry registry → ValidQuery registry query
        → length (printed registry query) ≤ 4096 → Answered registry default (printed registry query) again → IsAgain query again }
{
    one_meaning();
    printed_is_read();
}
