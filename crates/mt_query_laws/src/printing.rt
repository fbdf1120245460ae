//! What a printed query means.

ghost use Rattle.std.specs.Prelude.{◌<◌, ◌≤◌, ℕ, List, Ok, length};
ghost use Rattle.mt_text_spec.specs.Registries.{Registry, ValidRegistry};
ghost use Rattle.mt_text_spec.specs.Queries.{Query};
ghost use Rattle.mt_query_spec.specs.Verdicts.{Means};
ghost use Rattle.mt_query_spec.specs.Printed.{printed};
ghost use Rattle.mt_query_spec.specs.Valid.{ValidQuery, IsReadAs};

/// A valid query is what its printed text means, under any default attribute, where that text has at most 4,096 bytes.
pub fn printed_is_read()
    ensures { (registry : Registry) (default : ℕ) (query : Query) → ValidRegistry registry → ValidQuery registry query → length (printed registry query) ≤ 4096
        → Means registry default (printed registry query) (Ok query) }
{}

/// Each query that a text means is valid.
pub fn read_is_valid()
    ensures { (registry : Registry) (default : ℕ) (text : List ℕ) (query : Query) → ValidRegistry registry → default < length registry.attrs
        → Means registry default text (Ok query) → ValidQuery registry query }
{}

/// A query is valid exactly where some text is read as it, of whatever length: its printed text then is, under any default attribute.
pub fn valid_where_read()
    ensures read { (registry : Registry) (default : ℕ) (query : Query) → ValidRegistry registry → ValidQuery registry query
        → IsReadAs registry default (printed registry query) query }
    ensures valid { (registry : Registry) (default : ℕ) (text : List ℕ) (query : Query) → ValidRegistry registry → default < length registry.attrs
        → IsReadAs registry default text query → ValidQuery registry query }
{}
