//! What a text means.

ghost use Rattle.std.specs.Prelude.{◌≡◌, ℕ, List, Result};
ghost use Rattle.mt_text_spec.specs.Registries.{Registry};
ghost use Rattle.mt_text_spec.specs.Queries.{Query};
ghost use Rattle.mt_query_spec.specs.Trees.{QueryTree, query_tokens};
ghost use Rattle.mt_query_spec.specs.Verdicts.{Means, Refusal};
ghost use Rattle.mt_query_laws.specs.Reading.{answer};

/// Each list of tokens is written for one query at most.
pub fn one_reading()
    ensures { (a b : QueryTree) → query_tokens a ≡ query_tokens b → a ≡ b }
{}

/// Each text means something.
pub fn some_meaning()
    ensures { (registry : Registry) (default : ℕ) (text : List ℕ) → (said : Result Query Refusal) × Means registry default text said }
{}

/// No text means two things.
pub fn one_meaning()
    ensures { (registry : Registry) (default : ℕ) (text : List ℕ) (said other : Result Query Refusal)
        → Means registry default text said → Means registry default text other → said ≡ other }
{}

/// What is read of a text by states, token by token, is what it means.
pub fn answer_is_meant()
    ensures { (registry : Registry) (default : ℕ) (text : List ℕ) → Means registry default text (answer registry default text) }
{}
