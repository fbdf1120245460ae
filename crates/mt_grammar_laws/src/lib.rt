//! Laws of the definitions of sketch grammars. Each function proves its law, and does nothing.
#![tactic(auto)]

ghost use Rattle.std.specs.Prelude.{◌≤◌};
ghost use Rattle.mt_text_spec.specs.Registries.{Registry};
ghost use Rattle.mt_text_spec.specs.Queries.{Query, RelationKind};
ghost use Rattle.mt_query_spec.specs.Measures.{nodes, size};
ghost use Rattle.mt_query_spec.specs.Valid.{ValidConds, ValidExpr, ValidFilters};
ghost use Rattle.mt_grammar_spec.specs.ValidGrammar.{IsGrammarQuery};
ghost use Rattle.mt_grammar_laws.specs.Laws.{OneGrammar, OneFault, AreApart, SomeAnswer, ReadGrammarIsValid};

use mt_query_laws::{one_meaning, read_is_valid, some_meaning};

/// A file is read as at most one grammar.
pub fn one_grammar()
    ensures { OneGrammar }
{
    one_meaning();
}

/// A file has at most one first fault.
pub fn one_grammar_fault()
    ensures { OneFault }
{
    one_meaning();
}

/// No file is read and has a fault, is read and has no relation, or has no relation and has a fault.
pub fn one_grammar_answer()
    ensures { AreApart }
{}

/// Each file is read, has no relation or has a fault.
pub fn some_grammar_answer()
    ensures { SomeAnswer }
{
    some_meaning();
}

/// A grammar that is read is valid.
pub fn read_grammar_is_valid()
    ensures { ReadGrammarIsValid }
{
    read_is_valid();
}

/// A query of a grammar names what is declared, and its labels and ranges are in order, as in a valid query. The structure that limits it adds three nodes at most,
/// and one to its Size.
pub fn grammar_queries_are_in_order()
    ensures head { (registry : Registry) (kind : RelationKind) (query : Query) → IsGrammarQuery registry kind query → ValidExpr registry query.head }
    ensures filters { (registry : Registry) (kind : RelationKind) (query : Query) → IsGrammarQuery registry kind query → ValidFilters registry query.filters }
    ensures conds { (registry : Registry) (kind : RelationKind) (query : Query) → IsGrammarQuery registry kind query → ValidConds registry query.head query.conds }
    ensures nodes { (registry : Registry) (kind : RelationKind) (query : Query) → IsGrammarQuery registry kind query → nodes query ≤ 259 }
    ensures size { (registry : Registry) (kind : RelationKind) (query : Query) → IsGrammarQuery registry kind query → size query ≤ 4097 }
{}
