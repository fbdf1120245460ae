//! Sketch grammars, by which word sketches are counted: their types, and how one is read from its file.
//!
//! A `Relation` and a `Grammar` are seen as the records of `mt_text_spec`.
#![tactic(auto)]

ghost use Rattle.std.specs.Prelude.{IfOk, IfErr};
ghost use Rattle.mt_text_spec.specs.Registries.{ValidRegistry};
ghost use Rattle.mt_grammar_spec.specs.ReadGrammar.{ReadsGrammar};
ghost use Rattle.mt_grammar_spec.specs.ValidGrammar.{ValidGrammar};
ghost use Rattle.mt_grammar.specs.Errors.{IsRefusal};

mod error;
mod grammar;
mod heading;
mod kind;
mod labels;
mod limit;
mod line;
mod names;
mod reader;

pub use error::{GrammarError, LineCause};
pub use grammar::{Grammar, Relation};
pub use kind::RelationKind;
use mt_base::{Lines, Registry};
use mt_grammar_laws::read_grammar_is_valid;
use reader::Reader;
use std::alloc::Global;

/// The grammar that the bytes are read as under a registry, or the first line that has a cause to refuse them.
///
/// It goes over the bytes once. Its steps are linear in them, but that a query is read in those of `mt_cql`.
pub fn read_grammar(
    alloc: Global,
    bytes: &[u8],
    registry: &Registry,
) -> Result<Grammar, GrammarError>
    requires { ValidRegistry registry.now }
    ensures read { IfOk result (λ grammar. ReadsGrammar registry.now bytes.now grammar) }
    ensures valid { IfOk result (λ grammar. ValidGrammar registry.now grammar) }
    ensures refused { IfErr result (λ error. IsRefusal registry.now bytes.now error) }
{
    read_grammar_is_valid();
    let mut reader = Reader::new(alloc);
    for line in Lines::new(bytes) {
        reader.read_line(alloc, registry, line)?;
    }
    reader.finish()
}

fn shared<T: Send + Sync>() {}

/// That threads may share grammars is proved by this function.
pub fn are_shared() {
    shared::<Grammar>();
    shared::<Relation>();
    shared::<GrammarError>();
}
