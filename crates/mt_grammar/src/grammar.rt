//! The relations of a sketch grammar.

ghost use Rattle.std.specs.Prelude.{◌≡◌, OnOk};
ghost use Rattle.mt_grammar.specs.Reading.{with_query};
ghost use Rattle.mt_grammar.specs.Seen.{kind_seen};

use super::kind::RelationKind;
use mt_base::{List, NoMemory, Value};
use mt_cql::Query;
use std::marker::Model;

/// A relation: its name, and the queries whose rows give its instances.
#[derive(Drop)]
pub struct Relation {
    kind: RelationKind,
    name: Value,
    second: Value,
    queries: List<Query>,
}

impl Model for Relation {
    ghost use Rattle.mt_text_spec.specs.Queries as spec;
    ghost use Rattle.mt_grammar.specs.Codes.{relation_code};
    ghost use Rattle.mt_grammar.specs.Seen.{kind_seen};

    ghost Value = { spec.Relation };

    ghost coded = { relation_code };

    ghost view = { λ r. record { kind = kind_seen r.kind; name = r.name; second = r.second; queries = r.queries } };
}

impl Relation {
    /// The relation of these parts. It takes no memory.
    pub fn new(kind: RelationKind, name: Value, second: Value, queries: List<Query>) -> Self
        ensures { result ≡ record { kind = kind_seen kind; name = name; second = second; queries = queries } }
    {
        Relation {
            kind,
            name,
            second,
            queries,
        }
    }

    /// Adds a query behind the others.
    pub(crate) fn add(&mut self, query: Query) -> Result<(), NoMemory>
        ensures { OnOk result (self.new ≡ with_query self.old query) }
    {
        self.queries.push(query)
    }

    /// What a row of its queries gives.
    pub fn kind(&self) -> RelationKind
        ensures { kind_seen result ≡ self.now.kind }
    {
        self.kind
    }

    /// Its name.
    pub fn name(&self) -> &Value
        ensures { result.now ≡ self.now.name }
    {
        &self.name
    }

    /// Its second name, which is empty where it is not dual.
    pub fn second(&self) -> &Value
        ensures { result.now ≡ self.now.second }
    {
        &self.second
    }

    /// Its queries, in the order of the file.
    pub fn queries(&self) -> &List<Query>
        ensures { result.now ≡ self.now.queries }
    {
        &self.queries
    }
}

/// A sketch grammar: its relations, in the order of the file. Relations may have one name.
#[derive(Drop)]
pub struct Grammar {
    relations: List<Relation>,
}

impl Model for Grammar {
    ghost use Rattle.mt_text_spec.specs.Queries as spec;
    ghost use Rattle.mt_grammar.specs.Codes.{grammar_code};

    ghost Value = { spec.Grammar };

    ghost coded = { grammar_code };

    ghost view = { λ g. record { relations = g.relations } };
}

impl Grammar {
    /// The grammar of these relations. It takes no memory.
    pub fn new(relations: List<Relation>) -> Self
        ensures { result ≡ record { relations = relations } }
    {
        Grammar { relations }
    }

    /// The relations.
    pub fn relations(&self) -> &List<Relation>
        ensures { result.now ≡ self.now.relations }
    {
        &self.relations
    }
}
