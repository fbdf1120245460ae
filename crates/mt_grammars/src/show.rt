//! Grammars and refusals as they are printed.

ghost use Rattle.mt_text_spec.specs.Registries.{ValidRegistry};

use super::table::Case;
use mt_base::{NoMemory, Registry};
use mt_cql::{Cause, QueryError, print};
use mt_grammar::{Grammar, GrammarError, LineCause, Relation, RelationKind, read_grammar};
use std::alloc::Global;

/// How many queries of a relation are printed.
const SHOWN: usize = 8;

/// What all grammars of the table are read as.
pub fn cases(alloc: Global, cases: &[Case]) -> Result<String, NoMemory> {
    let registry = Registry::standard(alloc)?;
    let mut out = String::new(alloc);
    for case in cases {
        out.push_str("=== ")?;
        out.push_str(case.title.as_str())?;
        out.push('\n')?;
        show_case(alloc, case.bytes.as_slice(), &registry, &mut out)?;
    }
    Ok(out)
}

/// What one grammar is read as.
fn show_case(
    alloc: Global,
    bytes: &[u8],
    registry: &Registry,
    out: &mut String,
) -> Result<(), NoMemory>
    requires { ValidRegistry registry.now }
{
    match read_grammar(alloc, bytes, registry) {
        Ok(grammar) => show_grammar(alloc, &grammar, registry, out),
        Err(error) => show_error(alloc, error, out),
    }
}

/// The relations of a grammar.
fn show_grammar(
    alloc: Global,
    grammar: &Grammar,
    registry: &Registry,
    out: &mut String,
) -> Result<(), NoMemory> {
    let relations = grammar.relations();
    out.push_str(format!(in alloc; "relations {}\n", relations.len())?.as_str())?;
    for relation in relations.as_slice() {
        show_relation(alloc, relation, registry, out)?;
    }
    Ok(())
}

/// A relation: its kind, its names and how many queries it has, and then its first queries.
fn show_relation(
    alloc: Global,
    relation: &Relation,
    registry: &Registry,
    out: &mut String,
) -> Result<(), NoMemory> {
    let queries = relation.queries();
    let line = format!(in alloc;
        "{}\t{}\t{}\t{}\n",
        kind_name(relation.kind()),
        relation.name().as_str(),
        relation.second().as_str(),
        queries.len()
    )?;
    out.push_str(line.as_str())?;
    for query in queries.as_slice().iter().take(SHOWN) {
        out.push('\t')?;
        out.push_str(print(alloc, query, registry)?.as_str())?;
        out.push('\n')?;
    }
    Ok(())
}

/// The line of a refusal.
fn show_error(alloc: Global, error: GrammarError, out: &mut String) -> Result<(), NoMemory> {
    let line = match error {
        GrammarError::Line { line, cause } => {
            format!(in alloc; "! {line} {}\n", cause_name(cause))?
        }
        GrammarError::Query { line, error } => shown_query(alloc, line, error)?,
        GrammarError::NoRelation => String::from_str(alloc, "! 0 NoRelation\n")?,
        GrammarError::NoMemory => return Err(NoMemory),
    };
    out.push_str(line.as_str())?;
    Ok(())
}

/// The line of a refusal for a query.
fn shown_query(alloc: Global, line: usize, error: QueryError) -> Result<String, NoMemory> {
    match error {
        QueryError::Syntax { at, cause } => {
            Ok(format!(in alloc; "! {line} Syntax {at} {}\n", token_cause(cause))?)
        }
        QueryError::Unknown { at } => Ok(format!(in alloc; "! {line} Unknown {at}\n")?),
        QueryError::TooLarge => Ok(format!(in alloc; "! {line} TooLarge\n")?),
        QueryError::NoMemory => Err(NoMemory),
    }
}

fn kind_name(kind: RelationKind) -> &'static str {
    match kind {
        RelationKind::Plain => "plain",
        RelationKind::Dual => "dual",
        RelationKind::Symmetric => "symmetric",
        RelationKind::Trinary => "trinary",
        RelationKind::Unary => "unary",
    }
}

fn cause_name(cause: LineCause) -> &'static str {
    match cause {
        LineCause::NotUtf8 => "NotUtf8",
        LineCause::Directive => "Directive",
        LineCause::Kind => "Kind",
        LineCause::Name => "Name",
        LineCause::Heading => "Heading",
        LineCause::NoHeading => "NoHeading",
        LineCause::TooMany => "TooMany",
        LineCause::Label => "Label",
    }
}

fn token_cause(cause: Cause) -> &'static str {
    match cause {
        Cause::Token => "Token",
        Cause::String => "String",
        Cause::Char => "Char",
        Cause::Range => "Range",
        Cause::Label => "Label",
    }
}
