//! The names of a relation, by its heading.

ghost use Rattle.std.specs.Prelude.{◌≡◌, ◌↔◌, ◌⊎◌, [], IsTrue, IfSome, IfNone};
ghost use Rattle.std.specs.List.{Contains};
ghost use Rattle.mt_grammar_spec.specs.GrammarFile as file;
ghost use Rattle.mt_grammar_spec.specs.ReadGrammar as spec;
ghost use Rattle.mt_grammar.specs.Seen.{kind_seen};

use super::kind::RelationKind;

/// The most bytes of a heading.
const HEADING_LIMIT: usize = 256;

/// The names of a relation. The second is empty where it is not dual.
#[derive(Clone, Copy, Debug, PartialEq, Eq, Drop)]
pub struct Names<'a> {
    pub first: &'a str,
    pub second: &'a str,
}

/// The names that a heading gives a relation of this kind, or none where it is no heading of one.
pub fn names_of<'a>(kind: RelationKind, heading: &'a str) -> Option<Names<'a>>
    ensures good { IfSome result (λ names. file.IsNoHeading (kind_seen kind) heading.now → ⊥) }
    ensures first { IfSome result (λ names. names.first.now ≡ spec.name_by (kind_seen kind) heading.now) }
    ensures second { IfSome result (λ names. names.second.now ≡ spec.second_by (kind_seen kind) heading.now) }
    ensures bad { IfNone result (file.IsNoHeading (kind_seen kind) heading.now) }
{
    if is_no_heading(kind, heading) {
        return None;
    }
    match kind {
        RelationKind::Dual => {
            let (first, second) = cut(heading);
            Some(Names { first, second })
        }
        _ => Some(Names {
            first: heading,
            second: "",
        }),
    }
}

/// Whether this is no heading of a relation of this kind.
fn is_no_heading(kind: RelationKind, heading: &str) -> bool
    ensures { IsTrue result ↔ file.IsNoHeading (kind_seen kind) heading.now }
{
    heading.is_empty()
        || HEADING_LIMIT < heading.len()
        || has_tab(heading)
        || lacks_name(kind, heading)
}

fn has_tab(heading: &str) -> bool
    ensures { IsTrue result ↔ Contains heading.now 9 }
{
    heading.as_bytes().contains(&b'\t')
}

/// Whether a heading lacks what this kind asks for.
fn lacks_name(kind: RelationKind, heading: &str) -> bool
    ensures { IsTrue result ↔ file.LacksName (kind_seen kind) heading.now }
{
    match kind {
        RelationKind::Plain => false,
        RelationKind::Dual => has_empty_part(heading),
        RelationKind::Symmetric => false,
        RelationKind::Trinary => !has_mark(heading),
        RelationKind::Unary => false,
    }
}

/// Whether no byte stands before the first `/`, or none behind it.
fn has_empty_part(heading: &str) -> bool
    ensures { IsTrue result ↔ ((file.first_name heading.now ≡ []) ⊎ (file.second_name heading.now ≡ [])) }
{
    let (first, second) = cut(heading);
    first.is_empty() || second.is_empty()
}

/// Whether `%s` stands in a heading.
fn has_mark(heading: &str) -> bool
    ensures { IsTrue result ↔ file.HasMark heading.now }
{
    heading.contains("%s")
}

/// What stands before the first `/` of a heading, and behind it.
fn cut(heading: &str) -> (&str, &str)
    ensures first { result.0.now ≡ file.first_name heading.now }
    ensures second { result.1.now ≡ file.second_name heading.now }
{
    match heading.split_once('/') {
        Some(names) => names,
        None => (heading, ""),
    }
}
