//! Why what lines state is refused.

ghost use Rattle.std.specs.Prelude.{◌≡◌, ◌<◌, ◌≤◌, ◌⊎◌, ◌↔◌, true, IsTrue, List as Items, length, take, nat_eq, option_map, option_copied, MatchOption, slice_index_or};
ghost use Rattle.std.specs.List.{list_any, count_by, find, Contains};
ghost use Rattle.mt_file_spec.specs.RegistryFile as spec;
ghost use Rattle.mt_file_spec.specs.RegistryFile.{IsCause, IsBaseless, IsBaseName, IsDeclared};
ghost use Rattle.mt_registry.specs.SeenBlock.{keyword_seen};
ghost use Rattle.mt_registry.specs.Misstated.{IsFirstCause};
ghost use Rattle.mt_registry.specs.RegistryErrors.{registry_cause_of};

use super::block::{Keyword, is_declaring, is_same};
use super::error::RegistryCause;
use super::lines::Statement;
use mt_base::{List, Value, is_identifier};

/// The most attributes, structures, or attributes of one structure.
const MOST: usize = 16;

/// The most bytes of a mapper's name.
const LONGEST_MAPPER: usize = 1024;

/// The first cause that a statement has, behind the earlier ones.
pub fn cause_of(
    mappers: &List<Value>,
    all: &[Statement],
    unclosed: usize,
    earlier: &[Statement],
    statement: &Statement,
) -> Option<RegistryCause>
    ensures { IsFirstCause mappers.now all.now unclosed earlier.now statement.now (option_map registry_cause_of result) }
{
    if is_twice(earlier, statement) {
        Some(RegistryCause::Twice)
    } else if is_too_many(earlier, statement) {
        Some(RegistryCause::TooMany)
    } else if has_unknown_mapper(mappers, statement) {
        Some(RegistryCause::UnknownMapper)
    } else if is_baseless(all, unclosed, statement) {
        Some(RegistryCause::UnknownBase)
    } else {
        None
    }
}

/// Whether an earlier line states the same.
fn is_twice(earlier: &[Statement], statement: &Statement) -> bool
    ensures { result ≡ list_any (spec.repeats statement.now) earlier.now }
{
    earlier.iter().any(|other| repeats(statement, other))
}

fn repeats(statement: &Statement, other: &Statement) -> bool
    ensures { result ≡ spec.repeats statement.now other.now }
{
    gives(statement.keyword(), statement.place(), other)
        && (!is_declaring(statement.keyword()) || other.value() == statement.value())
}

/// Whether a statement gives this keyword in this place.
pub fn gives(keyword: Keyword, place: usize, statement: &Statement) -> bool
    ensures { result ≡ spec.gives (keyword_seen keyword) place statement.now }
{
    is_same(keyword, statement.keyword()) && statement.place() == place
}

/// Whether some statement gives this keyword in this place.
pub fn any_gives(keyword: Keyword, place: usize, all: &[Statement]) -> bool
    ensures { result ≡ list_any (spec.gives (keyword_seen keyword) place) all.now }
{
    all.iter().any(|statement| gives(keyword, place, statement))
}

/// Whether more is declared in one place than a registry has room for.
fn is_too_many(earlier: &[Statement], statement: &Statement) -> bool
    ensures { IsTrue result ↔ ((spec.is_declaring statement.now.keyword ≡ true) × (16 ≤ count_by (spec.gives statement.now.keyword statement.now.place) earlier.now)) }
{
    is_declaring(statement.keyword()) && MOST <= count_alike(earlier, statement)
}

fn count_alike(earlier: &[Statement], statement: &Statement) -> usize
    ensures { result ≡ count_by (spec.gives statement.now.keyword statement.now.place) earlier.now }
{
    let keyword = statement.keyword();
    let place = statement.place();
    earlier
        .iter()
        .filter(|other| gives(keyword, place, other))
        .count()
}

/// Whether a mapper is named that is not at hand.
fn has_unknown_mapper(mappers: &List<Value>, statement: &Statement) -> bool
    ensures { IsTrue result ↔ ((statement.now.keyword ≡ spec.Dynamic) × ((1024 < length statement.now.value) ⊎ (¬ Contains mappers.now statement.now.value))) }
{
    matches!(statement.keyword(), Keyword::Dynamic) && is_unknown(mappers, statement.value())
}

fn is_unknown(mappers: &List<Value>, name: &[u8]) -> bool
    ensures { IsTrue result ↔ ((1024 < length name.now) ⊎ (¬ Contains mappers.now name.now)) }
{
    LONGEST_MAPPER < name.len() || !has_mapper(mappers, name)
}

fn has_mapper(mappers: &List<Value>, name: &[u8]) -> bool
    ensures { IsTrue result ↔ Contains mappers.now name.now }
{
    mappers
        .as_slice()
        .iter()
        .any(|mapper| mapper.as_str().as_bytes() == name)
}

/// Whether a statement names what is not declared, or lacks its FROMATTR.
fn is_baseless(all: &[Statement], unclosed: usize, statement: &Statement) -> bool
    ensures { IsTrue result ↔ IsBaseless all.now unclosed statement.now }
{
    match statement.keyword() {
        Keyword::Attribute => false,
        Keyword::Structure => false,
        Keyword::Dynamic => !any_gives(Keyword::FromAttr, statement.place(), all),
        Keyword::FromAttr => {
            any_gives(Keyword::Dynamic, statement.place(), all)
                && !is_base_name(all, unclosed, statement.value())
        }
        Keyword::WsAttr => declared_line(all, unclosed, statement.value()).is_none(),
    }
}

/// Whether a base attribute of this name is declared.
fn is_base_name(all: &[Statement], unclosed: usize, name: &[u8]) -> bool
    ensures { IsTrue result ↔ IsBaseName all.now unclosed name.now }
{
    match declared_line(all, unclosed, name) {
        Some(line) => !any_gives(Keyword::Dynamic, line, all),
        None => false,
    }
}

/// The line that declares an attribute of this name.
fn declared_line(all: &[Statement], unclosed: usize, name: &[u8]) -> Option<usize>
    ensures { MatchOption result ((declared : spec.Statement) → ¬ IsDeclared all.now unclosed name.now declared)
        (λ line. (declared : spec.Statement) × IsDeclared all.now unclosed name.now declared × (line ≡ declared.line)) }
{
    if !is_identifier(name) {
        return None;
    }
    match first_declaration(all, name) {
        Some(statement) if statement.line() != unclosed => Some(statement.line()),
        _ => None,
    }
}

fn first_declaration<'a, 'b>(all: &'a [Statement<'b>], name: &[u8]) -> Option<&'a Statement<'b>>
    ensures { option_copied result ≡ find (spec.declares name.now) all.now }
{
    all.iter().find(|statement| declares(name, statement))
}

/// Whether a statement is the declaration of an attribute of this name.
pub fn declares(name: &[u8], statement: &Statement) -> bool
    ensures { result ≡ spec.declares name.now statement.now }
{
    gives(Keyword::Attribute, 0, statement) && statement.value() == name
}
