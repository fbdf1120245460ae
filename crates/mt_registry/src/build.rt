//! The registry that statements declare.

ghost use Rattle.std.specs.Prelude.{◌≡◌, ◌≤◌, ◌<◌, [], true, List as Items, length, map, IfOk, IsUtf8, option_copied, option_map, codes, None, Some};
ghost use Rattle.std.specs.List.{find, filter, list_any, All, Contains};
ghost use Rattle.mt_text_spec.specs.Words.{IsIdentifier};
ghost use Rattle.mt_file_spec.specs.RegistryFile as spec;
ghost use Rattle.mt_registry.specs.SeenBlock.{keyword_seen};
ghost use Rattle.mt_registry.specs.Sound.{IsSound, IsNamed};

use super::block::Keyword;
use super::causes::{declares, gives};
use super::lines::Statement;
use mt_base::{Attr, Kind, List, NoMemory, Registry, Value};
use std::alloc::Global;

/// The registry that faultless statements declare.
pub fn registry_of(
    alloc: Global,
    mappers: &List<Value>,
    all: &[Statement],
) -> Result<Registry, NoMemory>
    requires { IsSound mappers.now all.now }
    ensures { IfOk result (λ registry. registry ≡ spec.registry_of all.now) }
{
    let attrs = attrs_of(alloc, mappers, all)?;
    let kinds = kinds_of(alloc, all)?;
    Ok(Registry::new(attrs, kinds, ws_attr_of(all) as u16))
}

/// The attributes in their order.
fn attrs_of(alloc: Global, mappers: &List<Value>, all: &[Statement]) -> Result<List<Attr>, NoMemory>
    requires { IsSound mappers.now all.now }
    ensures { IfOk result (λ attrs. attrs ≡ map (spec.attr_of all.now) (spec.attributes_of all.now)) }
{
    let mut attrs = List::new(alloc);
    for statement in all {
        if gives(Keyword::Attribute, 0, statement) {
            attrs.push(attr_of(alloc, mappers, all, statement)?)?;
        }
    }
    Ok(attrs)
}

/// The attribute that a statement declares.
fn attr_of(
    alloc: Global,
    mappers: &List<Value>,
    all: &[Statement],
    statement: &Statement,
) -> Result<Attr, NoMemory>
    requires sound { IsSound mappers.now all.now }
    requires named { IsNamed statement.now }
    requires declaring { spec.is_declaring statement.now.keyword ≡ true }
    ensures { IfOk result (λ attr. attr ≡ spec.attr_of all.now statement.now) }
{
    let name = name_of(alloc, statement)?;
    let Some(mapper) = find(Keyword::Dynamic, statement.line(), all) else {
        return Ok(Attr::new(name, None, Value::from_string(String::new(alloc))));
    };
    let mapper = mapper_of(alloc, mappers, mapper.value())?;
    let base = base_of(all, statement.line());
    Ok(Attr::new(name, base, mapper))
}

/// The number of the attribute that FROMATTR names in this place.
fn base_of(all: &[Statement], place: usize) -> Option<u16>
    requires { length (spec.attributes_of all.now) ≤ 16 }
    ensures { result ≡ option_map (λ base. spec.number_of base.value all.now) (find (spec.gives spec.FromAttr place) all.now) }
{
    match find(Keyword::FromAttr, place, all) {
        Some(base) => Some(number_of(all, base.value()) as u16),
        None => None,
    }
}

/// The name of a mapper at hand.
fn mapper_of(alloc: Global, mappers: &List<Value>, name: &[u8]) -> Result<Value, NoMemory>
    requires { Contains mappers.now name.now }
    ensures { IfOk result (λ value. value ≡ name.now) }
{
    for mapper in mappers.as_slice() {
        if mapper.as_str().as_bytes() == name {
            return mapper.copy(alloc);
        }
    }
    unreachable!()
}

/// The structures in their order.
fn kinds_of(alloc: Global, all: &[Statement]) -> Result<List<Kind>, NoMemory>
    requires { All IsNamed all.now }
    ensures { IfOk result (λ kinds. kinds ≡ map (spec.kind_of all.now) (spec.structures_of all.now)) }
{
    let mut kinds = List::new(alloc);
    for statement in all {
        if gives(Keyword::Structure, 0, statement) {
            let name = name_of(alloc, statement)?;
            kinds.push(Kind::new(name, names_in(alloc, statement.line(), all)?))?;
        }
    }
    Ok(kinds)
}

/// The names of the attributes of the structure that this line declares.
fn names_in(alloc: Global, line: usize, all: &[Statement]) -> Result<List<Value>, NoMemory>
    requires { All IsNamed all.now }
    ensures { IfOk result (λ names. names ≡ map (λ attribute. attribute.value) (filter (spec.gives spec.Attribute line) all.now)) }
{
    let mut names = List::new(alloc);
    for statement in all {
        if gives(Keyword::Attribute, line, statement) {
            names.push(name_of(alloc, statement)?)?;
        }
    }
    Ok(names)
}

/// The name that a statement declares. An identifier is ASCII, so each of its bytes is a character.
fn name_of(alloc: Global, statement: &Statement) -> Result<Value, NoMemory>
    requires { IsIdentifier statement.now.value }
    ensures { IfOk result (λ value. value ≡ statement.now.value) }
{
    let mut name = String::new(alloc);
    for b in statement.value() {
        name.push(char::from(*b))?;
    }
    Ok(Value::from_string(name))
}

/// The number of the attribute whose values sketches count.
fn ws_attr_of(all: &[Statement]) -> usize
    ensures value { result ≡ spec.ws_attr_with all.now (find (spec.gives spec.WsAttr 0) all.now) }
    ensures few { result ≤ length (spec.attributes_of all.now) }
{
    if let Some(statement) = find(Keyword::WsAttr, 0, all) {
        number_of(all, statement.value())
    } else if any_declares(b"lempos", all) {
        number_of(all, b"lempos")
    } else if any_declares(b"lemma", all) {
        number_of(all, b"lemma")
    } else {
        0
    }
}

/// Whether an attribute of this name is declared.
fn any_declares(name: &[u8], all: &[Statement]) -> bool
    ensures { result ≡ list_any (spec.declares name.now) all.now }
{
    all.iter().any(|statement| declares(name, statement))
}

/// The number of the attribute of this name.
fn number_of(all: &[Statement], name: &[u8]) -> usize
    ensures value { result ≡ spec.number_of name.now all.now }
    ensures few { result ≤ length (spec.attributes_of all.now) }
{
    attributes_before(all, name)
}

fn attributes_before(all: &[Statement], name: &[u8]) -> usize
    ensures { result ≡ spec.number_of name.now all.now }
{
    all.iter()
        .filter(|statement| gives(Keyword::Attribute, 0, statement))
        .take_while(|statement| statement.value() != name)
        .count()
}

/// The first statement that gives this keyword in this place.
fn find<'a, 'b>(
    keyword: Keyword,
    place: usize,
    all: &'a [Statement<'b>],
) -> Option<&'a Statement<'b>>
    ensures { option_copied result ≡ find (spec.gives (keyword_seen keyword) place) all.now }
{
    all.iter()
        .find(|statement| gives(keyword, place, statement))
}
