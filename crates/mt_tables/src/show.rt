//! Segments as the table shows them.

ghost use Rattle.std.specs.Prelude.{◌≡◌, ◌<◌, ◌≤◌, length};
ghost use Rattle.mt_text_spec.specs.Registries.{ValidRegistry};

use super::case::Case;
use super::corpus::read_texts;
use super::joined::{joined, registry};
use mt_base::{Attr, Kind, List, NoMemory, Registry, Steps, StructSpan, Value};
use mt_lexicon::Lexicon;
use mt_mapper::{Fold, Mapper, Prefix, Suffix};
use mt_postings::Postings;
use mt_registry::{RegistryError, read_registry};
use mt_segment::{MappedTable, Segment, has_mappers};
use std::alloc::Global;
use std::marker::Brand;
use std::sync::ledger::{Blank, Ledger};
use std::thread::Threads;

/// The tables of all cases.
pub fn cases<R: Threads + Sync>(rt: &R, alloc: Global, cases: &[Case]) -> Result<String, NoMemory> {
    let mut mappers: Vec<Box<dyn Mapper>> = Vec::new(alloc);
    mappers.push(Box::new(alloc, Fold::new(alloc)?)?)?;
    mappers.push(Box::new(alloc, Prefix::new(alloc, 2)?)?)?;
    mappers.push(Box::new(alloc, Suffix::new(alloc, 1)?)?)?;
    let mut out = String::new(alloc);
    for case in cases {
        out.push_str("=== ")?;
        out.push_str(case.title.as_str())?;
        out.push('\n')?;
        show_case(rt, alloc, case, mappers.as_mut_slice(), &mut out)?;
    }
    out.push_str("=== Put together of tables\n")?;
    show_joined(alloc, &mut out)?;
    Ok(out)
}

/// A segment that is put together of its tables.
fn show_joined(alloc: Global, out: &mut String) -> Result<(), NoMemory> {
    let registry = registry(alloc)?;
    let segment = joined(alloc, &registry)?;
    show_segment::<Brand>(alloc, &segment, &registry, out, Blank::new(1))
}

/// The tables of a case.
fn show_case<M: Mapper, R: Threads + Sync>(
    rt: &R,
    alloc: Global,
    case: &Case,
    mappers: &mut [M],
    out: &mut String,
) -> Result<(), NoMemory> {
    let names = names_of(alloc, mappers)?;
    let registry = match read_registry(alloc, case.registry.as_bytes(), &names) {
        Ok(registry) => registry,
        Err(RegistryError::NoMemory) => return Err(NoMemory),
        Err(_) => return Ok(out.push_str("the registry is refused\n")?),
    };
    show_texts(rt, alloc, case.texts.as_slice(), &registry, mappers, out)
}

/// The names of mappers.
fn names_of<M: Mapper>(alloc: Global, mappers: &[M]) -> Result<List<Value>, NoMemory> {
    let mut names = List::new(alloc);
    for mapper in mappers {
        names.push(Value::new(alloc, mapper.name())?)?;
    }
    Ok(names)
}

/// The tables of the texts of these verticals.
fn show_texts<M: Mapper, R: Threads + Sync>(
    rt: &R,
    alloc: Global,
    verticals: &[String],
    registry: &Registry,
    mappers: &mut [M],
    out: &mut String,
) -> Result<(), NoMemory>
    requires { ValidRegistry registry.now }
{
    let texts = read_texts(alloc, verticals, registry)?;
    if texts.is_empty() || !has_mappers(registry, mappers) {
        out.push_str("no segment\n")?;
        return Ok(());
    }
    let segment = Segment::build(rt, alloc, texts.as_slice(), registry, mappers)?;
    show_segment::<Brand>(alloc, &segment, registry, out, Blank::new(1))
}

/// The tables of a segment.
fn show_segment<L: Ledger>(
    alloc: Global,
    segment: &Segment,
    registry: &Registry,
    out: &mut String,
    blank: Blank,
) -> Result<(), NoMemory>
    requires valid { ValidRegistry registry.now }
    requires attrs { length segment.now.attrs ≡ length registry.now.attrs }
    requires kinds { length segment.now.structs ≡ length registry.now.kinds }
    requires name { blank.name ≡ L.name }
    requires parts { blank.parts ≡ L.parts }
    requires some { 0 < L.parts }
{
    let mut steps = Steps::<L>::new(blank);
    show_bounds(alloc, segment, out)?;
    for (number, attr) in registry.attrs().as_slice().iter().enumerate() {
        show_attr(alloc, segment, number as u16, attr, out, &mut steps)?;
    }
    for (number, kind) in registry.kinds().as_slice().iter().enumerate() {
        show_kind(alloc, segment, number as u16, kind, out)?;
    }
    Ok(())
}

/// The names and bounds of the texts.
fn show_bounds(alloc: Global, segment: &Segment, out: &mut String) -> Result<(), NoMemory> {
    for number in 0..segment.texts() {
        let (begin, end) = segment.text_bounds(number);
        let name = segment.text_name(number);
        out.push_str(format!(in alloc; "text {name} from {begin} to {end}\n")?.as_str())?;
    }
    Ok(())
}

/// The tables of an attribute.
fn show_attr<L: Ledger>(
    alloc: Global,
    segment: &Segment,
    number: u16,
    attr: &Attr,
    out: &mut String,
    steps: &mut Steps<L>,
) -> Result<(), NoMemory>
    requires { number < length segment.now.attrs }
{
    out.push_str(attr.name().as_str())?;
    show_values(segment.lexicon(number), out)?;
    show_numbers(alloc, segment, number, out, steps)?;
    show_places(alloc, segment, number, out, steps)?;
    if segment.base(number).is_some() {
        show_table(alloc, segment.table(number), out)?;
    }
    Ok(())
}

/// The values of a lexicon, in angle brackets.
fn show_values(lexicon: &Lexicon, out: &mut String) -> Result<(), NoMemory> {
    for id in 0..lexicon.len() {
        out.push_str(" <")?;
        out.push_str(lexicon.value(id))?;
        out.push('>')?;
    }
    out.push('\n')?;
    Ok(())
}

/// The number of an attribute's value at each place, and the value.
fn show_numbers<L: Ledger>(
    alloc: Global,
    segment: &Segment,
    attr: u16,
    out: &mut String,
    steps: &mut Steps<L>,
) -> Result<(), NoMemory>
    requires { attr < length segment.now.attrs }
{
    out.push_str("  at places:")?;
    for place in 0..segment.tokens() {
        let id = segment.value_id(attr, place, steps);
        let value = segment.lexicon(attr).value(id);
        out.push_str(format!(in alloc; " {id} {value}")?.as_str())?;
    }
    out.push('\n')?;
    Ok(())
}

/// The places of each value.
fn show_places<L: Ledger>(
    alloc: Global,
    segment: &Segment,
    attr: u16,
    out: &mut String,
    steps: &mut Steps<L>,
) -> Result<(), NoMemory>
    requires { attr < length segment.now.attrs }
{
    out.push_str("  places:")?;
    for id in 0..segment.lexicon(attr).len() {
        out.push_str(" |")?;
        show_list(alloc, segment.postings(attr, id), out, steps)?;
    }
    out.push('\n')?;
    Ok(())
}

/// The positions of a list.
fn show_list<L: Ledger>(
    alloc: Global,
    list: &Postings,
    out: &mut String,
    steps: &mut Steps<L>,
) -> Result<(), NoMemory> {
    let mut cursor = list.cursor();
    for _ in 0..list.len() {
        if let Some(place) = cursor.next(steps) {
            out.push_str(format!(in alloc; " {place}")?.as_str())?;
        }
    }
    Ok(())
}

/// The numbers of a table.
fn show_table(alloc: Global, table: &MappedTable, out: &mut String) -> Result<(), NoMemory> {
    out.push_str("  of the values of the base:")?;
    for number in table.as_slice() {
        out.push_str(format!(in alloc; " {number}")?.as_str())?;
    }
    out.push('\n')?;
    Ok(())
}

/// The instances of a kind, text by text.
fn show_kind(
    alloc: Global,
    segment: &Segment,
    number: u16,
    kind: &Kind,
    out: &mut String,
) -> Result<(), NoMemory>
    requires { number < length segment.now.structs }
{
    out.push_str(kind.name().as_str())?;
    out.push(':')?;
    for text in 0..segment.texts() {
        show_instances(alloc, text, segment.structs_in(number, text), out)?;
    }
    let all = segment.structs(number).len();
    out.push_str(format!(in alloc; " ({all})\n")?.as_str())?;
    Ok(())
}

/// The instances of a kind in a text: the text's number, begin and end, and the values.
fn show_instances(
    alloc: Global,
    text: u32,
    instances: &[StructSpan],
    out: &mut String,
) -> Result<(), NoMemory> {
    for instance in instances {
        let (begin, end) = (instance.begin(), instance.end());
        out.push_str(format!(in alloc; " | {text} {begin} {end}")?.as_str())?;
        for value in instance.values().as_slice() {
            out.push_str(" <")?;
            out.push_str(value.as_str())?;
            out.push('>')?;
        }
    }
    Ok(())
}
