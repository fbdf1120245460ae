//! Answers as the table shows them.

ghost use Rattle.std.specs.Prelude.{◌≡◌, ◌<◌, length};
ghost use Rattle.mt_text_spec.specs.Registries.{ValidRegistry};
ghost use Rattle.mt_segment_spec.specs.Tables.{AreTablesUnder};
ghost use Rattle.mt_eval_spec.specs.RowsIn.{heads};
ghost use Rattle.mt_eval_spec.specs.Told.{IsFor};
ghost use Rattle.mt_eval.specs.Runs.{AreTexts};

use super::asked::{numbers, rooms_of, texts_of};
use super::corpus::read_texts;
use super::table::{Case, Table};
use mt_base::{List, NoMemory, Registry, Row, Steps, Value};
use mt_cql::{Query, parse};
use mt_eval::{EvalError, PatternError, RowList, Scratch, eval, prepare};
use mt_mapper::{Fold, Mapper};
use mt_pattern::RegexShop;
use mt_registry::{RegistryError, read_registry};
use mt_segment::{Segment, has_mappers};
use std::alloc::Global;
use std::marker::Brand;
use std::sync::ledger::{Blank, Ledger};
use std::thread::Threads;

/// Why a query has no rows to show.
#[derive(Clone, Copy, Drop)]
enum Fault {
    Patterns,
    TooManyRows,
    NoMemory,
}

/// The answers of all cases.
pub fn answers<R: Threads + Sync>(
    rt: &R,
    alloc: Global,
    table: &Table,
) -> Result<String, NoMemory> {
    let mut out = String::new(alloc);
    let fold = Fold::new(alloc)?;
    let mut names = List::new(alloc);
    names.push(Value::new(alloc, fold.name())?)?;
    let registry = match read_registry(alloc, table.registry.as_bytes(), &names) {
        Ok(registry) => registry,
        Err(RegistryError::NoMemory) => return Err(NoMemory),
        Err(_) => {
            out.push_str("the registry is refused\n")?;
            return Ok(out);
        }
    };
    for case in &table.cases {
        out.push_str("=== ")?;
        out.push_str(case.title.as_str())?;
        out.push('\n')?;
        show_case(rt, alloc, case, &registry, &mut out)?;
    }
    Ok(out)
}

/// The answers of a case.
fn show_case<R: Threads + Sync>(
    rt: &R,
    alloc: Global,
    case: &Case,
    registry: &Registry,
    out: &mut String,
) -> Result<(), NoMemory>
    requires { ValidRegistry registry.now }
{
    let texts = read_texts(alloc, case.texts.as_slice(), registry)?;
    let mut mappers = [Fold::new(alloc)?];
    if texts.is_empty() || !has_mappers(registry, &mappers) {
        return Ok(out.push_str("no segment\n")?);
    }
    let segment = Segment::build(rt, alloc, texts.as_slice(), registry, &mut mappers)?;
    show_asks(alloc, case.asks.as_slice(), registry, &segment, out)
}

/// All that is asked of a segment, and the answers.
fn show_asks(
    alloc: Global,
    asks: &[String],
    registry: &Registry,
    segment: &Segment,
    out: &mut String,
) -> Result<(), NoMemory>
    requires valid { ValidRegistry registry.now }
    requires under { AreTablesUnder registry.now segment.now }
{
    for ask in asks {
        show_ask(alloc, ask.as_str(), registry, segment, out)?;
    }
    Ok(())
}

/// What is asked, and the answer.
fn show_ask(
    alloc: Global,
    ask: &str,
    registry: &Registry,
    segment: &Segment,
    out: &mut String,
) -> Result<(), NoMemory>
    requires valid { ValidRegistry registry.now }
    requires under { AreTablesUnder registry.now segment.now }
{
    let Some((texts, rest)) = ask.split_once(' ') else {
        return Ok(());
    };
    let Some((rooms, text)) = rest.split_once(' ') else {
        return Ok(());
    };
    out.push_str(text)?;
    out.push_str(" =>")?;
    let texts = numbers(alloc, texts)?;
    let rooms = numbers(alloc, rooms)?;
    match parse(alloc, text, registry, 0) {
        Ok(query) => show_query(alloc, &query, segment, &texts, &rooms, out),
        Err(_) => Ok(out.push_str(" no query\n")?),
    }
}

/// The answer to a query.
fn show_query(
    alloc: Global,
    query: &Query,
    segment: &Segment,
    texts: &List<u32>,
    rooms: &List<u32>,
    out: &mut String,
) -> Result<(), NoMemory>
    requires { IsFor segment.now query.now }
{
    let texts = texts_of(alloc, segment, texts.as_slice())?;
    let mut rooms = rooms_of(alloc, query, rooms.as_slice())?;
    match rows::<Brand>(alloc, query, segment, &texts, &mut rooms, Blank::new(1)) {
        Ok(rows) => {
            show_rows(alloc, &rows, out)?;
            show_rooms(alloc, rooms.as_slice(), out)
        }
        Err(Fault::Patterns) => Ok(out.push_str(" no patterns\n")?),
        Err(Fault::TooManyRows) => Ok(out.push_str(" TooManyRows\n")?),
        Err(Fault::NoMemory) => Err(NoMemory),
    }
}

/// The rows that a query keeps.
fn rows<L: Ledger>(
    alloc: Global,
    query: &Query,
    segment: &Segment,
    texts: &List<u32>,
    rooms: &mut List<u32>,
    blank: Blank,
) -> Result<RowList, Fault>
    requires query { IsFor segment.now query.now }
    requires texts { AreTexts segment.now texts.now }
    requires rooms { length rooms.old ≡ length (heads query.now) }
    requires name { blank.name ≡ L.name }
    requires parts { blank.parts ≡ L.parts }
    requires some { 0 < L.parts }
{
    let mut shop = RegexShop::new(alloc);
    let mut steps = Steps::<L>::new(blank);
    let prepared = match prepare(alloc, query, segment, &mut shop, &mut steps) {
        Ok(prepared) => prepared,
        Err(PatternError::NoMemory) => return Err(Fault::NoMemory),
        Err(_) => return Err(Fault::Patterns),
    };
    let mut scratch = Scratch::new(alloc, 0);
    match eval(
        alloc,
        query,
        &prepared,
        segment,
        texts,
        rooms,
        &mut scratch,
        &mut steps,
    ) {
        Ok(rows) => Ok(rows),
        Err(EvalError::TooManyRows) => Err(Fault::TooManyRows),
        Err(EvalError::NoMemory) => Err(Fault::NoMemory),
    }
}

/// Rows, with a space before each.
fn show_rows(alloc: Global, rows: &RowList, out: &mut String) -> Result<(), NoMemory> {
    for i in 0..rows.len() {
        let row = rows.get(i);
        let span = row.span();
        let (text, begin, end) = (span.text(), span.begin(), span.end());
        out.push_str(format!(in alloc; " {text}:{begin}:{end}")?.as_str())?;
        show_labels(alloc, row.labels(), out)?;
    }
    Ok(())
}

/// The labels that are set.
fn show_labels(alloc: Global, labels: &[u32; 9], out: &mut String) -> Result<(), NoMemory> {
    let mut mark = ':';
    for i in 0..9 {
        let place = labels[i];
        if place != Row::UNSET {
            let label = i + 1;
            out.push_str(format!(in alloc; "{mark}{label}={place}")?.as_str())?;
            mark = ',';
        }
    }
    Ok(())
}

/// What is left of rooms.
fn show_rooms(alloc: Global, rooms: &[u32], out: &mut String) -> Result<(), NoMemory> {
    out.push_str(" |")?;
    for room in rooms {
        out.push_str(format!(in alloc; " {room}")?.as_str())?;
    }
    out.push('\n')?;
    Ok(())
}
