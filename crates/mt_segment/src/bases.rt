//! The base attributes, one after another or side by side.

ghost use Rattle.std.specs.Prelude.{◌≡◌, ◌<◌, ◌≤◌, None, length, IfOk};
ghost use Rattle.mt_text_spec.specs.Registries.{column_of};
ghost use Rattle.mt_text_spec.specs.Texts.{corpus_tokens_limit, total_tokens};
ghost use Rattle.mt_segment_spec.specs.Tables.{AreBaseTables, column_values};
ghost use Rattle.mt_segment.specs.Building.{HaveBases, attr_of};

use super::columns::{base_tables, numbered_tables};
use super::sorting::Sorter;
use super::table::{AttrTables, MappedTable, Numbers};
use mt_base::{Attr, List, NoMemory, Strings, Text};
use mt_lexicon::Lexicon;
use rayon::current_num_threads;
use rayon::prelude::*;
use std::alloc::Global;
use std::thread::Threads;

/// The tables of so many tokens take far longer than starting threads does.
const MANY: usize = 1 << 18;

/// The tables of all attributes, of which those of the mapped ones are not made yet. Those of many tokens are made by threads, where the machine has them.
pub(crate) fn all_base_tables<R: Threads + Sync>(
    rt: &R,
    alloc: Global,
    texts: &[Text],
    attrs: &[Attr],
    tokens: usize,
) -> Result<Vec<AttrTables>, NoMemory>
    requires { total_tokens texts.now ≤ corpus_tokens_limit }
    ensures { IfOk result (λ tables. HaveBases attrs.now texts.now tables.items (length attrs.now)) }
{
    if tokens < MANY || current_num_threads(rt) < 2 {
        tables_in_turn(alloc, texts, attrs, tokens)
    } else {
        tables_side_by_side(rt, alloc, texts, attrs, tokens)
    }
}

/// The same tables by one thread, in memory that the attributes share.
fn tables_in_turn(
    alloc: Global,
    texts: &[Text],
    attrs: &[Attr],
    tokens: usize,
) -> Result<Vec<AttrTables>, NoMemory>
    requires { total_tokens texts.now ≤ corpus_tokens_limit }
    ensures { IfOk result (λ tables. HaveBases attrs.now texts.now tables.items (length attrs.now)) }
{
    let mut tables = Vec::with_capacity(alloc, attrs.len())?;
    let mut sorter = Sorter::new(alloc, tokens)?;
    let mut column = 0;
    for attr in attrs {
        tables.push(first_tables(alloc, texts, attr, column, tokens, &mut sorter)?)?;
        column += attr.is_base() as usize;
    }
    Ok(tables)
}

/// The tables of an attribute if it is a base attribute.
fn first_tables<'a>(
    alloc: Global,
    texts: &'a [Text],
    attr: &Attr,
    column: usize,
    tokens: usize,
    sorter: &mut Sorter<'a>,
) -> Result<AttrTables, NoMemory>
    requires { total_tokens texts.now ≤ corpus_tokens_limit }
    ensures { IfOk result (λ tables. attr.now.base ≡ None → AreBaseTables (column_values column texts.now) tables) }
{
    match attr.base() {
        None => base_tables(alloc, texts, column, tokens, sorter),
        Some(base) => Ok(unmade(alloc, base)),
    }
}

/// What stands for the tables of a mapped attribute until they are made. It takes no memory.
fn unmade(alloc: Global, base: u16) -> AttrTables {
    AttrTables {
        lexicon: Lexicon::from_strings(Strings::new(alloc)),
        numbers: Numbers::Mapped(base, MappedTable::new(List::new(alloc))),
        postings: List::new(alloc),
    }
}

/// The same tables of many tokens, each attribute's by a thread of its own as far as the machine has them.
fn tables_side_by_side<R: Threads + Sync>(
    rt: &R,
    alloc: Global,
    texts: &[Text],
    attrs: &[Attr],
    tokens: usize,
) -> Result<Vec<AttrTables>, NoMemory>
    requires { total_tokens texts.now ≤ corpus_tokens_limit }
    ensures { IfOk result (λ tables. HaveBases attrs.now texts.now tables.items (length attrs.now)) }
{
    let made: Result<Vec<AttrTables>, NoMemory> = (0..attrs.len())
        .into_par_iter()
        .with_min_len(1)
        .map(
            |number: usize| -> Result<AttrTables, NoMemory>
                requires { (number < length attrs.now) × (total_tokens texts.now ≤ corpus_tokens_limit) }
                ensures { IfOk result (λ tables. (attr_of attrs.entry.now number).base ≡ None → AreBaseTables (column_values (column_of attrs.entry.now number) texts.entry.now) tables) }
            { tables_of(alloc, texts, attrs, number, tokens) },
        )
        .collect(rt, alloc)?;
    made
}

/// The tables of the attribute with this number if it is a base attribute, for many tokens.
fn tables_of(
    alloc: Global,
    texts: &[Text],
    attrs: &[Attr],
    number: usize,
    tokens: usize,
) -> Result<AttrTables, NoMemory>
    requires number { number < length attrs.now }
    requires few { total_tokens texts.now ≤ corpus_tokens_limit }
    ensures { IfOk result (λ tables. (attr_of attrs.now number).base ≡ None → AreBaseTables (column_values (column_of attrs.now number) texts.now) tables) }
{
    match attrs[number].base() {
        None => numbered_tables(alloc, texts, column_before(attrs, number), tokens),
        Some(base) => Ok(unmade(alloc, base)),
    }
}

/// How many base attributes come before this attribute.
fn column_before(attrs: &[Attr], number: usize) -> usize
    requires { number ≤ length attrs.now }
    ensures { result ≡ column_of attrs.now number }
{
    let mut column = 0;
    for before in 0..number {
        column += attrs[before].is_base() as usize;
    }
    column
}
