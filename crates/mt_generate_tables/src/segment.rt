//! The segment.

ghost use Rattle.std.specs.Prelude.{◌≡◌, ℕ, ◌<◌, ◌≤◌, [], ◌∷◌, length, IfOk, List as Items};
ghost use Rattle.std.specs.Thread.{IsSync};
ghost use Rattle.mt_text_spec.specs.Registries.{ValidRegistry, standard_registry};
ghost use Rattle.mt_text_spec.specs.Texts.{ValidText, text_tokens_limit};
ghost use Rattle.mt_generate_spec.specs.Generated.{generated_text, tokens_from};
ghost use Rattle.mt_segment_spec.specs.Tables.{AreBaseTables, AreTablesOf, AreTablesUnder};
ghost use Rattle.mt_generate_tables.specs.Coded.{values_of};
ghost use Rattle.mt_generate_tables.specs.Joined.{AreColumnTables, AreInstances, tables_of};

use super::drawing::Draws;
use super::instances::instances;
use mt_base::{List, NoMemory, Registry, StructSpan, Value};
use mt_inverting::postings_by_runs;
use mt_lexicon::Lexicon;
use mt_postings::Postings;
use mt_segment::{Column, Lists, Segment};
use rayon::{current_num_threads, join};
use std::alloc::Global;
use std::marker::Model;
use std::thread::Threads;

/// The tables of a column.
#[derive(Drop)]
struct ColumnTables {
    lexicon: Lexicon,
    column: Column,
    postings: List<Postings>,
}

impl Model for ColumnTables {
    ghost use Rattle.std.specs.Prelude.{None};
    ghost use Rattle.mt_segment_spec.specs.Tables as spec;

    ghost Value = { spec.AttrTables };

    ghost view = { λ t. record { base = None; lexicon = t.lexicon; numbers = t.column; postings = t.postings } };
}

/// The tables of all three columns.
#[derive(Drop)]
struct Columns {
    word: ColumnTables,
    tag: ColumnTables,
    lemma: ColumnTables,
}

/// The segment of the generated text of this name that has so many tokens drawn from the seed, under the standard registry. The text itself is not made. Where the
/// machine runs more than one thread at a time, up to four draw the tokens of a long text. Then one makes the instances, and three make the tables, a column each, and
/// beside each of them another makes half of the column's lists of places.
pub fn generated_segment<R: Threads + Sync>(
    rt: &R,
    alloc: Global,
    registry: &Registry,
    name: Value,
    seed: u64,
    tokens: u32,
) -> Result<Segment, NoMemory>
    requires standard { registry.now ≡ standard_registry }
    requires registry { ValidRegistry registry.now }
    requires text { ValidText registry.now (generated_text name seed tokens) }
    ensures { IfOk result (λ segment. (images : Items ℕ → Items ℕ → Items ℕ) → AreTablesOf images registry.now (generated_text name seed tokens ∷ []) segment) }
{
    let draws = Draws::new(rt, alloc, seed, tokens)?;
    let (columns, structs) = parts(rt, alloc, &name, tokens, &draws)?;
    let mut texts = List::with_capacity(alloc, 1)?;
    texts.push((name, tokens))?;
    of_columns(alloc, registry, texts, structs, columns)
}

/// The tables of so many tokens take a millisecond or more, far longer than starting threads does.
const MANY: usize = 1 << 16;

/// The tables of the columns of the tokens that were drawn, so many, and the instances of their text. Where they are many, another thread makes the instances.
fn parts<R: Threads + Sync>(
    rt: &R,
    alloc: Global,
    name: &Value,
    tokens: u32,
    draws: &Draws,
) -> Result<(Columns, Lists<StructSpan>), NoMemory>
    requires { length draws.now ≤ text_tokens_limit }
    ensures columns { IfOk result (λ pair. AreColumnTables draws.now pair.0.word pair.0.tag pair.0.lemma) }
    ensures structs { IfOk result (λ pair. AreInstances name.now tokens pair.1) }
{
    if (tokens as usize) < MANY || current_num_threads(rt) < 2 {
        let structs = instances(alloc, name, tokens)?;
        return Ok((all_columns(rt, alloc, draws)?, structs));
    }
    let structs = move || -> Result<Lists<StructSpan>, NoMemory>
        ensures { IfOk result (AreInstances name.entry.now tokens) }
    { instances(alloc, name, tokens) };
    let columns = move || -> Result<Columns, NoMemory>
        requires { IsSync R.row × (length draws.now ≤ text_tokens_limit) }
        ensures { IfOk result (λ all. AreColumnTables draws.entry.now all.word all.tag all.lemma) }
    { columns_beside(rt, alloc, draws) };
    let (structs, columns) = join(rt, structs, columns);
    Ok((columns?, structs?))
}

/// The tables of all three columns of the tokens that were drawn.
fn all_columns<R: Threads + Sync>(rt: &R, alloc: Global, draws: &Draws) -> Result<Columns, NoMemory>
    requires { length draws.now ≤ text_tokens_limit }
    ensures { IfOk result (λ all. AreColumnTables draws.now all.word all.tag all.lemma) }
{
    let word = tables(rt, alloc, draws, 0)?;
    let tag = tables(rt, alloc, draws, 1)?;
    let lemma = tables(rt, alloc, draws, 2)?;
    Ok(Columns { word, tag, lemma })
}

/// The same, made side by side.
fn columns_beside<R: Threads + Sync>(
    rt: &R,
    alloc: Global,
    draws: &Draws,
) -> Result<Columns, NoMemory>
    requires { length draws.now ≤ text_tokens_limit }
    ensures { IfOk result (λ all. AreColumnTables draws.now all.word all.tag all.lemma) }
{
    let word = move || -> Result<ColumnTables, NoMemory>
        requires { IsSync R.row × (length draws.now ≤ text_tokens_limit) }
        ensures { IfOk result (λ tables. AreBaseTables (values_of 0 draws.entry.now) tables) }
    { tables(rt, alloc, draws, 0) };
    let others = move || -> Result<(ColumnTables, ColumnTables), NoMemory>
        requires { IsSync R.row × (length draws.now ≤ text_tokens_limit) }
        ensures tag { IfOk result (λ pair. AreBaseTables (values_of 1 draws.entry.now) pair.0) }
        ensures lemma { IfOk result (λ pair. AreBaseTables (values_of 2 draws.entry.now) pair.1) }
    { last_tables(rt, alloc, draws) };
    let (word, others) = join(rt, word, others);
    let (tag, lemma) = others?;
    let word = word?;
    Ok(Columns { word, tag, lemma })
}

/// The tables of the tags and of the lemmas of the tokens that were drawn, made side by side.
fn last_tables<R: Threads + Sync>(
    rt: &R,
    alloc: Global,
    draws: &Draws,
) -> Result<(ColumnTables, ColumnTables), NoMemory>
    requires { length draws.now ≤ text_tokens_limit }
    ensures tag { IfOk result (λ pair. AreBaseTables (values_of 1 draws.now) pair.0) }
    ensures lemma { IfOk result (λ pair. AreBaseTables (values_of 2 draws.now) pair.1) }
{
    let tag = move || -> Result<ColumnTables, NoMemory>
        requires { IsSync R.row × (length draws.now ≤ text_tokens_limit) }
        ensures { IfOk result (λ tables. AreBaseTables (values_of 1 draws.entry.now) tables) }
    { tables(rt, alloc, draws, 1) };
    let lemma = move || -> Result<ColumnTables, NoMemory>
        requires { IsSync R.row × (length draws.now ≤ text_tokens_limit) }
        ensures { IfOk result (λ tables. AreBaseTables (values_of 2 draws.entry.now) tables) }
    { tables(rt, alloc, draws, 2) };
    let (tag, lemma) = join(rt, tag, lemma);
    Ok((tag?, lemma?))
}

/// The tables of a column of the tokens that were drawn.
fn tables<R: Threads + Sync>(
    rt: &R,
    alloc: Global,
    draws: &Draws,
    column: usize,
) -> Result<ColumnTables, NoMemory>
    requires column { column < 3 }
    requires few { length draws.now ≤ text_tokens_limit }
    ensures { IfOk result (λ tables. AreBaseTables (values_of column draws.now) tables) }
{
    let (lexicon, numbers) = draws.number(alloc, column)?;
    let postings = postings_by_runs(rt, alloc, numbers.as_slice(), lexicon.len() as usize)?;
    Ok(ColumnTables {
        lexicon,
        column: Column::new(List::from_vec(numbers)),
        postings,
    })
}

/// The segment of a text with these tables of its three columns.
fn of_columns(
    alloc: Global,
    registry: &Registry,
    texts: List<(Value, u32)>,
    structs: Lists<StructSpan>,
    columns: Columns,
) -> Result<Segment, NoMemory>
    requires { AreTablesUnder registry.now (tables_of texts structs columns.word columns.tag columns.lemma) }
    ensures { IfOk result (λ segment. segment ≡ tables_of texts structs columns.word columns.tag columns.lemma) }
{
    let Columns { word, tag, lemma } = columns;
    let lexicons = three(alloc, word.lexicon, tag.lexicon, lemma.lexicon)?;
    let columns = three(alloc, word.column, tag.column, lemma.column)?;
    let postings = three(alloc, word.postings, tag.postings, lemma.postings)?;
    Segment::of_tables(
        alloc,
        registry,
        texts,
        lexicons,
        columns,
        List::new(alloc),
        postings,
        structs,
    )
}

/// A list of three things.
fn three<T: Drop>(alloc: Global, first: T, second: T, third: T) -> Result<List<T>, NoMemory>
    ensures { IfOk result (λ list. list ≡ first ∷ second ∷ third ∷ []) }
{
    let mut list = List::with_capacity(alloc, 3)?;
    list.push(first)?;
    list.push(second)?;
    list.push(third)?;
    Ok(list)
}
