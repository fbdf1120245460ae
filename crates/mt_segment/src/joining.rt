//! A segment put together of its tables.

ghost use Rattle.std.specs.Prelude.{◌≡◌, List as Items, IfOk};
ghost use Rattle.mt_segment_spec.specs.Tables as spec;
ghost use Rattle.mt_segment_spec.specs.Tables.{AreTables, AreTablesUnder, HaveParts};
ghost use Rattle.mt_segment.specs.Joined.{AreJoined, HasNumbers, TakesNumbers, of_one_text};
ghost use Rattle.mt_segment.specs.Numbers.{base_in, numbers_in};

use super::building::inner_ends;
use super::lists::Lists;
use super::queue::Queue;
use super::segment::Segment;
use super::table::{AttrTables, Column, MappedTable, Numbers};
use mt_base::{Attr, List, NoMemory, Registry, StructSpan, Value};
use mt_lexicon::Lexicon;
use mt_postings::Postings;
use std::alloc::Global;

impl Segment {
    /// The segment of one valid text that has these tables: its name, how many tokens it has, the tables of each attribute, and its instances, kind by kind. Without
    /// memory the tables are dropped.
    pub fn of_text(
        alloc: Global,
        name: Value,
        tokens: u32,
        attrs: Vec<AttrTables>,
        structs: Lists<StructSpan>,
    ) -> Result<Self, NoMemory>
        requires { AreTables (of_one_text name tokens attrs.items structs) }
        ensures { IfOk result (λ segment. segment ≡ of_one_text name tokens attrs.items structs) }
    {
        let mut texts = List::with_capacity(alloc, 1)?;
        texts.push((name, tokens))?;
        let kinds = structs.len() as u16;
        Ok(Segment::from_parts(
            texts,
            Vec::new(alloc),
            List::from_vec(attrs),
            kinds,
            structs,
        ))
    }

    /// The segment with these tables, which are those of some valid texts: the texts' names and lengths; per attribute the lexicon, and for each of its values
    /// the places; per base attribute the column; per mapped attribute the table; per kind of structure and text the instances. No mapper is called. Without
    /// memory the tables are dropped.
    pub fn of_tables(
        alloc: Global,
        registry: &Registry,
        texts: List<(Value, u32)>,
        lexicons: List<Lexicon>,
        columns: List<Column>,
        tables: List<MappedTable>,
        postings: List<List<Postings>>,
        structs: Lists<StructSpan>,
    ) -> Result<Self, NoMemory>
        requires { (t : spec.Tables) × AreTablesUnder registry.now t × HaveParts t texts lexicons columns tables postings structs }
        ensures { IfOk result (λ segment. (t : spec.Tables) → AreTablesUnder registry.now t → HaveParts t texts lexicons columns tables postings structs → segment ≡ t) }
    {
        let ends = inner_ends(alloc, texts.as_slice())?;
        let attrs = join(
            alloc,
            registry.attrs().as_slice(),
            Queue::new(lexicons.into_vec()),
            Queue::new(columns.into_vec()),
            Queue::new(tables.into_vec()),
            Queue::new(postings.into_vec()),
        )?;
        let kinds = registry.kinds().len() as u16;
        Ok(Segment::from_parts(texts, ends, attrs, kinds, structs))
    }
}

/// The tables of attributes, put together of their parts.
fn join(
    alloc: Global,
    attrs: &[Attr],
    mut lexicons: Queue<Lexicon>,
    mut columns: Queue<Column>,
    mut tables: Queue<MappedTable>,
    mut postings: Queue<List<Postings>>,
) -> Result<List<AttrTables>, NoMemory>
    requires { (t : Items spec.AttrTables) × AreJoined attrs.now t lexicons columns tables postings }
    ensures { IfOk result (λ all. (t : Items spec.AttrTables) → AreJoined attrs.now t lexicons columns tables postings → all ≡ t) }
{
    let mut all = List::with_capacity(alloc, attrs.len())?;
    for attr in attrs {
        let lexicon = lexicons.take();
        let numbers = take_numbers(attr.base(), &mut columns, &mut tables);
        let postings = postings.take();
        all.push(AttrTables {
            lexicon,
            numbers,
            postings,
        })?;
    }
    Ok(all)
}

/// The next column for a base attribute, the next table for a mapped one.
fn take_numbers(
    base: Option<u16>,
    columns: &mut Queue<Column>,
    tables: &mut Queue<MappedTable>,
) -> Numbers
    requires { HasNumbers base columns.old tables.old }
    ensures base { base_in result ≡ base }
    ensures numbers { TakesNumbers base columns.old tables.old (numbers_in result) columns.new tables.new }
{
    match base {
        None => Numbers::Base(columns.take()),
        Some(base) => Numbers::Mapped(base, tables.take()),
    }
}
