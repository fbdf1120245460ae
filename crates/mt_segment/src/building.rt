//! Building a segment.

ghost use Rattle.std.specs.Prelude.{◌≡◌, ℕ, ◌<◌, ◌≤◌, Some, length, map, sum, IfOk, OnOk};
ghost use Rattle.std.specs.List.{All, Contains};
ghost use Rattle.mt_text_spec.specs.Registries.{ValidRegistry};
ghost use Rattle.mt_text_spec.specs.Texts.{ValidCorpus, text_tokens_limit};
ghost use Rattle.mt_segment_spec.specs.Tables as spec;
ghost use Rattle.mt_segment_spec.specs.Tables.{AreTablesOf, heads_of, tables_at};
ghost use Rattle.mt_segment.specs.Building.{AreAllMapped, AreUsable, HasBase, IsMappedAt};
ghost use Rattle.mt_segment.specs.Ends.{AreInnerEnds};
ghost use Rattle.mt_segment.specs.Mappers.{AreCalled, AreThere, calls_due, calls_of, image_by, named};

use super::bases::all_base_tables;
use super::mapped::map_by_name;
use super::segment::Segment;
use super::structs::all_instances;
use super::table::AttrTables;
use mt_base::{Attr, List, NoMemory, Registry, Text, Value};
use mt_lexicon::have_one_lexicon;
use mt_mapper::Mapper;
use std::alloc::Global;
use std::thread::Threads;

impl Segment {
    /// The segment of these texts under a registry, by the mappers that it names. Each mapped attribute calls its mapper once for each distinct value of its base.
    /// Where memory runs out half-way, no mapper was called more often than that. The base attributes of many tokens are worked on side by side.
    pub fn build<M: Mapper, R: Threads + Sync>(
        rt: &R,
        alloc: Global,
        texts: &[Text],
        registry: &Registry,
        mappers: &mut [M],
    ) -> Result<Self, NoMemory>
        requires registry { ValidRegistry registry.now }
        requires texts { ValidCorpus registry.now texts.now }
        requires some { 0 < length texts.now }
        requires mappers { AreThere (map M.called mappers.old) registry.now.attrs }
        ensures tables { IfOk result (λ segment. AreTablesOf (image_by (named M.called M.image mappers.old)) registry.now texts.now segment) }
        ensures same { named M.called M.image mappers.new ≡ named M.called M.image mappers.old }
        ensures calls { (t : spec.Tables) → AreTablesOf (image_by (named M.called M.image mappers.old)) registry.now texts.now t → AreCalled (calls_due (map M.called mappers.old) t.attrs registry.now.attrs) (map M.calls mappers.old) (map M.calls mappers.new) result }
    {
        have_one_lexicon();
        let heads = heads(alloc, texts)?;
        let ends = inner_ends(alloc, heads.as_slice())?;
        let attrs = registry.attrs().as_slice();
        let tokens = count(texts);
        let mut tables = all_base_tables(rt, alloc, texts, attrs, tokens)?;
        map_all(alloc, attrs, tables.as_mut_slice(), mappers)?;
        let kinds = registry.kinds().len() as u16;
        let structs = all_instances(alloc, texts, kinds)?;
        Ok(Segment::from_parts(heads, ends, List::from_vec(tables), kinds, structs))
    }
}

/// The names and lengths of texts.
fn heads(alloc: Global, texts: &[Text]) -> Result<List<(Value, u32)>, NoMemory>
    requires { All (λ text. length text.tokens ≤ text_tokens_limit) texts.now }
    ensures { IfOk result (λ heads. heads ≡ heads_of texts.now) }
{
    let mut heads = List::with_capacity(alloc, texts.len())?;
    for text in texts {
        heads.push((text.name().copy(alloc)?, text.len() as u32))?;
    }
    Ok(heads)
}

/// How many tokens there are, which tells how the tables are made.
fn count(texts: &[Text]) -> usize {
    let mut count = 0usize;
    for text in texts {
        count = count.saturating_add(text.len());
    }
    count
}

/// The places where texts of these lengths end, but for the last one, which needs none. So one text alone takes no memory for them.
pub(crate) fn inner_ends(alloc: Global, texts: &[(Value, u32)]) -> Result<Vec<u32>, NoMemory>
    requires { sum (map (λ head. head.1) texts.now) < 4294967296 }
    ensures { IfOk result (λ ends. AreInnerEnds texts.now ends.items) }
{
    let count = texts.len().saturating_sub(1);
    let mut ends = Vec::with_capacity(alloc, count)?;
    let mut end = 0;
    for number in 0..count {
        end += texts[number].1;
        ends.push(end)?;
    }
    Ok(ends)
}

/// Makes the tables of the mapped attributes.
fn map_all<M: Mapper>(
    alloc: Global,
    attrs: &[Attr],
    tables: &mut [AttrTables],
    mappers: &mut [M],
) -> Result<(), NoMemory>
    requires count { length tables.old ≡ length attrs.now }
    requires bases { All (HasBase attrs.now tables.old) attrs.now }
    requires there { AreThere (map M.called mappers.old) attrs.now }
    ensures length { length tables.new ≡ length tables.old }
    ensures tables { OnOk result (AreAllMapped (image_by (named M.called M.image mappers.old)) attrs.now tables.old tables.new (length attrs.now)) }
    ensures same { named M.called M.image mappers.new ≡ named M.called M.image mappers.old }
    ensures calls { AreCalled (calls_due (map M.called mappers.old) tables.old attrs.now) (map M.calls mappers.old) (map M.calls mappers.new) result }
{
    for (number, attr) in attrs.iter().enumerate() {
        map_attr(alloc, number, attr, tables, mappers)?;
    }
    Ok(())
}

/// Makes the tables of an attribute if it is a mapped one.
fn map_attr<M: Mapper>(
    alloc: Global,
    number: usize,
    attr: &Attr,
    tables: &mut [AttrTables],
    mappers: &mut [M],
) -> Result<(), NoMemory>
    requires number { number < length tables.old }
    requires there { (b : ℕ) → attr.now.base ≡ Some b → Contains (map M.called mappers.old) attr.now.mapper }
    requires base { (b : ℕ) → attr.now.base ≡ Some b → (b < length tables.old) × AreUsable (tables_at tables.old b) }
    ensures length { length tables.new ≡ length tables.old }
    ensures tables { OnOk result (IsMappedAt (image_by (named M.called M.image mappers.old) attr.now.mapper) attr.now.base number tables.old tables.new) }
    ensures same { named M.called M.image mappers.new ≡ named M.called M.image mappers.old }
    ensures calls { AreCalled (λ m. calls_of (map M.called mappers.old) tables.old m attr.now.mapper attr.now.base) (map M.calls mappers.old) (map M.calls mappers.new) result }
{
    let Some(base) = attr.base() else {
        return Ok(());
    };
    let made = map_by_name(
        alloc,
        base,
        &tables[base as usize],
        attr.mapper().as_str(),
        mappers,
    )?;
    tables[number] = made;
    Ok(())
}
