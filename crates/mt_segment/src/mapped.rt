//! The tables of mapped attributes.

ghost use Rattle.std.specs.Prelude.{◌≡◌, ℕ, ◌<◌, ◌==◌, length, map, if◌then◌else◌, IfOk, IfSome, IfNone, IsTrue, ◌↔◌, List as Items};
ghost use Rattle.std.specs.List.{All, Contains};
ghost use Rattle.mt_store_spec.specs.Lexicons.{IsLexiconOf, Renumbers};
ghost use Rattle.mt_lexicon.specs.Joins.{renumbered};
ghost use Rattle.mt_segment.specs.Mappers.{AreCalled, AreMade, AreMapped, AreThere, Called, IsThere, image_by, named, number_of};

use super::inverting::postings_of;
use super::numbering::Numbering;
use super::sorting::{FEW, sorted_numbers};
use super::table::{AttrTables, MappedTable, Numbers};
use mt_base::{Attr, List, NoMemory, Registry, Strings};
use mt_lexicon::Lexicon;
use mt_mapper::Mapper;
use std::alloc::Global;

/// The number of the first mapper of this name.
fn find<M: Mapper>(mappers: &[M], name: &str) -> Option<usize>
    ensures found { IfSome result (λ at. at ≡ number_of (map M.called mappers.now) name.now) }
    ensures within { IfSome result (λ at. at < length mappers.now) }
    ensures there { IfSome result (λ _. Contains (map M.called mappers.now) name.now) }
    ensures none { IfNone result (¬ Contains (map M.called mappers.now) name.now) }
{
    for (at, mapper) in mappers.iter().enumerate() {
        if name == mapper.name() {
            return Some(at);
        }
    }
    None
}

/// Whether the mapper of each mapped attribute is among these.
pub fn has_mappers<M: Mapper>(registry: &Registry, mappers: &[M]) -> bool
    ensures { IsTrue result ↔ AreThere (map M.called mappers.now) registry.now.attrs }
{
    for attr in registry.attrs().as_slice() {
        if !has_mapper(attr, mappers) {
            return false;
        }
    }
    true
}

/// Whether an attribute is no mapped one, or its mapper is among these.
fn has_mapper<M: Mapper>(attr: &Attr, mappers: &[M]) -> bool
    ensures { IsTrue result ↔ IsThere (map M.called mappers.now) attr.now }
{
    match attr.base() {
        None => true,
        Some(_) => find(mappers, attr.mapper().as_str()).is_some(),
    }
}

/// The tables of the attribute whose base has this number and these tables, by the mapper of this name. It is called once for each distinct value of the base,
/// and no other mapper is called.
pub(crate) fn map_by_name<M: Mapper>(
    alloc: Global,
    base: u16,
    under: &AttrTables,
    name: &str,
    mappers: &mut [M],
) -> Result<AttrTables, NoMemory>
    requires there { Contains (map M.called mappers.old) name.now }
    requires few { length under.now.numbers < 4294967295 }
    requires within { All (λ n. n < length under.now.lexicon) under.now.numbers }
    ensures tables { IfOk result (λ tables. AreMapped base (image_by (named M.called M.image mappers.old) name.now) under.now tables) }
    ensures same { named M.called M.image mappers.new ≡ named M.called M.image mappers.old }
    ensures calls { AreCalled (λ m. if number_of (map M.called mappers.old) name.now == m then length under.now.lexicon else 0) (map M.calls mappers.old) (map M.calls mappers.new) result }
{
    match find(mappers, name) {
        Some(at) => mapped_tables(alloc, base, under, &mut mappers[at]),
        None => unreachable!(),
    }
}

/// The tables of the attribute whose base has this number and these tables. The mapper is called once for each distinct value of the base.
fn mapped_tables<M: Mapper>(
    alloc: Global,
    base: u16,
    under: &AttrTables,
    mapper: &mut M,
) -> Result<AttrTables, NoMemory>
    requires few { length under.now.numbers < 4294967295 }
    requires within { All (λ n. n < length under.now.lexicon) under.now.numbers }
    ensures tables { IfOk result (λ tables. AreMapped base (M.image mapper.old) under.now tables) }
    ensures calls { Called (length under.now.lexicon) (M.calls mapper.old) (M.calls mapper.new) result }
    ensures image { M.image mapper.new ≡ M.image mapper.old }
    ensures called { M.called mapper.new ≡ M.called mapper.old }
{
    let (lexicon, numbers) = image_numbers(alloc, &under.lexicon, mapper)?;
    tables_of(alloc, base, under, lexicon, numbers)
}

/// The tables of the attribute whose base has this number and these tables, and whose lexicon has these numbers for the values of the base.
fn tables_of(
    alloc: Global,
    base: u16,
    under: &AttrTables,
    lexicon: Lexicon,
    numbers: List<u32>,
) -> Result<AttrTables, NoMemory>
    requires few { length under.now.numbers < 4294967295 }
    requires within { All (λ n. n < length numbers) under.now.numbers }
    requires low { All (λ n. n < length lexicon) numbers }
    ensures { IfOk result (λ tables. (images : Items (Items ℕ)) → IsLexiconOf images lexicon → Renumbers numbers images lexicon → AreMade base images under.now.numbers tables) }
{
    let table = MappedTable::new(numbers);
    let column = through(alloc, under.numbers.as_slice(), &table)?;
    let postings = postings_of(alloc, column.as_slice(), lexicon.len() as usize)?;
    Ok(AttrTables {
        lexicon,
        numbers: Numbers::Mapped(base, table),
        postings,
    })
}

/// The lexicon of the images of the values of a lexicon, and the number there of each image in order. The mapper is called once for each value; where memory
/// runs out half-way, those calls are counted that were made.
fn image_numbers<M: Mapper>(
    alloc: Global,
    lexicon: &Lexicon,
    mapper: &mut M,
) -> Result<(Lexicon, List<u32>), NoMemory>
    ensures lexicon { IfOk result (λ r. IsLexiconOf (map (M.image mapper.old) lexicon.now) r.0) }
    ensures numbers { IfOk result (λ r. Renumbers r.1 (map (M.image mapper.old) lexicon.now) r.0) }
    ensures calls { Called (length lexicon.now) (M.calls mapper.old) (M.calls mapper.new) result }
    ensures image { M.image mapper.new ≡ M.image mapper.old }
    ensures called { M.called mapper.new ≡ M.called mapper.old }
{
    if lexicon.len() as usize <= FEW {
        let images = few_images(alloc, lexicon, mapper)?;
        sorted_numbers(alloc, &images)
    } else {
        let images = number_images(alloc, lexicon, mapper)?;
        images.finish()
    }
}

/// The images of the values of a lexicon, as they are. The mapper is called as for their numbers.
fn few_images<M: Mapper>(
    alloc: Global,
    lexicon: &Lexicon,
    mapper: &mut M,
) -> Result<Strings, NoMemory>
    ensures images { IfOk result (λ all. all ≡ map (M.image mapper.old) lexicon.now) }
    ensures calls { Called (length lexicon.now) (M.calls mapper.old) (M.calls mapper.new) result }
    ensures image { M.image mapper.new ≡ M.image mapper.old }
    ensures called { M.called mapper.new ≡ M.called mapper.old }
{
    let mut kept = Strings::with_capacity(alloc, lexicon.len() as usize, bytes_of(lexicon))?;
    let mut image = String::new(alloc);
    for id in 0..lexicon.len() {
        mapper.map(lexicon.value(id), &mut image)?;
        kept.push(image.as_str())?;
    }
    Ok(kept)
}

/// How many bytes the values of a lexicon have, for the memory that is taken for their images.
fn bytes_of(lexicon: &Lexicon) -> usize {
    let mut bytes = 0usize;
    for id in 0..lexicon.len() {
        bytes = bytes.saturating_add(lexicon.value(id).len());
    }
    bytes
}

/// The images of the values of a lexicon, numbered as they are seen. The mapper is called once for each; where memory runs out half-way, those calls are counted
/// that were made.
fn number_images<M: Mapper>(
    alloc: Global,
    lexicon: &Lexicon,
    mapper: &mut M,
) -> Result<Numbering, NoMemory>
    ensures images { IfOk result (λ all. all ≡ map (M.image mapper.old) lexicon.now) }
    ensures calls { Called (length lexicon.now) (M.calls mapper.old) (M.calls mapper.new) result }
    ensures image { M.image mapper.new ≡ M.image mapper.old }
    ensures called { M.called mapper.new ≡ M.called mapper.old }
{
    let mut images = Numbering::new(alloc, lexicon.len() as usize)?;
    let mut image = String::new(alloc);
    for id in 0..lexicon.len() {
        mapper.map(lexicon.value(id), &mut image)?;
        images.push(image.as_str())?;
    }
    Ok(images)
}

/// A column after each of its numbers went through a table.
fn through(alloc: Global, column: &[u32], table: &MappedTable) -> Result<Vec<u32>, NoMemory>
    requires { All (λ n. n < length table.now) column.now }
    ensures { IfOk result (λ v. v.items ≡ renumbered table.now column.now) }
{
    let mut numbers = Vec::with_capacity(alloc, column.len())?;
    for number in column {
        numbers.push(table.get(*number))?;
    }
    Ok(numbers)
}
