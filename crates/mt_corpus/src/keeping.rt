//! Keeping the mappers that a registry names.

ghost use Rattle.std.specs.Prelude.{◌≡◌, ◌<◌, [], length, map, take, slice_get, Some};
ghost use Rattle.std.specs.List.{list_any};
ghost use Rattle.std.specs.Str.{bytes_eq};
ghost use Rattle.mt_segment.specs.Mappers.{AreThere, image_by, named};
ghost use Rattle.mt_corpus.specs.Keeping.{AgreeWith, firsts, is_first, is_named};

use mt_base::Registry;
use mt_mapper::Mapper;

/// Whether a mapped attribute of the registry has the mapper of this name.
fn names(registry: &Registry, name: &str) -> bool
    ensures { result ≡ is_named registry.now name.now }
{
    registry.attrs().as_slice().iter().any(|attr| attr.base().is_some()
        && attr.mapper().as_str() == name)
}

/// Whether one of these mappers has this name.
fn have<M: Mapper>(mappers: &[M], name: &str) -> bool
    ensures { result ≡ list_any (λ mapper. bytes_eq name.now (M.called mapper)) mappers.now }
{
    mappers.iter().any(|mapper| name == mapper.name())
}

/// Whether the registry names the mapper with this number, and no earlier one has its name.
fn is_kept<M: Mapper>(registry: &Registry, mappers: &[M], number: usize) -> bool
    requires { number < length mappers.now }
    ensures { (mapper : M) → slice_get mappers.now number ≡ Some mapper → result ≡ is_first M.called (is_named registry.now) (take number mappers.now) mapper }
{
    let name = mappers[number].name();
    names(registry, name) && !have(&mappers[..number], name)
}

/// Keeps the mappers that the registry names, of two with one name the first, and drops the others. It takes no memory, and compares each two names, since the mappers
/// are few.
pub fn keep_named<M: Mapper>(registry: &Registry, mappers: &mut Vec<M>)
    ensures kept { mappers.new.items ≡ firsts M.called (is_named registry.now) [] mappers.old.items }
    ensures there { AreThere (map M.called mappers.old.items) registry.now.attrs → AreThere (map M.called mappers.new.items) registry.now.attrs }
    ensures images { AgreeWith (image_by (named M.called M.image mappers.old.items)) (named M.called M.image mappers.new.items) registry.now }
{
    for number in (0..mappers.len()).rev() {
        if !is_kept(registry, mappers.as_slice(), number) {
            mappers.remove(number);
        }
    }
}
