//! What a vertical has beside its columns.

ghost use Rattle.std.specs.Prelude.{◌≡◌, ℕ, ◌≤◌, ◌∷◌, [], ◌++◌, List as Items, length, filter, IfOk, OnOk};
ghost use Rattle.std.specs.Str.Lines.{lines};
ghost use Rattle.mt_text_spec.specs.Registries.{ValidRegistry};
ghost use Rattle.mt_file_spec.specs.Vertical.{text_lines};
ghost use Rattle.mt_segment_spec.specs.Tables.{is_of_kind};
ghost use Rattle.mt_vertical_tables.specs.Outlines.{IsOutline, kind_by_kind};

use super::unmade::Unmade;
use mt_base::{NoMemory, Registry, StructSpan};
use mt_segment::Lists;
use mt_vertical::read_outline;
use std::alloc::Global;

/// How many tokens a vertical has, and the instances of structures, kind by kind.
#[derive(Drop)]
pub(crate) struct Outline {
    pub(crate) tokens: u32,
    pub(crate) structs: Lists<StructSpan>,
}

/// Reads a text's lines for its structures. Its tokens are only counted.
pub(crate) fn text_outline(
    alloc: Global,
    registry: &Registry,
    text: &str,
) -> Result<Outline, Unmade>
    requires { ValidRegistry registry.now }
    ensures { IfOk result (λ outline. (name bytes : Items ℕ) → text_lines bytes ≡ lines text.now → IsOutline registry.now name bytes outline.tokens outline.structs) }
{
    let text = read_outline(alloc, text, registry)?;
    let kinds = registry.kinds().len() as u16;
    let structs = instances(alloc, text.structs.as_slice(), kinds)?;
    Ok(Outline {
        tokens: text.tokens,
        structs,
    })
}

/// Those of instances that are of the first kinds, so many, kind by kind, with copies of their values.
pub(crate) fn instances(
    alloc: Global,
    structs: &[StructSpan],
    kinds: u16,
) -> Result<Lists<StructSpan>, NoMemory>
    ensures { IfOk result (λ all. all ≡ kind_by_kind kinds structs.now) }
{
    let mut all = Lists::with_capacity(alloc, kinds as usize, structs.len())?;
    for kind in 0..kinds {
        add_kind(alloc, &mut all, structs, kind)?;
    }
    Ok(all)
}

/// Adds those of instances that are of a kind.
fn add_kind(
    alloc: Global,
    all: &mut Lists<StructSpan>,
    structs: &[StructSpan],
    kind: u16,
) -> Result<(), NoMemory>
    ensures { OnOk result (all.new ≡ all.old ++ filter (is_of_kind kind) structs.now ∷ []) }
{
    all.begin()?;
    for span in structs {
        if span.kind() == kind {
            all.push(span.copy(alloc)?)?;
        }
    }
    Ok(())
}
