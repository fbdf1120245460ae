//! The instances of all kinds while a vertical is read.

ghost use Rattle.std.specs.Prelude.{◌≡◌, ℕ, ◌<◌, ◌≤◌, ◌++◌, List as Items, length, replicate, slice_get, option_map, None, Some, IfOk, OnOk};
ghost use Rattle.mt_text_spec.specs.Registries.{ValidRegistry, kind_names};
ghost use Rattle.mt_file_spec.specs.VerticalLines.{Opens, Stands, Closes};
ghost use Rattle.mt_vertical.specs.Causes.{text_cause_of};
ghost use Rattle.mt_vertical.specs.Readers.{DidKinds, TagIsRead, gathered, no_instances};

use super::error::TextCause;
use super::instances::Instances;
use super::tags::{Form, Tag};
use super::values::tag_values;
use mt_base::{List, NoMemory, Registry, StructSpan, Value};
use std::alloc::Global;
use std::marker::Model;

/// The instances of each kind.
#[derive(Debug, Drop)]
pub struct Structs {
    kinds: Vec<Instances>,
}

impl Model for Structs {
    ghost use Rattle.std.specs.Prelude.{List};
    ghost use Rattle.mt_vertical.specs.Readers as readers;

    ghost Value = { List readers.Kept };

    ghost view = { λ s. s.kinds.items };
}

impl Structs {
    /// No instances yet of so many kinds.
    pub fn new(alloc: Global, count: usize) -> Result<Self, NoMemory>
        ensures { IfOk result (λ structs. structs ≡ replicate count no_instances) }
    {
        let mut kinds = Vec::with_capacity(alloc, count)?;
        for _ in 0..count {
            kinds.push(Instances::new(alloc))?;
        }
        Ok(Structs { kinds })
    }

    /// Reads a tag that stands behind so many tokens. One that has a cause is not read, and the first of its causes is told.
    pub fn read_tag(
        &mut self,
        alloc: Global,
        registry: &Registry,
        place: u32,
        tag: Tag,
    ) -> Result<Option<TextCause>, NoMemory>
        requires valid { ValidRegistry registry.now }
        requires count { length self.old ≡ length registry.now.kinds }
        ensures { IfOk result (λ cause. TagIsRead registry.now place self.old tag.entry.form tag.entry.name.now tag.entry.attrs.now self.new (option_map text_cause_of cause)) }
    {
        match registry.find_kind(tag.name) {
            Some(kind) => self.read_declared(alloc, registry, kind, place, tag),
            None => Ok(None),
        }
    }

    /// Reads a tag of the kind with this number.
    fn read_declared(
        &mut self,
        alloc: Global,
        registry: &Registry,
        kind: u16,
        place: u32,
        tag: Tag,
    ) -> Result<Option<TextCause>, NoMemory>
        requires valid { ValidRegistry registry.now }
        requires count { length self.old ≡ length registry.now.kinds }
        requires declared { slice_get (kind_names registry.now.kinds) kind ≡ Some tag.name.now }
        requires within { kind < length registry.now.kinds }
        ensures { IfOk result (λ cause. TagIsRead registry.now place self.old tag.entry.form tag.entry.name.now tag.entry.attrs.now self.new (option_map text_cause_of cause)) }
    {
        let declared = registry.kinds().get(kind as usize);
        match tag.form {
            Form::Opening => {
                let Some(values) = tag_values(alloc, declared, tag.attrs)? else {
                    return Ok(Some(TextCause::ValueTooLong));
                };
                self.open(kind, place, values)?;
            }
            Form::Empty => {
                let Some(values) = tag_values(alloc, declared, tag.attrs)? else {
                    return Ok(Some(TextCause::ValueTooLong));
                };
                self.stand(kind, place, values)?;
            }
            Form::Closing => self.end(kind, place)?,
        }
        Ok(None)
    }

    /// Begins an instance of the kind.
    fn open(&mut self, kind: u16, place: u32, values: List<Value>) -> Result<(), NoMemory>
        requires { kind < length self.old }
        ensures { OnOk result (DidKinds place self.old (Opens kind values) self.new) }
    {
        self.kinds[kind as usize].open(kind, place, values)
    }

    /// Adds an empty instance of the kind.
    fn stand(&mut self, kind: u16, place: u32, values: List<Value>) -> Result<(), NoMemory>
        requires { kind < length self.old }
        ensures { OnOk result (DidKinds place self.old (Stands kind values) self.new) }
    {
        self.kinds[kind as usize].stand(kind, place, values)
    }

    /// Ends the open instance of the kind.
    fn end(&mut self, kind: u16, place: u32) -> Result<(), NoMemory>
        requires { kind < length self.old }
        ensures { OnOk result (DidKinds place self.old (Closes kind) self.new) }
    {
        self.kinds[kind as usize].end(kind, place)
    }

    /// The instances of all kinds, kind after kind, of which the open ones end at this place.
    pub fn finish(self, alloc: Global, place: u32) -> Result<Vec<StructSpan>, NoMemory>
        requires { length self ≤ 16 }
        ensures { IfOk result (λ all. all.items ≡ gathered 0 place self) }
    {
        gather(alloc, self.kinds, place)
    }
}

/// Instances, and others behind them. Where there are none of the one or of the other, nothing is moved.
fn put_behind(
    mut all: Vec<StructSpan>,
    mut more: Vec<StructSpan>,
) -> Result<Vec<StructSpan>, NoMemory>
    ensures { IfOk result (λ both. both.items ≡ all.items ++ more.items) }
{
    if more.is_empty() {
        return Ok(all);
    }
    if all.is_empty() {
        return Ok(more);
    }
    all.append(&mut more)?;
    Ok(all)
}

/// The instances of all kinds, kind after kind.
fn gather(alloc: Global, kinds: Vec<Instances>, place: u32) -> Result<Vec<StructSpan>, NoMemory>
    requires { length kinds.items ≤ 16 }
    ensures { IfOk result (λ all. all.items ≡ gathered 0 place kinds.items) }
{
    let mut all = Vec::new(alloc);
    let mut kind = 0;
    for instances in kinds {
        let ended = instances.finish(kind, place)?;
        all = put_behind(all, ended)?;
        kind += 1;
    }
    Ok(all)
}
