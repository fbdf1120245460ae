//! Lists in one block.

ghost use Rattle.std.specs.Prelude.{◌≡◌, ◌-◌, ◌<◌, ◌≤◌, [], ◌∷◌, ◌++◌, length, take, drop, slice_index_or, IfOk, OnOk, OnErr, List as Items};
ghost use Rattle.std.specs.List.{flat_map};
ghost use Rattle.mt_segment.specs.Lists.{parts, AreBegins};

use mt_base::NoMemory;
use std::alloc::Global;
use std::marker::Model;

/// Lists in order, seen as the list of them. Their items lie one behind the other in one block, and beside it the places where the lists begin, four bytes each.
#[derive(Debug, Drop)]
pub struct Lists<T> {
    items: Vec<T>,
    begins: Vec<u32>,
}

impl<T> Model for Lists<T> {
    ghost use Rattle.std.specs.Prelude.{length};
    ghost use Rattle.std.specs.Prelude.{List as Items};
    ghost use Rattle.mt_segment.specs.Lists.{parts, AreBegins};

    ghost Value = { Items (Items T) };

    ghost view = { λ l. parts l.items.items l.begins.items };

    ghost invariant = { λ l. AreBegins 0 (length l.items.items) l.begins.items };
}

impl<T: Drop> Lists<T> {
    /// No lists, with room for so many, and for so many items in all of them.
    pub fn with_capacity(alloc: Global, lists: usize, items: usize) -> Result<Self, NoMemory>
        ensures { IfOk result (λ lists. lists ≡ []) }
    {
        Ok(Lists {
            items: Vec::with_capacity(alloc, items)?,
            begins: Vec::with_capacity(alloc, lists)?,
        })
    }

    /// How many lists there are.
    pub fn len(&self) -> usize
        ensures { result ≡ length self.now }
    {
        self.begins.len()
    }

    /// The list with this number.
    pub fn get(&self, number: usize) -> &[T]
        requires { number < length self.now }
        ensures { result.now ≡ slice_index_or self.now number [] }
    {
        let begins = self.begins.as_slice();
        between(self.items.as_slice(), begins, number, number + 1)
    }

    /// The items of the lists from one number on, before another, as one slice.
    pub fn joined(&self, from: usize, to: usize) -> &[T]
        requires order { from ≤ to }
        requires within { to ≤ length self.now }
        ensures { result.now ≡ flat_map (λ list. list) (take (to - from) (drop from self.now)) }
    {
        between(self.items.as_slice(), self.begins.as_slice(), from, to)
    }

    /// Begins a list behind the others. Without memory nothing changes.
    pub fn begin(&mut self) -> Result<(), NoMemory>
        ensures ok { OnOk result (self.new ≡ self.old ++ [] ∷ []) }
        ensures err { OnErr result (self.new ≡ self.old) }
    {
        let begin = self.items.len();
        if begin > u32::MAX as usize {
            return Err(NoMemory);
        }
        self.begins.push(begin as u32)?;
        Ok(())
    }

    /// Adds an item at the end of the last list. Without memory nothing changes, and the item is dropped.
    pub fn push(&mut self, item: T) -> Result<(), NoMemory>
        requires { 0 < length self.old }
        ensures ok { OnOk result ((before : Items (Items T)) (last : Items T) → self.old ≡ before ++ last ∷ [] → self.new ≡ before ++ (last ++ item ∷ []) ∷ []) }
        ensures err { OnErr result (self.new ≡ self.old) }
    {
        self.items.reserve(1)?;
        self.items.push_reserved(item);
        Ok(())
    }
}

/// The items of the lists from one number on, before another, that lie in a block and begin at these places.
fn between<'a, T>(items: &'a [T], begins: &[u32], from: usize, to: usize) -> &'a [T]
    requires order { from ≤ to }
    requires begins { AreBegins 0 (length items.now) begins.now }
    ensures { result.now ≡ flat_map (λ list. list) (take (to - from) (drop from (parts items.now begins.now))) }
{
    let begin = begin_of(begins, items.len(), from);
    let end = begin_of(begins, items.len(), to);
    &items[begin..end]
}

/// Where the list with this number begins, or where the block ends.
fn begin_of(begins: &[u32], end: usize, number: usize) -> usize
    ensures { result ≡ slice_index_or begins.now number end }
{
    match begins.get(number) {
        Some(begin) => *begin as usize,
        None => end,
    }
}
