//! Texts that are numbered once.

ghost use Rattle.std.specs.Prelude.{◌≡◌, ℕ, ◌+◌, ◌-◌, ◌^◌, ◌<◌, ◌≤◌, [], length, slice_get, slice_index, string_bytes, Some, IfOk, IfSome, IfNone, OnOk};
ghost use Rattle.mt_counts.specs.Names.{AreDistinct, Begins, AreRenumbered};

use indexmap::IndexSet;
use mt_base::{NoMemory, Strings};
use std::alloc::Global;
use std::marker::Model;

/// Distinct texts, numbered from 0 in the order in which they came, fewer than 2^32 - 1 of them. It is seen as their list.
#[derive(Drop)]
pub(crate) struct Names {
    values: IndexSet<String>,
}

impl Model for Names {
    ghost use Rattle.std.specs.Prelude.{ℕ, List, ◌^◌, ◌-◌, ◌<◌, length, map, string_bytes};

    ghost Value = { List (List ℕ) };

    ghost view = { λ n. map string_bytes n.values.keys };

    ghost invariant = { λ n. length n.values.keys < 2 ^ 32 - 1 };
}

impl Names {
    /// No texts. It takes no memory.
    pub(crate) fn new(alloc: Global) -> Self
        ensures { result ≡ [] }
    {
        Names {
            values: IndexSet::new(alloc),
        }
    }

    /// How many there are.
    pub(crate) fn len(&self) -> usize
        ensures count { result ≡ length self.now }
        ensures few { result < 2 ^ 32 - 1 }
        ensures distinct { AreDistinct self.now }
    {
        self.values.len()
    }

    /// The text with this number.
    pub(crate) fn get(&self, number: usize) -> &str
        requires { number < length self.now }
        ensures { slice_get self.now number ≡ Some result.now }
    {
        match self.values.get_index(number) {
            Some(value) => value.as_str(),
            None => unreachable!(),
        }
    }

    /// The number of a text.
    pub(crate) fn find(&self, text: &str) -> Option<u32>
        ensures found { IfSome result (λ number. slice_get self.now number ≡ Some text.now) }
        ensures none { IfNone result ((number : ℕ) → slice_get self.now number ≡ Some text.now → ⊥) }
    {
        match self.values.get_index_of(text) {
            Some(number) => Some(number as u32),
            None => None,
        }
    }

    /// The number of a text: the one that it has, or the next one.
    pub(crate) fn add(&mut self, alloc: Global, text: &str) -> Result<u32, NoMemory>
        ensures begins { Begins self.old self.new }
        ensures number { IfOk result (λ number. slice_get self.new number ≡ Some text.now) }
    {
        match self.find(text) {
            Some(number) => Ok(number),
            None => self.put(String::from_str(alloc, text)?),
        }
    }

    /// Puts a new text behind the others, and gives its number.
    fn put(&mut self, value: String) -> Result<u32, NoMemory>
        ensures begins { Begins self.old self.new }
        ensures number { IfOk result (λ number. slice_get self.new number ≡ Some (string_bytes value)) }
    {
        if self.values.len() >= u32::MAX as usize - 1 {
            return Err(NoMemory);
        }
        let Ok((number, _)) = self.values.insert_full(value) else {
            return Err(NoMemory);
        };
        Ok(number as u32)
    }

    /// The number here of each of some texts.
    pub(crate) fn add_each(
        &mut self,
        alloc: Global,
        texts: &Strings,
        numbers: &mut Vec<u32>,
    ) -> Result<(), NoMemory>
        ensures begins { Begins self.old self.new }
        ensures numbers { OnOk result (AreRenumbered texts.now self.new numbers.new.items) }
    {
        numbers.clear();
        for k in 0..texts.len() {
            let number = self.add(alloc, texts.get(k))?;
            numbers.push(number)?;
        }
        Ok(())
    }
}
