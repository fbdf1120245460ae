//! Names that are numbered once.

ghost use Rattle.std.specs.Prelude.{◌≡◌, ◌-◌, ◌^◌, ◌<◌, [], length, slice_get, Some, IfOk};
ghost use Rattle.mt_counts.specs.Names.{AreDistinct, Begins};

use indexmap::IndexSet;
use mt_base::{NoMemory, Value};
use std::alloc::Global;
use std::marker::Model;

/// Distinct names, numbered from 0 in the order in which they came, fewer than 2^32 - 1 of them. It is seen as their list.
#[derive(Drop)]
pub(crate) struct Names {
    values: IndexSet<Value>,
}

impl Model for Names {
    ghost use Rattle.std.specs.Prelude.{ℕ, List, ◌^◌, ◌-◌, ◌<◌, length};

    ghost Value = { List (List ℕ) };

    ghost view = { λ n. n.values.keys };

    ghost invariant = { λ n. length n.values.keys < 2 ^ 32 - 1 };
}

impl Names {
    /// No names. It takes no memory.
    pub(crate) fn new(alloc: Global) -> Self
        ensures { result ≡ [] }
    {
        Names {
            values: IndexSet::new(alloc),
        }
    }

    /// How many there are.
    pub(crate) fn len(&self) -> usize
        ensures count { result ≡ length self.now }
        ensures distinct { AreDistinct self.now }
    {
        self.values.len()
    }

    /// The name with this number.
    pub(crate) fn get(&self, number: usize) -> &Value
        requires { number < length self.now }
        ensures { slice_get self.now number ≡ Some result.now }
    {
        match self.values.get_index(number) {
            Some(value) => value,
            None => unreachable!(),
        }
    }

    /// The number of a name: the one that it has, or the next one.
    pub(crate) fn add(&mut self, alloc: Global, name: &Value) -> Result<u32, NoMemory>
        ensures begins { Begins self.old self.new }
        ensures number { IfOk result (λ number. slice_get self.new number ≡ Some name.now) }
    {
        match self.values.get_index_of(name) {
            Some(number) => Ok(number as u32),
            None => self.push(name.copy(alloc)?),
        }
    }

    /// Adds a name that may be new.
    fn push(&mut self, name: Value) -> Result<u32, NoMemory>
        ensures begins { Begins self.old self.new }
        ensures number { IfOk result (λ number. slice_get self.new number ≡ Some name) }
    {
        if self.values.len() >= u32::MAX as usize - 1 {
            return Err(NoMemory);
        }
        match self.values.insert_full(name) {
            Ok((number, _)) => Ok(number as u32),
            Err(_) => Err(NoMemory),
        }
    }
}
