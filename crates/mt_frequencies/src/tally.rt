//! How many spans have each value near them.

ghost use Rattle.std.specs.Prelude.{◌≡◌, ℕ, ◌+◌, ◌-◌, ◌^◌, ◌<◌, ◌≤◌, List as Items, [], length, slice_get, Some, IfOk, OnOk};
ghost use Rattle.std.specs.List.{IsDistinct};
ghost use Rattle.std.specs.Cmp.Lexicographic.{pointwise};
ghost use Rattle.std.specs.Prelude.{nat_eq};
ghost use Rattle.mt_frequencies.specs.Amounts as amounts;
ghost use Rattle.mt_frequencies.specs.Amounts.{IsRaised};
ghost use Rattle.mt_frequencies.specs.Tallies.{Begins, IsAbsent, counts_in};

use indexmap::IndexSet;
use mt_base::{NoMemory, Value};
use std::alloc::Global;
use std::marker::Model;

/// How many spans were counted for a value, and the number of the last of them.
#[derive(Clone, Copy, Debug, Drop)]
pub(crate) struct Count {
    pub(crate) spans: u32,
    pub(crate) last: u32,
}

/// Distinct values, numbered from 0 in the order in which they came, and for each of them how many spans were counted. Spans are numbered from 1, and are counted
/// one after another.
#[derive(Drop)]
pub(crate) struct Tally {
    values: IndexSet<Value>,
    counts: Vec<Count>,
}

impl Model for Tally {
    ghost use Rattle.std.specs.Prelude.{◌≡◌, ◌-◌, ◌^◌, ◌<◌, ◌≤◌, length};
    ghost use Rattle.std.specs.List.{All};
    ghost use Rattle.mt_frequencies.specs.Tallies.{Tallied};

    ghost Value = { Tallied };

    ghost view = { λ t. record { values = t.values.keys; counts = t.counts.items } };

    ghost invariant = { λ t. (length t.values.keys ≡ length t.counts.items) × (length t.values.keys < 2 ^ 32 - 1) × All (λ c. c.spans ≤ c.last) t.counts.items };
}

impl Tally {
    /// No values. It takes no memory.
    pub(crate) fn new(alloc: Global) -> Self
        ensures values { result.values ≡ [] }
        ensures counts { result.counts ≡ [] }
    {
        Tally {
            values: IndexSet::new(alloc),
            counts: Vec::new(alloc),
        }
    }

    /// How many values there are.
    pub(crate) fn len(&self) -> u32
        ensures values { result ≡ length self.now.values }
        ensures counts { result ≡ length self.now.counts }
        ensures few { result < 2 ^ 32 - 1 }
        ensures distinct { IsDistinct (pointwise nat_eq) self.now.values }
    {
        self.values.len() as u32
    }

    /// The value with this number, and how many spans were counted for it.
    pub(crate) fn get(&self, number: u32) -> (&str, u32)
        requires { number < length self.now.values }
        ensures value { slice_get self.now.values number ≡ Some result.0.now }
        ensures spans { result.1 ≡ (counts_in self.now result.0.now).spans }
    {
        self.len();
        match self.values.get_index(number as usize) {
            Some(value) => (value.as_str(), self.counts[number as usize].spans),
            None => unreachable!(),
        }
    }

    /// The number of a value: the one that it has, or the next one.
    pub(crate) fn add(&mut self, alloc: Global, text: &str) -> Result<u32, NoMemory>
        ensures begins { Begins self.old.values self.new.values }
        ensures counts { (value : Items ℕ) → counts_in self.new value ≡ counts_in self.old value }
        ensures number { IfOk result (λ number. slice_get self.new.values number ≡ Some text.now) }
        ensures few { IfOk result (λ number. number < 2 ^ 32 - 1) }
    {
        let value = Value::new(alloc, text)?;
        match self.values.get_index_of(&value) {
            Some(number) => Ok(number as u32),
            None => self.push(value),
        }
    }

    /// Adds a value that is not there.
    fn push(&mut self, value: Value) -> Result<u32, NoMemory>
        requires { IsAbsent self.old.values value }
        ensures begins { Begins self.old.values self.new.values }
        ensures counts { (value : Items ℕ) → counts_in self.new value ≡ counts_in self.old value }
        ensures number { IfOk result (λ number. slice_get self.new.values number ≡ Some value) }
        ensures few { IfOk result (λ number. number < 2 ^ 32 - 1) }
    {
        let number = self.counts.len();
        if number >= u32::MAX as usize - 1 {
            return Err(NoMemory);
        }
        self.counts.push(Count { spans: 0, last: 0 })?;
        match self.values.insert_full(value) {
            Ok(_) => Ok(number as u32),
            Err(_) => {
                self.counts.truncate(number);
                Err(NoMemory)
            }
        }
    }

    /// Counts so many spans more for the value with this number. It takes no memory.
    pub(crate) fn raise(&mut self, number: u32, more: u32)
        requires number { number < length self.old.values }
        requires few { (value : Items ℕ) → slice_get self.old.values number ≡ Some value → (counts_in self.old value).last + more < 2 ^ 32 }
        ensures values { self.new.values ≡ self.old.values }
        ensures raised { (value : Items ℕ) → slice_get self.old.values number ≡ Some value → IsRaised (counts_in self.old) value more (counts_in self.new) }
    {
        self.len();
        let place = number as usize;
        self.counts[place] = raised(self.counts[place], more);
    }
}

/// A count after so many spans more.
fn raised(count: Count, more: u32) -> Count
    requires few { count.last + more < 2 ^ 32 }
    requires order { count.spans ≤ count.last }
    ensures raised { result ≡ amounts.raised more count }
    ensures order { result.spans ≤ result.last }
{
    Count {
        spans: count.spans + more,
        last: count.last + more,
    }
}
