//! The instances of a text that are known so far.

ghost use Rattle.std.specs.Prelude.{◌≡◌, ◌<◌, [], ◌∷◌, ◌++◌, length, map, slice_get, Some, IfOk, OnOk, OnErr};
ghost use Rattle.mt_count_spec.specs.Counts.{EachOnce};
ghost use Rattle.mt_counts.specs.Names.{Begins};
ghost use Rattle.mt_instances.specs.Members.{HaveSameItems};
ghost use Rattle.mt_instances.specs.Entries.{AreNamed, instance_of};

use crate::entry::{Entry, keep_distinct};
use crate::names::Names;
use crate::ranks::Ranks;
use mt_base::{NoMemory, Value};
use std::alloc::Global;
use std::marker::Model;
use std::mem;

/// A text of so many places is large.
const LARGE: usize = 1 << 18;

/// A large text mostly has more than one instance for so many of its places.
const PLACES_OF_AN_INSTANCE: usize = 2;

/// Instances in the order in which they came, as entries under numbered names. As long as the entries of each name come in ascending order, each of them is there once.
/// It is seen as the list of the names and that of the instances.
#[derive(Drop)]
pub(crate) struct Instances {
    names: Names,
    entries: Vec<Entry>,
    ranks: Ranks,
    rising: bool,
}

impl Model for Instances {
    ghost use Rattle.std.specs.Prelude.{map, length};
    ghost use Rattle.mt_instances.specs.Named.{Named};
    ghost use Rattle.mt_instances.specs.Entries.{instance_of};
    ghost use Rattle.mt_instances.specs.Rising.{AreKept};

    ghost Value = { Named };

    ghost view = { λ s. record { names = s.names; given = map (instance_of s.names) s.entries.items } };

    ghost invariant = { λ s. AreKept (length s.names) s.entries.items s.ranks s.rising };
}

impl Instances {
    /// None, and no names. It takes no memory.
    pub(crate) fn new(alloc: Global) -> Self
        ensures names { result.names ≡ [] }
        ensures given { result.given ≡ [] }
    {
        Instances {
            names: Names::new(alloc),
            entries: Vec::new(alloc),
            ranks: Ranks::new(alloc),
            rising: true,
        }
    }

    /// The number of a name.
    pub(crate) fn add_name(&mut self, alloc: Global, name: &Value) -> Result<u32, NoMemory>
        ensures names { Begins self.old.names self.new.names }
        ensures given { self.new.given ≡ self.old.given }
        ensures number { IfOk result (λ number. slice_get self.new.names number ≡ Some name.now) }
    {
        self.names.add(alloc, name)
    }

    /// The name with this number.
    pub(crate) fn name(&self, number: u32) -> &Value
        requires { number < length self.now.names }
        ensures { slice_get self.now.names number ≡ Some result.now }
    {
        self.names.get(number as usize)
    }

    /// Makes room for the instances of a text that has so many places, where it is large: so those that are there are not copied again and again while others come.
    pub(crate) fn make_room(&mut self, places: usize) -> Result<(), NoMemory>
        ensures { self.new ≡ self.old }
    {
        let room = self.entries.capacity();
        if places < LARGE || room >= places / PLACES_OF_AN_INSTANCE {
            return Ok(());
        }
        self.entries.reserve(places / PLACES_OF_AN_INSTANCE)?;
        Ok(())
    }

    /// Adds an instance, which may be there.
    pub(crate) fn push(&mut self, entry: Entry) -> Result<(), NoMemory>
        requires { entry.name < length self.old.names }
        ensures names { self.new.names ≡ self.old.names }
        ensures ok { OnOk result (self.new.given ≡ self.old.given ++ instance_of self.old.names entry ∷ []) }
        ensures err { OnErr result (self.new.given ≡ self.old.given) }
    {
        let above = self.ranks.raise(&entry)?;
        match self.entries.push(entry) {
            Ok(()) if above => Ok(()),
            Ok(()) => {
                self.rising = false;
                Ok(())
            }
            Err(_) => Err(NoMemory),
        }
    }

    /// Keeps each instance once, in any order. It takes no memory, and no time where the entries of each name came in ascending order.
    pub(crate) fn settle(&mut self)
        ensures names { self.new.names ≡ self.old.names }
        ensures once { EachOnce self.new.given }
        ensures same { HaveSameItems self.old.given self.new.given }
    {
        self.names.len();
        if self.rising {
            return;
        }
        keep_distinct(&mut self.entries);
    }

    /// How many names have a number.
    pub(crate) fn name_count(&self) -> usize {
        self.names.len()
    }

    /// How many there is room for.
    pub(crate) fn capacity(&self) -> usize {
        self.entries.capacity()
    }

    /// Takes all instances out, and keeps the names. It takes no memory, and costs by how many instances there were.
    pub(crate) fn take(&mut self, alloc: Global) -> Vec<Entry>
        ensures names { self.new.names ≡ self.old.names }
        ensures given { self.new.given ≡ [] }
        ensures named { AreNamed (length self.old.names) result.items }
        ensures taken { map (instance_of self.old.names) result.items ≡ self.old.given }
    {
        self.ranks.forget(self.entries.as_slice());
        self.rising = true;
        mem::replace(&mut self.entries, Vec::new(alloc))
    }

    /// Where there are none, gives memory for others. What the list has goes.
    pub(crate) fn give_room(&mut self, entries: Vec<Entry>)
        requires { self.old.given ≡ [] }
        ensures names { self.new.names ≡ self.old.names }
        ensures given { self.new.given ≡ [] }
    {
        self.entries = entries;
        self.entries.clear();
    }

    /// Takes all instances away, and keeps the names, and the memory for others. It costs by how many instances there were, however many names there are.
    pub(crate) fn clear(&mut self)
        ensures names { self.new.names ≡ self.old.names }
        ensures given { self.new.given ≡ [] }
    {
        self.ranks.forget(self.entries.as_slice());
        self.entries.clear();
        self.rising = true;
    }
}
