//! Numbers that texts have elsewhere.

ghost use Rattle.std.specs.Prelude.{◌≡◌, ℕ, ◌<◌, List, [], slice_get, Some, IfSome};
ghost use Rattle.mt_counts.specs.Tables.{text_at};
ghost use Rattle.mt_instances.specs.Numbers.{AreNumbers, AreWithin};

use mt_base::NoMemory;
use std::alloc::Global;
use std::marker::Model;

/// For texts by their number here the number that each has elsewhere, where it is known.
#[derive(Drop)]
pub(crate) struct Numbers {
    numbers: Vec<Option<u32>>,
}

impl Model for Numbers {
    ghost use Rattle.std.specs.Prelude.{ℕ, List, Option};

    ghost Value = { List (Option ℕ) };

    ghost view = { λ n. n.numbers.items };
}

impl Numbers {
    /// No number is known. It takes no memory.
    pub(crate) fn new(alloc: Global) -> Self
        ensures { result ≡ [] }
    {
        Numbers {
            numbers: Vec::new(alloc),
        }
    }

    /// The number elsewhere of the text with this number here.
    pub(crate) fn get(&self, here: u32) -> Option<u32>
        ensures { IfSome result (λ there. slice_get self.now here ≡ Some (Some there)) }
    {
        if (here as usize) < self.numbers.len() {
            self.numbers[here as usize]
        } else {
            None
        }
    }

    /// Keeps the number elsewhere of a text.
    pub(crate) fn set(&mut self, here: u32, there: u32) -> Result<(), NoMemory>
        ensures numbers { (from to : List (List ℕ)) → AreNumbers from to self.old → slice_get to there ≡ Some (text_at from here) → AreNumbers from to self.new }
        ensures within { (texts : ℕ) → AreWithin texts self.old → here < texts → AreWithin texts self.new }
    {
        let here = here as usize;
        if here >= self.numbers.len() {
            self.numbers.resize(2 * (here + 1), None)?;
        }
        self.numbers[here] = Some(there);
        Ok(())
    }

    /// For how many texts there is room.
    pub(crate) fn capacity(&self) -> usize {
        self.numbers.capacity()
    }

    /// Forgets all numbers, and keeps the memory for others.
    pub(crate) fn clear(&mut self)
        ensures { self.new ≡ [] }
    {
        self.numbers.clear();
    }
}
