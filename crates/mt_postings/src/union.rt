//! The union of many posting lists at once.

ghost use Rattle.std.specs.Prelude.{◌≡◌, ℕ, ◌<◌, ◌↔◌, [], ◌++◌, IfOk, OnOk, OnErr};
ghost use Rattle.std.specs.List.{All, Contains};
ghost use Rattle.mt_store_spec.specs.Positions.{ArePositions};

use super::postings::Postings;
use mt_base::NoMemory;
use std::alloc::Global;
use std::marker::Model;

/// Positions that are gathered from many lists, one list after another.
#[derive(Debug, Drop)]
pub struct Union {
    alloc: Global,
    positions: Vec<u32>,
}

impl Model for Union {
    ghost use Rattle.std.specs.Prelude.{ℕ, List, ◌<◌};
    ghost use Rattle.std.specs.List.{All};

    ghost Value = { List ℕ };

    ghost view = { λ u. u.positions.items };

    ghost invariant = { λ u. All (λ p. p < 4294967295) u.positions.items };
}

impl Union {
    /// No positions yet. It takes no memory.
    pub fn new(alloc: Global) -> Self
        ensures { result ≡ [] }
    {
        Union {
            alloc,
            positions: Vec::new(alloc),
        }
    }

    /// Adds the positions of a list. Without memory nothing changes.
    pub fn add(&mut self, list: &Postings) -> Result<(), NoMemory>
        ensures ok { OnOk result (self.new ≡ self.old ++ list.now) }
        ensures err { OnErr result (self.new ≡ self.old) }
    {
        list.push_to(&mut self.positions)
    }

    /// Each position that was added, once. They are sorted once.
    pub fn finish(self) -> Result<Postings, NoMemory>
        ensures members { IfOk result (λ all. (p : ℕ) → Contains all p ↔ Contains self p) }
        ensures valid { IfOk result (λ all. ArePositions all) }
    {
        let Union {
            alloc,
            mut positions,
        } = self;
        positions.sort_unstable();
        positions.dedup();
        Postings::from_slice(alloc, positions.as_slice())
    }
}
