//! The numbered calls of an object in memory.

ghost use Rattle.std.specs.Prelude.{◌≡◌, ◌≤◌, ◌↔◌, Contains, IsTrue};
ghost use Rattle.std.specs.Bool.{OnTrue, OnFalse};
ghost use Rattle.mt_outside.specs.Faults.{Rose, one_more};
ghost use Rattle.mt_outside.specs.Memory.{next_call};

use mt_base::List;

/// The number of the present call (0 before the first), the numbers of the calls that fail, and how many failed.
#[derive(Debug, Drop)]
pub struct Calls {
    number: u32,
    fails: List<u32>,
    faults: u64,
}

impl Calls {
    /// No call yet.
    pub fn new(fails: List<u32>) -> Self
        ensures { result ≡ record { number = 0; fails = fails; faults = 0 } }
    {
        Calls {
            number: 0,
            fails,
            faults: 0,
        }
    }

    /// Numbers the next call, and tells whether it fails.
    pub fn next_fails(&mut self) -> bool
        ensures exactly { IsTrue result ↔ Contains self.old.fails (next_call self.old.number) }
        ensures fails { OnTrue result (self.new ≡
            record self.old { number = next_call self.old.number; faults = one_more self.old.faults }) }
        ensures does_not { OnFalse result (self.new ≡
            record self.old { number = next_call self.old.number }) }
        ensures rises { self.old.faults ≤ self.new.faults }
        ensures rose { OnTrue result (Rose self.old.faults self.new.faults) }
    {
        self.number = self.number.saturating_add(1);
        let fails = self.fails.as_slice().contains(&self.number);
        if fails {
            self.faults = self.faults.saturating_add(1);
        }
        fails
    }
}
