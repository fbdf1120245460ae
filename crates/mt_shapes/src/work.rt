//! What shapes are found in.

ghost use Rattle.std.specs.Prelude.{◌≡◌, []};

use crate::refused::Refused;
use crate::table::Entry;
use mt_automaton::Pool;
use mt_base::Span;
use std::alloc::Global;

/// How many entries a table has at most.
pub(crate) const MAX_ENTRIES: usize = 128;

/// How many pairs of entries are joined for one text at most.
const MAX_STEPS: u32 = 1024;

/// Sets and a block of spans that are used again, and how many steps are left.
#[derive(Drop)]
pub(crate) struct Maker {
    alloc: Global,
    pub(crate) pool: Pool,
    pub(crate) block: Vec<Span>,
    steps: u32,
}

impl Maker {
    /// A table without entries.
    pub(crate) fn table(&self) -> Vec<Entry>
        ensures { result.items ≡ [] }
    {
        Vec::new(self.alloc)
    }

    /// Takes a table back, and the set of each of its entries.
    pub(crate) fn give(&mut self, mut entries: Vec<Entry>) {
        while let Some(entry) = entries.pop() {
            self.pool.give(entry.begins);
        }
    }

    /// Counts a step, where one is left.
    pub(crate) fn step(&mut self) -> Result<(), Refused> {
        if self.steps == 0 {
            return Err(Refused::TooManyShapes);
        }
        self.steps -= 1;
        Ok(())
    }

    /// For the next text all steps are left.
    pub(crate) fn start(&mut self) {
        self.steps = MAX_STEPS;
    }
}

/// What the rows of expressions are found in, used again from call to call.
#[derive(Drop)]
pub struct Work {
    pub(crate) maker: Maker,
    /// What rows are found in begin by begin.
    pub automaton: mt_automaton::Work,
}

impl Work {
    /// It takes no memory until it is used.
    pub fn new(alloc: Global) -> Self {
        Work {
            maker: Maker {
                alloc,
                pool: Pool::new(alloc),
                block: Vec::new(alloc),
                steps: 0,
            },
            automaton: mt_automaton::Work::new(alloc),
        }
    }
    /// Takes a table back, so that the next ones take its memory.
    pub fn give_back(&mut self, entries: Vec<Entry>) {
        self.maker.give(entries);
    }
}
