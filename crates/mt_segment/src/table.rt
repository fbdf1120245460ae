//! Columns and tables of numbers, and the tables of an attribute.

ghost use Rattle.std.specs.Prelude.{◌≡◌, ◌+◌, ◌<◌, None, length, nat_eq, slice_index};
ghost use Rattle.mt_segment.specs.Numbers.{base_in, numbers_in};

use mt_base::{List, Steps};
use mt_lexicon::Lexicon;
use mt_postings::Postings;
use std::marker::Model;
use std::sync::ledger::Ledger;

/// The numbers of a base attribute's values at the tokens of a segment, seen as their list. They are read one by one, each for a step.
#[derive(Debug, Drop)]
pub struct Column {
    numbers: List<u32>,
}

impl Model for Column {
    ghost use Rattle.std.specs.Prelude.{ℕ, List};

    ghost Value = { List ℕ };

    ghost view = { λ c. c.numbers };
}

impl Column {
    /// The column of these numbers. It takes no memory.
    pub fn new(numbers: List<u32>) -> Self
        ensures { result ≡ numbers }
    {
        Column { numbers }
    }

    /// How many numbers there are.
    pub fn len(&self) -> usize
        ensures { result ≡ length self.now }
    {
        self.numbers.len()
    }

    /// Whether there is none.
    pub fn is_empty(&self) -> bool
        ensures { result ≡ nat_eq (length self.now) 0 }
    {
        self.numbers.is_empty()
    }

    /// The number at a place. It is one step.
    pub fn get<L: Ledger>(&self, place: u32, steps: &mut Steps<L>) -> u32
        requires { place < length self.now }
        ensures number { result ≡ slice_index self.now place }
        ensures tick { steps.new ≡ steps.old + 1 }
    {
        steps.tick();
        self.numbers.as_slice()[place as usize]
    }
}

/// A number for each number from 0 on, seen as their list.
#[derive(Debug, Drop)]
pub struct MappedTable {
    numbers: List<u32>,
}

impl Model for MappedTable {
    ghost use Rattle.std.specs.Prelude.{ℕ, List};

    ghost Value = { List ℕ };

    ghost view = { λ t. t.numbers };
}

impl MappedTable {
    /// The table of these numbers: that of 0, of 1 and so on. It takes no memory.
    pub fn new(numbers: List<u32>) -> Self
        ensures { result ≡ numbers }
    {
        MappedTable { numbers }
    }

    /// The number for this one.
    pub fn get(&self, base: u32) -> u32
        requires { base < length self.now }
        ensures { result ≡ slice_index self.now base }
    {
        self.numbers.as_slice()[base as usize]
    }

    /// All numbers.
    pub fn as_slice(&self) -> &[u32]
        ensures { result.now ≡ self.now }
    {
        self.numbers.as_slice()
    }
}

/// The numbers of an attribute's tables: those of its tokens' values, or for each value of its base, which has this number, that of its image.
#[derive(Debug, Drop)]
pub(crate) enum Numbers {
    Base(Column),
    Mapped(u16, MappedTable),
}

impl Numbers {
    /// The number of the base.
    pub(crate) fn base(&self) -> Option<u16>
        ensures { result ≡ base_in self.now }
    {
        match self {
            Numbers::Base(_) => None,
            Numbers::Mapped(base, _) => Some(*base),
        }
    }

    /// All numbers.
    pub(crate) fn as_slice(&self) -> &[u32]
        ensures { result.now ≡ numbers_in self.now }
    {
        match self {
            Numbers::Base(column) => column.numbers.as_slice(),
            Numbers::Mapped(_, table) => table.numbers.as_slice(),
        }
    }
}

/// The tables of an attribute: its lexicon, its numbers, and for each value of the lexicon the places where it stands.
#[derive(Debug, Drop)]
pub struct AttrTables {
    pub(crate) lexicon: Lexicon,
    pub(crate) numbers: Numbers,
    pub(crate) postings: List<Postings>,
}

impl Model for AttrTables {
    ghost use Rattle.mt_segment_spec.specs.Tables as spec;
    ghost use Rattle.mt_segment.specs.Numbers.{base_in, numbers_in};

    ghost Value = { spec.AttrTables };

    ghost view = { λ a. record { base = base_in a.numbers; lexicon = a.lexicon; numbers = numbers_in a.numbers; postings = a.postings } };
}

impl AttrTables {
    /// The tables of a base attribute that has this lexicon, this column, and for each value these places. It takes no memory.
    pub fn of_base(lexicon: Lexicon, column: Column, postings: List<Postings>) -> Self
        ensures { result ≡ record { base = None; lexicon = lexicon; numbers = column; postings = postings } }
    {
        AttrTables {
            lexicon,
            numbers: Numbers::Base(column),
            postings,
        }
    }
}
