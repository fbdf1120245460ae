//! The numbers of the values of an attribute, place by place.

ghost use Rattle.std.specs.Prelude.{◌≡◌, ◌+◌, ◌<◌, length};
ghost use Rattle.mt_frequencies.specs.Numbers.{AreNumbersOf, IsPlace, number_in};

use mt_base::Steps;
use mt_segment::{Column, MappedTable, Segment};
use mt_segment_laws::tables_are_whole;
use std::sync::ledger::Ledger;

/// What tells the numbers of an attribute's values at the places of a segment: the attribute's column, or the column of its base and its table. It is found once
/// for many places.
#[derive(Clone, Copy, Debug, Drop)]
pub(crate) enum Numbers<'a> {
    Base(&'a Column),
    Mapped(&'a Column, &'a MappedTable),
}

impl<'a> Numbers<'a> {
    /// The numbers of an attribute's values.
    pub(crate) fn new(segment: &'a Segment, attr: u16) -> Self
        requires { attr < length segment.now.attrs }
        ensures { AreNumbersOf segment.entry.now attr result }
    {
        tables_are_whole();
        segment.texts();
        match segment.base(attr) {
            None => Numbers::Base(segment.column(attr)),
            Some(base) => Numbers::Mapped(segment.column(base), segment.table(attr)),
        }
    }

    /// The number at a place. It is one step.
    #[inline]
    pub(crate) fn get<L: Ledger>(&self, place: u32, steps: &mut Steps<L>) -> u32
        requires { IsPlace self.now place }
        ensures number { result ≡ number_in self.now place }
        ensures tick { steps.new ≡ steps.old + 1 }
    {
        match self {
            Numbers::Base(column) => column.get(place, steps),
            Numbers::Mapped(column, table) => table.get(column.get(place, steps)),
        }
    }
}
