//! Segments: some texts as the tables that the engine searches.
//!
//! A `Segment` has for each attribute its distinct values, the number of each token's value and the places of each value, and for each kind of structure its
//! instances. Contracts see it as the tables of `mt_segment_spec`, which are always those of valid texts. The texts themselves are not kept.
#![tactic(auto)]

mod bases;
mod building;
mod columns;
mod inverting;
mod joining;
mod lists;
mod mapped;
mod numbering;
mod queue;
mod segment;
mod sorting;
mod structs;
mod table;

pub use inverting::{postings_beside, postings_of};
pub use lists::Lists;
pub use mapped::has_mappers;
use mt_base::StructSpan;
pub use segment::Segment;
pub use sorting::Sorter;
pub use table::{AttrTables, Column, MappedTable};

fn shared<T: Send + Sync>() {}

/// That threads may share segments and their parts is proved by this function.
pub fn are_shared() {
    shared::<Segment>();
    shared::<Lists<StructSpan>>();
    shared::<AttrTables>();
    shared::<Column>();
    shared::<MappedTable>();
}
