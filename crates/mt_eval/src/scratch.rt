//! What the queries of a segment use one after another.

ghost use Rattle.std.specs.Prelude.{◌≡◌, []};
ghost use Rattle.mt_segment_spec.specs.Tables.{Tables};
ghost use Rattle.mt_prepare.specs.KnownRows.{AreKnownIn};

use mt_prepare::KnownRows;
use mt_rows::{RowList, Rows};
use std::alloc::Global;
use std::mem;

/// Lists that had more items than this are not small.
const SMALL: usize = 512;

/// What the queries of a segment use one after another: the rows of tests that are known, and lists that each query fills anew.
#[derive(Drop)]
pub struct Scratch {
    /// The rows of tests that are known for the segment.
    pub known: KnownRows,
    rows: Rows,
    pub(crate) marks: Vec<bool>,
    most: usize,
}

impl Scratch {
    /// Of no segment. At most so many rows of tests are kept for later queries of a segment. It takes no memory.
    pub fn new(alloc: Global, most_rows: usize) -> Self
        ensures known { (tables : Tables) → AreKnownIn tables result.known }
    {
        Scratch {
            known: KnownRows::new(alloc, most_rows),
            rows: Rows::new(alloc),
            marks: Vec::new(alloc),
            most: 0,
        }
    }

    /// Turns to another segment: what is known of the one before goes, and the lists keep their memory. At most so many rows of tests are kept for later queries.
    pub fn turn(&mut self, alloc: Global, most_rows: usize)
        ensures known { (tables : Tables) → AreKnownIn tables self.new.known }
    {
        self.known = KnownRows::new(alloc, most_rows);
    }

    /// Takes back the rows that a query kept, so that the next one takes their memory.
    pub fn take_back(&mut self, rows: RowList)
        ensures known { self.new.known ≡ self.old.known }
    {
        let rows = rows.into_rows();
        if self.most < rows.len() {
            self.most = rows.len();
        }
        self.rows = rows;
    }

    /// Whether the lists have been so small that their memory may well be kept for other texts.
    pub fn is_small(&self) -> bool {
        self.most <= SMALL && self.marks.capacity() <= SMALL
    }

    /// A list without rows, in memory that was taken back.
    pub(crate) fn rows(&mut self, alloc: Global) -> Rows
        ensures none { result ≡ [] }
        ensures known { self.new.known ≡ self.old.known }
    {
        let mut rows = mem::replace(&mut self.rows, Rows::new(alloc));
        rows.clear();
        rows
    }
}
