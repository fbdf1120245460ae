//! Rows of a segment that were found before, so that they need not be found again.

ghost use Rattle.std.specs.Prelude.{◌≡◌, true, IfOk, IfSome};
ghost use Rattle.mt_segment_spec.specs.Tables.{Tables, token_count};
ghost use Rattle.mt_prepare.specs.TestRows.{IsRow, NumberIsIn};
ghost use Rattle.mt_prepare.specs.KnownRows.{AreKnownIn};

use mt_automaton::Pool;
use mt_base::NoMemory;
use mt_places::{Marks, Places};
use std::alloc::Global;

/// The row of the places where the number of an attribute's value is in a set.
#[derive(Drop)]
struct KnownRow {
    attr: u16,
    numbers: Places,
    row: Places,
}

/// Rows of one segment that were found before: for an attribute and a set of numbers of its values the places whose value has such a number.
#[derive(Drop)]
pub struct KnownRows {
    pub(crate) alloc: Global,
    most: usize,
    rows: Vec<KnownRow>,
}

impl KnownRows {
    /// No rows yet, of which at most so many are kept. It takes no memory.
    pub fn new(alloc: Global, most: usize) -> Self
        ensures known { (tables : Tables) → AreKnownIn tables result }
    {
        KnownRows {
            alloc,
            most,
            rows: Vec::new(alloc),
        }
    }

    /// The row for an attribute and a set of numbers, where it is kept.
    pub(crate) fn find(&self, attr: u16, numbers: &Places) -> Option<&Places>
        ensures found { (tables : Tables) → AreKnownIn tables self.now → IfSome result (λ row. IsRow (token_count tables) (NumberIsIn tables attr numbers.now) row.now) }
    {
        for kept in &self.rows {
            if kept.attr == attr && are_same(&kept.numbers, numbers) {
                return Some(&kept.row);
            }
        }
        None
    }

    /// Keeps a copy of the row for an attribute and a set of numbers, where there is room and memory for it.
    pub(crate) fn keep(&mut self, pool: &mut Pool, attr: u16, numbers: &Places, row: &Places)
        ensures known { (tables : Tables) → AreKnownIn tables self.old → IsRow (token_count tables) (NumberIsIn tables attr numbers.now) row.now → AreKnownIn tables self.new }
    {
        if self.rows.len() >= self.most {
            return;
        }
        match copied(pool, attr, numbers, row) {
            Ok(kept) => match self.rows.push(kept) {
                Ok(()) => {}
                Err(_) => {}
            },
            Err(_) => {}
        }
    }
}

/// The row as it is kept.
fn copied(pool: &mut Pool, attr: u16, numbers: &Places, row: &Places) -> Result<KnownRow, NoMemory>
    ensures { IfOk result (λ kept. kept ≡ record { attr = attr; numbers = numbers.now; row = row.now }) }
{
    let numbers = pool.copy(numbers)?;
    let row = pool.copy(row)?;
    Ok(KnownRow { attr, numbers, row })
}

/// Whether two sets are the same, word by word.
fn are_same(one: &Places, other: &Places) -> bool
    ensures { result ≡ true → one.now ≡ other.now }
{
    let width = one.width();
    if other.width() != width {
        return false;
    }
    for at in 0..width {
        if one.word(at) != other.word(at) {
            return false;
        }
    }
    true
}
