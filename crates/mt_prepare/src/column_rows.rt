//! Rows of the places at which a column has numbers that are sought.

ghost use Rattle.std.specs.Prelude.{◌≡◌, ℕ, ◌+◌, ◌*◌, ◌/◌, ◌<◌, ◌≤◌, length, slice_index, IfOk, OnOk};
ghost use Rattle.mt_places.specs.Places.{WordIs};
ghost use Rattle.mt_prepare.specs.TestRows.{IsRow, IsSoughtAt};

use mt_base::{NoMemory, Steps};
use mt_places::{Marks, Places};
use mt_segment::Column;
use std::alloc::Global;
use std::sync::ledger::Ledger;

/// How many words a row of so many tokens has.
pub(crate) fn row_width(tokens: u32) -> usize
    ensures is { result ≡ tokens / 64 + 1 }
    ensures few { result ≤ 67108864 }
{
    (tokens / 64) as usize + 1
}

/// Fills a row with the places at which the number of a column is one of those that are sought.
pub(crate) fn fill<L: Ledger>(
    alloc: Global,
    row: &mut Places,
    column: &Column,
    sought: &[bool],
    tokens: u32,
    steps: &mut Steps<L>,
) -> Result<(), NoMemory>
    requires tokens { tokens ≡ length column.now }
    requires within { (place : ℕ) → place < tokens → slice_index column.now place < length sought.now }
    requires width { length row.old ≡ tokens / 64 + 1 }
    ensures row { OnOk result (IsRow tokens (IsSoughtAt column.now sought.now) row.new) }
    ensures rises { steps.old ≤ steps.new }
{
    let words = words_of(alloc, column, sought, tokens, steps)?;
    row.put(&Words { words: &words });
    Ok(())
}

/// Words of 64 places each.
#[derive(Clone, Copy, Drop)]
struct Words<'a> {
    words: &'a [u64],
}

impl<'a> Marks for Words<'a> {
    ghost use Rattle.mt_places.specs.Places.{In};

    ghost stands = { λ w. In w.words.now };

    fn word(&self, at: usize) -> u64 {
        match self.words.get(at) {
            Some(word) => *word,
            None => 0,
        }
    }
}

/// The words of the row of the places at which the number of a column is one of those that are sought.
fn words_of<L: Ledger>(
    alloc: Global,
    column: &Column,
    sought: &[bool],
    tokens: u32,
    steps: &mut Steps<L>,
) -> Result<Vec<u64>, NoMemory>
    requires tokens { tokens ≡ length column.now }
    requires within { (place : ℕ) → place < tokens → slice_index column.now place < length sought.now }
    ensures words { IfOk result (λ words. IsRow tokens (IsSoughtAt column.now sought.now) words.items) }
    ensures rises { steps.old ≤ steps.new }
{
    let mut words = Vec::with_capacity(alloc, row_width(tokens))?;
    for at in 0..tokens / 64 + 1 {
        words.push(word_of(column, sought, at, tokens, steps))?;
    }
    Ok(words)
}

/// At which of the 64 places from 64 * at on the number of a column is one of those that are sought, the lowest bit first. The places are passed from the last one
/// down, so that each costs neither a branch nor a shift by a number that changes.
fn word_of<L: Ledger>(
    column: &Column,
    sought: &[bool],
    at: u32,
    tokens: u32,
    steps: &mut Steps<L>,
) -> u64
    requires tokens { tokens ≡ length column.now }
    requires at { 64 * at ≤ tokens }
    requires within { (place : ℕ) → place < tokens → slice_index column.now place < length sought.now }
    ensures word { WordIs (λ place. (place < tokens) × IsSoughtAt column.now sought.now place) at result }
    ensures rises { steps.old ≤ steps.new }
{
    let first = 64 * at;
    let mut place = first + (tokens - first).min(64);
    let mut word = 0;
    while place > first {
        place -= 1;
        let number = column.get(place, steps);
        word = word << 1 | sought[number as usize] as u64;
    }
    word
}
