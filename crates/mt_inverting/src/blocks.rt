//! The blocks of all runs of a column.

ghost use Rattle.std.specs.Prelude.{◌≡◌, ◌+◌, ◌*◌, ◌^◌, ◌<◌, ◌≤◌, ◌++◌, length, map, IfOk, OnOk};
ghost use Rattle.std.specs.List.{All};
ghost use Rattle.std.specs.Thread.{IsSync};
ghost use Rattle.mt_store_spec.specs.Positions.{ArePositions};
ghost use Rattle.mt_segment_spec.specs.Tables.{ArePlacesOf};
ghost use Rattle.mt_inverting.specs.Blocks.{AreBlocksOf, IsBlockOf, run};

use super::block::{Block, RUN};
use super::joining::joined;
use mt_base::{List, NoMemory};
use rayon::{current_num_threads, join};
use std::alloc::Global;
use std::marker::Model;
use std::thread::Threads;

/// A list takes as long to begin and to end as so many places take in it.
const LIST: usize = 512;

/// The blocks of all runs of a column whose numbers are below a count.
#[derive(Drop)]
pub(crate) struct Blocks<'a> {
    column: &'a [u32],
    count: usize,
    blocks: List<Block>,
}

impl<'a> Model for Blocks<'a> {
    ghost use Rattle.std.specs.Prelude.{length};
    ghost use Rattle.mt_inverting.specs.Blocks as spec;

    ghost Value = { spec.Column };

    ghost view = { λ b. record { numbers = b.column.now; count = b.count } };

    ghost invariant = { λ b. spec.AreAllBlocksOf b.column.now b.count b.blocks };
}

impl<'a> Blocks<'a> {
    /// The blocks of a column whose numbers are below `count`. Where there are several runs, two threads make them.
    pub(crate) fn new<R: Threads + Sync>(
        rt: &R,
        alloc: Global,
        column: &'a [u32],
        count: usize,
    ) -> Result<Self, NoMemory>
        requires short { length column.now < 4294967295 }
        requires numbers { All (λ n. n < count) column.now }
        ensures { IfOk result (λ blocks. blocks ≡ record { numbers = column.now; count = count }) }
    {
        let runs = column.len().div_ceil(RUN);
        let blocks = blocks_beside(rt, alloc, column, count, runs)?;
        Ok(Blocks {
            column,
            count,
            blocks,
        })
    }

    /// How many places the column has.
    pub(crate) fn len(&self) -> usize {
        self.column.len()
    }

    /// A number below which the lists take about half of the time, as far as the first run tells.
    pub(crate) fn middle(&self) -> usize
        ensures { result ≤ self.now.count }
    {
        if self.blocks.is_empty() {
            return 0;
        }
        self.blocks.get(0).middle(LIST / self.blocks.len())
    }

    /// Lists the places of a number, in the place of what was listed.
    pub(crate) fn gather(&self, number: usize, places: &mut Vec<u32>) -> Result<(), NoMemory>
        requires { number < self.now.count }
        ensures places { OnOk result (ArePlacesOf number self.now.numbers places.new.items) }
        ensures valid { OnOk result (ArePositions places.new.items) }
    {
        places.clear();
        for k in 0..self.blocks.len() {
            let block = self.blocks.get(k);
            push_places(places, (RUN * k) as u32, block.places_of(number))?;
        }
        Ok(())
    }
}

/// Adds places of a run, counted from where it begins.
#[inline(always)]
fn push_places(places: &mut Vec<u32>, begin: u32, more: &[u16]) -> Result<(), NoMemory>
    requires { begin + 65536 ≤ 2 ^ 32 }
    ensures { OnOk result (places.new.items ≡ places.old.items ++ map (λ place. begin + place) more.now) }
{
    places.reserve(more.len())?;
    for place in more {
        places.push_reserved(begin + u32::from(*place));
    }
    Ok(())
}

/// The run of a column with this number.
fn run_of(column: &[u32], number: usize) -> &[u32]
    requires { 65536 * number ≤ length column.now }
    ensures run { result.now ≡ run column.now number }
    ensures short { length result.now ≤ 65536 }
{
    let begin = RUN * number;
    let left = column.len() - begin;
    let size = if left < RUN { left } else { RUN };
    &column[begin..begin + size]
}

/// The blocks of the runs from one up to another.
fn blocks_of(
    alloc: Global,
    column: &[u32],
    count: usize,
    from: usize,
    to: usize,
) -> Result<List<Block>, NoMemory>
    requires order { from ≤ to }
    requires within { 65536 * to < length column.now + 65536 }
    requires numbers { All (λ n. n < count) column.now }
    ensures { IfOk result (λ blocks. AreBlocksOf column.now count from to blocks) }
{
    let mut blocks = List::with_capacity(alloc, to - from)?;
    for number in from..to {
        blocks.push(Block::new(alloc, run_of(column, number), count)?)?;
    }
    Ok(blocks)
}

/// The blocks of so many runs. Two threads make those of several.
fn blocks_beside<R: Threads + Sync>(
    rt: &R,
    alloc: Global,
    column: &[u32],
    count: usize,
    runs: usize,
) -> Result<List<Block>, NoMemory>
    requires within { 65536 * runs < length column.now + 65536 }
    requires numbers { All (λ n. n < count) column.now }
    ensures { IfOk result (λ blocks. AreBlocksOf column.now count 0 runs blocks) }
{
    if runs < 2 || current_num_threads(rt) < 2 {
        return blocks_of(alloc, column, count, 0, runs);
    }
    let middle = runs / 2;
    let first = move || -> Result<List<Block>, NoMemory>
        requires { (65536 * middle < length column.now + 65536) × All (λ n. n < count) column.now }
        ensures { IfOk result (λ blocks. AreBlocksOf column.entry.now count 0 middle blocks) }
    { blocks_of(alloc, column, count, 0, middle) };
    let others = move || -> Result<List<Block>, NoMemory>
        requires { (middle ≤ runs) × (65536 * runs < length column.now + 65536) × All (λ n. n < count) column.now }
        ensures { IfOk result (λ blocks. AreBlocksOf column.entry.now count middle runs blocks) }
    { blocks_of(alloc, column, count, middle, runs) };
    let (first, others) = join(rt, first, others);
    joined(first?, others?)
}
