//! The posting lists.

ghost use Rattle.std.specs.Prelude.{◌≡◌, ◌<◌, ◌≤◌, length, IfOk};
ghost use Rattle.std.specs.List.{All};
ghost use Rattle.std.specs.Thread.{IsSync};
ghost use Rattle.mt_segment.specs.Parts.{AreInverted};
ghost use Rattle.mt_inverting.specs.Blocks.{AreListsOf};

use super::blocks::Blocks;
use super::joining::joined;
use mt_base::{List, NoMemory};
use mt_postings::Postings;
use rayon::{current_num_threads, join};
use std::alloc::Global;
use std::thread::Threads;

/// To make the lists of so many places takes far longer than starting a thread does.
const MANY: usize = 1 << 16;

/// For each number below `count`, the places at which it stands in a column. Where the column is long, two threads sort the places, and two make the lists, each those that
/// take about half of the time. It is meant for columns of few numbers, each of which stands in most runs of 65,536 places.
pub fn postings_by_runs<R: Threads + Sync>(
    rt: &R,
    alloc: Global,
    column: &[u32],
    count: usize,
) -> Result<List<Postings>, NoMemory>
    requires short { length column.now < 4294967295 }
    requires numbers { All (λ n. n < count) column.now }
    ensures { IfOk result (λ lists. AreInverted column.now count lists) }
{
    let blocks = Blocks::new(rt, alloc, column, count)?;
    lists_beside(rt, alloc, &blocks, count)
}

/// The lists of the numbers from one up to another.
fn lists_of(
    alloc: Global,
    blocks: &Blocks<'_>,
    from: usize,
    to: usize,
) -> Result<List<Postings>, NoMemory>
    requires order { from ≤ to }
    requires within { to ≤ blocks.now.count }
    ensures { IfOk result (λ lists. AreListsOf blocks.now.numbers from to lists) }
{
    let mut lists = List::with_capacity(alloc, to - from)?;
    let mut places = Vec::new(alloc);
    for number in from..to {
        blocks.gather(number, &mut places)?;
        lists.push(Postings::from_slice(alloc, places.as_slice())?)?;
    }
    Ok(lists)
}

/// The lists of all numbers. Those of many places are made by two threads.
fn lists_beside<R: Threads + Sync>(
    rt: &R,
    alloc: Global,
    blocks: &Blocks<'_>,
    count: usize,
) -> Result<List<Postings>, NoMemory>
    requires { blocks.now.count ≡ count }
    ensures { IfOk result (λ lists. AreListsOf blocks.now.numbers 0 count lists) }
{
    if blocks.len() < MANY || current_num_threads(rt) < 2 {
        return lists_of(alloc, blocks, 0, count);
    }
    let middle = blocks.middle();
    let first = move || -> Result<List<Postings>, NoMemory>
        requires { middle ≤ blocks.now.count }
        ensures { IfOk result (λ lists. AreListsOf blocks.entry.now.numbers 0 middle lists) }
    { lists_of(alloc, blocks, 0, middle) };
    let others = move || -> Result<List<Postings>, NoMemory>
        requires { (middle ≤ count) × (count ≤ blocks.now.count) }
        ensures { IfOk result (λ lists. AreListsOf blocks.entry.now.numbers middle count lists) }
    { lists_of(alloc, blocks, middle, count) };
    let (first, others) = join(rt, first, others);
    joined(first?, others?)
}
