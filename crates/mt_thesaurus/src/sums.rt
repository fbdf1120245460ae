//! Sums by numbers of words.

ghost use Rattle.std.specs.Prelude.{◌≡◌, ℕ, ◌+◌, ◌*◌, ◌^◌, ◌<◌, ◌≤◌, length, slice_index, IfOk};
ghost use Rattle.std.specs.List.{All};
ghost use Rattle.std.specs.Thread.{IsSync};
ghost use Rattle.mt_thesaurus.specs.Sums.{ArePartsOf, given, like, part_of, score_sum};

use super::grouped::Grouped;
use super::placed::Placed;
use mt_base::NoMemory;
use rayon::{current_num_threads, join};
use std::alloc::Global;
use std::thread::Threads;

/// What two scores in one context make two words alike: a fiftieth of the square of their difference less than their sum, 800 times over.
fn likeness(one: u8, other: u8) -> u128
    ensures is { result ≡ like one other }
    ensures few { result < 2 ^ 19 }
{
    let apart = u128::from(one.abs_diff(other));
    800 * (u128::from(one) + u128::from(other)) - apart * apart
}

/// Adds to each word in a context what a score there gives to it.
fn give(parts: &mut [u128], score: u8, others: &[Placed])
    requires below { All (λ p. p.member < length parts.old) others.now }
    requires room { (word : ℕ) → slice_index parts.old word + length others.now * 2 ^ 19 < 2 ^ 128 }
    ensures given { (word : ℕ) → slice_index parts.new word ≡ slice_index parts.old word + given score others.now word }
    ensures few { (word : ℕ) → slice_index parts.new word ≤ slice_index parts.old word + length others.now * 2 ^ 19 }
{
    for other in others {
        parts[other.member as usize] += likeness(score, other.score);
    }
}

/// What the contexts of a word give to each word. Where there is much to add up, several threads take some of the contexts each.
pub(crate) fn parts_of<R: Threads + Sync>(
    rt: &R,
    alloc: Global,
    words: usize,
    own: &[Placed],
    by_context: &Grouped,
) -> Result<Vec<u128>, NoMemory>
    requires below { All (λ p. p.member < words) by_context.now }
    requires few { length own.now < 2 ^ 32 }
    ensures count { IfOk result (λ parts. length parts.items ≡ words) }
    ensures parts { IfOk result (λ parts. (word : ℕ) → slice_index parts.items word ≡ part_of own.now by_context.now word) }
    ensures small { IfOk result (λ parts. (word : ℕ) → slice_index parts.items word < 2 ^ 118) }
{
    let work = work_of(own, by_context);
    let halvings = if work < MUCH || work / TABLE < words {
        0
    } else {
        halvings(rt)
    };
    parts_by_halves(rt, alloc, words, own, by_context, halvings)
}

/// So much work takes several milliseconds, far longer than starting threads does.
const MUCH: usize = 1 << 20;

/// Threads pay where there is so much work for each word: each of them has a table of all words, which is added to another one.
const TABLE: usize = 4;

/// To find the words in a context takes as long as adding to so many of them.
const SEARCH: usize = 4;

/// The work is told by about so many of the contexts.
const SAMPLE: usize = 256;

/// How much there is to add up for the context that stands in the middle of some.
fn work_amid(own: &[Placed], by_context: &Grouped) -> usize {
    match own.get(own.len() / 2) {
        Some(one) => by_context.of(one.member).len().saturating_add(SEARCH),
        None => 0,
    }
}

/// About how much there is to add up for these contexts.
fn work_of(own: &[Placed], by_context: &Grouped) -> usize {
    let step = own.len() / SAMPLE + 1;
    let mut work = 0usize;
    for part in own.chunks(step) {
        work = work.saturating_add(work_amid(part, by_context));
    }
    work.saturating_mul(step)
}

/// A place that about halves the work: contexts of many words often stand one after another.
fn middle(own: &[Placed], by_context: &Grouped) -> usize
    ensures { result ≤ length own.now }
{
    let step = own.len() / SAMPLE + 1;
    let half = work_of(own, by_context) / step / 2;
    let mut work = 0usize;
    let mut place = 0usize;
    for part in own.chunks(step) {
        if work >= half {
            break;
        }
        work = work.saturating_add(work_amid(part, by_context));
        place = place.saturating_add(step);
    }
    place.min(own.len())
}

/// How many times to halve the work: for four threads at most, as each has a table of all words.
fn halvings<R: Threads>(rt: &R) -> usize {
    match current_num_threads(rt) {
        0 | 1 => 0,
        2 | 3 => 1,
        _ => 2,
    }
}

/// What the contexts of a word give to each word. The contexts are halved so many times, and the halves are added up side by side.
#[cycle(halves)]
fn parts_by_halves<R: Threads + Sync>(
    rt: &R,
    alloc: Global,
    words: usize,
    own: &[Placed],
    by_context: &Grouped,
    halvings: usize,
) -> Result<Vec<u128>, NoMemory>
    requires below { All (λ p. p.member < words) by_context.now }
    requires few { length own.now < 2 ^ 32 }
    ensures { IfOk result (λ parts. ArePartsOf words own.now by_context.now parts.items) }
{
    if halvings == 0 {
        return parts_in_turn(alloc, words, own, by_context);
    }
    let (low, high) = own.split_at(middle(own, by_context));
    let one = move || -> Result<Vec<u128>, NoMemory>
        requires { IsSync R.row × (0 < halvings) × All (λ p. p.member < words) by_context.now × (length low.now < 2 ^ 32) }
        ensures { IfOk result (λ parts. ArePartsOf words low.entry.now by_context.entry.now parts.items) }
    { parts_by_halves(rt, alloc, words, low, by_context, halvings - 1) };
    let other = move || -> Result<Vec<u128>, NoMemory>
        requires { IsSync R.row × (0 < halvings) × All (λ p. p.member < words) by_context.now × (length high.now < 2 ^ 32) }
        ensures { IfOk result (λ parts. ArePartsOf words high.entry.now by_context.entry.now parts.items) }
    { parts_by_halves(rt, alloc, words, high, by_context, halvings - 1) };
    let (one, other) = join(rt, one, other);
    let mut parts = one?;
    add_all(&mut parts, &other?);
    Ok(parts)
}

/// What the contexts of a word give to each word, by one thread.
fn parts_in_turn(
    alloc: Global,
    words: usize,
    own: &[Placed],
    by_context: &Grouped,
) -> Result<Vec<u128>, NoMemory>
    requires below { All (λ p. p.member < words) by_context.now }
    requires few { length own.now < 2 ^ 32 }
    ensures { IfOk result (λ parts. ArePartsOf words own.now by_context.now parts.items) }
{
    let mut parts = vec![in alloc; 0u128; words]?;
    for one in own {
        give(&mut parts, one.score, by_context.of(one.member));
    }
    Ok(parts)
}

/// Adds to each number the one that has its place, where there is something to add: most words share no context with a lemma.
fn add_all(parts: &mut [u128], others: &[u128])
    requires even { length others.now ≡ length parts.old }
    requires room { (word : ℕ) → slice_index parts.old word + slice_index others.now word < 2 ^ 128 }
    ensures { (word : ℕ) → slice_index parts.new word ≡ slice_index parts.old word + slice_index others.now word }
{
    for word in 0..others.len() {
        if others[word] > 0 {
            parts[word] += others[word];
        }
    }
}

/// The sum of the scores of each word.
pub(crate) fn sums_of(alloc: Global, words: usize, placed: &[Placed]) -> Result<Vec<u64>, NoMemory>
    requires below { All (λ p. p.group < words) placed.now }
    requires few { length placed.now < 2 ^ 32 }
    ensures count { IfOk result (λ sums. length sums.items ≡ words) }
    ensures sums { IfOk result (λ sums. (word : ℕ) → slice_index sums.items word ≡ score_sum placed.now word) }
{
    let mut sums = vec![in alloc; 0u64; words]?;
    for one in placed {
        sums[one.group as usize] += u64::from(one.score);
    }
    Ok(sums)
}
