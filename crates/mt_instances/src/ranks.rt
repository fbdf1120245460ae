//! Whether the entries of each name come in ascending order.

ghost use Rattle.std.specs.Prelude.{◌≡◌, ℕ, ◌^◌, ◌<◌, ◌≤◌, [], length, slice_index, IfOk, IsTrue, OnOk};
ghost use Rattle.std.specs.List.{All};
ghost use Rattle.mt_instances.specs.Rising.{rank_of, rank_of_two};

use crate::entry::Entry;
use mt_base::NoMemory;
use std::alloc::Global;
use std::marker::Model;

/// The places of a text are fewer than this.
const PLACES: u128 = 4_294_967_296;

/// The rank of two places: by the lower of them, then by the greater, then by the first. So the rows of a query, which ascend by where they begin, mostly give entries
/// in ascending order, also where the second place stands before the first.
fn rank_of_two(first: u32, second: u32) -> u128
    ensures rank { result ≡ rank_of_two first second }
    ensures small { result < 2 ^ 100 }
{
    let over = first.saturating_sub(second);
    let low = first - over;
    let high = second + over;
    (low as u128 * PLACES + high as u128) * PLACES + first as u128
}

/// The rank of an entry among those of its name.
fn rank_of(entry: &Entry) -> u128
    ensures rank { result ≡ rank_of entry.now }
    ensures small { result < 2 ^ 100 }
{
    match entry.second {
        Some(second) => rank_of_two(entry.first, second),
        None => rank_of_two(entry.first, entry.first),
    }
}

/// For each name a number above the ranks of its entries, and 0 where it has none. It is seen as the list of these ends.
#[derive(Drop)]
pub(crate) struct Ranks {
    ends: Vec<u128>,
}

impl Model for Ranks {
    ghost use Rattle.std.specs.Prelude.{ℕ, List};

    ghost Value = { List ℕ };

    ghost view = { λ r. r.ends.items };
}

impl Ranks {
    /// No name has an entry. It takes no memory.
    pub(crate) fn new(alloc: Global) -> Self
        ensures { result ≡ [] }
    {
        Ranks {
            ends: Vec::new(alloc),
        }
    }

    /// Whether an entry is above all of its name. Then the end of its name is behind it.
    pub(crate) fn raise(&mut self, entry: &Entry) -> Result<bool, NoMemory>
        ensures kept { (name : ℕ) → slice_index self.old name ≤ slice_index self.new name }
        ensures above { IfOk result (λ above. IsTrue above → slice_index self.old entry.now.name ≤ rank_of entry.now) }
        ensures raised { IfOk result (λ above. IsTrue above → rank_of entry.now < slice_index self.new entry.now.name) }
    {
        let name = entry.name as usize;
        make_room(&mut self.ends, name)?;
        let rank = rank_of(entry);
        if rank < self.ends[name] {
            return Ok(false);
        }
        self.ends[name] = rank + 1;
        Ok(true)
    }

    /// The names of these entries have none, and the memory is kept for others. It costs by how many the entries are; where there are at least as many as ends, all ends
    /// go at once.
    pub(crate) fn forget(&mut self, entries: &[Entry])
        ensures { All (λ entry. slice_index self.new entry.name ≡ 0) entries.now }
    {
        if self.ends.len() <= entries.len() {
            self.ends.clear();
            return;
        }
        for entry in entries {
            let name = entry.name as usize;
            if name < self.ends.len() {
                self.ends[name] = 0;
            }
        }
    }
}

/// Makes room for the end of a name.
fn make_room(ends: &mut Vec<u128>, name: usize) -> Result<(), NoMemory>
    requires { name < 2 ^ 32 }
    ensures room { OnOk result (name < length ends.new.items) }
    ensures same { (k : ℕ) → slice_index ends.new.items k ≡ slice_index ends.old.items k }
{
    if name < ends.len() {
        return Ok(());
    }
    ends.resize(2 * (name + 1), 0)?;
    Ok(())
}
