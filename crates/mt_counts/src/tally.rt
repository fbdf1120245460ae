//! Counts by pairs of numbers.

ghost use Rattle.std.specs.Prelude.{◌≡◌, ℕ, List as Items, ◌+◌, ◌-◌, ◌^◌, ◌<◌, ◌≤◌, [], length, slice_get, slice_index, Some, IfOk, IfSome, IfNone, IsFalse, IsTrue, OnErr, OnOk, vec_len, vec_capacity};
ghost use Rattle.std.specs.List.{All, AllZip};
ghost use Rattle.std.specs.Map.{keys_of};
ghost use Rattle.mt_counts.specs.Tallies.{AreKeysBelow, AreOnce, Grows, HasKeysBelow, HasPlaced, IsAt, IsHint, IsPlaced, IsRaised, ListsOnce, each_once};
ghost use Rattle.mt_counts.specs.Totals.{AddUp, IsLowered, count_at, total_of_all};

use super::hasher::PairHasher;
use indexmap::IndexMap;
use mt_base::NoMemory;
use std::alloc::Global;
use std::hash::BuildHasherDefault;
use std::marker::Model;

/// A text of so many notes is large.
const LARGE: usize = 1 << 18;

/// About one of so many notes of a large text is the first one of its pair.
const NOTES_OF_A_PAIR: usize = 4;

/// So many places are kept at hand, where there are more pairs than `FEW`.
const HINTS: usize = 4096;

/// Among so few pairs one is found as soon as by a hint.
const FEW: usize = 64;

/// The place of a pair that was looked for lately.
#[derive(Clone, Copy, Drop)]
struct Hint {
    group: u32,
    member: u32,
    place: u32,
}

/// Counts by pairs of a group and a member, fewer than 2^32 of them. A pair keeps its place, counted from 0, also where its count is 0. The pairs of a group are
/// found by a chain, from the last to the first. Of pairs that come again and again the places are at hand, so that such a pair is found without its hash.
#[derive(Drop)]
pub(crate) struct Tally {
    counts: IndexMap<(u32, u32), u64, BuildHasherDefault<PairHasher>>,
    belows: Vec<u32>,
    ends: Vec<u32>,
    hints: Vec<Hint>,
    sum: u64,
}

impl Model for Tally {
    ghost use Rattle.std.specs.Prelude.{ℕ, List, ◌^◌, ◌<◌, length};
    ghost use Rattle.std.specs.Prelude.{◌≡◌};
    ghost use Rattle.mt_counts.specs.Chains.{AreChained, classes};
    ghost use Rattle.mt_counts.specs.Totals.{total_of_all};
    ghost use Rattle.std.specs.List.{All};
    ghost use Rattle.std.specs.Map.{keys_of};
    ghost use Rattle.mt_counts.specs.Tallies.{IsHint};

    ghost Value = { List ((ℕ × ℕ) × ℕ) };

    ghost view = { λ t. t.counts.entries };

    ghost invariant = { λ t. AreChained (classes t.counts.entries) t.belows.items t.ends.items × (length t.counts.entries < 2 ^ 32) × (t.sum ≡ total_of_all t.counts.entries)
        × All (λ hint. IsHint (keys_of t.counts.entries) hint.group hint.member hint.place) t.hints.items };
}

impl Tally {
    /// No counts. It takes no memory.
    pub(crate) fn new(alloc: Global) -> Self
        ensures { result ≡ [] }
    {
        Tally {
            counts: IndexMap::with_hasher(alloc, BuildHasherDefault::new()),
            belows: Vec::new(alloc),
            ends: Vec::new(alloc),
            hints: Vec::new(alloc),
            sum: 0,
        }
    }

    /// Makes room for the pairs of the notes of a large text, so that those that are there are not copied again and again while others come.
    pub(crate) fn make_room(&mut self, notes: usize) -> Result<(), NoMemory>
        ensures { self.new ≡ self.old }
    {
        if notes < LARGE {
            return Ok(());
        }
        self.counts.reserve(notes / NOTES_OF_A_PAIR)?;
        self.belows.reserve(notes / NOTES_OF_A_PAIR)?;
        Ok(())
    }

    /// How many pairs have a place.
    pub(crate) fn len(&self) -> usize
        ensures count { result ≡ length self.now }
        ensures few { result < 2 ^ 32 }
        ensures once { AreOnce self.now }
    {
        self.counts.len()
    }

    /// All counts together.
    pub(crate) fn sum(&self) -> u64
        ensures { result ≡ total_of_all self.now }
    {
        self.sum
    }

    /// The pair at a place, and its count.
    pub(crate) fn get(&self, place: usize) -> ((u32, u32), u64)
        requires { place < length self.now }
        ensures { slice_get self.now place ≡ Some result }
    {
        match self.counts.get_index(place) {
            Some((key, count)) => (*key, *count),
            None => unreachable!(),
        }
    }

    /// The place of a pair.
    pub(crate) fn find(&self, group: u32, member: u32) -> Option<u32>
        ensures found { IfSome result (λ place. IsAt self.now (group, member) place) }
        ensures none { IfNone result ((place : ℕ) → IsAt self.now (group, member) place → ⊥) }
    {
        match self.counts.get_index_of(&(group, member)) {
            Some(place) => Some(place as u32),
            None => None,
        }
    }

    /// The count of a pair, 0 where it has no place.
    pub(crate) fn count_of(&self, group: u32, member: u32) -> u64
        ensures count { result ≡ count_at self.now (group, member) }
        ensures once { AreOnce self.now }
    {
        self.len();
        match self.find(group, member) {
            Some(place) => self.get(place as usize).1,
            None => 0,
        }
    }

    /// The place of a pair. A new pair comes behind the others, with the count 0. A pair is looked up once: each is put as a new one is, and one that was there has its
    /// count back.
    pub(crate) fn place(&mut self, group: u32, member: u32) -> Result<u32, NoMemory>
        ensures grows { Grows self.old self.new }
        ensures place { IfOk result (λ place. IsAt self.new (group, member) place) }
        ensures below { (groups members : ℕ) → HasKeysBelow groups members self.old → group < groups → member < members → HasKeysBelow groups members self.new }
    {
        if self.counts.len() >= u32::MAX as usize {
            return Err(NoMemory);
        }
        make_place(&mut self.belows)?;
        make_room(&mut self.ends, group as usize)?;
        match self.counts.insert_full((group, member), 0) {
            Ok((place, Some(count))) => {
                self.counts[place] = count;
                Ok(place as u32)
            }
            Ok((place, None)) => {
                self.belows.push_reserved(self.ends[group as usize]);
                self.ends[group as usize] = place as u32 + 1;
                Ok(place as u32)
            }
            Err(_) => Err(NoMemory),
        }
    }

    /// The place of a pair that may stand at the one that is named: where pairs come together, they mostly came together before, and stand side by side. A new pair has
    /// the count 0.
    fn place_near(&mut self, likely: usize, group: u32, member: u32) -> Result<u32, NoMemory>
        ensures grows { Grows self.old self.new }
        ensures place { IfOk result (λ place. IsAt self.new (group, member) place) }
        ensures below { (groups members : ℕ) → HasKeysBelow groups members self.old → group < groups → member < members → HasKeysBelow groups members self.new }
    {
        match self.find_at(likely, group, member) {
            Some(place) => Ok(place),
            None => self.place(group, member),
        }
    }

    /// The place of a pair, where it is the one that is named.
    fn find_at(&self, likely: usize, group: u32, member: u32) -> Option<u32>
        ensures { IfSome result (λ place. IsAt self.now (group, member) place) }
    {
        match self.counts.get_index(likely) {
            Some((key, _)) => {
                if key.0 == group && key.1 == member {
                    Some(likely as u32)
                } else {
                    None
                }
            }
            None => None,
        }
    }

    /// Lists the places of some pairs. A new pair has the count 0.
    pub(crate) fn place_all(
        &mut self,
        keys: &[(u32, u32)],
        places: &mut Vec<u32>,
    ) -> Result<(), NoMemory>
        ensures grows { Grows self.old self.new }
        ensures places { OnOk result (AllZip (IsAt self.new) keys.now places.new.items) }
        ensures below { (groups members : ℕ) → HasKeysBelow groups members self.old → AreKeysBelow groups members keys.now → HasKeysBelow groups members self.new }
    {
        places.clear();
        let mut next = 0;
        for k in 0..keys.len() {
            let (group, member) = keys[k];
            let place = self.place_near(next, group, member)?;
            places.push(place)?;
            next = place as usize + 1;
        }
        Ok(())
    }

    /// Lists the places of some pairs, of which many come again and again. A new pair has the count 0.
    pub(crate) fn place_again(
        &mut self,
        keys: &[(u32, u32)],
        places: &mut Vec<u32>,
    ) -> Result<(), NoMemory>
        ensures grows { Grows self.old self.new }
        ensures places { OnOk result (AllZip (IsAt self.new) keys.now places.new.items) }
        ensures below { (groups members : ℕ) → HasKeysBelow groups members self.old → AreKeysBelow groups members keys.now → HasKeysBelow groups members self.new }
    {
        places.clear();
        for k in 0..keys.len() {
            let (group, member) = keys[k];
            let place = self.place_known(group, member)?;
            places.push(place)?;
        }
        Ok(())
    }

    /// The place of a pair that may be at hand. A new pair has the count 0.
    fn place_known(&mut self, group: u32, member: u32) -> Result<u32, NoMemory>
        ensures grows { Grows self.old self.new }
        ensures place { IfOk result (λ place. IsAt self.new (group, member) place) }
        ensures below { (groups members : ℕ) → HasKeysBelow groups members self.old → group < groups → member < members → HasKeysBelow groups members self.new }
    {
        match self.hinted(group, member) {
            Some(place) => Ok(place),
            None => {
                let place = self.place(group, member)?;
                self.hint(group, member, place);
                Ok(place)
            }
        }
    }

    /// The place of a pair, where it is at hand.
    fn hinted(&self, group: u32, member: u32) -> Option<u32>
        ensures { IfSome result (λ place. IsAt self.now (group, member) place) }
    {
        let slot = slot_of(group, member);
        if slot >= self.hints.len() {
            return None;
        }
        let hint = self.hints[slot];
        if hint.group == group && hint.member == member {
            Some(hint.place)
        } else {
            None
        }
    }

    /// Keeps the place of a pair at hand. Without memory none is.
    fn hint(&mut self, group: u32, member: u32, place: u32)
        requires { IsAt self.old (group, member) place }
        ensures { self.new ≡ self.old }
    {
        let hint = Hint {
            group,
            member,
            place,
        };
        let slot = slot_of(group, member);
        if slot < self.hints.len() {
            self.hints[slot] = hint;
        } else if self.counts.len() > FEW {
            match self.hints.resize(HINTS, hint) {
                Ok(()) => {}
                Err(_) => {}
            }
        }
    }

    /// Adds one to the count at each of some places. It takes no memory.
    pub(crate) fn raise_each(&mut self, places: &[u32])
        requires within { All (λ place. place < length self.old) places.now }
        requires few { total_of_all self.old + length places.now < 2 ^ 64 }
        ensures keys { keys_of self.new ≡ keys_of self.old }
        ensures added { (keys : Items (ℕ × ℕ)) → AllZip (IsAt self.old) keys places.now → AddUp self.old (each_once keys) self.new }
    {
        raise_counts(&mut self.counts, places);
        self.sum += places.len() as u64;
    }

    /// Takes from the count at a place. It takes no memory.
    pub(crate) fn lower(&mut self, place: usize, by: u64)
        requires few { (key : ℕ × ℕ) (count : ℕ) → slice_get self.old place ≡ Some (key, count) → by ≤ count }
        requires within { place < length self.old }
        ensures { IsRaised self.new place by self.old }
    {
        let (_, count) = self.get(place);
        self.counts[place] = count - by;
        self.sum -= by;
    }

    /// Takes one from the count of a pair that has some. It takes no memory.
    pub(crate) fn lower_key(&mut self, group: u32, member: u32)
        ensures keys { keys_of self.new ≡ keys_of self.old }
        ensures lowered { 1 ≤ count_at self.old (group, member) → IsLowered (group, member) 1 self.old self.new }
    {
        self.len();
        match self.find(group, member) {
            Some(place) => {
                let (_, count) = self.get(place as usize);
                if count > 0 {
                    self.lower(place as usize, 1);
                }
            }
            None => {}
        }
    }

    /// Whether a pair of the group has a count that is not 0.
    pub(crate) fn has(&self, group: u32) -> bool
        ensures some { IsTrue result → HasPlaced self.now group }
        ensures none { IsFalse result → HasPlaced self.now group → ⊥ }
    {
        let mut below = end_at(self.ends.as_slice(), group as usize);
        while below > 0 {
            let place = below - 1;
            if self.get(place as usize).1 > 0 {
                return true;
            }
            below = self.belows[place as usize];
        }
        false
    }

    /// The places of the pairs of a group whose counts are not 0.
    pub(crate) fn places(&self, alloc: Global, group: u32) -> Result<Vec<u32>, NoMemory>
        ensures { IfOk result (λ places. ListsOnce (IsPlaced self.now group) places.items) }
    {
        let mut places = Vec::new(alloc);
        let mut below = end_at(self.ends.as_slice(), group as usize);
        while below > 0 {
            let place = below - 1;
            if self.get(place as usize).1 > 0 {
                places.push(place)?;
            }
            below = self.belows[place as usize];
        }
        Ok(places)
    }
}

/// Where the place of a pair is kept at hand. Members that follow each other, as the two names of a relation that is read both ways, lie beside each other.
fn slot_of(group: u32, member: u32) -> usize {
    let spread = group as u64 * 4 + member as u64 % 4;
    spread as usize % HINTS
}

/// Adds one to the count at each of some places.
fn raise_counts(
    counts: &mut IndexMap<(u32, u32), u64, BuildHasherDefault<PairHasher>>,
    places: &[u32],
)
    requires within { All (λ place. place < length counts.old.entries) places.now }
    requires few { total_of_all counts.old.entries + length places.now < 2 ^ 64 }
    ensures keys { keys_of counts.new.entries ≡ keys_of counts.old.entries }
    ensures sum { total_of_all counts.new.entries ≡ total_of_all counts.old.entries + length places.now }
    ensures added { (keys : Items (ℕ × ℕ)) → AllZip (IsAt counts.old.entries) keys places.now → AddUp counts.old.entries (each_once keys) counts.new.entries }
{
    for k in 0..places.len() {
        counts[places[k] as usize] += 1;
    }
}

/// The end of a class, 0 where it has none.
fn end_at(ends: &[u32], class: usize) -> u32
    ensures { result ≡ slice_index ends.now class }
{
    if class < ends.len() { ends[class] } else { 0 }
}

/// Makes room for one place more, at first for as many as a small table of keys has.
fn make_place(belows: &mut Vec<u32>) -> Result<(), NoMemory>
    ensures room { OnOk result (vec_len belows.new < vec_capacity belows.new) }
    ensures same { belows.new.items ≡ belows.old.items }
{
    if belows.len() < belows.capacity() {
        return Ok(());
    }
    belows.reserve(9)?;
    Ok(())
}

/// Makes room for the end of a class, and for those of others that may follow.
fn make_room(ends: &mut Vec<u32>, class: usize) -> Result<(), NoMemory>
    requires { class < 2 ^ 32 }
    ensures room { OnOk result (class < length ends.new.items) }
    ensures same { (k : ℕ) → slice_index ends.new.items k ≡ slice_index ends.old.items k }
{
    if class < ends.len() {
        return Ok(());
    }
    ends.resize(2 * (class + 1), 0)?;
    Ok(())
}
