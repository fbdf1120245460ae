//! A place in a long posting list.

ghost use Rattle.std.specs.Prelude.{◌≡◌, ℕ, ◌+◌, ◌-◌, ◌*◌, ◌^◌, ◌<◌, ◌≤◌, List, [], ◌∷◌, length, slice_index_or, is_some, if◌then◌else◌, MatchOption};
ghost use Rattle.mt_store_spec.specs.Codes.{bits, log2};
ghost use Rattle.mt_store_spec.specs.Positions.{ArePositions, from_least, IsCode, most_looks};
ghost use Rattle.mt_postings.specs.Kept.{AreEntries, IsNear};
ghost use Rattle.mt_postings.specs.declared.coded.Entry.{Entry};

use super::coded::Entry;
use super::reader::BitReader;
use mt_base::Steps;
use std::marker::Model;
use std::sync::ledger::Ledger;

/// The positions of a long list that are left.
#[derive(Drop)]
pub(crate) struct Places<'a> {
    reader: BitReader<'a>,
    entries: &'a [Entry],
    /// How many positions the list has.
    count: u32,
    /// How many of them are passed.
    passed: u32,
    /// The least position that may be next.
    least: u32,
}

impl<'a> Model for Places<'a> {
    ghost use Rattle.std.specs.Prelude.{ℕ, List, ◌-◌};
    ghost use Rattle.mt_postings.specs.Kept.{positions_in, IsPlaced};

    ghost Value = { List ℕ };

    ghost view = { λ p. positions_in (p.count - p.passed) p.least p.reader.left };

    ghost invariant = { λ p. IsPlaced p.entries.now p.count p.passed p.least p.reader
        (positions_in (p.count - p.passed) p.least p.reader.left) };
}

/// How many entries there are before the first, from `first` on, whose position is at least `least`.
fn entries_below<L: Ledger>(
    entries: &[Entry],
    least: u32,
    first: usize,
    steps: &mut Steps<L>,
) -> usize
    requires { first ≤ length entries.now }
    ensures order { first ≤ result }
    ensures within { result ≤ length entries.now }
    ensures below { (d : Entry) → first < result → (slice_index_or entries.now (result - 1) d).position < least }
    ensures stop { (d : Entry) → result < length entries.now → least ≤ (slice_index_or entries.now result d).position }
    ensures least_looks { steps.old ≤ steps.new }
    ensures most_looks { 2 ^ (steps.new - steps.old) ≤ 2 * (length entries.now - first) + 1 }
{
    let mut from = first;
    let mut to = entries.len();
    while from < to {
        let middle = from + (to - from) / 2;
        steps.tick();
        if entries[middle].position < least {
            from = middle + 1;
        } else {
            to = middle;
        }
    }
    from
}

impl<'a> Places<'a> {
    /// Before the first position of a list with this code and these entries.
    pub(crate) fn new(bytes: &'a [u8], entries: &'a [Entry], count: u32) -> Self
        requires { (ps : List ℕ) × IsCode bytes.now ps × (count ≡ length ps) × AreEntries ps entries.now }
        ensures { (ps : List ℕ) → IsCode bytes.now ps → count ≡ length ps → result ≡ ps }
    {
        Places {
            reader: BitReader::new(bytes),
            entries,
            count,
            passed: 0,
            least: 0,
        }
    }

    /// The next position, which is then passed. It takes no memory.
    #[inline]
    pub(crate) fn next(&mut self) -> Option<u32>
        ensures { MatchOption result ((self.old ≡ []) × (self.new ≡ [])) (λ p. self.old ≡ p ∷ self.new) }
    {
        if self.passed >= self.count {
            return None;
        }
        match self.reader.get_delta() {
            Ok(gap) => {
                let position = self.least + (gap - 1);
                self.least = position + 1;
                self.passed += 1;
                Some(position)
            }
            Err(_) => unreachable!(),
        }
    }

    /// The first position that is at least `least`, where it is near. It and those before it are then passed.
    fn scan<L: Ledger>(&mut self, least: u32, steps: &mut Steps<L>) -> Option<u32>
        requires { IsNear least self.old }
        ensures given { MatchOption result
            ((from_least least self.old ≡ []) × (self.new ≡ []))
            (λ p. from_least least self.old ≡ p ∷ self.new) }
        ensures least_looks { steps.old + (if is_some result then 1 else 0) ≤ steps.new }
        ensures most_looks { steps.new ≤ steps.old + 128 }
    {
        for _ in 0..128u32 {
            let position = self.next()?;
            steps.tick();
            if position >= least {
                return Some(position);
            }
        }
        None
    }

    /// The first position that is at least `least`. It and those before it are then passed, and all where there is none. The
    /// entries are searched for the last that is below it, and at most 128 positions are read from there.
    pub(crate) fn seek<L: Ledger>(&mut self, least: u32, steps: &mut Steps<L>) -> Option<u32>
        ensures given { MatchOption result
            ((from_least least self.old ≡ []) × (self.new ≡ []))
            (λ p. from_least least self.old ≡ p ∷ self.new) }
        ensures least_looks { steps.old + (if is_some result then 1 else 0) ≤ steps.new }
        ensures most_looks { steps.new ≤ steps.old + most_looks (length self.old) }
    {
        let first = (self.passed / 128) as usize;
        let behind = entries_below(self.entries, least, first, steps);
        if behind == first {
            return self.scan(least, steps);
        }
        let entry = self.entries[behind - 1];
        self.reader.move_to(entry.bit);
        self.passed = (128 * behind) as u32;
        self.least = entry.position + 1;
        self.scan(least, steps)
    }
}
