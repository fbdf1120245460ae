//! The labels of rows, of which those that are seldom set take no memory until they are.

ghost use Rattle.std.specs.Prelude.{◌≡◌, ◌-◌, ◌≤◌, [], ◌∷◌, ◌++◌, true, length, take, drop, replicate, nat_eq, slice_get, OnOk, OnErr};
ghost use Rattle.mt_match_spec.specs.Labels.{no_labels};
ghost use Rattle.mt_text_spec.specs.Texts.{unset};
ghost use Rattle.mt_rows.specs.LabelSets.{no_others};
ghost use Rattle.mt_rows.specs.Marks.{kept};

use crate::marks::keep_marked;
use mt_base::{NoMemory, Row};
use std::alloc::Global;
use std::marker::Model;

/// The places of the labels 1 to 9 in rows, seen as their lists. They take 8 bytes a row while none of the labels 3 to 9 is set, and 36 from the first row on where one is.
#[derive(Debug, Drop)]
pub(crate) struct LabelSets {
    pairs: Vec<[u32; 2]>,
    others: Vec<[u32; 7]>,
}

impl Model for LabelSets {
    ghost use Rattle.std.specs.Prelude.{ℕ, List, ◌≤◌, length};
    ghost use Rattle.mt_rows.specs.LabelSets.{all_nine};

    ghost Value = { List (List ℕ) };

    ghost view = { λ s. all_nine s.pairs.items s.others.items };

    ghost invariant = { λ s. length s.others.items ≤ length s.pairs.items };
}

impl LabelSets {
    /// The labels of no rows. It takes no memory until some are put.
    pub(crate) fn new(alloc: Global) -> Self
        ensures { result ≡ [] }
    {
        LabelSets {
            pairs: Vec::new(alloc),
            others: Vec::new(alloc),
        }
    }

    /// Whether there are none.
    pub(crate) fn is_empty(&self) -> bool
        ensures { result ≡ nat_eq (length self.now) 0 }
    {
        self.pairs.is_empty()
    }

    /// The labels at a place, where there are some.
    pub(crate) fn get(&self, i: usize) -> Option<[u32; 9]>
        ensures { result ≡ slice_get self.now i }
    {
        match self.pairs.get(i) {
            None => None,
            Some(pair) => {
                match self.others.get(i) {
                    None => Some(nine(pair, &[Row::UNSET; 7])),
                    Some(others) => Some(nine(pair, others)),
                }
            }
        }
    }

    /// Puts labels at a place behind the others. At the places before it where there are none, no label is set. Without memory nothing changes.
    pub(crate) fn put(&mut self, at: usize, set: &[u32; 9]) -> Result<(), NoMemory>
        requires { length self.old ≤ at }
        ensures ok { OnOk result (self.new ≡ (self.old ++ replicate (at - length self.old) no_labels) ++ set.now ∷ []) }
        ensures err { OnErr result (self.new ≡ self.old) }
    {
        let before = self.pairs.len();
        put_at(&mut self.pairs, at, pair_of(set))?;
        let others = others_of(set);
        if are_unset(&others) {
            return Ok(());
        }
        match put_at(&mut self.others, at, others) {
            Ok(()) => Ok(()),
            Err(NoMemory) => {
                self.pairs.truncate(before);
                Err(NoMemory)
            }
        }
    }

    /// Keeps those of the first `n` rows, or all where there are fewer.
    pub(crate) fn truncate(&mut self, n: usize)
        ensures { self.new ≡ take n self.old }
    {
        self.pairs.truncate(n);
        self.others.truncate(n);
    }

    /// Keeps those whose mark is true, in order. It takes no memory.
    pub(crate) fn keep(&mut self, marks: &[bool])
        requires { length self.old ≤ length marks.now }
        ensures { self.new ≡ kept marks.now self.old }
    {
        keep_marked(&mut self.pairs, marks);
        keep_marked(&mut self.others, marks);
    }

    /// Takes all away, and keeps the memory for others.
    pub(crate) fn clear(&mut self)
        ensures { self.new ≡ [] }
    {
        self.pairs.clear();
        self.others.clear();
    }
}

/// The labels 1 to 9, of which these are the first two and the others.
fn nine(pair: &[u32; 2], others: &[u32; 7]) -> [u32; 9]
    ensures { result ≡ pair.now ++ others.now }
{
    [
        pair[0], pair[1], others[0], others[1], others[2], others[3], others[4], others[5],
        others[6],
    ]
}

/// The labels 1 and 2.
fn pair_of(set: &[u32; 9]) -> [u32; 2]
    ensures { result ≡ take 2 set.now }
{
    [set[0], set[1]]
}

/// The labels 3 to 9.
fn others_of(set: &[u32; 9]) -> [u32; 7]
    ensures { result ≡ drop 2 set.now }
{
    [set[2], set[3], set[4], set[5], set[6], set[7], set[8]]
}

/// Whether none of the labels 3 to 9 is set.
fn are_unset(others: &[u32; 7]) -> bool
    ensures { result ≡ true → others.now ≡ no_others }
{
    let [third, fourth, fifth, sixth, seventh, eighth, ninth] = *others;
    third == Row::UNSET
        && fourth == Row::UNSET
        && fifth == Row::UNSET
        && sixth == Row::UNSET
        && seventh == Row::UNSET
        && eighth == Row::UNSET
        && ninth == Row::UNSET
}

/// Puts some labels at a place behind the others. At the places before it where there are none, none is set.
fn put_at<const N: usize>(
    sets: &mut Vec<[u32; N]>,
    at: usize,
    set: [u32; N],
) -> Result<(), NoMemory>
    requires { length sets.old.items ≤ at }
    ensures ok { OnOk result (sets.new.items ≡ (sets.old.items ++ replicate (at - length sets.old.items) (replicate N unset)) ++ set.entry ∷ []) }
    ensures err { OnErr result (sets.new.items ≡ sets.old.items) }
{
    let before = sets.len();
    sets.resize(at, [Row::UNSET; N])?;
    match sets.push(set) {
        Ok(()) => Ok(()),
        Err(_) => {
            sets.truncate(before);
            Err(NoMemory)
        }
    }
}
