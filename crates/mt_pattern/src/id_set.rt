//! Sets of the numbers of values.

ghost use Rattle.std.specs.Prelude.{◌≡◌, ◌↔◌, ◌<◌, ◌^◌, false, true, length, replicate, set, slice_get, get_or, Some, IsTrue, IfOk, IfSome, IfNone, ℕ, ◌≤◌, nat_eq};
ghost use Rattle.mt_pattern.specs.Marks.{marks_from, AreMarks, IsNext, IsNextWord, NoneFrom, size_of};
ghost use Rattle.std.specs.Bool.{OnTrue, OnFalse};

use super::words::Words;
use mt_base::NoMemory;
use std::alloc::Global;
use std::marker::Model;

/// Some of the numbers below a count: a bit for each number, in no block of memory where they are few, seen as the list of marks that say which are in the set.
#[derive(Debug, Drop)]
pub struct IdSet {
    words: Words,
    count: u32,
    size: u32,
}

impl Model for IdSet {
    ghost use Rattle.std.specs.Prelude.{◌≡◌, Bool, List};
    ghost use Rattle.mt_pattern.specs.Marks.{marks_from, AreMarks, size_of};

    ghost Value = { List Bool };

    ghost view = { λ s. marks_from s.words 0 s.count };

    ghost invariant = { λ s. AreMarks s.words s.count × (s.size ≡ size_of (marks_from s.words 0 s.count)) };
}

impl IdSet {
    /// None of the numbers below this count.
    pub fn new(alloc: Global, count: u32) -> Result<Self, NoMemory>
        ensures { IfOk result (λ made. made ≡ replicate count false) }
    {
        let words = Words::none(alloc, (count / 64) as usize)?;
        Ok(IdSet {
            words,
            count,
            size: 0,
        })
    }

    /// Puts a number into the set. It takes no memory.
    pub fn insert(&mut self, id: u32)
        requires { id < length self.old }
        ensures { self.new ≡ set self.old id true }
    {
        if self.has(id) {
            return;
        }
        self.size += 1;
        self.words.set_bit((id / 64) as usize, id % 64);
    }

    /// Puts a number into the set where a condition holds. It takes no memory.
    pub fn insert_if(&mut self, id: u32, condition: bool)
        requires { id < length self.old }
        ensures holds { OnTrue condition (self.new ≡ set self.old id true) }
        ensures fails { OnFalse condition (self.new ≡ self.old) }
    {
        if condition {
            self.insert(id);
        }
    }

    /// Whether a number is in the set. It takes no memory.
    pub fn has(&self, id: u32) -> bool
        ensures { IsTrue result ↔ slice_get self.now id ≡ Some true }
    {
        self.words.word((id / 64) as usize) >> (id % 64) & 1 == 1
    }

    /// How many numbers the set could hold: those below this count.
    pub fn count(&self) -> u32
        ensures { result ≡ length self.now }
    {
        self.count
    }

    /// How many numbers are in the set.
    pub fn len(&self) -> u32
        ensures { result ≡ size_of self.now }
    {
        self.size
    }

    /// Whether none is in the set.
    pub fn is_empty(&self) -> bool
        ensures { result ≡ nat_eq (size_of self.now) 0 }
    {
        self.size == 0
    }

    /// The least number in the set that is this one or a later one. It takes no memory, and looks at 64 numbers at once.
    pub fn next_from(&self, id: u32) -> Option<u32>
        ensures found { IfSome result (λ found. IsNext self.now id found) }
        ensures none { IfNone result (NoneFrom self.now id) }
    {
        next_bit(&self.words, self.count, id)
    }
}

/// The least number from this one on whose bit is set.
fn next_bit(words: &Words, count: u32, id: u32) -> Option<u32>
    requires { AreMarks words.now count }
    ensures found { IfSome result (λ found. IsNext (marks_from words.now 0 count) id found) }
    ensures none { IfNone result (NoneFrom (marks_from words.now 0 count) id) }
{
    let place = (id / 64) as usize;
    let word = words.word(place);
    let rest = word >> (id % 64);
    if rest != 0 {
        return Some(id + rest.trailing_zeros());
    }
    match next_word(words, place + 1) {
        Some(at) => Some(64 * (at as u32) + words.word(at).trailing_zeros()),
        None => None,
    }
}

/// The place of the first word from this place on that is not 0.
fn next_word(words: &Words, place: usize) -> Option<usize>
    ensures found { IfSome result (λ at. IsNextWord words.now place at) }
    ensures fits { IfSome result (λ at. get_or words.now at 0 < 2 ^ 64) }
    ensures none { IfNone result ((at : ℕ) → place ≤ at → get_or words.now at 0 ≡ 0) }
{
    for at in place..words.len() {
        if words.word(at) != 0 {
            return Some(at);
        }
    }
    None
}
