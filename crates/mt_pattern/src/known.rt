//! What a pattern has answered for values, so that it need not be asked again.

ghost use Rattle.std.specs.Prelude.{◌≡◌, ◌<◌, ℕ, List as Items, Bool, [], length, map, IsTrue, IfOk, IfSome};
ghost use Rattle.mt_pattern.specs.Known.{AreKnown};

use super::id_set::IdSet;
use mt_base::{NoMemory, Value};
use mt_lexicon::Lexicon;
use std::alloc::Global;
use std::marker::Model;

/// Of so many values at most it is kept whether a pattern accepts them.
const MOST_VALUES: usize = 65_536;

/// The most bytes of a value of which that is kept.
const LONGEST_VALUE: usize = 64;

/// At so many places, side by side, a value is looked for.
const MOST_TRIES: usize = 64;

/// Whether a pattern accepts a value.
#[derive(Drop)]
pub(crate) struct Answer {
    value: Value,
    found: bool,
}

/// The answers for some values, seen as their list. Each has its number, counted from 1, at the first free place from that on which the bytes of its value name; a place is
/// free where it has 0. At least half of the places are.
#[derive(Drop)]
pub(crate) struct Known {
    answers: Vec<Answer>,
    places: Vec<u32>,
}

impl Model for Known {
    ghost use Rattle.std.specs.Prelude.{List};
    ghost use Rattle.mt_pattern.specs.declared.known.Answer.{Answer};

    ghost Value = { List Answer };

    ghost view = { λ k. k.answers.items };
}

impl Known {
    /// No answers. It takes no memory until one is kept.
    pub(crate) fn new(alloc: Global) -> Self
        ensures { result ≡ [] }
    {
        Known {
            answers: Vec::new(alloc),
            places: Vec::new(alloc),
        }
    }

    /// The answer for a value, where it is kept.
    fn get(&self, value: &str) -> Option<bool>
        ensures { (test : Items ℕ → Bool) → AreKnown test self.now → IfSome result (λ found. found ≡ test value.now) }
    {
        let count = self.places.len();
        if count == 0 {
            return None;
        }
        let mut at = first_place(value, count);
        for _ in 0..MOST_TRIES {
            let number = self.places[at];
            if number == 0 {
                return None;
            }
            if let Some(answer) = self.answers.get(number as usize - 1) {
                if is_same(answer.value.as_str(), value) {
                    return Some(answer.found);
                }
            }
            at = place_behind(at, count);
        }
        None
    }

    /// Keeps whether a value was found, where there is room for it and it is not kept yet.
    fn keep(&mut self, alloc: Global, value: &str, found: bool) -> Result<(), NoMemory>
        ensures { (test : Items ℕ → Bool) → AreKnown test self.old → found ≡ test value.now → AreKnown test self.new }
    {
        if value.len() > LONGEST_VALUE || self.answers.len() >= MOST_VALUES {
            return Ok(());
        }
        if self.get(value).is_some() {
            return Ok(());
        }
        self.make_room(alloc)?;
        let value = Value::new(alloc, value)?;
        self.push(value, found)
    }

    /// Makes more places where fewer than half of them would be free.
    fn make_room(&mut self, alloc: Global) -> Result<(), NoMemory>
        requires { length self.old < 65536 }
        ensures { self.new ≡ self.old }
    {
        let count = self.answers.len();
        if 2 * count < self.places.len() {
            return Ok(());
        }
        let mut places = vec![in alloc; 0u32; 4 * count + 32]?;
        for number in 0..count {
            put(
                &mut places,
                self.answers[number].value.as_str(),
                number as u32 + 1,
            );
        }
        self.places = places;
        Ok(())
    }

    /// Adds an answer.
    fn push(&mut self, value: Value, found: bool) -> Result<(), NoMemory>
        requires { length self.old < 65536 }
        ensures { (test : Items ℕ → Bool) → AreKnown test self.old → found ≡ test value → AreKnown test self.new }
    {
        let number = self.answers.len() as u32 + 1;
        put(&mut self.places, value.as_str(), number);
        self.answers.push(Answer { value, found })?;
        Ok(())
    }
}

/// The first of so many places at which a value is looked for.
fn first_place(value: &str, count: usize) -> usize
    requires { 0 < count }
    ensures { result < count }
{
    let mut mixed = 0xcbf2_9ce4_8422_2325u64;
    for byte in value.as_bytes() {
        mixed = (mixed ^ *byte as u64).wrapping_mul(0x0100_0000_01b3);
    }
    let mixed = (mixed ^ mixed >> 32).wrapping_mul(0x9e37_79b9_7f4a_7c15);
    ((mixed as u128 * count as u128) >> 64) as usize
}

/// The place behind one of so many, and behind the last the first.
fn place_behind(at: usize, count: usize) -> usize
    requires { at < count }
    ensures { result < count }
{
    if at + 1 < count { at + 1 } else { 0 }
}

/// Puts the number of an answer at the first free place for its value. Where none is free near by, its value is asked again.
fn put(places: &mut [u32], value: &str, number: u32)
    ensures { length places.new ≡ length places.old }
{
    let count = places.len();
    if count == 0 {
        return;
    }
    let mut at = first_place(value, count);
    for _ in 0..MOST_TRIES {
        if places[at] == 0 {
            places[at] = number;
            return;
        }
        at = place_behind(at, count);
    }
}

/// Whether two texts are the same. Most are short.
fn is_same(one: &str, other: &str) -> bool
    ensures { IsTrue result → one.now ≡ other.now }
{
    let one = one.as_bytes();
    let other = other.as_bytes();
    if one.len() != other.len() {
        return false;
    }
    for at in 0..one.len() {
        if one[at] != other[at] {
            return false;
        }
    }
    true
}

/// The marks of the values of a lexicon, where all of them are known.
pub(crate) fn recalled(
    alloc: Global,
    known: &Known,
    lexicon: &Lexicon,
) -> Result<Option<IdSet>, NoMemory>
    ensures { (test : Items ℕ → Bool) → AreKnown test known.now → IfOk result (λ all. IfSome all (λ marks. marks ≡ map test lexicon.now)) }
{
    let mut marks = IdSet::new(alloc, lexicon.len())?;
    for id in 0..lexicon.len() {
        match known.get(lexicon.value(id)) {
            Some(found) => marks.insert_if(id, found),
            None => return Ok(None),
        }
    }
    Ok(Some(marks))
}

/// Keeps what was found of the values of a lexicon, as far as there is room.
pub(crate) fn keep(
    alloc: Global,
    known: &mut Known,
    lexicon: &Lexicon,
    marks: &IdSet,
) -> Result<(), NoMemory>
    ensures { (test : Items ℕ → Bool) → AreKnown test known.old → marks.now ≡ map test lexicon.now → AreKnown test known.new }
{
    for id in 0..lexicon.len() {
        known.keep(alloc, lexicon.value(id), marks.has(id))?;
    }
    Ok(())
}
