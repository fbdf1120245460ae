//! Sets of places.

ghost use Rattle.std.specs.Prelude.{◌≡◌, ℕ, ◌+◌, ◌*◌, ◌<◌, ◌≤◌, ◌⊎◌, true, false, length, slice_index, IfOk, OnOk, OnErr, IfSome, IfNone};
ghost use Rattle.mt_places.specs.Places.{In, room, WordIs, IsAbove, HasJust, FirstFrom};

use crate::marks::{Below, Marks};
use crate::{seeks, shifts, words};
use mt_base::NoMemory;
use std::alloc::Global;
use std::marker::Model;

/// A set of places, with room for the places below 64 times its width.
#[derive(Debug, Drop)]
pub struct Places {
    words: Vec<u64>,
}

impl Model for Places {
    ghost use Rattle.std.specs.Prelude.{List, ℕ, ◌≤◌, length};

    ghost Value = { List ℕ };

    ghost view = { λ p. p.words.items };

    ghost invariant = { λ p. length p.words.items ≤ 67108864 };
}

impl Marks for Places {
    ghost use Rattle.mt_places.specs.Places.{In};

    ghost stands = { In };

    fn word(&self, at: usize) -> u64
        ensures word { WordIs (In self.now) at result }
        ensures is { result ≡ slice_index self.now at }
    {
        match self.words.get(at) {
            Some(word) => *word,
            None => 0,
        }
    }
}

impl Places {
    /// The most words that a set has: then each place is a `u32`.
    pub const MAX_WIDTH: usize = 67108864;

    /// No place, with room for those below 64 * width.
    pub fn none(alloc: Global, width: usize) -> Result<Self, NoMemory>
        requires { width ≤ 67108864 }
        ensures width { IfOk result (λ none. length none ≡ width) }
        ensures none { IfOk result (λ none. (place : ℕ) → ¬ In none place) }
    {
        let words = vec![in alloc; 0u64; width]?;
        Ok(Places { words })
    }

    /// How many words the set has.
    pub fn width(&self) -> usize
        ensures { result ≡ length self.now }
    {
        self.words.len()
    }

    /// Gives the set another width, with no place in it. Memory is taken only where it never was so wide.
    pub fn reset(&mut self, width: usize) -> Result<(), NoMemory>
        requires { width ≤ 67108864 }
        ensures width { OnOk result (length self.new ≡ width) }
        ensures none { OnOk result ((place : ℕ) → ¬ In self.new place) }
    {
        self.words.clear();
        self.words.resize(width, 0)?;
        Ok(())
    }

    /// Takes out every place.
    pub fn clear(&mut self)
        ensures width { length self.new ≡ length self.old }
        ensures none { (place : ℕ) → ¬ In self.new place }
    {
        words::put(&mut self.words, &Below { end: 0 });
    }

    /// Makes this the other set, of its width.
    pub fn copy_from(&mut self, other: &Places) -> Result<(), NoMemory>
        ensures { OnOk result (self.new ≡ other.now) }
    {
        self.words.clear();
        self.words.extend_from_slice(&other.words)?;
        Ok(())
    }

    /// Whether no place is in the set.
    pub fn is_empty(&self) -> bool
        ensures none { result ≡ true → (place : ℕ) → ¬ In self.now place }
        ensures some { result ≡ false → (place : ℕ) × In self.now place }
    {
        seeks::is_empty(&self.words)
    }

    /// Whether a place is in the set.
    pub fn contains(&self, place: u32) -> bool
        ensures yes { result ≡ true → In self.now place }
        ensures no { result ≡ false → ¬ In self.now place }
    {
        seeks::contains(&self.words, place)
    }

    /// Adds a place.
    pub fn insert(&mut self, place: u32)
        requires { place < room self.old }
        ensures width { length self.new ≡ length self.old }
        ensures places { HasJust (λ other. In self.old other ⊎ (other ≡ place)) self.new }
    {
        seeks::insert(&mut self.words, place);
    }

    /// Makes the set that of the places at which a mark stands.
    pub fn put<M: Marks>(&mut self, marks: &M)
        ensures width { length self.new ≡ length self.old }
        ensures places { HasJust (M.stands marks.now) self.new }
    {
        words::put(&mut self.words, marks);
    }

    /// Adds the places at which a mark stands: the union, where the marks are a set.
    pub fn add<M: Marks>(&mut self, marks: &M)
        ensures width { length self.new ≡ length self.old }
        ensures places { HasJust (λ place. In self.old place ⊎ M.stands marks.now place) self.new }
    {
        words::add(&mut self.words, marks);
    }

    /// Keeps the places at which a mark stands: the intersection.
    pub fn keep<M: Marks>(&mut self, marks: &M)
        ensures width { length self.new ≡ length self.old }
        ensures places { HasJust (λ place. In self.old place × M.stands marks.now place) self.new }
    {
        words::keep(&mut self.words, marks);
    }

    /// Takes out the places at which a mark stands: the difference.
    pub fn remove<M: Marks>(&mut self, marks: &M)
        ensures width { length self.new ≡ length self.old }
        ensures places { HasJust (λ place. In self.old place × (¬ M.stands marks.now place)) self.new }
    {
        words::remove(&mut self.words, marks);
    }

    /// Moves each place up by so many; those for which there is no room are lost.
    pub fn up(&mut self, by: u32)
        ensures width { length self.new ≡ length self.old }
        ensures places { HasJust (IsAbove self.old by) self.new }
    {
        shifts::up(&mut self.words, by);
    }

    /// Moves each place down by so many; those that would come below 0 are lost.
    pub fn down(&mut self, by: u32)
        ensures width { length self.new ≡ length self.old }
        ensures places { HasJust (λ place. In self.old (place + by)) self.new }
    {
        shifts::down(&mut self.words, by);
    }

    /// The first place of the set from the one given on.
    pub fn first_from(&self, place: u32) -> Option<u32>
        ensures found { IfSome result (λ found. FirstFrom self.now place found) }
        ensures none { IfNone result ((k : ℕ) → place ≤ k → ¬ In self.now k) }
    {
        seeks::first_from(&self.words, place)
    }
}
