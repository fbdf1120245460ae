//! From old numbers to new ones.

ghost use Rattle.std.specs.Prelude.{◌≡◌, ◌<◌, length, slice_index, nat_eq};
ghost use Rattle.mt_lexicon.specs.Joins.{renumbered};

use std::marker::Model;

/// New numbers for old ones, seen as their list: the new number of 0, of 1 and so on.
#[derive(Debug, Drop)]
pub struct Renumbering {
    numbers: Vec<u32>,
}

impl Model for Renumbering {
    ghost use Rattle.std.specs.Prelude.{ℕ, List};

    ghost Value = { List ℕ };

    ghost view = { λ r. r.numbers.items };
}

impl Renumbering {
    /// The renumbering with these new numbers.
    pub(crate) fn from_vec(numbers: Vec<u32>) -> Self
        ensures { result ≡ numbers.items }
    {
        Renumbering { numbers }
    }

    /// How many old numbers there are.
    pub fn len(&self) -> usize
        ensures { result ≡ length self.now }
    {
        self.numbers.len()
    }

    /// Whether there is no old number.
    pub fn is_empty(&self) -> bool
        ensures { result ≡ nat_eq (length self.now) 0 }
    {
        self.numbers.is_empty()
    }

    /// The new number of an old one.
    pub fn get(&self, old: u32) -> u32
        requires { old < length self.now }
        ensures { result ≡ slice_index self.now old }
    {
        self.numbers[old as usize]
    }

    /// The new number of an old one, or 0 where there is no such old one.
    fn get_or_first(&self, old: u32) -> u32
        ensures { result ≡ slice_index self.now old }
    {
        if (old as usize) < self.numbers.len() {
            self.get(old)
        } else {
            0
        }
    }

    /// All new numbers: that of 0, of 1 and so on.
    pub fn as_slice(&self) -> &[u32]
        ensures { result.now ≡ self.now }
    {
        self.numbers.as_slice()
    }

    /// Renumbers the new numbers in their turn. One that the next renumbering lacks becomes 0.
    pub fn then(&mut self, next: &Renumbering)
        ensures { self.new ≡ renumbered next.now self.old }
    {
        for number in self.numbers.iter_mut() {
            *number = next.get_or_first(*number);
        }
    }
}
