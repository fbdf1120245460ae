//! Words of bits, the first of which takes no block of memory.

ghost use Rattle.std.specs.Prelude.{◌≡◌, ◌+◌, ◌<◌, ◌*◌, ◌%◌, ◌^◌, length, replicate, set, get_or, bit_or, IfOk};

use mt_base::NoMemory;
use std::alloc::Global;
use std::marker::Model;

/// One word of 64 bits or more, seen as their list.
#[derive(Debug, Drop)]
pub(crate) struct Words {
    first: u64,
    others: Vec<u64>,
}

impl Model for Words {
    ghost use Rattle.std.specs.Prelude.{ℕ, List, ◌∷◌};

    ghost Value = { List ℕ };

    ghost view = { λ w. w.first ∷ w.others.items };
}

impl Words {
    /// So many words without a bit, behind a first one.
    pub(crate) fn none(alloc: Global, others: usize) -> Result<Self, NoMemory>
        ensures { IfOk result (λ words. words ≡ replicate (others + 1) 0) }
    {
        if others == 0 {
            return Ok(Words {
                first: 0,
                others: Vec::new(alloc),
            });
        }
        Ok(Words {
            first: 0,
            others: vec![in alloc; 0u64; others]?,
        })
    }

    /// How many words there are.
    pub(crate) fn len(&self) -> usize
        ensures { result ≡ length self.now }
    {
        self.others.len() + 1
    }

    /// The word at a place, counted from 0; behind the last one it is 0.
    pub(crate) fn word(&self, at: usize) -> u64
        ensures is { result ≡ get_or self.now at 0 }
        ensures fits { result < 2 ^ 64 }
    {
        if at == 0 {
            return self.first;
        }
        match self.others.get(at - 1) {
            Some(word) => *word,
            None => 0,
        }
    }

    /// Sets a bit of the word at a place.
    pub(crate) fn set_bit(&mut self, at: usize, bit: u32)
        requires at { at < length self.old }
        requires bit { bit < 64 }
        ensures { self.new ≡ set self.old at (bit_or (get_or self.old at 0) (1 * 2 ^ bit % 2 ^ 64)) }
    {
        if at == 0 {
            self.first |= 1u64 << bit;
        } else {
            self.others[at - 1] |= 1u64 << bit;
        }
    }
}
