//! Many texts in one block.

ghost use Rattle.std.specs.Prelude.{◌≡◌, ◌+◌, ◌^◌, ◌<◌, ◌≤◌, [], ◌∷◌, ◌++◌, length, map, take, nat_eq, slice_get, slice_index, Some, IfOk, OnOk, OnErr};
ghost use Rattle.std.specs.List.{All};
ghost use Rattle.mt_base.specs.Pieces.{pieces, AreEnds};

use super::NoMemory;
use std::alloc::Global;
use std::marker::Model;

/// Texts in order, seen as the list of their bytes. They lie one behind the other in one block, and beside it the places where they end, four bytes each. The
/// block is smaller than 4 GiB: a text that would pass that is refused as where it runs out of memory.
#[derive(Debug, Drop)]
pub struct Strings {
    block: String,
    ends: Vec<u32>,
}

impl Model for Strings {
    ghost use Rattle.std.specs.Prelude.{ℕ, List, string_bytes};
    ghost use Rattle.mt_base.specs.Pieces.{pieces, AreEnds};

    ghost Value = { List (List ℕ) };

    ghost view = { λ s. pieces (string_bytes s.block) 0 s.ends.items };

    ghost invariant = { λ s. AreEnds (string_bytes s.block) 0 s.ends.items };
}

impl Strings {
    /// No texts. It takes no memory.
    pub fn new(alloc: Global) -> Self
        ensures { result ≡ [] }
    {
        Strings {
            block: String::new(alloc),
            ends: Vec::new(alloc),
        }
    }

    /// No texts, with room for so many of so many bytes together.
    pub fn with_capacity(alloc: Global, texts: usize, bytes: usize) -> Result<Self, NoMemory>
        ensures { IfOk result (λ strings. strings ≡ []) }
    {
        Ok(Strings {
            block: String::with_capacity(alloc, bytes)?,
            ends: Vec::with_capacity(alloc, texts)?,
        })
    }

    /// Makes room for so many more texts of so many bytes together, and for no more than these. Without memory it may have made a part of it.
    pub fn reserve_exact(&mut self, texts: usize, bytes: usize) -> Result<(), NoMemory>
        ensures { self.new ≡ self.old }
    {
        self.ends.reserve_exact(texts)?;
        self.block.reserve_exact(bytes)?;
        Ok(())
    }

    /// Gives back the room that no text takes, where there is memory for it.
    pub fn shrink_to_fit(&mut self)
        ensures { self.new ≡ self.old }
    {
        self.block.shrink_to_fit();
        self.ends.shrink_to_fit();
    }

    /// How many texts there are.
    pub fn len(&self) -> usize
        ensures { result ≡ length self.now }
    {
        self.ends.len()
    }

    /// Whether there is none.
    pub fn is_empty(&self) -> bool
        ensures { result ≡ nat_eq (length self.now) 0 }
    {
        self.len() == 0
    }

    /// The text at a place, counted from 0.
    pub fn get(&self, place: usize) -> &str
        requires { place < length self.now }
        ensures { slice_get self.now place ≡ Some result.now }
    {
        piece(self.block.as_str(), self.ends.as_slice(), place)
    }

    /// Takes all texts away, and keeps the memory for others.
    pub fn clear(&mut self)
        ensures { self.new ≡ [] }
    {
        self.block.clear();
        self.ends.clear();
    }

    /// Adds a text at the end. Without memory nothing changes.
    pub fn push(&mut self, text: &str) -> Result<(), NoMemory>
        ensures ok { OnOk result (self.new ≡ self.old ++ text.now ∷ []) }
        ensures err { OnErr result (self.new ≡ self.old) }
    {
        let end = end_behind(self.block.as_str(), text)?;
        self.ends.push(end)?;
        match self.block.push_str(text) {
            Ok(()) => Ok(()),
            Err(_) => {
                self.ends.pop();
                Err(NoMemory)
            }
        }
    }

    /// Adds all of the other texts at the end. Without memory nothing changes.
    pub fn append(&mut self, other: &Strings) -> Result<(), NoMemory>
        ensures ok { OnOk result (self.new ≡ self.old ++ other.now) }
        ensures err { OnErr result (self.new ≡ self.old) }
    {
        let count = self.ends.len();
        let others = other.block.as_str();
        end_behind(self.block.as_str(), others)?;
        let from = self.block.as_str().len() as u32;
        if let Err(NoMemory) = push_ends(&mut self.ends, from, other.ends.as_slice()) {
            self.ends.truncate(count);
            return Err(NoMemory);
        }
        match self.block.push_str(others) {
            Ok(()) => Ok(()),
            Err(_) => {
                self.ends.truncate(count);
                Err(NoMemory)
            }
        }
    }
}

/// Where a text ends that is put behind the block. A place that takes more than four bytes is refused as where it runs out of memory.
fn end_behind(block: &str, text: &str) -> Result<u32, NoMemory>
    ensures { IfOk result (λ end. end ≡ length block.now + length text.now) }
{
    match u32::try_from(block.len() + text.len()) {
        Ok(end) => Ok(end),
        Err(_) => Err(NoMemory),
    }
}

/// Adds the ends of texts that lie from this place on. Without memory some of them may have been added.
fn push_ends(ends: &mut Vec<u32>, from: u32, others: &[u32]) -> Result<(), NoMemory>
    requires { All (λ end. from + end < 2 ^ 32) others.now }
    ensures ok { OnOk result (ends.new.items ≡ ends.old.items ++ map (λ end. from + end) others.now) }
    ensures err { OnErr result (take (length ends.old.items) ends.new.items ≡ ends.old.items) }
{
    for end in others {
        ends.push(from + *end)?;
    }
    Ok(())
}

/// The piece of a block with this number.
fn piece<'a>(block: &'a str, ends: &[u32], place: usize) -> &'a str
    requires ends { AreEnds block.now 0 ends.now }
    requires place { place < length ends.now }
    ensures { slice_get (pieces block.now 0 ends.now) place ≡ Some result.now }
{
    let from = start_of(ends, place);
    &block[from..ends[place] as usize]
}

/// Where a text begins: where the one before it ends.
fn start_of(ends: &[u32], place: usize) -> usize
    requires { place < length ends.now }
    ensures { result ≡ slice_index (0 ∷ ends.now) place }
{
    if place == 0 {
        0
    } else {
        ends[place - 1] as usize
    }
}
