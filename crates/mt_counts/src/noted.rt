//! What a text counts.

ghost use Rattle.std.specs.Prelude.{◌≡◌, ◌+◌, ◌^◌, ◌≤◌, [], ◌∷◌, ◌++◌, length, slice_get, Some, IfOk, OnErr, OnOk};
ghost use Rattle.std.specs.List.{All};
ghost use Rattle.mt_counts.specs.Counted.{HaveSame, IsSum};
ghost use Rattle.mt_counts.specs.Names.{Begins};
ghost use Rattle.mt_counts.specs.Notes.{IsNoteIn, noted};

use super::note::Note;
use mt_base::{NoMemory, Strings};
use std::alloc::Global;
use std::marker::Model;
use std::mem;

/// So many notes, names and words at most are those of a small text.
const SMALL: usize = 512;

/// Instances that are noted one after another, by numbers of their names and words, and what they count, each of them once. It is seen as the lists of the names and
/// words beside what is counted. A name or a word that is told twice has two numbers. All names together, and all words, have fewer than 2^32 bytes.
#[derive(Drop)]
pub struct Noted {
    pub(crate) names: Strings,
    pub(crate) words: Strings,
    pub(crate) notes: Vec<Note>,
}

impl Model for Noted {
    ghost use Rattle.std.specs.List.{All};
    ghost use Rattle.mt_counts.specs.Building.{Building};
    ghost use Rattle.mt_counts.specs.Notes.{IsNoteIn, noted};

    ghost Value = { Building };

    ghost view = { λ n. record { names = n.names; words = n.words; counted = noted n.names n.words n.notes.items } };

    ghost invariant = { λ n. All (IsNoteIn n.names n.words) n.notes.items };
}

impl Noted {
    /// Nothing is noted. It takes no memory.
    pub fn new(alloc: Global) -> Self
        ensures { result ≡ record { names = []; words = []; counted = record { both = []; first = []; second = []; alone = [] } } }
    {
        Noted {
            names: Strings::new(alloc),
            words: Strings::new(alloc),
            notes: Vec::new(alloc),
        }
    }

    /// Takes all away, and keeps the memory for the next text.
    pub fn clear(&mut self)
        ensures { self.new ≡ record { names = []; words = []; counted = record { both = []; first = []; second = []; alone = [] } } }
    {
        self.names.clear();
        self.words.clear();
        self.notes.clear();
    }

    /// Whether there is so little room that its memory may well be kept for others.
    pub fn is_small(&self) -> bool {
        self.notes.capacity() <= SMALL && self.names.len() <= SMALL && self.words.len() <= SMALL
    }

    /// A number for a name.
    pub fn name(&mut self, name: &str) -> Result<u32, NoMemory>
        ensures number { IfOk result (λ number. slice_get self.new.names number ≡ Some name.now) }
        ensures names { Begins self.old.names self.new.names }
        ensures one { OnOk result (self.new.names ≡ self.old.names ++ name.now ∷ []) }
        ensures words { self.new.words ≡ self.old.words }
        ensures counted { HaveSame self.old.counted self.new.counted }
    {
        let number = number_behind(&self.names)?;
        self.names.push(name)?;
        Ok(number)
    }

    /// A number for a word.
    pub fn word(&mut self, word: &str) -> Result<u32, NoMemory>
        ensures number { IfOk result (λ number. slice_get self.new.words number ≡ Some word.now) }
        ensures names { self.new.names ≡ self.old.names }
        ensures words { Begins self.old.words self.new.words }
        ensures one { OnOk result (self.new.words ≡ self.old.words ++ word.now ∷ []) }
        ensures counted { HaveSame self.old.counted self.new.counted }
    {
        let number = number_behind(&self.words)?;
        self.words.push(word)?;
        Ok(number)
    }

    /// Notes some more instances, whose names and words have numbers here. Returns a list without items, for whoever wants its memory.
    pub fn put(&mut self, notes: Vec<Note>) -> Result<Vec<Note>, NoMemory>
        requires { All (IsNoteIn self.old.names self.old.words) notes.items }
        ensures names { self.new.names ≡ self.old.names }
        ensures words { self.new.words ≡ self.old.words }
        ensures ok { OnOk result (IsSum self.old.counted (noted self.old.names self.old.words notes.items) self.new.counted) }
        ensures err { OnErr result (HaveSame self.old.counted self.new.counted) }
        ensures emptied { IfOk result (λ room. room.items ≡ []) }
    {
        if self.notes.is_empty() {
            return Ok(mem::replace(&mut self.notes, notes));
        }
        let mut notes = notes;
        self.notes.append(&mut notes)?;
        Ok(notes)
    }
}

/// The number of a text that comes behind some others.
fn number_behind(texts: &Strings) -> Result<u32, NoMemory>
    ensures ok { IfOk result (λ number. number ≡ length texts.now) }
    ensures err { OnErr result (2 ^ 32 ≤ length texts.now + 1) }
{
    if texts.len() >= u32::MAX as usize {
        return Err(NoMemory);
    }
    Ok(texts.len() as u32)
}
