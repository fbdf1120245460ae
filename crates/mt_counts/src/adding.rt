//! Counts that are added.

ghost use Rattle.std.specs.Prelude.{◌≡◌, ◌+◌, ◌^◌, ◌<◌, length, IsFalse, IsTrue, OnErr, OnOk};
ghost use Rattle.std.specs.List.{All};
ghost use Rattle.mt_counts.specs.Counted.{HaveSame, IsSum};
ghost use Rattle.mt_counts.specs.Names.{AreRenumbered};
ghost use Rattle.mt_counts.specs.Notes.{ArePlaced, IsNoteIn, noted};
ghost use Rattle.mt_counts.specs.Tables.{AreGrown, AreInside, HasRoomFor, counted};

use super::blocks::{Block, Room, list_pairs};
use super::note::Note;
use super::tables::Tables;
use mt_base::{NoMemory, Strings};
use std::alloc::Global;

/// So many notes are counted together, so that look-ups in one table do not wait for those in another.
const BLOCK: usize = 1024;

impl Tables {
    /// Whether each table has room for so many counts.
    pub(crate) fn has_room_for(&self, more: usize) -> bool
        ensures room { IsTrue result → HasRoomFor self.now more }
        ensures none { IsFalse result → HasRoomFor self.now more → ⊥ }
    {
        let most = u64::MAX - more as u64;
        self.rows.sum() <= most
            && self.both.sum() <= most
            && self.columns.sum() <= most
            && self.alone.sum() <= most
    }

    /// Counts each of some notes, which have the numbers of these names and words. Out of memory each count is as it was.
    pub(crate) fn add_all(
        &mut self,
        alloc: Global,
        room: &mut Room,
        names: &Strings,
        words: &Strings,
        notes: &[Note],
    ) -> Result<(), NoMemory>
        requires inside { AreInside self.old }
        requires notes { All (IsNoteIn names.now words.now) notes.now }
        requires room { HasRoomFor self.old (length notes.now) }
        ensures inside { AreInside self.new }
        ensures ok { OnOk result (IsSum (counted self.old) (noted names.now words.now notes.now) (counted self.new)) }
        ensures err { OnErr result (HaveSame (counted self.old) (counted self.new)) }
    {
        self.number(alloc, room, names, words)?;
        self.add_blocks(room, names, words, notes)?;
        Ok(())
    }

    /// Finds the numbers of some names and words, and keeps those that are new.
    fn number(
        &mut self,
        alloc: Global,
        room: &mut Room,
        names: &Strings,
        words: &Strings,
    ) -> Result<(), NoMemory>
        ensures grown { AreGrown self.old self.new }
        ensures names { OnOk result (AreRenumbered names.now self.new.names room.new.names.items) }
        ensures words { OnOk result (AreRenumbered words.now self.new.words room.new.words.items) }
    {
        self.names.add_each(alloc, names, &mut room.names)?;
        self.words.add_each(alloc, words, &mut room.words)
    }

    /// Counts each of some notes, block by block. Where a block finds no memory, what the ones before it count is taken away again.
    fn add_blocks(
        &mut self,
        room: &mut Room,
        names: &Strings,
        words: &Strings,
        notes: &[Note],
    ) -> Result<(), NoMemory>
        requires inside { AreInside self.old }
        requires notes { All (IsNoteIn names.now words.now) notes.now }
        requires room { HasRoomFor self.old (length notes.now) }
        requires names { AreRenumbered names.now self.old.names room.old.names.items }
        requires words { AreRenumbered words.now self.old.words room.old.words.items }
        ensures inside { AreInside self.new }
        ensures ok { OnOk result (IsSum (counted self.old) (noted names.now words.now notes.now) (counted self.new)) }
        ensures err { OnErr result (HaveSame (counted self.old) (counted self.new)) }
    {
        let mut done = 0;
        while done < notes.len() {
            let size = (notes.len() - done).min(BLOCK);
            match self.add_some(room, names, words, &notes[done..done + size]) {
                Ok(()) => {}
                Err(NoMemory) => {
                    self.lower_all(names, words, &notes[..done]);
                    return Err(NoMemory);
                }
            }
            done += size;
        }
        Ok(())
    }

    /// Counts each of some notes together. Out of memory each count is as it was.
    fn add_some(
        &mut self,
        room: &mut Room,
        names: &Strings,
        words: &Strings,
        notes: &[Note],
    ) -> Result<(), NoMemory>
        requires inside { AreInside self.old }
        requires notes { All (IsNoteIn names.now words.now) notes.now }
        requires room { HasRoomFor self.old (length notes.now) }
        requires names { AreRenumbered names.now self.old.names room.old.names.items }
        requires words { AreRenumbered words.now self.old.words room.old.words.items }
        ensures inside { AreInside self.new }
        ensures names { self.new.names ≡ self.old.names }
        ensures words { self.new.words ≡ self.old.words }
        ensures name_numbers { room.new.names.items ≡ room.old.names.items }
        ensures word_numbers { room.new.words.items ≡ room.old.words.items }
        ensures ok { OnOk result (IsSum (counted self.old) (noted names.now words.now notes.now) (counted self.new)) }
        ensures err { OnErr result (HaveSame (counted self.old) (counted self.new)) }
    {
        names.len();
        words.len();
        room.block
            .take(room.names.as_slice(), room.words.as_slice(), notes)?;
        self.place_block(&mut room.block)?;
        self.raise_block(&room.block);
        Ok(())
    }

    /// Finds the places of what the notes of a block count under, and keeps what is new.
    fn place_block(&mut self, block: &mut Block) -> Result<(), NoMemory>
        requires inside { AreInside self.old }
        requires notes { All (IsNoteIn self.old.names self.old.words) block.old.notes.items }
        ensures names { self.new.names ≡ self.old.names }
        ensures words { self.new.words ≡ self.old.words }
        ensures notes { block.new.notes.items ≡ block.old.notes.items }
        ensures grown { AreGrown self.old self.new }
        ensures placed { OnOk result (ArePlaced self.new block.new) }
    {
        block.list()?;
        self.rows
            .place_again(block.row_keys.as_slice(), &mut block.rows)?;
        list_pairs(
            block.rows.as_slice(),
            block.column_keys.as_slice(),
            &mut block.both_keys,
        )?;
        self.both
            .place_all(block.both_keys.as_slice(), &mut block.both)?;
        self.columns
            .place_again(block.column_keys.as_slice(), &mut block.columns)?;
        self.alone
            .place_again(block.alone_keys.as_slice(), &mut block.alone)?;
        Ok(())
    }

    /// Counts each note of a block, whose places are known. It takes no memory.
    fn raise_block(&mut self, block: &Block)
        requires inside { AreInside self.old }
        requires notes { All (IsNoteIn self.old.names self.old.words) block.now.notes.items }
        requires room { HasRoomFor self.old (length block.now.notes.items) }
        requires placed { ArePlaced self.old block.now }
        ensures names { self.new.names ≡ self.old.names }
        ensures words { self.new.words ≡ self.old.words }
        ensures inside { AreInside self.new }
        ensures sum { IsSum (counted self.old) (noted self.old.names self.old.words block.now.notes.items) (counted self.new) }
    {
        self.rows.raise_each(block.rows.as_slice());
        self.both.raise_each(block.both.as_slice());
        self.columns.raise_each(block.columns.as_slice());
        self.alone.raise_each(block.alone.as_slice());
    }
}
