//! Notes that are counted block by block.

ghost use Rattle.std.specs.Prelude.{◌≡◌, ◌++◌, [], ◌<◌, length, map, IfSome, OnOk};
ghost use Rattle.mt_counts.specs.Notes.{alone_of, columns_of, key_of_one, key_of_two, pairs_of, renumbered, rows_of};
ghost use Rattle.std.specs.List.{All};

use super::note::Note;
use mt_base::NoMemory;
use std::alloc::Global;

/// A list longer than this is let go once it has served.
const LARGE: usize = 4096;

/// Lists that are filled anew for each text: the numbers of its names and of its words, and a block of its notes.
#[derive(Drop)]
pub(crate) struct Room {
    pub(crate) names: Vec<u32>,
    pub(crate) words: Vec<u32>,
    pub(crate) block: Block,
}

/// Lists that are filled anew for each block: its notes, by the numbers of the tables; what they count under; and the places of that.
#[derive(Drop)]
pub(crate) struct Block {
    pub(crate) notes: Vec<Note>,
    pub(crate) row_keys: Vec<(u32, u32)>,
    pub(crate) both_keys: Vec<(u32, u32)>,
    pub(crate) column_keys: Vec<(u32, u32)>,
    pub(crate) alone_keys: Vec<(u32, u32)>,
    pub(crate) rows: Vec<u32>,
    pub(crate) both: Vec<u32>,
    pub(crate) columns: Vec<u32>,
    pub(crate) alone: Vec<u32>,
}

impl Room {
    /// Lists without items. It takes no memory.
    pub(crate) fn new(alloc: Global) -> Self {
        Room {
            names: Vec::new(alloc),
            words: Vec::new(alloc),
            block: Block {
                notes: Vec::new(alloc),
                row_keys: Vec::new(alloc),
                both_keys: Vec::new(alloc),
                column_keys: Vec::new(alloc),
                alone_keys: Vec::new(alloc),
                rows: Vec::new(alloc),
                both: Vec::new(alloc),
                columns: Vec::new(alloc),
                alone: Vec::new(alloc),
            },
        }
    }

    /// Lets large lists go.
    pub(crate) fn trim(&mut self, alloc: Global) {
        if self.names.capacity() > LARGE {
            self.names = Vec::new(alloc);
        }
        if self.words.capacity() > LARGE {
            self.words = Vec::new(alloc);
        }
    }
}

impl Block {
    /// Takes some notes in the place of others, by other numbers of names and words.
    pub(crate) fn take(
        &mut self,
        names: &[u32],
        words: &[u32],
        notes: &[Note],
    ) -> Result<(), NoMemory>
        requires names { All (λ note. note.name < length names.now) notes.now }
        requires first { All (λ note. note.first < length words.now) notes.now }
        requires second { All (λ note. IfSome note.second (λ second. second < length words.now)) notes.now }
        ensures { OnOk result (self.new.notes.items ≡ map (renumbered names.now words.now) notes.now) }
    {
        self.notes.clear();
        for k in 0..notes.len() {
            self.notes.push(renumber(names, words, notes[k]))?;
        }
        Ok(())
    }

    /// Lists what the notes count under.
    pub(crate) fn list(&mut self) -> Result<(), NoMemory>
        ensures notes { self.new.notes.items ≡ self.old.notes.items }
        ensures rows { OnOk result (self.new.row_keys.items ≡ rows_of self.old.notes.items) }
        ensures columns { OnOk result (self.new.column_keys.items ≡ columns_of self.old.notes.items) }
        ensures alone { OnOk result (self.new.alone_keys.items ≡ alone_of self.old.notes.items) }
    {
        list_notes(
            self.notes.as_slice(),
            &mut self.row_keys,
            &mut self.column_keys,
            &mut self.alone_keys,
        )
    }
}

/// A note by other numbers of names and words.
fn renumber(names: &[u32], words: &[u32], note: Note) -> Note
    requires name { note.name < length names.now }
    requires first { note.first < length words.now }
    requires second { IfSome note.second (λ second. second < length words.now) }
    ensures { result ≡ renumbered names.now words.now note }
{
    let second = match note.second {
        Some(second) => Some(words[second as usize]),
        None => None,
    };
    Note {
        name: names[note.name as usize],
        first: words[note.first as usize],
        second,
    }
}

/// Lists what some notes count under, in the place of what was listed.
fn list_notes(
    notes: &[Note],
    rows: &mut Vec<(u32, u32)>,
    columns: &mut Vec<(u32, u32)>,
    alone: &mut Vec<(u32, u32)>,
) -> Result<(), NoMemory>
    ensures rows { OnOk result (rows.new.items ≡ rows_of notes.now) }
    ensures columns { OnOk result (columns.new.items ≡ columns_of notes.now) }
    ensures alone { OnOk result (alone.new.items ≡ alone_of notes.now) }
{
    rows.clear();
    columns.clear();
    alone.clear();
    for k in 0..notes.len() {
        list_note(notes[k], rows, columns, alone)?;
    }
    Ok(())
}

/// Adds what a note counts under.
fn list_note(
    note: Note,
    rows: &mut Vec<(u32, u32)>,
    columns: &mut Vec<(u32, u32)>,
    alone: &mut Vec<(u32, u32)>,
) -> Result<(), NoMemory>
    ensures rows { OnOk result (rows.new.items ≡ rows.old.items ++ key_of_two note.second (λ second. (note.first, note.name))) }
    ensures columns { OnOk result (columns.new.items ≡ columns.old.items ++ key_of_two note.second (λ second. (second, note.name))) }
    ensures alone { OnOk result (alone.new.items ≡ alone.old.items ++ key_of_one note.second (note.first, note.name)) }
{
    match note.second {
        Some(second) => {
            rows.push((note.first, note.name))?;
            columns.push((second, note.name))?;
            Ok(())
        }
        None => {
            alone.push((note.first, note.name))?;
            Ok(())
        }
    }
}

/// Lists the numbers of rows with the words of as many columns, in the place of what was listed.
pub(crate) fn list_pairs(
    rows: &[u32],
    columns: &[(u32, u32)],
    pairs: &mut Vec<(u32, u32)>,
) -> Result<(), NoMemory>
    requires { length rows.now ≡ length columns.now }
    ensures { OnOk result (pairs.new.items ≡ pairs_of rows.now columns.now) }
{
    pairs.clear();
    for k in 0..rows.len() {
        pairs.push((rows[k], columns[k].0))?;
    }
    Ok(())
}
