//! Counts that are taken away.

ghost use Rattle.std.specs.Prelude.{◌≡◌, ◌∷◌, [], ◌<◌, ◌≤◌, length};
ghost use Rattle.std.specs.List.{All};
ghost use Rattle.std.specs.Map.{keys_of};
ghost use Rattle.mt_counts.specs.Counted.{IsSum, IsWithin, is_three, is_two};
ghost use Rattle.mt_counts.specs.Notes.{IsNoteIn, noted, one_counted, two_counted};
ghost use Rattle.mt_counts.specs.Tables.{AreInside, by_name, by_row, counted, text_at};
ghost use Rattle.mt_counts.specs.Tallies.{HasKeysBelow};
ghost use Rattle.mt_counts.specs.Totals.{IsLowered, total};

use super::counts::Counts;
use super::names::Names;
use super::note::Note;
use super::noted::Noted;
use super::tables::Tables;
use super::tally::Tally;
use mt_base::Strings;

impl Counts {
    /// Takes away what a text counts, at the cost of what it has. Where that is part of these counts, what is left is the other part. It takes no memory.
    pub fn subtract(&mut self, text: &Noted)
        ensures { IsWithin text.now.counted self.old → IsSum text.now.counted self.new self.old }
    {
        self.tables
            .lower_all(&text.names, &text.words, text.notes.as_slice());
    }
}

impl Tables {
    /// Takes away what some notes count, which have the numbers of these names and words.
    pub(crate) fn lower_all(&mut self, names: &Strings, words: &Strings, notes: &[Note])
        requires inside { AreInside self.old }
        requires notes { All (IsNoteIn names.now words.now) notes.now }
        ensures inside { AreInside self.new }
        ensures taken { IsWithin (noted names.now words.now notes.now) (counted self.old) → IsSum (noted names.now words.now notes.now) (counted self.new) (counted self.old) }
    {
        for k in 0..notes.len() {
            self.lower_note(names, words, notes[k]);
        }
    }

    /// Takes away what a note counts.
    fn lower_note(&mut self, names: &Strings, words: &Strings, note: Note)
        requires inside { AreInside self.old }
        requires note { IsNoteIn names.now words.now note }
        ensures inside { AreInside self.new }
        ensures taken { IsWithin (noted names.now words.now (note ∷ [])) (counted self.old) → IsSum (noted names.now words.now (note ∷ [])) (counted self.new) (counted self.old) }
    {
        let name = names.get(note.name as usize);
        let first = words.get(note.first as usize);
        match note.second {
            Some(second) => self.lower_two(name, first, words.get(second as usize)),
            None => self.lower_one(name, first),
        }
    }

    /// Takes one from the counts of a name with two words.
    fn lower_two(&mut self, name: &str, first: &str, second: &str)
        requires { AreInside self.old }
        ensures inside { AreInside self.new }
        ensures taken { IsWithin (two_counted name.now first.now second.now) (counted self.old) → IsSum (two_counted name.now first.now second.now) (counted self.new) (counted self.old) }
    {
        self.names.len();
        self.words.len();
        self.rows.len();
        match self.names.find(name) {
            Some(name) => match self.words.find(first) {
                Some(first) => match self.words.find(second) {
                    Some(second) => self.lower_numbers(name, first, second),
                    None => {}
                },
                None => {}
            },
            None => {}
        }
    }

    /// Takes one from the counts of a name with two words, by their numbers.
    fn lower_numbers(&mut self, name: u32, first: u32, second: u32)
        requires inside { AreInside self.old }
        requires name { name < length self.old.names }
        requires first { first < length self.old.words }
        requires second { second < length self.old.words }
        ensures inside { AreInside self.new }
        ensures taken { IsWithin (two_counted (text_at self.old.names name) (text_at self.old.words first) (text_at self.old.words second)) (counted self.old)
            → IsSum (two_counted (text_at self.old.names name) (text_at self.old.words first) (text_at self.old.words second)) (counted self.new) (counted self.old) }
    {
        lower_row(
            &mut self.both,
            &self.rows,
            &self.names,
            &self.words,
            name,
            first,
            second,
        );
        lower_name(&mut self.rows, &self.names, &self.words, name, first);
        lower_name(&mut self.columns, &self.names, &self.words, name, second);
    }

    /// Takes one from the count of a unary name with a word.
    fn lower_one(&mut self, name: &str, word: &str)
        requires { AreInside self.old }
        ensures inside { AreInside self.new }
        ensures taken { IsWithin (one_counted name.now word.now) (counted self.old) → IsSum (one_counted name.now word.now) (counted self.new) (counted self.old) }
    {
        match self.names.find(name) {
            Some(name) => match self.words.find(word) {
                Some(word) => { lower_name(&mut self.alone, &self.names, &self.words, name, word) }
                None => {}
            },
            None => {}
        }
    }
}

/// Takes one from the count of a name with a word.
fn lower_name(tally: &mut Tally, names: &Names, words: &Names, name: u32, word: u32)
    requires below { HasKeysBelow (length words.now) (length names.now) tally.old }
    requires name { name < length names.now }
    requires word { word < length words.now }
    ensures keys { keys_of tally.new ≡ keys_of tally.old }
    ensures lowered { 1 ≤ total (is_two (text_at names.now name) (text_at words.now word)) (by_name names.now words.now tally.old)
        → IsLowered (text_at names.now name, text_at words.now word) 1 (by_name names.now words.now tally.old) (by_name names.now words.now tally.new) }
{
    names.len();
    words.len();
    tally.lower_key(word, name);
}

/// Takes one from the count of a name with two words.
fn lower_row(
    both: &mut Tally,
    rows: &Tally,
    names: &Names,
    words: &Names,
    name: u32,
    first: u32,
    second: u32,
)
    requires rows { HasKeysBelow (length words.now) (length names.now) rows.now }
    requires below { HasKeysBelow (length rows.now) (length words.now) both.old }
    requires name { name < length names.now }
    requires first { first < length words.now }
    requires second { second < length words.now }
    ensures keys { keys_of both.new ≡ keys_of both.old }
    ensures lowered { 1 ≤ total (is_three (text_at names.now name) (text_at words.now first) (text_at words.now second)) (by_row names.now words.now (keys_of rows.now) both.old)
        → IsLowered (text_at names.now name, text_at words.now first, text_at words.now second) 1 (by_row names.now words.now (keys_of rows.now) both.old) (by_row names.now words.now (keys_of rows.now) both.new) }
{
    names.len();
    words.len();
    rows.len();
    match rows.find(first, name) {
        Some(row) => both.lower_key(row, second),
        None => {}
    }
}
