//! The counts of a sketch grammar over texts, one text after another.

ghost use Rattle.std.specs.Prelude.{◌≡◌, [], ◌∷◌, ◌++◌, ◌<◌, length, OnOk};
ghost use Rattle.std.specs.List.{All};
ghost use Rattle.mt_text_spec.specs.Registries as registries;
ghost use Rattle.mt_text_spec.specs.Texts as texts;
ghost use Rattle.mt_match_spec.specs.Values.{Images};
ghost use Rattle.mt_instances.specs.Gains.{Gains, GivenBy, LabelsLie};
ghost use Rattle.mt_instances.specs.Gathered.{IsText};
ghost use Rattle.mt_instances.specs.Collected.{CountsEach};

use crate::counter::{Counter, count_all};
use crate::fills::Fills;
use crate::gathering::{Gathered, add_rows};
use crate::instances::Instances;
use crate::room::Room;
use crate::words::Words;
use mt_base::NoMemory;
use mt_counts::Noted;
use mt_grammar::Relation;
use mt_lexicon::Lexicon;
use mt_rows::RowList;
use std::alloc::Global;
use std::marker::Model;

/// Collects the instances of one text after another, and counts each once. Contracts see the values of a lexicon, the number among them of the value at each place of
/// the text, the instances that rows have given so far, and what is counted of the texts before. Room that was made is kept from text to text. Out of memory, what is
/// counted is unknown.
#[derive(Drop)]
pub struct Collector<'a> {
    alloc: Global,
    lexicon: &'a Lexicon,
    numbers: Vec<u32>,
    gathered: Gathered,
    counter: Counter,
}

impl<'a> Model for Collector<'a> {
    ghost use Rattle.mt_instances.specs.Collected.{Collected, AreCollected};

    ghost Value = { Collected };

    ghost view = { λ c. record { lexicon = c.lexicon.now; numbers = c.numbers.items; given = c.gathered.instances.given; counted = c.counter.noted.counted } };

    ghost invariant = { λ c. AreCollected c.lexicon.now c.numbers.items c.gathered c.counter };
}

impl<'a> Collector<'a> {
    /// Nothing is known, and nothing is counted. The lexicon has the values of the attribute that sketches count. It takes no memory.
    pub fn new(alloc: Global, lexicon: &'a Lexicon) -> Self
        ensures { result ≡ record { lexicon = lexicon.now; numbers = []; given = []; counted = record { both = []; first = []; second = []; alone = [] } } }
    {
        Collector {
            alloc,
            lexicon,
            numbers: Vec::new(alloc),
            gathered: Gathered {
                instances: Instances::new(alloc),
                fills: Fills::new(alloc),
            },
            counter: Counter::new(alloc),
        }
    }

    /// The same, in the memory of texts before. What was counted of them goes.
    pub fn reusing(alloc: Global, lexicon: &'a Lexicon, room: Room) -> Self
        ensures { result ≡ record { lexicon = lexicon.now; numbers = []; given = []; counted = record { both = []; first = []; second = []; alone = [] } } }
    {
        let Room {
            mut numbers,
            mut gathered,
            mut counter,
        } = room;
        numbers.clear();
        gathered.clear();
        counter.clear();
        Collector {
            alloc,
            lexicon,
            numbers,
            gathered,
            counter,
        }
    }

    /// Turns to texts that have the values of another lexicon. What is known of a text that was not finished is dropped. It takes no memory.
    pub fn turn_to(&mut self, lexicon: &'a Lexicon)
        ensures { self.new ≡ record { lexicon = lexicon.now; numbers = []; given = []; counted = self.old.counted } }
    {
        self.lexicon = lexicon;
        self.numbers.clear();
        self.gathered.clear();
        self.counter.words.clear();
    }

    /// Makes room for the numbers of so many places, so that those that are told are not copied again and again while others come.
    pub fn make_room(&mut self, places: usize) -> Result<(), NoMemory>
        ensures { self.new ≡ self.old }
    {
        self.numbers.reserve(places)?;
        Ok(())
    }

    /// Tells the number of the value at the next place of the text.
    pub fn add_place(&mut self, number: u32) -> Result<(), NoMemory>
        requires { number < length self.old.lexicon }
        ensures lexicon { self.new.lexicon ≡ self.old.lexicon }
        ensures given { self.new.given ≡ self.old.given }
        ensures counted { self.new.counted ≡ self.old.counted }
        ensures ok { OnOk result (self.new.numbers ≡ self.old.numbers ++ number ∷ []) }
    {
        match self.numbers.push(number) {
            Ok(()) => Ok(()),
            Err(_) => Err(NoMemory),
        }
    }

    /// Tells rows that a query of a relation keeps in the text, whose places are told before.
    pub fn add_rows(&mut self, relation: &Relation, rows: &RowList) -> Result<(), NoMemory>
        requires { LabelsLie rows.now (length self.old.numbers) }
        ensures lexicon { self.new.lexicon ≡ self.old.lexicon }
        ensures numbers { self.new.numbers ≡ self.old.numbers }
        ensures counted { self.new.counted ≡ self.old.counted }
        ensures given { OnOk result ((images : Images) (registry : registries.Registry) (text : texts.Text) → IsText images registry text self.old.lexicon self.old.numbers
            → Gains self.old.given self.new.given (GivenBy images registry text relation.now rows.now)) }
    {
        let words = Words {
            alloc: self.alloc,
            lexicon: self.lexicon,
            numbers: self.numbers.as_slice(),
        };
        add_rows(&words, &mut self.gathered, relation, rows)
    }

    /// Ends the text: counts each of its instances once, by the values at its places, and takes the text away. It costs by how many the
    /// rows gave, and one sort of them where those of some name did not come in ascending order.
    pub fn finish_text(&mut self) -> Result<(), NoMemory>
        ensures lexicon { self.new.lexicon ≡ self.old.lexicon }
        ensures numbers { OnOk result (self.new.numbers ≡ []) }
        ensures given { OnOk result (self.new.given ≡ []) }
        ensures ok { OnOk result (CountsEach self.old.lexicon self.old.numbers self.old.given self.old.counted self.new.counted) }
    {
        self.gathered.instances.settle();
        let words = Words {
            alloc: self.alloc,
            lexicon: self.lexicon,
            numbers: self.numbers.as_slice(),
        };
        count_all(&words, &mut self.gathered.instances, &mut self.counter)?;
        self.numbers.clear();
        Ok(())
    }

    /// What is counted of the texts that are finished, as it is noted.
    pub fn noted(&self) -> &Noted
        ensures { result.now.counted ≡ self.now.counted }
    {
        &self.counter.noted
    }

    /// The memory, with what is counted of the texts that are finished.
    pub fn into_room(self) -> Room
        ensures { result ≡ self.entry.counted }
    {
        Room {
            numbers: self.numbers,
            gathered: self.gathered,
            counter: self.counter,
        }
    }
}
