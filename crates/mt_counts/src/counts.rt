//! Counts that are added and subtracted.

ghost use Rattle.std.specs.Prelude.{◌≡◌, [], OnErr, OnOk};
ghost use Rattle.mt_counts.specs.Counted.{HaveSame, IsSum};

use super::blocks::Room;
use super::noted::Noted;
use super::tables::Tables;
use mt_base::NoMemory;
use std::alloc::Global;
use std::marker::Model;

/// How often names stand with words. A count stands under numbers of its name and words, which are each kept once.
#[derive(Drop)]
pub struct Counts {
    pub(crate) tables: Tables,
    /// Lists that `add` fills anew. They are kept, so that a small text takes no memory for them.
    room: Room,
}

impl Model for Counts {
    ghost use Rattle.mt_counts.specs.Counted.{Counted};
    ghost use Rattle.mt_counts.specs.Tables.{counted, AreInside};

    ghost Value = { Counted };

    ghost view = { λ c. counted c.tables };

    ghost invariant = { λ c. AreInside c.tables };
}

impl Counts {
    /// No counts. It takes no memory.
    pub fn new(alloc: Global) -> Self
        ensures { result ≡ record { both = []; first = []; second = []; alone = [] } }
    {
        Counts {
            tables: Tables::new(alloc),
            room: Room::new(alloc),
        }
    }

    /// Adds what a text counts, at the cost of what it has. Out of memory, or where all counts together would be 2^64 or more, each count is as it was.
    pub fn add(&mut self, alloc: Global, text: &Noted) -> Result<(), NoMemory>
        ensures ok { OnOk result (IsSum self.old text.now.counted self.new) }
        ensures err { OnErr result (HaveSame self.old self.new) }
    {
        if !self.tables.has_room_for(text.notes.len()) {
            return Err(NoMemory);
        }
        self.tables.both.make_room(text.notes.len())?;
        let added = self.tables.add_all(
            alloc,
            &mut self.room,
            &text.names,
            &text.words,
            text.notes.as_slice(),
        );
        self.room.trim(alloc);
        added
    }
}
