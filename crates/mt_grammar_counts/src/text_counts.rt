//! What is counted in one text after another.

ghost use Rattle.std.specs.Prelude.{◌≡◌, []};

use super::segments::Buffers;
use mt_counts::Noted;
use mt_instances::{Collector, Room};
use mt_lexicon::Lexicon;
use std::alloc::Global;
use std::marker::Model;
use std::mem;

/// What a grammar counts in one text, or in the texts of one segment, with the memory in which the next ones are counted. It is seen as the counts.
#[derive(Drop)]
pub struct TextCounts {
    room: Room,
    pub(crate) buffers: Buffers,
}

impl Model for TextCounts {
    ghost use Rattle.mt_counts.specs.Counted.{Counted};

    ghost Value = { Counted };

    ghost view = { λ t. t.room };
}

impl TextCounts {
    /// Of no text. It takes no memory.
    pub fn new(alloc: Global) -> Self {
        TextCounts {
            room: Room::new(alloc),
            buffers: Buffers::new(alloc),
        }
    }

    /// A collector for a text that has the values of a lexicon. It takes the memory of the text before.
    pub(crate) fn collector<'a>(&mut self, alloc: Global, lexicon: &'a Lexicon) -> Collector<'a>
        ensures { result ≡ record { lexicon = lexicon.now; numbers = []; given = []; counted = record { both = []; first = []; second = []; alone = [] } } }
    {
        let room = mem::replace(&mut self.room, Room::new(alloc));
        Collector::reusing(alloc, lexicon, room)
    }

    /// Takes what was counted.
    pub(crate) fn take(&mut self, collector: Collector<'_>)
        ensures { self.new ≡ collector.entry.counted }
    {
        self.room = collector.into_room();
    }

    /// What was counted.
    pub fn noted(&self) -> &Noted
        ensures { result.now.counted ≡ self.now }
    {
        self.room.noted()
    }

    /// Gives back the memory of a large text, which small ones do not need. What was counted may go with it.
    pub fn let_go_where_large(&mut self, alloc: Global) {
        if !self.room.is_small() || !self.buffers.are_small() {
            *self = TextCounts::new(alloc);
        }
    }
}
