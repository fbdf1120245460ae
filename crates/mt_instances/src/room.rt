//! Memory that one text after another is collected in.

ghost use Rattle.std.specs.Prelude.{◌≡◌, []};

use crate::counter::Counter;
use crate::fills::Fills;
use crate::gathering::Gathered;
use crate::instances::Instances;
use mt_counts::Noted;
use std::alloc::Global;
use std::marker::Model;

/// The most places, names, instances, and values with a number that a room has whose memory may well be kept for others.
const SMALL: usize = 512;

/// The memory in which texts were collected, so that others are collected in it, with what was counted of those. Names that instances had keep their numbers, so that
/// they are not copied again. It is seen as the counts.
#[derive(Drop)]
pub struct Room {
    pub(crate) numbers: Vec<u32>,
    pub(crate) gathered: Gathered,
    pub(crate) counter: Counter,
}

impl Model for Room {
    ghost use Rattle.mt_counts.specs.Counted.{Counted};

    ghost Value = { Counted };

    ghost view = { λ r. r.counter.noted.counted };
}

impl Room {
    /// Of no text. It takes no memory.
    pub fn new(alloc: Global) -> Self
        ensures { result ≡ record { both = []; first = []; second = []; alone = [] } }
    {
        Room {
            numbers: Vec::new(alloc),
            gathered: Gathered {
                instances: Instances::new(alloc),
                fills: Fills::new(alloc),
            },
            counter: Counter::new(alloc),
        }
    }

    /// What was counted, as it is noted.
    pub fn noted(&self) -> &Noted
        ensures { result.now.counted ≡ self.now }
    {
        &self.counter.noted
    }

    /// Whether it is so small that it may well be kept for others. The numbers of values have room for all of a lexicon, however few of them the text has.
    pub fn is_small(&self) -> bool {
        self.numbers.capacity() <= SMALL
            && self.counter.words.capacity() <= SMALL
            && self.gathered.instances.name_count() <= SMALL
            && self.gathered.instances.capacity() <= SMALL
            && self.counter.noted.is_small()
    }
}
