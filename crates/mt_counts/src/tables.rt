//! Tables of counts by numbers.

ghost use Rattle.std.specs.Prelude.{◌≡◌, []};

use super::names::Names;
use super::tally::Tally;
use std::alloc::Global;

/// Names and words with their numbers, and counts: of rows, which are pairs of a word and a name; of pairs of a row and a second word; of pairs of a second word and
/// a name; and of pairs of a word and the name of a unary relation.
#[derive(Drop)]
pub(crate) struct Tables {
    pub(crate) names: Names,
    pub(crate) words: Names,
    pub(crate) rows: Tally,
    pub(crate) both: Tally,
    pub(crate) columns: Tally,
    pub(crate) alone: Tally,
}

impl Tables {
    /// Nothing is counted. It takes no memory.
    pub(crate) fn new(alloc: Global) -> Self
        ensures { result ≡ record { names = []; words = []; rows = []; both = []; columns = []; alone = [] } }
    {
        Tables {
            names: Names::new(alloc),
            words: Names::new(alloc),
            rows: Tally::new(alloc),
            both: Tally::new(alloc),
            columns: Tally::new(alloc),
            alone: Tally::new(alloc),
        }
    }
}
