//! Words in contexts, by their numbers.

ghost use Rattle.std.specs.Prelude.{◌≡◌, map, IfOk};
ghost use Rattle.mt_thesaurus.specs.Sums.{turned};

use std::alloc::{AllocError, Global};

/// A score: of a word, which is the group, in a context, which is the member, or the other way round.
#[derive(Clone, Copy)]
pub(crate) struct Placed {
    pub(crate) group: u32,
    pub(crate) member: u32,
    /// In sixteenths.
    pub(crate) score: u8,
}

impl Placed {
    /// The member with its group.
    pub(crate) fn turned(self) -> Self
        ensures { result ≡ turned self }
    {
        Placed {
            group: self.member,
            member: self.group,
            score: self.score,
        }
    }
}

/// Each member with its group.
pub(crate) fn turned_all(alloc: Global, placed: &[Placed]) -> Result<Vec<Placed>, AllocError>
    ensures { IfOk result (λ all. all.items ≡ map turned placed.now) }
{
    placed.iter().map(|one| one.turned()).collect(alloc)
}
