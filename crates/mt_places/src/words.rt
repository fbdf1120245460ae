//! Sets of places as slices of words, a word at a time.

ghost use Rattle.std.specs.Prelude.{◌≡◌, ℕ, ◌<◌, ◌≤◌, ◌⊎◌, length};
ghost use Rattle.mt_places.specs.Places.{In, HasJust};

use crate::marks::Marks;

/// Makes the set that of the places at which a mark stands.
pub(crate) fn put<M: Marks>(set: &mut [u64], marks: &M)
    ensures { HasJust (M.stands marks.now) set.new }
{
    for at in 0..set.len() {
        set[at] = marks.word(at);
    }
}

/// Adds the places at which a mark stands.
pub(crate) fn add<M: Marks>(set: &mut [u64], marks: &M)
    ensures { HasJust (λ place. In set.old place ⊎ M.stands marks.now place) set.new }
{
    for at in 0..set.len() {
        set[at] |= marks.word(at);
    }
}

/// Keeps the places at which a mark stands.
pub(crate) fn keep<M: Marks>(set: &mut [u64], marks: &M)
    ensures { HasJust (λ place. In set.old place × M.stands marks.now place) set.new }
{
    for at in 0..set.len() {
        set[at] &= marks.word(at);
    }
}

/// Takes out the places at which a mark stands.
pub(crate) fn remove<M: Marks>(set: &mut [u64], marks: &M)
    ensures { HasJust (λ place. In set.old place × (¬ M.stands marks.now place)) set.new }
{
    for at in 0..set.len() {
        set[at] &= !marks.word(at);
    }
}
