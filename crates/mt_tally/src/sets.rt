//! How many places are in a set.

ghost use Rattle.std.specs.Prelude.{◌≤◌, length};
ghost use Rattle.mt_places.specs.Places.{In, room};
ghost use Rattle.mt_tally.specs.Counts.{CountsBelow};

use mt_places::{Marks, Places};

/// How many places are in a set. It takes no memory, and looks at 64 of them at once.
pub fn place_count(set: &Places) -> usize
    requires { length set.now ≤ 67108864 }
    ensures { CountsBelow (room set.now) (In set.now) result }
{
    let mut count = 0;
    for at in 0..set.width() {
        count += set.word(at).count_ones() as usize;
    }
    count
}
