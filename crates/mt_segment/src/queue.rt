//! Items taken from the front.

ghost use Rattle.std.specs.Prelude.{◌≡◌, ◌<◌, ◌∷◌, length};

use std::marker::Model;
use std::vec::IntoIter;

/// The items of a list that are left, first to last.
#[derive(Drop)]
pub(crate) struct Queue<T: Drop> {
    left: IntoIter<T>,
}

impl<T: Drop> Model for Queue<T> {
    ghost use Rattle.std.specs.Prelude.{◌≡◌, length};
    ghost use Rattle.std.specs.Prelude.{List as Items};
    ghost use Rattle.std.specs.Vec.Iter.{into_iter_items, into_iter_len};

    ghost Value = { Items T };

    ghost view = { λ q. into_iter_items q.left };

    ghost invariant = { λ q. into_iter_len q.left ≡ length (into_iter_items q.left) };
}

impl<T: Drop> Queue<T> {
    /// The queue of these items.
    pub(crate) fn new(items: Vec<T>) -> Self
        ensures { result ≡ items.items }
    {
        Queue {
            left: items.into_iter(),
        }
    }

    /// Takes the first item.
    pub(crate) fn take(&mut self) -> T
        requires { 0 < length self.old }
        ensures { self.old ≡ result ∷ self.new }
    {
        match self.left.next() {
            Some(item) => item,
            None => unreachable!(),
        }
    }
}
