//! A stack over a `Vec`, seen as the list of its items, the last one first.

ghost use Rattle.std.specs.Prelude.{◌≡◌, [], ◌∷◌, ◌++◌, reverse, length, nat_eq, MatchOption, OnOk};

use mt_base::NoMemory;
use std::alloc::Global;
use std::marker::Model;

/// Items that are taken in the opposite order.
#[derive(Drop)]
pub struct Stack<T> {
    items: Vec<T>,
}

impl<T> Model for Stack<T> {
    ghost use Rattle.std.specs.Prelude.{List as Items, reverse};

    ghost Value = { Items T };

    ghost view = { λ s. reverse s.items.items };
}

impl<T> Stack<T> {
    /// No items. It takes no memory until an item is pushed.
    pub fn new(alloc: Global) -> Self
        ensures { result ≡ [] }
    {
        Stack {
            items: Vec::new(alloc),
        }
    }

    /// These items, of which the last one is taken first. It takes no memory.
    pub fn of(items: Vec<T>) -> Self
        ensures { result ≡ reverse items.items }
    {
        Stack { items }
    }

    /// Whether there is no item.
    pub fn is_empty(&self) -> bool
        ensures { result ≡ nat_eq (length self.now) 0 }
    {
        self.items.is_empty()
    }

    /// Takes the last item.
    pub fn pop(&mut self) -> Option<T>
        ensures { MatchOption result ((self.old ≡ []) × (self.new ≡ [])) (λ item. self.old ≡ item ∷ self.new) }
    {
        self.items.pop()
    }
}

impl<T: Drop> Stack<T> {
    /// Adds an item.
    pub fn push(&mut self, item: T) -> Result<(), NoMemory>
        ensures { OnOk result (self.new ≡ item ∷ self.old) }
    {
        match self.items.push(item) {
            Ok(()) => Ok(()),
            Err(_) => Err(NoMemory),
        }
    }
}
