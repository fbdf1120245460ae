//! A list over a `Vec`, seen as the list of its items.

ghost use Rattle.std.specs.Prelude.{◌≡◌, ℕ, ◌<◌, ◌≤◌, [], ◌∷◌, ◌++◌, length, take, drop, nat_eq, slice_index_or, IfOk, OnOk, OnErr, IsSome, IfSome, IfNone, IsPermutation, IsSorted};
ghost use Rattle.std.specs.List.{AllZip};
ghost use Rattle.std.specs.List.Sorted.{IsSortedByKeyClosure};

use super::NoMemory;
use std::alloc::Global;
use std::marker::Model;

/// Items in order.
#[derive(Debug, Drop)]
pub struct List<T> {
    items: Vec<T>,
}

impl<T> Model for List<T> {
    ghost use Rattle.std.specs.Prelude.{List as Items};

    ghost Value = { Items T };

    ghost view = { λ l. l.items.items };
}

impl<T> List<T> {
    /// No items. It takes no memory until an item is pushed.
    pub fn new(alloc: Global) -> Self
        ensures { result ≡ [] }
    {
        List {
            items: Vec::new(alloc),
        }
    }

    /// No items, with room for so many.
    pub fn with_capacity(alloc: Global, capacity: usize) -> Result<Self, NoMemory>
        ensures { IfOk result (λ list. list ≡ []) }
    {
        Ok(List {
            items: Vec::with_capacity(alloc, capacity)?,
        })
    }

    /// The list of these items. It takes no memory.
    pub fn from_vec(items: Vec<T>) -> Self
        ensures { result ≡ items.items }
    {
        List { items }
    }

    /// The items. It takes no memory.
    pub fn into_vec(self) -> Vec<T>
        ensures { result.items ≡ self }
    {
        self.items
    }

    /// How many items there are.
    pub fn len(&self) -> usize
        ensures { result ≡ length self.now }
    {
        self.items.len()
    }

    /// Whether there is none.
    pub fn is_empty(&self) -> bool
        ensures { result ≡ nat_eq (length self.now) 0 }
    {
        self.items.is_empty()
    }

    /// The item at a place, counted from 0.
    pub fn get(&self, i: usize) -> &T
        requires { i < length self.now }
        ensures { result.now ≡ slice_index_or self.now i result.now }
    {
        &self.items[i]
    }

    /// All of them.
    pub fn as_slice(&self) -> &[T]
        ensures { result.now ≡ self.now }
    {
        self.items.as_slice()
    }
}

impl<T> List<T> {
    /// Puts the items in order. Which of equal items comes first is left open.
    pub fn sort_unstable(&mut self)
    where
        T: Ord,
        ensures permutation { IsPermutation self.old self.new }
        ensures len { length self.new ≡ length self.old }
        ensures sorted { IsSorted T.cmp self.new }
    {
        self.items.sort_unstable();
    }

    /// Puts the items in the order of their keys, each of which may be made many times. Which of items with equal keys comes first is left open.
    pub fn sort_unstable_by_key<K: Ord, F: FnMut(&T) -> K>(&mut self, key: F)
    where
        K: Drop,
        requires { F.IsAlwaysCallable key }
        ensures permutation { IsPermutation self.old self.new }
        ensures len { length self.new ≡ length self.old }
        ensures sorted { IsSortedByKeyClosure F.FnMut K.cmp key self.new }
    {
        self.items.sort_unstable_by_key(key);
    }

    /// Makes room for so many items more, and for no more than these.
    pub fn reserve_exact(&mut self, additional: usize) -> Result<(), NoMemory>
        ensures { self.new ≡ self.old }
    {
        self.items.reserve_exact(additional)?;
        Ok(())
    }

    /// Gives back the room that no item takes, where there is memory for it.
    pub fn shrink_to_fit(&mut self)
        ensures { self.new ≡ self.old }
    {
        self.items.shrink_to_fit();
    }
}

impl<T: Drop> List<T> {
    /// Adds an item at the end. Without memory nothing changes, and the item is dropped.
    pub fn push(&mut self, item: T) -> Result<(), NoMemory>
        ensures ok { OnOk result (self.new ≡ self.old ++ item ∷ []) }
        ensures err { OnErr result (self.new ≡ self.old) }
    {
        match self.items.push(item) {
            Ok(()) => Ok(()),
            Err(_) => Err(NoMemory),
        }
    }

    /// Puts one item, or none, in place of those from one place on and before another. It takes no memory.
    pub fn replace_range(&mut self, from: usize, to: usize, item: Option<T>)
        requires order { from ≤ to }
        requires within { to ≤ length self.old }
        requires room { IsSome item → from < to }
        ensures some { IfSome item (λ one. self.new ≡ take from self.old ++ one ∷ drop to self.old) }
        ensures none { IfNone item (self.new ≡ take from self.old ++ drop to self.old) }
    {
        match item {
            Some(item) => {
                self.items[from] = item;
                self.remove_range(from + 1, to);
            }
            None => self.remove_range(from, to),
        }
    }

    /// Takes away the items from one place on and before another.
    fn remove_range(&mut self, from: usize, to: usize)
        requires order { from ≤ to }
        requires within { to ≤ length self.old }
        ensures { self.new ≡ take from self.old ++ drop to self.old }
    {
        self.items.drain(from..to);
    }

    /// Keeps the first `n` items, or all where there are fewer.
    pub fn truncate(&mut self, n: usize)
        ensures { self.new ≡ take n self.old }
    {
        self.items.truncate(n);
    }
}

impl<T: Copy> List<T> {
    /// Adds these items at the end. Without memory nothing changes.
    pub fn extend(&mut self, items: &[T]) -> Result<(), NoMemory>
        ensures ok { OnOk result (self.new ≡ self.old ++ items.now) }
        ensures err { OnErr result (self.new ≡ self.old) }
    {
        match self.items.extend_from_slice(items) {
            Ok(()) => Ok(()),
            Err(_) => Err(NoMemory),
        }
    }
}

impl<T: Clone> List<T> {
    /// A copy of each item, in order, in a list of just that size.
    pub fn copy(&self, alloc: Global) -> Result<Self, NoMemory>
        ensures { IfOk result (λ copy. AllZip T.is_clone self.now copy) }
    {
        let mut items = Vec::with_capacity(alloc, self.items.len())?;
        for item in &self.items {
            items.push(item.clone()?)?;
        }
        Ok(List { items })
    }
}
