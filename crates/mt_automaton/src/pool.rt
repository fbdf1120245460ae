//! Sets of places, and lists of groups, that are used again.

ghost use Rattle.std.specs.Prelude.{◌≡◌, ℕ, ◌≤◌, [], length, IfOk};
ghost use Rattle.mt_places.specs.Places.{In};

use crate::groups::Group;
use mt_base::NoMemory;
use mt_places::Places;
use std::alloc::Global;

/// Sets and lists of groups that are done with, whose memory the next ones take.
#[derive(Drop)]
pub struct Pool {
    alloc: Global,
    free: Vec<Places>,
    lists: Vec<Vec<Group>>,
}

impl Pool {
    /// A pool without sets. It takes no memory.
    pub fn new(alloc: Global) -> Self {
        Pool {
            alloc,
            free: Vec::new(alloc),
            lists: Vec::new(alloc),
        }
    }

    /// A set without places.
    pub fn none(&mut self, width: usize) -> Result<Places, NoMemory>
        requires { width ≤ 67108864 }
        ensures width { IfOk result (λ none. length none ≡ width) }
        ensures none { IfOk result (λ none. (place : ℕ) → ¬ In none place) }
    {
        match self.free.pop() {
            Some(set) => emptied(set, width),
            None => Places::none(self.alloc, width),
        }
    }

    /// A set that is this one again.
    pub fn copy(&mut self, set: &Places) -> Result<Places, NoMemory>
        ensures { IfOk result (λ copy. copy ≡ set.now) }
    {
        let mut copy = self.none(0)?;
        copy.copy_from(set)?;
        Ok(copy)
    }

    /// Takes a set back.
    pub fn give(&mut self, set: Places) {
        match self.free.push(set) {
            Ok(()) => {}
            Err(_) => {}
        }
    }

    /// A list without groups. It takes no memory until a group is put into it, and none then where the list was as long before.
    pub fn groups(&mut self) -> Vec<Group>
        ensures { result.items ≡ [] }
    {
        match self.lists.pop() {
            Some(list) => cleared(list),
            None => Vec::new(self.alloc),
        }
    }

    /// Takes a list of groups back, and the set of each of them.
    pub fn give_groups(&mut self, mut groups: Vec<Group>) {
        while let Some(group) = groups.pop() {
            self.give(group.ends);
        }
        match self.lists.push(groups) {
            Ok(()) => {}
            Err(_) => {}
        }
    }
}

/// The set with no place in it, and of this width.
fn emptied(mut set: Places, width: usize) -> Result<Places, NoMemory>
    requires { width ≤ 67108864 }
    ensures width { IfOk result (λ none. length none ≡ width) }
    ensures none { IfOk result (λ none. (place : ℕ) → ¬ In none place) }
{
    set.reset(width)?;
    Ok(set)
}

/// The list with no group in it.
fn cleared(mut list: Vec<Group>) -> Vec<Group>
    ensures { result.items ≡ [] }
{
    list.clear();
    list
}
