//! Names that have a value in place of `%s`.

ghost use Rattle.std.specs.Prelude.{◌≡◌, ℕ, List as Items, [], IfOk, IfSome, MatchOption};
ghost use Rattle.std.specs.List.{Contains};
ghost use Rattle.mt_count_spec.specs.Instances.{IsFilled};
ghost use Rattle.mt_instances.specs.Filled.{HasOnly};

use indexmap::IndexMap;
use mt_base::{NoMemory, Value};
use std::alloc::Global;
use std::marker::Model;

/// The name with the value in place of its first `%s`, or `None` where it has no `%s`.
pub(crate) fn filled(alloc: Global, name: &str, value: &str) -> Result<Option<Value>, NoMemory>
    ensures { IfOk result (λ filled. MatchOption filled ((other : Items ℕ) → ¬ IsFilled name.now value.now other) (λ own. IsFilled name.now value.now own)) }
{
    match name.split_once("%s") {
        Some((front, back)) => {
            let mut text = String::new(alloc);
            text.push_str(front)?;
            text.push_str(value)?;
            text.push_str(back)?;
            Ok(Some(Value::from_string(text)))
        }
        None => Ok(None),
    }
}

/// The numbers of names that were filled, by the number of the name and that of the value. It is seen as the list of them.
#[derive(Drop)]
pub(crate) struct Fills {
    finals: IndexMap<(u32, u32), u32>,
}

impl Model for Fills {
    ghost use Rattle.std.specs.Prelude.{ℕ, List};

    ghost Value = { List ((ℕ × ℕ) × ℕ) };

    ghost view = { λ f. f.finals.entries };
}

impl Fills {
    /// None. It takes no memory.
    pub(crate) fn new(alloc: Global) -> Self
        ensures { result ≡ [] }
    {
        Fills {
            finals: IndexMap::new(alloc),
        }
    }

    /// The number of the name that is filled with the value, where it is known.
    pub(crate) fn get(&self, name: u32, value: u32) -> Option<u32>
        ensures { IfSome result (λ number. Contains self.now ((name, value), number)) }
    {
        match self.finals.get(&(name, value)) {
            Some(number) => Some(*number),
            None => None,
        }
    }

    /// Keeps the number of a name that is filled with a value.
    pub(crate) fn set(&mut self, name: u32, value: u32, number: u32) -> Result<(), NoMemory>
        ensures { HasOnly self.old ((name, value), number) self.new }
    {
        match self.finals.insert((name, value), number) {
            Ok(_) => Ok(()),
            Err(_) => Err(NoMemory),
        }
    }

    /// Forgets all, and keeps the memory for others. It costs by how many there are, however many there were before.
    pub(crate) fn clear(&mut self)
        ensures { self.new ≡ [] }
    {
        self.finals.truncate(0);
    }
}
