//! Values without the difference of upper and lower case.

ghost use Rattle.std.specs.Prelude.{◌≡◌, codes, string_bytes, IfOk, OnOk};
ghost use Rattle.mt_mapper.specs.Calls.{counted};
ghost use Rattle.mt_mapper.specs.Images.{folded};

use super::mapper::Mapper;
use caseless::default_case_fold_str;
use mt_base::NoMemory;
use std::alloc::Global;
use std::marker::Model;

/// The mapper `fold`: Unicode's full case folding. It is seen as the number of its calls.
#[derive(Drop)]
pub struct Fold {
    alloc: Global,
    calls: u64,
}

impl Model for Fold {
    ghost use Rattle.std.specs.Prelude.{ℕ};

    ghost Value = { ℕ };

    ghost view = { λ f. f.calls };
}

impl Fold {
    /// The mapper, before its first call.
    pub fn new(alloc: Global) -> Result<Self, NoMemory>
        ensures { IfOk result (λ fold. fold ≡ 0) }
    {
        Ok(Fold { alloc, calls: 0 })
    }
}

impl Mapper for Fold {
    ghost called = { λ _. codes "fold" };

    ghost image = { λ _. folded };

    ghost calls = { λ calls. calls };

    fn name(&self) -> &str {
        "fold"
    }

    fn map(&mut self, value: &str, out: &mut String) -> Result<(), NoMemory> {
        self.calls = self.calls.saturating_add(1);
        *out = default_case_fold_str(self.alloc, value)?;
        Ok(())
    }
}
