//! The trait of mappers, and mappers in boxes.

ghost use Rattle.std.specs.Prelude.{◌≡◌, ℕ, List, string_bytes, OnOk};
ghost use Rattle.mt_mapper.specs.Calls.{counted};

use mt_base::NoMemory;

/// Makes a text of each value.
pub trait Mapper: Send + Drop {
    /// What it is called.
    ghost called: { Self → List ℕ };

    /// The text that it makes of each value.
    ghost image: { Self → List ℕ → List ℕ };

    /// How often it was called.
    ghost calls: { Self → ℕ };

    /// What it is called.
    fn name(&self) -> &str
        ensures { result.now ≡ called self.now };

    /// Puts the image of a value in the place of what is in `out`. Without memory nothing is known of `out`.
    fn map(&mut self, value: &str, out: &mut String) -> Result<(), NoMemory>
        ensures out { OnOk result (string_bytes out.new ≡ image self.old value.now) }
        ensures calls { calls self.new ≡ counted (calls self.old) 1 }
        ensures image { image self.new ≡ image self.old }
        ensures called { called self.new ≡ called self.old };
}

impl Mapper for Box<dyn Mapper> {
    ghost called = { λ b. (Mapper-box b).called b.value };

    ghost image = { λ b. (Mapper-box b).image b.value };

    ghost calls = { λ b. (Mapper-box b).calls b.value };

    fn name(&self) -> &str {
        (**self).name()
    }

    fn map(&mut self, value: &str, out: &mut String) -> Result<(), NoMemory> {
        (**self).map(value, out)
    }
}
