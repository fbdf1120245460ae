//! The values of a lexicon, and where a value stands among them.

ghost use Rattle.std.specs.Prelude.{◌≡◌, ℕ, ◌+◌, ◌-◌, ◌*◌, ◌^◌, ◌<◌, ◌≤◌, length, slice_get, nat_eq, Some, IfSome, IfNone, IfOk, Decides};
ghost use Rattle.std.specs.List.{Contains};
ghost use Rattle.mt_store_spec.specs.Lexicons.{IsAscending, IsBelow, RenumbersKept, kept_values};

use super::renumbering::Renumbering;
use mt_base::{NoMemory, Steps, Strings};
use std::alloc::Global;
use std::cmp::Ordering;
use std::marker::Model;
use std::sync::ledger::Ledger;

/// The distinct values of an attribute in ascending order of their bytes, fewer than 2^32 of them. A value's number is its place, from 0.
#[derive(Debug, Drop)]
pub struct Lexicon {
    values: Strings,
}

impl Model for Lexicon {
    ghost use Rattle.std.specs.Prelude.{ℕ, ◌^◌, ◌<◌, List, length};
    ghost use Rattle.mt_store_spec.specs.Lexicons.{IsAscending};

    ghost Value = { List (List ℕ) };

    ghost view = { λ l. l.values };

    ghost invariant = { λ l. (length l.values < 2 ^ 32) × IsAscending l.values };
}

impl Lexicon {
    /// The lexicon with these values, of which the caller knows that they ascend. It compares none.
    pub fn from_strings(values: Strings) -> Self
        requires few { length values < 2 ^ 32 }
        requires ascending { IsAscending values }
        ensures { result ≡ values }
    {
        Lexicon { values }
    }

    /// The lexicon of these values, or `None` where they are none: where they do not ascend, or are 2^32 or more.
    pub fn of_ascending(values: Strings) -> Option<Self>
        ensures some { IfSome result (λ lexicon. lexicon ≡ values) }
        ensures none { IfNone result (IsAscending values → length values < 2 ^ 32 → ⊥) }
    {
        if values.len() >= 1 << 32 {
            return None;
        }
        if !is_ascending(&values) {
            return None;
        }
        Some(Lexicon::from_strings(values))
    }

    /// The lexicon of the values that are kept, each flag telling whether the value with its number is, and for each number the one there.
    /// The new number of a value that is not kept means nothing.
    pub fn of_kept(&self, alloc: Global, kept: &[bool]) -> Result<(Self, Renumbering), NoMemory>
        requires { length kept.now ≡ length self.now }
        ensures values { IfOk result (λ r. r.0 ≡ kept_values kept.now self.now) }
        ensures numbers { IfOk result (λ r. RenumbersKept kept.now r.1 self.now r.0) }
    {
        let mut values = Strings::new(alloc);
        let mut numbers = Vec::with_capacity(alloc, kept.len())?;
        for (number, keep) in kept.iter().enumerate() {
            let value = self.values.get(number);
            numbers.push(values.len() as u32)?;
            if *keep {
                values.push(value)?;
            }
        }
        values.shrink_to_fit();
        Ok((
            Lexicon::from_strings(values),
            Renumbering::from_vec(numbers),
        ))
    }

    /// How many values there are.
    pub fn len(&self) -> u32
        ensures number { result ≡ length self.now }
        ensures ascending { IsAscending self.now }
    {
        self.values.len() as u32
    }

    /// Whether there is no value.
    pub fn is_empty(&self) -> bool
        ensures { result ≡ nat_eq (length self.now) 0 }
    {
        self.values.len() == 0
    }

    /// The value with this number.
    pub fn value(&self, id: u32) -> &str
        requires { id < length self.now }
        ensures { slice_get self.now id ≡ Some result.now }
    {
        self.values.get(id as usize)
    }

    /// The number of a value, or `None` where the lexicon lacks it. A step is one comparison, and their number is at most that of the
    /// binary digits of twice the length and one.
    pub fn find<L: Ledger>(&self, value: &str, steps: &mut Steps<L>) -> Option<u32>
        ensures found { IfSome result (λ id. slice_get self.now id ≡ Some value.now) }
        ensures none { IfNone result (¬ Contains self.now value.now) }
        ensures rises { steps.old ≤ steps.new }
        ensures cost { 2 ^ (steps.new - steps.old) ≤ 2 * length self.now + 1 }
    {
        let mut low = 0;
        let mut high = self.values.len();
        while low < high {
            let middle = low + (high - low) / 2;
            steps.tick();
            match self.values.get(middle).cmp(value) {
                Ordering::Equal => return Some(middle as u32),
                Ordering::Less => low = middle + 1,
                Ordering::Greater => high = middle,
            }
        }
        None
    }
}

/// Whether each value is below the next.
fn is_ascending(values: &Strings) -> bool
    ensures { Decides result (IsAscending values.now) }
{
    for place in 1..values.len() {
        if !is_below(values.get(place - 1), values.get(place)) {
            return false;
        }
    }
    true
}

/// Whether a value comes before another.
fn is_below(value: &str, other: &str) -> bool
    ensures { Decides result (IsBelow value.now other.now) }
{
    value < other
}
