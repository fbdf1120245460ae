//! A text over a `String`, seen as its bytes.

ghost use Rattle.std.specs.Prelude.{◌≡◌, ℕ, List, nat_eq, refl, Some, IfOk, OnOk, OnErr, IsUtf8, string_bytes, string_len};
ghost use Rattle.std.specs.Ordering.{nat_cmp};
ghost use Rattle.std.specs.Cmp.Lexicographic.{pointwise, slice_cmp, nat_list_eq_equiv, nat_list_cmp_total, texts_ties, texts_po};
ghost use Rattle.std.specs.Cmp.{partial_equiv_from_equiv};
ghost use Rattle.std.specs.Cmp.Rules.{hashing};
ghost use Rattle.std.specs.Hash as fed;
ghost use Rattle.std.proofs.Common.{rules};

use super::NoMemory;
use std::alloc::{AllocError, Global};
use std::cmp::Ordering;
use std::hash::{Hash, Hasher};
use std::marker::Model;

/// A value of an attribute, a name or another short text: UTF-8, compared and ordered by its bytes.
#[derive(Debug, Drop)]
pub struct Value {
    text: String,
}

impl Model for Value {
    ghost Value = { List ℕ };

    ghost view = { λ v. string_bytes v.text };
}

impl Value {
    /// A copy of the text.
    pub fn new(alloc: Global, text: &str) -> Result<Self, NoMemory>
        ensures { IfOk result (λ v. v ≡ text.now) }
    {
        Ok(Value {
            text: String::from_str(alloc, text)?,
        })
    }

    /// The value with this text. It takes no memory.
    pub fn from_string(text: String) -> Self
        ensures { result ≡ string_bytes text }
    {
        Value { text }
    }

    /// The text.
    pub fn as_str(&self) -> &str
        ensures { result.now ≡ self.now }
    {
        self.text.as_str()
    }

    /// An equal value.
    pub fn copy(&self, alloc: Global) -> Result<Self, NoMemory>
        ensures { IfOk result (λ v. v ≡ self.now) }
    {
        Value::new(alloc, self.text.as_str())
    }
}

impl Clone for Value {
    ghost is_clone = { λ v copy. copy ≡ v };

    fn clone(&self) -> Result<Value, AllocError> {
        Ok(Value {
            text: self.text.clone()?,
        })
    }
}

impl PartialEq for Value {
    ghost eq = { pointwise nat_eq };

    ghost laws = { partial_equiv_from_equiv nat_list_eq_equiv };

    fn eq(&self, other: &Self) -> bool {
        self.as_str() == other.as_str()
    }
}

impl Eq for Value {
    ghost laws = { nat_list_eq_equiv };
}

impl PartialOrd for Value {
    ghost partial_cmp = { λ x y. Some (slice_cmp nat_cmp x y) };

    ghost laws = { texts_po };

    fn partial_cmp(&self, other: &Self) -> Option<Ordering> {
        Some(self.cmp(other))
    }
}

impl Ord for Value {
    ghost cmp = { slice_cmp nat_cmp };

    ghost total = { nat_list_cmp_total };

    ghost matches_partial_cmp = { λ x y. refl };

    ghost matches_eq = { texts_ties };

    fn cmp(&self, other: &Self) -> Ordering {
        self.as_str().cmp(other.as_str())
    }
}

impl Hash for Value {
    ghost hash_input = { fed.str };

    ghost respects_eq = { Prim.search (hashing, rules) };

    fn hash<H: Hasher>(&self, state: &mut H) {
        self.as_str().hash(state);
    }
}
