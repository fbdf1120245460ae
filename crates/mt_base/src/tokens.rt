//! The tokens of a text, by their values.

ghost use Rattle.std.specs.Prelude.{◌≡◌, ◌<◌, ◌≤◌, ◌++◌, ◌∷◌, [], length, nat_eq, slice_index_or, count_by, OnOk, OnErr};
ghost use Rattle.std.specs.Str.{bytes_eq};
ghost use Rattle.mt_text_spec.specs.Texts.{Token, value_of};
ghost use Rattle.mt_base.specs.Rows as spec;

use super::{NoMemory, Strings};
use std::alloc::Global;
use std::marker::Model;

/// Tokens in order, each with one value for each base attribute, in order of declaration. All values lie one behind the other, token after token, so a token
/// takes no memory of its own.
#[derive(Debug, Drop)]
pub struct Tokens {
    columns: usize,
    count: usize,
    values: Strings,
}

impl Model for Tokens {
    ghost use Rattle.std.specs.Prelude.{◌≡◌, ◌*◌, length};
    ghost use Rattle.mt_base.specs.Rows as spec;

    ghost Value = { spec.Tokens };

    ghost view = { λ t. record { columns = t.columns; tokens = spec.rows t.columns t.count t.values } };

    ghost invariant = { λ t. length t.values ≡ t.count * t.columns };
}

impl Tokens {
    /// No tokens yet, each of which will have so many values. It takes no memory.
    pub fn new(alloc: Global, columns: usize) -> Self
        ensures { result ≡ record { columns = columns; tokens = [] } }
    {
        Tokens {
            columns,
            count: 0,
            values: Strings::new(alloc),
        }
    }

    /// How many values each token has.
    pub fn columns(&self) -> usize
        ensures { result ≡ self.now.columns }
    {
        self.columns
    }

    /// How many tokens there are.
    pub fn len(&self) -> usize
        ensures { result ≡ length self.now.tokens }
    {
        self.count
    }

    /// Whether there is none.
    pub fn is_empty(&self) -> bool
        ensures { result ≡ nat_eq (length self.now.tokens) 0 }
    {
        self.count == 0
    }

    /// Adds the token with these values at the end. Without memory nothing changes.
    pub fn push(&mut self, row: &Strings) -> Result<(), NoMemory>
        requires { length row.now ≡ self.old.columns }
        ensures columns { self.new.columns ≡ self.old.columns }
        ensures ok { OnOk result (self.new.tokens ≡ self.old.tokens ++ record { values = row.now } ∷ []) }
        ensures err { OnErr result (self.new.tokens ≡ self.old.tokens) }
    {
        let Some(count) = self.count.checked_add(1) else {
            return Err(NoMemory);
        };
        self.values.append(row)?;
        self.count = count;
        Ok(())
    }

    /// Gives back the room that no token takes, where there is memory for it.
    pub fn shrink_to_fit(&mut self)
        ensures { self.new ≡ self.old }
    {
        self.values.shrink_to_fit();
    }

    /// The value of the token at a place, counted from 0, at a base attribute, by its place among the base attributes. A value that a token has not is empty.
    pub fn value(&self, place: usize, column: usize) -> &str
        requires { place < length self.now.tokens }
        ensures { (token : Token) → result.now ≡ value_of (slice_index_or self.now.tokens place token) column }
    {
        if column >= self.columns {
            return "";
        }
        let end = self.values.len();
        let at = place * self.columns + column;
        prove!(at < end);
        self.values.get(at)
    }

    /// How many tokens have this value at a base attribute.
    pub fn count_in(&self, column: usize, value: &[u8]) -> usize
        ensures count { result ≡ count_by (λ token. bytes_eq (value_of token column) value.now) self.now.tokens }
        ensures bound { result ≤ length self.now.tokens }
    {
        let mut found = 0;
        for place in 0..self.count {
            if self.value(place, column).as_bytes() == value {
                found += 1;
            }
        }
        found
    }
}
