//! Tokens whose values stay in the lines that gave them.

ghost use Rattle.std.specs.Prelude.{◌≡◌, ◌<◌, ◌++◌, ◌∷◌, [], true, false, length, nat_eq, slice_index_or, IfOk};
ghost use Rattle.mt_text_spec.specs.Texts.{Token, value_of};
ghost use Rattle.mt_file_spec.specs.VerticalLines as lines;
ghost use Rattle.mt_file_spec.specs.VerticalLines.{first_columns};
ghost use Rattle.mt_vertical.specs.Readers.{AreShort, HasLong};

use super::values::add_column_values;
use mt_base::NoMemory;
use std::alloc::Global;
use std::marker::Model;

/// There is room for the values of so many tokens at once. Where there are more, more is taken.
const SOME_TOKENS: usize = 16;

/// Tokens in order, each with one value for each base attribute, in order of declaration. Each value is lent by the line that gave it, so no byte is copied.
#[derive(Debug, Drop)]
pub struct Rows<'a> {
    columns: usize,
    count: usize,
    values: Vec<&'a str>,
}

impl<'a> Model for Rows<'a> {
    ghost use Rattle.std.specs.Prelude.{◌≡◌, ◌*◌, length, map};
    ghost use Rattle.mt_base.specs.Rows as spec;

    ghost Value = { spec.Tokens };

    ghost view = { λ r. record { columns = r.columns; tokens = spec.rows r.columns r.count (map (λ value. value.now) r.values.items) } };

    ghost invariant = { λ r. length r.values.items ≡ r.count * r.columns };
}

impl<'a> Rows<'a> {
    /// No tokens yet, each of which will have so many values.
    pub(crate) fn new(alloc: Global, columns: usize) -> Result<Self, NoMemory>
        ensures { IfOk result (λ rows. rows ≡ record { columns = columns; tokens = [] }) }
    {
        Ok(Rows {
            columns,
            count: 0,
            values: Vec::with_capacity(alloc, columns.saturating_mul(SOME_TOKENS))?,
        })
    }

    /// How many tokens there are.
    pub fn len(&self) -> usize
        ensures { result ≡ length self.now.tokens }
    {
        self.count
    }

    /// Whether there is none.
    pub fn is_empty(&self) -> bool
        ensures { result ≡ nat_eq (length self.now.tokens) 0 }
    {
        self.count == 0
    }

    /// Adds the token of the first columns of a line. Tells whether each of them is short enough: else no token is added.
    pub(crate) fn push(&mut self, line: &'a str) -> Result<bool, NoMemory>
        ensures columns { self.new.columns ≡ self.old.columns }
        ensures added { IfOk result (λ short. short ≡ true → self.new.tokens ≡ self.old.tokens ++ record { values = first_columns self.old.columns (lines.columns line.now) } ∷ []) }
        ensures short { IfOk result (λ short. short ≡ true → AreShort (first_columns self.old.columns (lines.columns line.now))) }
        ensures long { IfOk result (λ short. short ≡ false → HasLong (first_columns self.old.columns (lines.columns line.now))) }
    {
        let Some(count) = self.count.checked_add(1) else {
            return Err(NoMemory);
        };
        if !add_column_values(&mut self.values, line, self.columns)? {
            return Ok(false);
        }
        self.count = count;
        Ok(true)
    }

    /// The value of the token at a place, counted from 0, at a base attribute, by its place among the base attributes.
    pub fn value(&self, place: usize, column: usize) -> &'a str
        requires place { place < length self.now.tokens }
        requires column { column < self.now.columns }
        ensures { (token : Token) → result.now ≡ value_of (slice_index_or self.now.tokens place token) column }
    {
        let end = self.values.len();
        let at = place * self.columns + column;
        prove!(at < end);
        self.values[at]
    }
}
