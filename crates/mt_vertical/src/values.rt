//! The values that lines give to their text.

ghost use Rattle.std.specs.Prelude.{◌≡◌, ℕ, ◌+◌, ◌∷◌, ◌++◌, true, false, List as Items, map, option_map, IfOk, IfSome, IfNone, OnErr};
ghost use Rattle.mt_file_spec.specs.Tags.{TagAttr as SpelledAttr, tag_value};
ghost use Rattle.mt_file_spec.specs.VerticalLines.{columns, first_columns};
ghost use Rattle.mt_vertical.specs.Columns.{column_in};
ghost use Rattle.mt_vertical.specs.Readers.{AreShort, HasLong, columns_left};
ghost use Rattle.mt_vertical.specs.TagReading.{ReadsAttrs};

use super::attrs::{MISSING, value_of};
use memchr::memchr;
use mt_base::limits::VALUE_BYTES_LIMIT;
use mt_base::{Kind, List, NoMemory, Strings, Value};
use std::alloc::Global;

/// The first column, and what follows its tab, if there is one.
fn split_column(text: &str) -> (&str, Option<&str>)
    ensures { columns text.now ≡ result.0.now ∷ columns_left (option_map (λ rest. rest.now) result.1) }
{
    match memchr(b'\t', text.as_bytes()) {
        Some(at) => (&text[..at], Some(&text[at + 1..])),
        None => (text, None),
    }
}

/// The next column, or the value of one that is not there.
fn next_column<'a>(left: Option<&'a str>) -> (&'a str, Option<&'a str>)
    ensures { (n : ℕ) → first_columns (n + 1) (columns_left (option_map (λ text. text.now) left.entry)) ≡ result.0.now ∷ first_columns n (columns_left (option_map (λ rest. rest.now) result.1)) }
{
    match left {
        Some(text) => split_column(text),
        None => (MISSING, None),
    }
}

/// Makes the row the first columns of a line, so many. Tells whether each is short enough: else the row has those before the first that is not.
pub fn column_values(count: usize, line: &str, row: &mut Strings) -> Result<bool, NoMemory>
    ensures read { IfOk result (λ short. short ≡ true → row.new ≡ first_columns count (columns line.now)) }
    ensures short { IfOk result (λ short. short ≡ true → AreShort row.new) }
    ensures long { IfOk result (λ short. short ≡ false → HasLong (first_columns count (columns line.now))) }
{
    row.clear();
    let mut left = Some(line);
    for _ in 0..count {
        let (column, others) = next_column(left);
        if VALUE_BYTES_LIMIT < column.len() {
            return Ok(false);
        }
        row.push(column)?;
        left = others;
    }
    Ok(true)
}

/// Adds the first columns of a line, so many, where each is short enough. Tells whether it is so: else, and without memory, none is added.
pub fn add_column_values<'a>(
    values: &mut Vec<&'a str>,
    line: &'a str,
    count: usize,
) -> Result<bool, NoMemory>
    ensures added { IfOk result (λ short. short ≡ true → map (λ value. value.now) values.new.items ≡ map (λ value. value.now) values.old.items ++ first_columns count (columns line.now)) }
    ensures short { IfOk result (λ short. short ≡ true → AreShort (first_columns count (columns line.now))) }
    ensures long { IfOk result (λ short. short ≡ false → HasLong (first_columns count (columns line.now))) }
    ensures none { IfOk result (λ short. short ≡ false → values.new.items ≡ values.old.items) }
    ensures err { OnErr result (values.new.items ≡ values.old.items) }
{
    values.reserve(count)?;
    let before = values.len();
    let mut left = Some(line);
    for _ in 0..count {
        let (column, others) = next_column(left);
        if VALUE_BYTES_LIMIT < column.len() {
            values.truncate(before);
            return Ok(false);
        }
        values.push_reserved(column);
        left = others;
    }
    Ok(true)
}

/// Whether one of the first columns of a line, so many, is longer than a value may be.
pub fn has_long_column(line: &str, count: usize) -> bool
    ensures long { result ≡ true → HasLong (first_columns count (columns line.now)) }
    ensures short { result ≡ false → AreShort (first_columns count (columns line.now)) }
{
    let mut left = Some(line);
    for _ in 0..count {
        let (column, others) = next_column(left);
        if VALUE_BYTES_LIMIT < column.len() {
            return true;
        }
        left = others;
    }
    false
}

/// The column of a line with this number, counted from 0, or the value of one that is not there.
pub fn column_at(line: &str, column: usize) -> &str
    ensures { result.now ≡ column_in column line.now }
{
    let mut left = Some(line);
    for _ in 0..column {
        left = next_column(left).1;
    }
    next_column(left).0
}

/// The values of the attributes of a kind, of those in a tag, or none where one of them is too long.
pub fn tag_values(alloc: Global, kind: &Kind, attrs: &str) -> Result<Option<List<Value>>, NoMemory>
    ensures read { IfOk result (λ found. IfSome found (λ values. (all : Items SpelledAttr) (rest : Items ℕ) → ReadsAttrs attrs.now all rest → values ≡ map (tag_value all) kind.now.attrs)) }
    ensures short { IfOk result (λ found. IfSome found (λ values. AreShort values)) }
    ensures long { IfOk result (λ found. IfNone found ((all : Items SpelledAttr) (rest : Items ℕ) → ReadsAttrs attrs.now all rest → HasLong (map (tag_value all) kind.now.attrs))) }
{
    let names = kind.attrs().as_slice();
    let mut values = List::with_capacity(alloc, names.len())?;
    for name in names {
        let value = value_of(attrs, name.as_str());
        if VALUE_BYTES_LIMIT < value.len() {
            return Ok(None);
        }
        values.push(Value::new(alloc, value)?)?;
    }
    Ok(Some(values))
}
