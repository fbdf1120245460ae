//! The values of the tokens of codes, numbered.

ghost use Rattle.std.specs.Prelude.{◌≡◌, ◌-◌, ◌^◌, ◌<◌, ◌≤◌, ◌++◌, length, slice_get, Some, IfOk, OnOk};
ghost use Rattle.std.specs.List.{All};
ghost use Rattle.mt_lexicon.specs.Joins.{renumbered};
ghost use Rattle.mt_store_spec.specs.Lexicons.{IsLexiconOf, seen_with};
ghost use Rattle.mt_text_spec.specs.Texts.{value_of};
ghost use Rattle.mt_segment.specs.Numbered.{IsNumbered, stands_for};
ghost use Rattle.mt_generate_tables.specs.Coded.{IsTableOf, TellsNumbers, token_coded, tokens_of, values_of};

use super::coding::{ALL, drawn_of};
use mt_base::{NoMemory, Strings};
use mt_generate::make_row;
use mt_lexicon::{Lexicon, LexiconBuilder};
use std::alloc::Global;

/// The lexicon of the values that the tokens of these codes have in a column, and a table of all codes that tells the number of the value of each of these.
pub(crate) fn number_values(
    alloc: Global,
    codes: &[u16],
    column: usize,
) -> Result<(Lexicon, Vec<u32>), NoMemory>
    requires column { column < 3 }
    requires few { length codes.now ≤ 2000 }
    requires low { All (λ code. code < 2000) codes.now }
    ensures lexicon { IfOk result (λ r. IsLexiconOf (values_of column (tokens_of codes.now)) r.0) }
    ensures table { IfOk result (λ r. TellsNumbers column codes.now r.0 r.1.items) }
{
    let mut values = LexiconBuilder::new(alloc)?;
    let sights = add_values(alloc, &mut values, codes, column)?;
    let (lexicon, next) = values.finish()?;
    let numbers = renumber(alloc, sights.as_slice(), next.as_slice())?;
    let table = by_code(alloc, codes, numbers.as_slice())?;
    Ok((lexicon, table))
}

/// Adds the values that the tokens of codes have in a column, where no values were added before. The numbers are those by first sight.
fn add_values(
    alloc: Global,
    values: &mut LexiconBuilder,
    codes: &[u16],
    column: usize,
) -> Result<Vec<u16>, NoMemory>
    requires none { length values.old ≡ 0 }
    requires column { column < 3 }
    requires few { length codes.now ≤ 2000 }
    ensures numbered { IfOk result (λ numbers. IsNumbered values.new numbers.items) }
    ensures values { IfOk result (λ numbers. stands_for values.new numbers.items ≡ values_of column (tokens_of codes.now)) }
{
    let mut row = Strings::with_capacity(alloc, 3, 11)?;
    let mut text = String::with_capacity(alloc, 5)?;
    let mut numbers = Vec::with_capacity(alloc, codes.len())?;
    for code in codes {
        let number = add_value(values, &mut row, &mut text, *code, column)?;
        numbers.push(number as u16)?;
    }
    Ok(numbers)
}

/// Adds the value that the token of a code has in a column, and tells its number by first sight. The row and the text are written over.
fn add_value(
    values: &mut LexiconBuilder,
    row: &mut Strings,
    text: &mut String,
    code: u16,
    column: usize,
) -> Result<u32, NoMemory>
    requires column { column < 3 }
    requires few { length values.old < 2 ^ 32 - 1 }
    ensures seen { OnOk result (values.new ≡ seen_with values.old (value_of (token_coded code) column)) }
    ensures number { IfOk result (λ number. slice_get values.new number ≡ Some (value_of (token_coded code) column)) }
{
    make_row(row, text, drawn_of(code))?;
    values.add(row.get(column))
}

/// A table of all codes that has for each of these the number beside it. For other codes it has any number.
fn by_code(alloc: Global, codes: &[u16], numbers: &[u32]) -> Result<Vec<u32>, NoMemory>
    requires low { All (λ code. code < 2000) codes.now }
    requires beside { length numbers.now ≡ length codes.now }
    ensures { IfOk result (λ table. IsTableOf codes.now numbers.now (length codes.now) table.items) }
{
    let mut table = vec![in alloc; 0u32; ALL]?;
    for (place, code) in codes.iter().enumerate() {
        table[*code as usize] = numbers[place];
    }
    Ok(table)
}

/// For each number what a table has in its place.
fn renumber(alloc: Global, numbers: &[u16], table: &[u32]) -> Result<Vec<u32>, NoMemory>
    requires { All (λ n. n < length table.now) numbers.now }
    ensures { IfOk result (λ next. next.items ≡ renumbered table.now numbers.now) }
{
    let mut next = Vec::new(alloc);
    push_renumbered(&mut next, numbers, table)?;
    Ok(next)
}

/// Adds for each number what a table has in its place.
pub(crate) fn push_renumbered(
    next: &mut Vec<u32>,
    numbers: &[u16],
    table: &[u32],
) -> Result<(), NoMemory>
    requires { All (λ n. n < length table.now) numbers.now }
    ensures { OnOk result (next.new.items ≡ next.old.items ++ renumbered table.now numbers.now) }
{
    next.reserve(numbers.len())?;
    for number in numbers {
        next.push_reserved(table[*number as usize]);
    }
    Ok(())
}
