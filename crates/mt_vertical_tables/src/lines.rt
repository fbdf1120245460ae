//! The values in a column of lines, numbered as they are seen.

ghost use Rattle.std.specs.Prelude.{◌≡◌, ℕ, ◌≤◌, [], ◌∷◌, ◌++◌, List as Items, length, option_map, IfOk, OnOk};
ghost use Rattle.std.specs.Str.Lines.{lines};
ghost use Rattle.mt_text_spec.specs.Texts.{text_tokens_limit, value_bytes_limit};
ghost use Rattle.mt_vertical_tables.specs.Columns.{AddsLine, AreValuesIn};
ghost use Rattle.mt_vertical_tables.specs.Marks.{IsValue};

use super::marked::first_value;
use super::numbering::Numbering;
use super::unmade::Unmade;
use mt_base::limits::{TEXT_TOKENS_LIMIT, VALUE_BYTES_LIMIT};
use std::alloc::Global;

/// The values in a column of a text's lines, numbered.
pub(crate) fn number_lines(alloc: Global, text: &str, column: usize) -> Result<Numbering, Unmade>
    ensures values { IfOk result (λ numbering. AreValuesIn column (lines text.now) numbering) }
    ensures few { IfOk result (λ numbering. length numbering ≤ text_tokens_limit) }
{
    let mut numbering = Numbering::new(alloc)?;
    let mut rest = text;
    while !rest.is_empty() {
        let (value, others) = first_value(rest, column);
        add_told(&mut numbering, value)?;
        rest = others;
    }
    Ok(numbering)
}

/// Adds the value of a line, if the line is a token.
fn add_told(numbering: &mut Numbering, value: Option<&str>) -> Result<(), Unmade>
    requires { length numbering.old ≤ text_tokens_limit }
    ensures few { OnOk result (length numbering.new ≤ text_tokens_limit) }
    ensures adds { OnOk result ((column : ℕ) (line : Items ℕ) → IsValue column line (option_map (λ value. value.now) value.entry) → AddsLine column line numbering.old numbering.new) }
{
    match value {
        Some(value) => add_value(numbering, value),
        None => Ok(()),
    }
}

/// Adds a value that is short enough, where there is room for one token more.
fn add_value(numbering: &mut Numbering, value: &str) -> Result<(), Unmade>
    requires { length numbering.old ≤ text_tokens_limit }
    ensures few { OnOk result (length numbering.new ≤ text_tokens_limit) }
    ensures short { OnOk result (length value.now ≤ value_bytes_limit) }
    ensures added { OnOk result (numbering.new ≡ numbering.old ++ value.now ∷ []) }
{
    if VALUE_BYTES_LIMIT < value.len() {
        return Err(Unmade::Refused);
    }
    if numbering.len() >= TEXT_TOKENS_LIMIT {
        return Err(Unmade::Refused);
    }
    numbering.push(value)?;
    Ok(())
}
