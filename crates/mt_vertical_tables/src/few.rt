//! The columns of a small text, by sorting.

ghost use Rattle.std.specs.Prelude.{◌≡◌, ◌<◌, ◌≤◌, length, map, IfOk, OnOk};
ghost use Rattle.mt_text_spec.specs.Texts.{text_tokens_limit, value_of};
ghost use Rattle.mt_vertical_tables.specs.Columns.{AreTokenColumns};

use mt_base::NoMemory;
use mt_segment::{AttrTables, Sorter};
use mt_vertical::Rows;
use std::alloc::Global;

/// The tables of the columns of a text's tokens, so many.
pub(crate) fn row_columns(
    alloc: Global,
    rows: &Rows,
    columns: usize,
) -> Result<Vec<AttrTables>, NoMemory>
    requires few { length rows.now.tokens ≤ text_tokens_limit }
    requires columns { rows.now.columns ≡ columns }
    ensures { IfOk result (λ tables. AreTokenColumns rows.now.tokens columns tables.items) }
{
    let mut tables = Vec::with_capacity(alloc, columns)?;
    let mut sorter = Sorter::new(alloc, rows.len())?;
    for column in 0..columns {
        take_column(&mut sorter, rows, column)?;
        tables.push(sorter.tables(alloc)?)?;
    }
    Ok(tables)
}

/// Tells a sorter the values of a column in the place of others.
fn take_column<'a>(sorter: &mut Sorter<'a>, rows: &Rows<'a>, column: usize) -> Result<(), NoMemory>
    requires few { length rows.now.tokens ≤ text_tokens_limit }
    requires column { column < rows.now.columns }
    ensures { OnOk result (sorter.new ≡ map (λ token. value_of token column) rows.now.tokens) }
{
    sorter.clear();
    for token in 0..rows.len() {
        sorter.push(rows.value(token, column))?;
    }
    Ok(())
}
