//! The columns of a vertical.

ghost use Rattle.std.specs.Prelude.{◌≡◌, IfOk};
ghost use Rattle.std.specs.Str.Lines.{lines};
ghost use Rattle.std.specs.Thread.{IsSync};
ghost use Rattle.mt_file_spec.specs.Vertical as vertical;
ghost use Rattle.mt_vertical_tables.specs.Columns.{AreColumns, IsColumnOf};

use super::halves::number_beside;
use super::unmade::Unmade;
use mt_base::List;
use mt_segment::{AttrTables, Column, postings_beside};
use mt_vertical::without_mark;
use rayon::prelude::*;
use std::alloc::Global;
use std::str;
use std::thread::Threads;

/// What a vertical has behind its byte order mark, where that is text. All columns and the structures are read from it, so it is tested once.
pub(crate) fn text_of(bytes: &[u8]) -> Result<&str, Unmade>
    ensures { IfOk result (λ text. text.now ≡ vertical.without_mark bytes.now) }
{
    match str::from_utf8(without_mark(bytes)) {
        Ok(text) => Ok(text),
        Err(_) => Err(Unmade::Refused),
    }
}

/// The tables of the first columns of a text's lines, so many, each made by threads of its own as far as the machine has them.
pub(crate) fn all_columns<R: Threads + Sync>(
    rt: &R,
    alloc: Global,
    text: &str,
    count: usize,
) -> Result<Vec<AttrTables>, Unmade>
    ensures { IfOk result (λ tables. AreColumns (lines text.now) count tables.items) }
{
    let made: Result<Vec<AttrTables>, Unmade> = (0..count)
        .into_par_iter()
        .with_min_len(1)
        .map(
            |column: usize| -> Result<AttrTables, Unmade>
                requires { IsSync R.row }
                ensures { IfOk result (λ tables. IsColumnOf (lines text.entry.now) column tables) }
            { column_tables(rt, alloc, text, column) },
        )
        .collect(rt, alloc)?;
    made
}

/// The tables of a column of a text's lines.
fn column_tables<R: Threads + Sync>(
    rt: &R,
    alloc: Global,
    text: &str,
    column: usize,
) -> Result<AttrTables, Unmade>
    ensures { IfOk result (λ tables. IsColumnOf (lines text.now) column tables) }
{
    let (lexicon, numbers) = number_beside(rt, alloc, text, column)?.into_parts();
    let postings = postings_beside(rt, alloc, numbers.as_slice(), lexicon.len() as usize)?;
    let column = Column::new(List::from_vec(numbers));
    Ok(AttrTables::of_base(lexicon, column, postings))
}
