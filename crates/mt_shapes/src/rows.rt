//! The rows of a table of shapes.

ghost use Rattle.std.specs.Prelude.{◌≡◌, ◌+◌, ◌<◌, ◌≤◌, ◌++◌, [], ◌∷◌, true, false, length, OnOk, OnErr, IsErrOf};
ghost use Rattle.std.specs.List.{AllByRecursion};
ghost use Rattle.mt_text_spec.specs.Texts.{unset, Row as SpecRow};
ghost use Rattle.mt_places.specs.Places.{In};
ghost use Rattle.mt_rows.specs.Appends.{Appends, Begins};
ghost use Rattle.mt_rows.specs.declared.error.EvalError.TheVariants.{TooManyRows as TooMany};
ghost use Rattle.mt_automaton.specs.RowsFrom.{HasLonger};
ghost use Rattle.mt_automaton.specs.Windows.{FitsBehind};
ghost use Rattle.mt_shapes.specs.Shapes.{row_of};
ghost use Rattle.mt_shapes.specs.Tables.{Fine, IsRowBelow, IsRowOf};

use crate::blocks::{are_unlabelled, rows_of_unlabelled, widen};
use crate::shape::Shape;
use crate::table::Entry;
use mt_base::{NoMemory, Span};
use mt_places::Places;
use mt_rows::{EvalError, Rows};

/// Whether a match of an entry begins at a place and has a token.
pub(crate) fn has_row(entry: &Entry, begin: u32) -> bool
    ensures yes { result ≡ true → (0 < entry.now.shape.length) × In entry.now.begins begin }
    ensures no { result ≡ false → 0 < entry.now.shape.length → ¬ In entry.now.begins begin }
{
    entry.shape.length > 0 && entry.begins.contains(begin)
}

/// Appends the row of a match of a shape.
fn push_row(shape: &Shape, text: u32, begin: u32, out: &mut Rows) -> Result<(), NoMemory>
    requires length { begin + shape.now.length < unset }
    requires labels { AllByRecursion (FitsBehind begin) shape.now.labels }
    ensures ok { OnOk result (out.new ≡ out.old ++ row_of shape.now text begin ∷ []) }
    ensures err { OnErr result (out.new ≡ out.old) }
{
    if shape.is_unlabelled() {
        return out.push_unlabelled(Span::new(text, begin, begin + shape.length));
    }
    out.push(shape.row(text, begin))
}

/// Appends the rows that begin at a place, the shortest first.
fn rows_at(
    entries: &[Entry],
    last: u32,
    text: u32,
    begin: u32,
    room: u32,
    out: &mut Rows,
) -> Result<(), EvalError>
    requires few { last < 4294967295 }
    requires fine { Fine last entries.now }
    ensures ok { OnOk result (Appends (IsRowBelow entries.now text begin (length entries.now)) room out.old out.new) }
    ensures longer { OnOk result (length out.old ≤ length out.new) }
    ensures within { OnOk result (length out.new ≤ length out.old + room) }
    ensures more { IsErrOf result TooMany → HasLonger (IsRowBelow entries.now text begin (length entries.now)) room }
    ensures kept { OnErr result (Begins out.old out.new) }
{
    let mut left = room;
    for entry in entries {
        if has_row(entry, begin) {
            if left == 0 {
                return Err(EvalError::TooManyRows);
            }
            push_row(&entry.shape, text, begin, out)?;
            left -= 1;
        }
    }
    Ok(())
}

/// Appends all rows of a table, ascending. All of them begin at places of a set. What is in the block does not matter: it is used again.
pub(crate) fn rows_of_table(
    entries: &[Entry],
    last: u32,
    begins: &Places,
    text: u32,
    room: u32,
    block: &mut Vec<Span>,
    out: &mut Rows,
) -> Result<(), EvalError>
    requires few { last < 4294967295 }
    requires fine { Fine last entries.now }
    requires all { (row : SpecRow) → IsRowOf entries.now text row → In begins.now row.span.begin }
    requires inside { (begin : _) → In begins.now begin → begin ≤ last }
    ensures ok { OnOk result (Appends (IsRowOf entries.now text) room out.old out.new) }
    ensures more { IsErrOf result TooMany → HasLonger (IsRowOf entries.now text) room }
    ensures kept { OnErr result (Begins out.old out.new) }
{
    if are_unlabelled(entries) {
        widen(block, entries.len())?;
        return rows_of_unlabelled(entries, last, begins, text, room, block, out);
    }
    rows_one_by_one(entries, last, begins, text, room, out)
}

/// Appends all rows of a table, ascending, each by its shape. All of them begin at places of a set.
fn rows_one_by_one(
    entries: &[Entry],
    last: u32,
    begins: &Places,
    text: u32,
    room: u32,
    out: &mut Rows,
) -> Result<(), EvalError>
    requires few { last < 4294967295 }
    requires fine { Fine last entries.now }
    requires all { (row : SpecRow) → IsRowOf entries.now text row → In begins.now row.span.begin }
    requires inside { (begin : _) → In begins.now begin → begin ≤ last }
    ensures ok { OnOk result (Appends (IsRowOf entries.now text) room out.old out.new) }
    ensures more { IsErrOf result TooMany → HasLonger (IsRowOf entries.now text) room }
    ensures kept { OnErr result (Begins out.old out.new) }
{
    let mut left = room;
    let mut from = 0;
    while let Some(at) = begins.first_from(from) {
        let before = out.len();
        rows_at(entries, last, text, at, left, out)?;
        left -= (out.len() - before) as u32;
        from = at + 1;
    }
    Ok(())
}
