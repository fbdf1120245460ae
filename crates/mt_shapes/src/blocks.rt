//! The rows of a table of shapes without labels. Their spans are put into a block, and appended when it is full.

ghost use Rattle.std.specs.Prelude.{◌≡◌, ◌+◌, ◌<◌, ◌≤◌, ◌++◌, true, length, take, IfOk, OnOk, OnErr, IsErrOf};
ghost use Rattle.mt_text_spec.specs.Texts.{Row as SpecRow};
ghost use Rattle.mt_places.specs.Places.{In};
ghost use Rattle.mt_rows.specs.Appends.{Appends, Begins};
ghost use Rattle.mt_rows.specs.declared.error.EvalError.TheVariants.{TooManyRows as TooMany};
ghost use Rattle.mt_automaton.specs.RowsFrom.{HasLonger};
ghost use Rattle.mt_shapes.specs.Blocks.{AreUnlabelled, bare_rows};
ghost use Rattle.mt_shapes.specs.Tables.{Fine, IsRowBelow, IsRowOf};

use crate::rows::has_row;
use crate::table::Entry;
use mt_base::{NoMemory, Span};
use mt_places::Places;
use mt_rows::{EvalError, Rows};

/// Whether no shape has a label.
pub(crate) fn are_unlabelled(entries: &[Entry]) -> bool
    ensures { result ≡ true → AreUnlabelled entries.now }
{
    for entry in entries {
        if !entry.shape.is_unlabelled() {
            return false;
        }
    }
    true
}

/// How many spans a block has, or more.
const WIDTH: usize = 512;

/// Gives a block room for so many spans, and for some more.
pub(crate) fn widen(block: &mut Vec<Span>, least: usize) -> Result<(), NoMemory>
    ensures { OnOk result (least ≤ length block.new.items) }
{
    block.resize(least.max(WIDTH), Span::new(0, 0, 0))?;
    Ok(())
}

/// Puts the spans of the rows that begin at a place into a block, the shortest first, behind so many that are there. Returns how many are there then. A span is put
/// for each entry, and the next one in its place where it has no row: so nothing is guessed of the sets.
fn put_rows(
    entries: &[Entry],
    last: u32,
    text: u32,
    begin: u32,
    block: &mut [Span],
    before: usize,
) -> usize
    requires few { last < 4294967295 }
    requires fine { Fine last entries.now }
    requires unlabelled { AreUnlabelled entries.now }
    requires free { before + length entries.now ≤ length block.old }
    ensures width { length block.new ≡ length block.old }
    ensures least { before ≤ result }
    ensures most { result ≤ before + length entries.now }
    ensures put { Appends (IsRowBelow entries.now text begin (length entries.now)) (length entries.now) (bare_rows (take before block.old)) (bare_rows (take result block.new)) }
{
    let mut count = before;
    for entry in entries {
        block[count] = Span::new(text, begin, begin.wrapping_add(entry.shape.length));
        count += has_row(entry, begin) as usize;
    }
    count
}

/// Appends the rows of spans.
fn append(spans: &[Span], out: &mut Rows) -> Result<(), NoMemory>
    ensures ok { OnOk result (out.new ≡ out.old ++ bare_rows spans.now) }
    ensures kept { Begins out.old out.new }
{
    for span in spans {
        out.push_unlabelled(*span)?;
    }
    Ok(())
}

/// Makes room for more spans behind so many in a block: where there is too little, those that are there are appended. Returns how many are there still.
fn make_room(block: &[Span], count: usize, more: usize, out: &mut Rows) -> Result<usize, NoMemory>
    requires within { count ≤ length block.now }
    requires more { more ≤ length block.now }
    ensures free { IfOk result (λ left. left + more ≤ length block.now) }
    ensures same { IfOk result (λ left. out.new ++ bare_rows (take left block.now) ≡ out.old ++ bare_rows (take count block.now)) }
    ensures kept { Begins out.old out.new }
{
    if block.len() - count >= more {
        return Ok(count);
    }
    append(&block[..count], out)?;
    Ok(0)
}

/// Appends all rows of a table without labels, ascending. All of them begin at places of a set. The block has room for a span of each entry; what is in it does not matter.
pub(crate) fn rows_of_unlabelled(
    entries: &[Entry],
    last: u32,
    begins: &Places,
    text: u32,
    room: u32,
    block: &mut [Span],
    out: &mut Rows,
) -> Result<(), EvalError>
    requires few { last < 4294967295 }
    requires fine { Fine last entries.now }
    requires unlabelled { AreUnlabelled entries.now }
    requires all { (row : SpecRow) → IsRowOf entries.now text row → In begins.now row.span.begin }
    requires inside { (begin : _) → In begins.now begin → begin ≤ last }
    requires block { length entries.now ≤ length block.old }
    ensures ok { OnOk result (Appends (IsRowOf entries.now text) room out.old out.new) }
    ensures more { IsErrOf result TooMany → HasLonger (IsRowOf entries.now text) room }
    ensures kept { OnErr result (Begins out.old out.new) }
{
    let mut left = room;
    let mut count = 0;
    let mut from = 0;
    while let Some(at) = begins.first_from(from) {
        let before = make_room(block, count, entries.len(), out)?;
        count = put_rows(entries, last, text, at, block, before);
        if count - before > left as usize {
            return Err(EvalError::TooManyRows);
        }
        left -= (count - before) as u32;
        from = at + 1;
    }
    append(&block[..count], out)?;
    Ok(())
}
