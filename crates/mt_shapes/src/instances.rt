//! The rows of whole instances.

ghost use Rattle.std.specs.Prelude.{◌≡◌, ◌+◌, ◌<◌, ◌≤◌, length, OnOk, OnErr, IsErrOf};
ghost use Rattle.mt_places.specs.Places.{In};
ghost use Rattle.mt_rows.specs.Appends.{Appends, Begins};
ghost use Rattle.mt_rows.specs.declared.error.EvalError.TheVariants.{TooManyRows as TooMany};
ghost use Rattle.mt_automaton.specs.Parts.{Longer, meant};
ghost use Rattle.mt_automaton.specs.declared.part.Part.TheVariants.{Whole as OneWhole};
ghost use Rattle.mt_automaton.specs.RowsFrom.{IsRowOfText, HasLonger};
ghost use Rattle.mt_shapes.specs.Tables.{BeginsAt};

use crate::parts::Standing;
use mt_automaton::{Mark, Pool, View};
use mt_base::Span;
use mt_places::Places;
use mt_rows::{EvalError, Rows};

/// Appends the row of the instance of a tag that begins at a place, if there is one. `near` is for the view.
fn row_at<V: View>(
    view: &V,
    tag: u32,
    at: u32,
    near: &mut usize,
    text: u32,
    room: u32,
    out: &mut Rows,
) -> Result<(), EvalError>
    ensures ok { OnOk result (Appends (BeginsAt (IsRowOfText (V.seen view.now).text (meant (V.seen view.now) (OneWhole tag)) text) at) room out.old out.new) }
    ensures longer { OnOk result (length out.old ≤ length out.new) }
    ensures within { OnOk result (length out.new ≤ length out.old + room) }
    ensures more { IsErrOf result TooMany → HasLonger (BeginsAt (IsRowOfText (V.seen view.now).text (meant (V.seen view.now) (OneWhole tag)) text) at) room }
    ensures kept { OnErr result (Begins out.old out.new) }
{
    match view.whole_end(tag, at, near) {
        None => Ok(()),
        Some(end) => {
            if room == 0 {
                return Err(EvalError::TooManyRows);
            }
            out.push_unlabelled(Span::new(text, at, end))?;
            Ok(())
        }
    }
}

/// Appends the rows of the instances of a tag that begin at places of a set, ascending. The set has the begins of all that have a token.
fn rows_of_begins<V: View>(
    view: &V,
    tag: u32,
    begins: &Places,
    text: u32,
    room: u32,
    out: &mut Rows,
) -> Result<(), EvalError>
    requires few { (V.seen view.now).text.tokens < 4294967295 }
    requires all { (begin end : _) → Longer (V.seen view.now) tag begin end → In begins.now begin }
    requires inside { (begin : _) → In begins.now begin → begin ≤ (V.seen view.now).text.tokens }
    ensures ok { OnOk result (Appends (IsRowOfText (V.seen view.now).text (meant (V.seen view.now) (OneWhole tag)) text) room out.old out.new) }
    ensures more { IsErrOf result TooMany → HasLonger (IsRowOfText (V.seen view.now).text (meant (V.seen view.now) (OneWhole tag)) text) room }
    ensures kept { OnErr result (Begins out.old out.new) }
{
    let mut left = room;
    let mut near = 0;
    let mut from = 0;
    while let Some(at) = begins.first_from(from) {
        let before = out.len();
        row_at(view, tag, at, &mut near, text, left, out)?;
        left -= (out.len() - before) as u32;
        from = at + 1;
    }
    Ok(())
}

/// Appends the rows of the instances of a tag in a text, ascending. They are found one by one, however many lengths they have.
pub(crate) fn rows_of_instances<V: View>(
    pool: &mut Pool,
    view: &V,
    tag: u32,
    text: u32,
    room: u32,
    out: &mut Rows,
) -> Result<(), EvalError>
    ensures ok { OnOk result (Appends (IsRowOfText (V.seen view.now).text (meant (V.seen view.now) (OneWhole tag)) text) room out.old out.new) }
    ensures more { IsErrOf result TooMany → HasLonger (IsRowOfText (V.seen view.now).text (meant (V.seen view.now) (OneWhole tag)) text) room }
    ensures kept { OnErr result (Begins out.old out.new) }
{
    let last = view.tokens();
    let mut begins = pool.none((last / 64) as usize + 1)?;
    begins.put(&Standing {
        view,
        mark: Mark::Begins(tag),
    });
    let result = rows_of_begins(view, tag, &begins, text, room, out);
    pool.give(begins);
    result
}
