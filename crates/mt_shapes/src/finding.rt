//! The rows of an automaton in a text, by shapes where there are few.

ghost use Rattle.std.specs.Prelude.{◌≡◌, ℕ, ◌+◌, ◌<◌, ◌≤◌, true, false, Ok, IfOk, IfSome, OnOk, OnErr, IsErrOf};
ghost use Rattle.mt_text_spec.specs.Texts.{Row as SpecRow};
ghost use Rattle.mt_places.specs.Places.{In};
ghost use Rattle.mt_text_spec.specs.Queries.{Expr as QueryExpr};
ghost use Rattle.mt_rows.specs.Appends.{Appends, Begins};
ghost use Rattle.mt_rows.specs.declared.error.EvalError.TheVariants.{TooManyRows as TooMany};
ghost use Rattle.mt_automaton.specs.Compiled.{IsOf, IsSeenFor};
ghost use Rattle.mt_automaton.specs.LabelledParts.{labelled_meant};
ghost use Rattle.mt_automaton.specs.RowsFrom.{IsRowOfText, HasLonger};
ghost use Rattle.mt_shapes.specs.Tables.{Fine, TellsRows};

use crate::instances::rows_of_instances;
use crate::lengths::most_shapes;
use crate::parts::add_labelled;
use crate::refused::Refused;
use crate::rows::rows_of_table;
use crate::table::Entry;
use crate::work::{MAX_ENTRIES, Maker, Work};
use mt_automaton::{Automaton, Labelled, Part, View, automaton_matches, row_begins};
use mt_base::NoMemory;
use mt_places::Places;
use mt_rows::{EvalError, Rows};

/// The table of the shapes of a part in a text, where there are not too many.
fn table_of<V: View>(
    maker: &mut Maker,
    view: &V,
    part: &Labelled,
) -> Result<Option<Vec<Entry>>, NoMemory>
    ensures fine { IfOk result (λ found. IfSome found (λ entries. Fine (V.seen view.now).text.tokens entries.items)) }
    ensures rows { IfOk result (λ found. IfSome found (λ entries. TellsRows entries.items (V.seen view.now).text (labelled_meant (V.seen view.now) part.now))) }
{
    let last = view.tokens();
    let mut entries = maker.table();
    maker.start();
    match add_labelled(maker, view, last, part, &mut entries) {
        Ok(()) => Ok(Some(entries)),
        Err(Refused::TooManyShapes) => {
            maker.give(entries);
            Ok(None)
        }
        Err(Refused::NoMemory) => Err(NoMemory),
    }
}

/// Appends the rows of a part in a text by a table of its shapes, and tells whether it did: not where there are too many. All rows begin at places of a set.
fn rows_by_table<V: View>(
    maker: &mut Maker,
    view: &V,
    part: &Labelled,
    begins: &Places,
    text: u32,
    room: u32,
    out: &mut Rows,
) -> Result<bool, EvalError>
    requires all { (row : SpecRow) → IsRowOfText (V.seen view.now).text (labelled_meant (V.seen view.now) part.now) text row → In begins.now row.span.begin }
    requires inside { (place : ℕ) → In begins.now place → place < (V.seen view.now).text.tokens }
    ensures done { result ≡ Ok true → Appends (IsRowOfText (V.seen view.now).text (labelled_meant (V.seen view.now) part.now) text) room out.old out.new }
    ensures refused { result ≡ Ok false → out.new ≡ out.old }
    ensures more { IsErrOf result TooMany → HasLonger (IsRowOfText (V.seen view.now).text (labelled_meant (V.seen view.now) part.now) text) room }
    ensures kept { OnErr result (Begins out.old out.new) }
{
    let last = view.tokens();
    let Some(entries) = table_of(maker, view, part)? else {
        return Ok(false);
    };
    let result = rows_of_table(&entries, last, begins, text, room, &mut maker.block, out);
    maker.give(entries);
    match result {
        Ok(()) => Ok(true),
        Err(error) => Err(error),
    }
}

/// Appends the rows of a part in a text by its shapes, and tells whether it did. It makes nothing where no row begins, nor where the part may have too many shapes.
fn rows_of_shapes<V: View>(
    maker: &mut Maker,
    view: &V,
    part: &Labelled,
    text: u32,
    room: u32,
    out: &mut Rows,
) -> Result<bool, EvalError>
    ensures done { result ≡ Ok true → Appends (IsRowOfText (V.seen view.now).text (labelled_meant (V.seen view.now) part.now) text) room out.old out.new }
    ensures refused { result ≡ Ok false → out.new ≡ out.old }
    ensures more { IsErrOf result TooMany → HasLonger (IsRowOfText (V.seen view.now).text (labelled_meant (V.seen view.now) part.now) text) room }
    ensures kept { OnErr result (Begins out.old out.new) }
{
    let begins = row_begins(&mut maker.pool, view, part)?;
    if begins.is_empty() {
        maker.pool.give(begins);
        return Ok(true);
    }
    if most_shapes(part, view.tokens()) as usize > MAX_ENTRIES {
        maker.pool.give(begins);
        return Ok(false);
    }
    let result = rows_by_table(maker, view, part, &begins, text, room, out);
    maker.pool.give(begins);
    result
}

/// Appends the rows of a part in a text, and tells whether it did: those of the instances of a tag one by one, others by their shapes.
fn part_rows<V: View>(
    maker: &mut Maker,
    view: &V,
    part: &Labelled,
    text: u32,
    room: u32,
    out: &mut Rows,
) -> Result<bool, EvalError>
    ensures done { result ≡ Ok true → Appends (IsRowOfText (V.seen view.now).text (labelled_meant (V.seen view.now) part.now) text) room out.old out.new }
    ensures refused { result ≡ Ok false → out.new ≡ out.old }
    ensures more { IsErrOf result TooMany → HasLonger (IsRowOfText (V.seen view.now).text (labelled_meant (V.seen view.now) part.now) text) room }
    ensures kept { OnErr result (Begins out.old out.new) }
{
    match part {
        Labelled::Plain(Part::Whole(tag)) => {
            match rows_of_instances(&mut maker.pool, view, *tag, text, room, out) {
                Ok(()) => Ok(true),
                Err(error) => Err(error),
            }
        }
        _ => rows_of_shapes(maker, view, part, text, room, out),
    }
}

/// The table of the shapes of a part in a text: one without entries where no row begins, and none where the part may have too many shapes.
fn shapes_of_part<V: View>(
    maker: &mut Maker,
    view: &V,
    part: &Labelled,
) -> Result<Option<Vec<Entry>>, NoMemory>
    ensures fine { IfOk result (λ found. IfSome found (λ entries. Fine (V.seen view.now).text.tokens entries.items)) }
    ensures rows { IfOk result (λ found. IfSome found (λ entries. TellsRows entries.items (V.seen view.now).text (labelled_meant (V.seen view.now) part.now))) }
{
    if has_many_shapes(part, view.tokens()) {
        return Ok(None);
    }
    let begins = row_begins(&mut maker.pool, view, part)?;
    let is_empty = begins.is_empty();
    maker.pool.give(begins);
    if is_empty {
        return Ok(Some(maker.table()));
    }
    table_of(maker, view, part)
}

/// Whether a part may have too many shapes in a text of so many tokens. The instances of a tag are found one by one, whatever lengths they have.
fn has_many_shapes(part: &Labelled, last: u32) -> bool {
    match part {
        Labelled::Plain(Part::Whole(_)) => true,
        _ => most_shapes(part, last) as usize > MAX_ENTRIES,
    }
}

/// Whether an automaton may have too many shapes in a text of so many tokens, so that there is no table of them. A table may still be refused for a text where it may not.
pub fn may_have_many(automaton: &Automaton, tokens: u32) -> bool {
    has_many_shapes(automaton.part(), tokens)
}

/// The table of the shapes that the rows of an automaton have in a text, where there are not too many: the rows are read off it, whatever number the text has. It goes
/// back by `give_back`.
pub fn shapes_of_text<V: View>(
    work: &mut Work,
    view: &V,
    automaton: &Automaton,
) -> Result<Option<Vec<Entry>>, NoMemory>
    ensures fine { IfOk result (λ found. IfSome found (λ entries. Fine (V.seen view.now).text.tokens entries.items)) }
    ensures rows { (expr : QueryExpr) → IsOf expr automaton.now → IsSeenFor expr (V.seen view.now) → IfOk result (λ found. IfSome found (λ entries. TellsRows entries.items (V.seen view.now).text expr)) }
{
    automaton_matches(automaton, view);
    shapes_of_part(&mut work.maker, view, automaton.part())
}

/// Appends all rows of an automaton in a text, ascending, and tells whether it did. Where there are too many shapes it appends nothing, and answers false. `text` is the
/// number that the rows' spans have, `room` how many rows may be appended.
pub fn rows_by_shapes<V: View>(
    work: &mut Work,
    view: &V,
    automaton: &Automaton,
    text: u32,
    room: u32,
    out: &mut Rows,
) -> Result<bool, EvalError>
    ensures done { (expr : QueryExpr) → IsOf expr automaton.now → IsSeenFor expr (V.seen view.now) → result ≡ Ok true → Appends (IsRowOfText (V.seen view.now).text expr text) room out.old out.new }
    ensures refused { result ≡ Ok false → out.new ≡ out.old }
    ensures more { (expr : QueryExpr) → IsOf expr automaton.now → IsSeenFor expr (V.seen view.now) → IsErrOf result TooMany → HasLonger (IsRowOfText (V.seen view.now).text expr text) room }
    ensures kept { OnErr result (Begins out.old out.new) }
{
    automaton_matches(automaton, view);
    part_rows(&mut work.maker, view, automaton.part(), text, room, out)
}

/// Appends all rows of an automaton in a text, ascending: by shapes where there are few, else begin by begin. `text` is the number that their spans have, `room` how many
/// rows may be appended.
pub fn rows_of_text<V: View>(
    work: &mut Work,
    view: &V,
    automaton: &Automaton,
    text: u32,
    room: u32,
    out: &mut Rows,
) -> Result<(), EvalError>
    ensures ok { (expr : QueryExpr) → IsOf expr automaton.now → IsSeenFor expr (V.seen view.now) → OnOk result (Appends (IsRowOfText (V.seen view.now).text expr text) room out.old out.new) }
    ensures more { (expr : QueryExpr) → IsOf expr automaton.now → IsSeenFor expr (V.seen view.now) → IsErrOf result TooMany → HasLonger (IsRowOfText (V.seen view.now).text expr text) room }
    ensures kept { OnErr result (Begins out.old out.new) }
{
    if rows_by_shapes(work, view, automaton, text, room, out)? {
        return Ok(());
    }
    automaton.rows_of_text(&mut work.automaton, view, text, room, out)
}
