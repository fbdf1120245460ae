//! The rows of an automaton, from one place of a text and from all.

ghost use Rattle.std.specs.Prelude.{◌≡◌, ℕ, ◌+◌, ◌<◌, ◌≤◌, ◌++◌, ◌==◌, if◌then◌else◌, length, map, IfOk, OnOk, OnErr, IsErrOf};
ghost use Rattle.std.specs.List.{All, AllByRecursion};
ghost use Rattle.mt_text_spec.specs.Texts.{unset, Row as SpecRow};
ghost use Rattle.mt_text_spec.specs.Queries.{Expr as QueryExpr};
ghost use Rattle.mt_places.specs.Places.{In};
ghost use Rattle.mt_rows.specs.Appends.{Appends, HasMore, Begins};
ghost use Rattle.mt_rows.specs.declared.error.EvalError.TheVariants.{TooManyRows as TooMany};
ghost use Rattle.mt_automaton.specs.LabelledParts.{labelled_meant};
ghost use Rattle.mt_automaton.specs.Windows.{moved, moved_row as moved_row_of, FitsBehind, RowFits};
ghost use Rattle.mt_automaton.specs.Compiled.{IsOf, IsSeenFor};
ghost use Rattle.mt_automaton.specs.RowsFrom.{IsRowFrom, IsRowOfText, HasLonger};

use crate::compile::{Automaton, automaton_matches};
use crate::groups::UNSET;
use crate::labelled::{Labelled, labelled_starts};
use crate::pool::Pool;
use crate::rows::{Work, rows_of_part};
use crate::view::View;
use crate::window::Window;
use mt_base::{NoMemory, Row, Span};
use mt_places::{Below, Places};
use mt_rows::{EvalError, Rows};

/// The place of a label in the text, by its place in a window.
fn moved_place(place: u32, base: u32) -> u32
    requires { FitsBehind base place }
    ensures { result ≡ (if place == unset then unset else (base + place)) }
{
    if place == UNSET { UNSET } else { base + place }
}

/// The places of the labels in the text, by those in a window.
fn moved_labels(labels: &[u32; 9], base: u32) -> [u32; 9]
    requires { AllByRecursion (FitsBehind base) labels.now }
    ensures { result ≡ moved base labels.now }
{
    let mut places = [UNSET; 9];
    for i in 0..9 {
        places[i] = moved_place(labels[i], base);
    }
    places
}

/// A row of a window, by its places in the text.
fn moved_row(row: &Row, base: u32) -> Row
    requires { RowFits base row.now }
    ensures { result ≡ moved_row_of base row.now }
{
    let span = row.span();
    let labels = moved_labels(row.labels(), base);
    Row::new(
        Span::new(span.text(), base + span.begin(), base + span.end()),
        labels,
    )
}

/// Appends the rows of a window, by their places in the text.
fn push_moved(rows: &Rows, base: u32, out: &mut Rows) -> Result<(), NoMemory>
    requires { All (RowFits base) rows.now }
    ensures ok { OnOk result (out.new ≡ out.old ++ map (moved_row_of base) rows.now) }
    ensures kept { OnErr result (Begins out.old out.new) }
{
    for i in 0..rows.len() {
        out.push(moved_row(&rows.get(i), base))?;
    }
    Ok(())
}

/// Appends the rows of a part that begin at a place of a text. They are found in the part of the text in which they all lie.
fn rows_at<V: View>(
    work: &mut Work,
    view: &V,
    part: &Labelled,
    text: u32,
    at: u32,
    room: u32,
    out: &mut Rows,
) -> Result<(), EvalError>
    requires { at < (V.seen view.now).text.tokens }
    ensures ok { OnOk result (Appends (IsRowFrom (V.seen view.now).text (labelled_meant (V.seen view.now) part.now) text at) room out.old out.new) }
    ensures longer { OnOk result (length out.old ≤ length out.new) }
    ensures within { OnOk result (length out.new ≤ length out.old + room) }
    ensures more { IsErrOf result TooMany → HasMore (IsRowFrom (V.seen view.now).text (labelled_meant (V.seen view.now) part.now) text at) room }
    ensures kept { OnErr result (Begins out.old out.new) }
{
    let _inside = view.tokens();
    let window = Window::around(view, part, at);
    let base = window.base();
    work.found.truncate(0);
    rows_of_part(
        &mut work.pool,
        &mut work.rows,
        &window,
        part,
        text,
        at - base,
        room,
        &mut work.found,
    )?;
    push_moved(&work.found, base, out)?;
    Ok(())
}

/// Appends the rows of a part that begin at places of a set, from the first place on.
fn rows_of_begins<V: View>(
    work: &mut Work,
    view: &V,
    part: &Labelled,
    begins: &Places,
    text: u32,
    room: u32,
    out: &mut Rows,
) -> Result<(), EvalError>
    requires all { (row : SpecRow) → IsRowOfText (V.seen view.now).text (labelled_meant (V.seen view.now) part.now) text row → In begins.now row.span.begin }
    requires inside { (place : ℕ) → In begins.now place → place < (V.seen view.now).text.tokens }
    requires few { (V.seen view.now).text.tokens < 4294967295 }
    ensures ok { OnOk result (Appends (IsRowOfText (V.seen view.now).text (labelled_meant (V.seen view.now) part.now) text) room out.old out.new) }
    ensures more { IsErrOf result TooMany → HasLonger (IsRowOfText (V.seen view.now).text (labelled_meant (V.seen view.now) part.now) text) room }
    ensures kept { OnErr result (Begins out.old out.new) }
{
    let mut left = room;
    let mut from = 0;
    while let Some(at) = begins.first_from(from) {
        let before = out.len();
        rows_at(work, view, part, text, at, left, out)?;
        left -= (out.len() - before) as u32;
        from = at + 1;
    }
    Ok(())
}

/// The places at which rows of a part may begin: where there is none, there is no row.
pub fn row_begins<V: View>(pool: &mut Pool, view: &V, part: &Labelled) -> Result<Places, NoMemory>
    ensures all { IfOk result (λ begins. (text : ℕ) (row : SpecRow) → IsRowOfText (V.seen view.now).text (labelled_meant (V.seen view.now) part.now) text row → In begins row.span.begin) }
    ensures inside { IfOk result (λ begins. (place : ℕ) → In begins place → place < (V.seen view.now).text.tokens) }
{
    let last = view.tokens();
    let mut all = pool.none((last / 64) as usize + 1)?;
    all.put(&Below { end: last + 1 });
    let mut begins = labelled_starts(pool, view, part, all)?;
    begins.keep(&Below { end: last });
    Ok(begins)
}

/// Appends the rows of a part in a text.
fn part_rows<V: View>(
    work: &mut Work,
    view: &V,
    part: &Labelled,
    text: u32,
    room: u32,
    out: &mut Rows,
) -> Result<(), EvalError>
    ensures ok { OnOk result (Appends (IsRowOfText (V.seen view.now).text (labelled_meant (V.seen view.now) part.now) text) room out.old out.new) }
    ensures more { IsErrOf result TooMany → HasLonger (IsRowOfText (V.seen view.now).text (labelled_meant (V.seen view.now) part.now) text) room }
    ensures kept { OnErr result (Begins out.old out.new) }
{
    let _few = view.tokens();
    let begins = row_begins(&mut work.pool, view, part)?;
    let result = rows_of_begins(work, view, part, &begins, text, room, out);
    work.pool.give(begins);
    result
}

impl Automaton {
    /// Appends the rows that begin at a place of a text, ascending. `text` is the number that the rows' spans have, `room` how many rows may be appended. It goes through the
    /// part of the text in which the matches from there lie; where their labels differ, it finds all of them before it appends one.
    pub fn rows_from<V: View>(
        &self,
        work: &mut Work,
        view: &V,
        text: u32,
        begin: u32,
        room: u32,
        out: &mut Rows,
    ) -> Result<(), EvalError>
        ensures ok { (expr : QueryExpr) → IsOf expr self.now → IsSeenFor expr (V.seen view.now) → OnOk result (Appends (IsRowFrom (V.seen view.now).text expr text begin) room out.old out.new) }
        ensures more { (expr : QueryExpr) → IsOf expr self.now → IsSeenFor expr (V.seen view.now) → IsErrOf result TooMany → HasMore (IsRowFrom (V.seen view.now).text expr text begin) room }
        ensures kept { OnErr result (Begins out.old out.new) }
    {
        if begin >= view.tokens() {
            return Ok(());
        }
        automaton_matches(self, view);
        rows_at(work, view, &self.part, text, begin, room, out)
    }

    /// Appends all rows of a text, ascending. `text` is the number that their spans have, `room` how many rows may be appended.
    pub fn rows_of_text<V: View>(
        &self,
        work: &mut Work,
        view: &V,
        text: u32,
        room: u32,
        out: &mut Rows,
    ) -> Result<(), EvalError>
        ensures ok { (expr : QueryExpr) → IsOf expr self.now → IsSeenFor expr (V.seen view.now) → OnOk result (Appends (IsRowOfText (V.seen view.now).text expr text) room out.old out.new) }
        ensures more { (expr : QueryExpr) → IsOf expr self.now → IsSeenFor expr (V.seen view.now) → IsErrOf result TooMany → HasLonger (IsRowOfText (V.seen view.now).text expr text) room }
        ensures kept { OnErr result (Begins out.old out.new) }
    {
        automaton_matches(self, view);
        part_rows(work, view, &self.part, text, room, out)
    }
}
