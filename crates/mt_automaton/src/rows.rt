//! The rows of a part that begin at one place.

ghost use Rattle.std.specs.Prelude.{◌≡◌, ℕ, ◌+◌, ◌/◌, ◌<◌, ◌≤◌, ◌++◌, [], length, IfOk, OnOk, OnErr, IsErrOf};
ghost use Rattle.mt_places.specs.Places.{In, HasJust};
ghost use Rattle.mt_rows.specs.Appends.{Appends, HasMore, Begins};
ghost use Rattle.mt_rows.specs.declared.error.EvalError.TheVariants.{TooManyRows as TooMany};
ghost use Rattle.mt_automaton.specs.Parts.{meant};
ghost use Rattle.mt_automaton.specs.LabelledParts.{labelled_meant};
ghost use Rattle.mt_automaton.specs.Groups.{IsRowOf, IsAscending};
ghost use Rattle.mt_automaton.specs.RowsFrom.{IsRowFrom, EndsIn, IsGroupRow, Gathers, HasAll, AreEnds, AreGroups};

use crate::groups::{Group, UNSET, labelled_rows};
use crate::labelled::Labelled;
use crate::part::Part;
use crate::pool::Pool;
use crate::reach::ends;
use crate::view::View;
use mt_base::{NoMemory, Row, Span};
use mt_places::{Below, Places};
use mt_rows::{EvalError, Rows};
use std::alloc::Global;

/// What the rows of expressions are found in, used again from call to call.
#[derive(Drop)]
pub struct Work {
    pub(crate) pool: Pool,
    pub(crate) rows: Vec<Row>,
    pub(crate) found: Rows,
}

impl Work {
    /// It takes no memory until it is used.
    pub fn new(alloc: Global) -> Self {
        Work {
            pool: Pool::new(alloc),
            rows: Vec::new(alloc),
            found: Rows::new(alloc),
        }
    }
}

/// Appends a row for each end of a set that lies behind the begin.
fn push_ends(
    set: &Places,
    labels: [u32; 9],
    text: u32,
    begin: u32,
    room: u32,
    out: &mut Rows,
) -> Result<(), EvalError>
    requires begin { begin < 4294967295 }
    requires few { (f : ℕ) → In set.now f → f < 4294967295 }
    ensures ok { OnOk result (Appends (EndsIn set.now labels text begin) room out.old out.new) }
    ensures more { IsErrOf result TooMany → HasMore (EndsIn set.now labels text begin) room }
    ensures kept { OnErr result (Begins out.old out.new) }
{
    let mut left = room;
    let mut from = begin + 1;
    while let Some(at) = set.first_from(from) {
        if left == 0 {
            return Err(EvalError::TooManyRows);
        }
        out.push(Row::new(Span::new(text, begin, at), labels))?;
        left -= 1;
        from = at + 1;
    }
    Ok(())
}

/// Adds a row for each end of a group that lies behind the begin.
fn gather_group(group: &Group, text: u32, begin: u32, rows: &mut Vec<Row>) -> Result<(), NoMemory>
    requires begin { begin < 4294967295 }
    requires few { (f : ℕ) → In group.now.ends f → f < 4294967295 }
    ensures { OnOk result (Gathers (EndsIn group.now.ends group.now.labels text begin) rows.old.items rows.new.items) }
{
    let mut from = begin + 1;
    while let Some(at) = group.ends.first_from(from) {
        rows.push(Row::new(Span::new(text, begin, at), group.labels))?;
        from = at + 1;
    }
    Ok(())
}

/// Makes `rows` those of all groups.
fn gather(groups: &[Group], text: u32, begin: u32, rows: &mut Vec<Row>) -> Result<(), NoMemory>
    requires begin { begin < 4294967295 }
    requires few { (labels : _) (f : ℕ) → IsRowOf groups.now labels f → f < 4294967295 }
    requires ascending { IsAscending groups.now }
    ensures { OnOk result (HasAll (IsGroupRow groups.now text begin) rows.new.items) }
{
    rows.clear();
    for group in groups {
        gather_group(group, text, begin, rows)?;
    }
    Ok(())
}

/// Appends all rows of a list.
fn push_all(rows: &[Row], out: &mut Rows) -> Result<(), NoMemory>
    ensures ok { OnOk result (out.new ≡ out.old ++ rows.now) }
    ensures kept { OnErr result (Begins out.old out.new) }
{
    for row in rows {
        out.push(*row)?;
    }
    Ok(())
}

/// The set of one place of a text of so many tokens.
fn one_place(pool: &mut Pool, last: u32, place: u32) -> Result<Places, NoMemory>
    requires inside { place ≤ last }
    requires few { last < 4294967295 }
    ensures width { IfOk result (λ set. length set ≡ last / 64 + 1) }
    ensures places { IfOk result (λ set. HasJust (λ k. k ≡ place) set) }
{
    let mut set = pool.none((last / 64) as usize + 1)?;
    set.insert(place);
    Ok(set)
}

/// The places behind one, up to the last of the text.
fn places_behind(pool: &mut Pool, last: u32, place: u32) -> Result<Places, NoMemory>
    requires few { last < 4294967295 }
    requires inside { place ≤ last }
    ensures width { IfOk result (λ set. length set ≡ last / 64 + 1) }
    ensures places { IfOk result (λ set. HasJust (λ k. (k < last + 1) × ¬ (k < place + 1)) set) }
{
    let mut set = pool.none((last / 64) as usize + 1)?;
    set.put(&Below { end: last + 1 });
    set.remove(&Below { end: place + 1 });
    Ok(set)
}

/// The ends of the matches of a part without labels that begin at a place.
fn plain_ends<V: View>(
    pool: &mut Pool,
    view: &V,
    part: &Part,
    begin: u32,
) -> Result<Places, NoMemory>
    requires inside { begin < (V.seen view.now).text.tokens }
    ensures { IfOk result (AreEnds (V.seen view.now) part.now begin) }
{
    let last = view.tokens();
    let from = one_place(pool, last, begin)?;
    let mut set = ends(pool, view, part, from)?;
    set.keep(&Below { end: last + 1 });
    Ok(set)
}

/// The rows of a part without labels that begin at a place.
fn plain_rows<V: View>(
    pool: &mut Pool,
    view: &V,
    part: &Part,
    text: u32,
    begin: u32,
    room: u32,
    out: &mut Rows,
) -> Result<(), EvalError>
    requires inside { begin < (V.seen view.now).text.tokens }
    requires few { (V.seen view.now).text.tokens < 4294967295 }
    ensures ok { OnOk result (Appends (IsRowFrom (V.seen view.now).text (meant (V.seen view.now) part.now) text begin) room out.old out.new) }
    ensures more { IsErrOf result TooMany → HasMore (IsRowFrom (V.seen view.now).text (meant (V.seen view.now) part.now) text begin) room }
    ensures kept { OnErr result (Begins out.old out.new) }
{
    let set = plain_ends(pool, view, part, begin)?;
    let result = push_ends(&set, [UNSET; 9], text, begin, room, out);
    pool.give(set);
    result
}

/// The groups of the matches of a part that begin at a place and have a token.
fn groups_from<V: View>(
    pool: &mut Pool,
    view: &V,
    part: &Labelled,
    begin: u32,
    groups: &mut Vec<Group>,
) -> Result<(), NoMemory>
    requires inside { begin < (V.seen view.now).text.tokens }
    requires none { groups.old.items ≡ [] }
    ensures { OnOk result (AreGroups (V.seen view.now) part.now begin groups.new.items) }
{
    let last = view.tokens();
    let from = one_place(pool, last, begin)?;
    let allowed = places_behind(pool, last, begin)?;
    labelled_rows(pool, view, part, &from, &allowed, [UNSET; 9], groups)?;
    pool.give(from);
    pool.give(allowed);
    Ok(())
}

/// Appends the rows of groups, ascending. They are sorted where there is more than one group.
fn rows_of_groups(
    rows: &mut Vec<Row>,
    groups: &[Group],
    text: u32,
    begin: u32,
    room: u32,
    out: &mut Rows,
) -> Result<(), EvalError>
    requires begin { begin < 4294967295 }
    requires few { (labels : _) (f : ℕ) → IsRowOf groups.now labels f → f < 4294967295 }
    requires ascending { IsAscending groups.now }
    ensures ok { OnOk result (Appends (IsGroupRow groups.now text begin) room out.old out.new) }
    ensures more { IsErrOf result TooMany → HasMore (IsGroupRow groups.now text begin) room }
    ensures kept { OnErr result (Begins out.old out.new) }
{
    if groups.len() == 1 {
        let group = &groups[0];
        return push_ends(&group.ends, group.labels, text, begin, room, out);
    }
    gather(groups, text, begin, rows)?;
    rows.sort_unstable();
    if rows.len() > room as usize {
        return Err(EvalError::TooManyRows);
    }
    push_all(rows, out)?;
    Ok(())
}

/// The rows of a part with labels that begin at a place.
fn labelled_rows_from<V: View>(
    pool: &mut Pool,
    rows: &mut Vec<Row>,
    view: &V,
    part: &Labelled,
    text: u32,
    begin: u32,
    room: u32,
    out: &mut Rows,
) -> Result<(), EvalError>
    requires inside { begin < (V.seen view.now).text.tokens }
    requires few { (V.seen view.now).text.tokens < 4294967295 }
    ensures ok { OnOk result (Appends (IsRowFrom (V.seen view.now).text (labelled_meant (V.seen view.now) part.now) text begin) room out.old out.new) }
    ensures more { IsErrOf result TooMany → HasMore (IsRowFrom (V.seen view.now).text (labelled_meant (V.seen view.now) part.now) text begin) room }
    ensures kept { OnErr result (Begins out.old out.new) }
{
    let mut groups = pool.groups();
    groups_from(pool, view, part, begin, &mut groups)?;
    let result = rows_of_groups(rows, &groups, text, begin, room, out);
    pool.give_groups(groups);
    result
}

/// Appends the rows of a part that begin at a place of a text, ascending. `text` is the number that the rows' spans have.
pub(crate) fn rows_of_part<V: View>(
    pool: &mut Pool,
    rows: &mut Vec<Row>,
    view: &V,
    part: &Labelled,
    text: u32,
    begin: u32,
    room: u32,
    out: &mut Rows,
) -> Result<(), EvalError>
    ensures ok { OnOk result (Appends (IsRowFrom (V.seen view.now).text (labelled_meant (V.seen view.now) part.now) text begin) room out.old out.new) }
    ensures more { IsErrOf result TooMany → HasMore (IsRowFrom (V.seen view.now).text (labelled_meant (V.seen view.now) part.now) text begin) room }
    ensures kept { OnErr result (Begins out.old out.new) }
{
    if begin >= view.tokens() {
        return Ok(());
    }
    match part {
        Labelled::Plain(plain) => plain_rows(pool, view, plain, text, begin, room, out),
        _ => labelled_rows_from(pool, rows, view, part, text, begin, room, out),
    }
}
