//! Tables of shapes.

ghost use Rattle.std.specs.Prelude.{◌≡◌, ◌+◌, ◌<◌, ◌≤◌, length, IfOk, IfErr, OnOk};
ghost use Rattle.mt_match_spec.specs.Matches as m;
ghost use Rattle.mt_match_spec.specs.Labels.{no_labels};
ghost use Rattle.mt_places.specs.Places.{In};
ghost use Rattle.mt_shapes.specs.Shapes.{IsOf, Suits};
ghost use Rattle.mt_shapes.specs.Tables.{entry as entry_at, IsAscending, StandsBetween, Fine, AddsListed, IsMatchOf, Adds, IsBetween, IsStretch, IsStretchBelow};

use crate::refused::Refused;
use crate::shape::Shape;
use crate::work::{MAX_ENTRIES, Maker};
use mt_automaton::Pool;
use mt_base::NoMemory;
use mt_places::{Below, Places};
use std::cmp::Ordering;

/// A shape, and the places where a match of this shape begins.
#[derive(Drop)]
pub struct Entry {
    pub shape: Shape,
    pub begins: Places,
}

/// Where an entry of this shape stands, or where it would.
fn find(entries: &[Entry], shape: &Shape) -> Result<usize, usize>
    requires { IsAscending entries.now }
    ensures found { IfOk result (λ at. (at < length entries.now) × ((entry_at entries.now at).shape ≡ shape.now)) }
    ensures none { IfErr result (λ at. StandsBetween entries.now shape.now at) }
{
    let mut low = 0;
    let mut high = entries.len();
    while low < high {
        let middle = low + (high - low) / 2;
        match entries[middle].shape.cmp(shape) {
            Ordering::Equal => return Ok(middle),
            Ordering::Less => low = middle + 1,
            Ordering::Greater => high = middle,
        }
    }
    Err(low)
}

/// Adds begins of a shape.
fn merge(
    pool: &mut Pool,
    last: u32,
    shape: Shape,
    begins: Places,
    out: &mut Vec<Entry>,
) -> Result<(), NoMemory>
    requires fine { Fine last out.old.items }
    requires suits { Suits last shape begins }
    requires some { (begin : _) × In begins begin }
    ensures { OnOk result (AddsListed last (λ other begin. (other ≡ shape) × In begins begin) out.old.items out.new.items) }
{
    match find(out, &shape) {
        Ok(at) => {
            out[at].begins.add(&begins);
            pool.give(begins);
            Ok(())
        }
        Err(at) => {
            out.insert(at, Entry { shape, begins })?;
            Ok(())
        }
    }
}

/// Adds the matches of a shape that begin in the set. A shape without begins is left out.
pub(crate) fn add(
    maker: &mut Maker,
    last: u32,
    shape: Shape,
    begins: Places,
    out: &mut Vec<Entry>,
) -> Result<(), Refused>
    requires fine { Fine last out.old.items }
    requires suits { Suits last shape begins }
    ensures { OnOk result (Adds last (IsOf shape begins) out.old.items out.new.items) }
{
    if begins.is_empty() {
        maker.pool.give(begins);
        return Ok(());
    }
    if out.len() >= MAX_ENTRIES {
        return Err(Refused::TooManyShapes);
    }
    merge(&mut maker.pool, last, shape, begins, out)?;
    Ok(())
}

/// Adds one begin of what is so many tokens long.
fn merge_one(
    pool: &mut Pool,
    last: u32,
    length: u32,
    begin: u32,
    out: &mut Vec<Entry>,
) -> Result<(), NoMemory>
    requires few { last < 4294967295 }
    requires fine { Fine last out.old.items }
    requires inside { begin + length ≤ last }
    ensures { OnOk result (AddsListed last (λ shape at. (shape ≡ record { length = length; labels = no_labels }) × (at ≡ begin)) out.old.items out.new.items) }
{
    let shape = Shape::plain(length);
    match find(out, &shape) {
        Ok(at) => {
            out[at].begins.insert(begin);
            Ok(())
        }
        Err(at) => {
            let mut begins = pool.none((last / 64) as usize + 1)?;
            begins.insert(begin);
            out.insert(at, Entry { shape, begins })?;
            Ok(())
        }
    }
}

/// Adds the match between two places of the text.
pub(crate) fn add_one(
    maker: &mut Maker,
    last: u32,
    begin: u32,
    end: u32,
    out: &mut Vec<Entry>,
) -> Result<(), Refused>
    requires few { last < 4294967295 }
    requires fine { Fine last out.old.items }
    requires order { begin ≤ end }
    requires inside { end ≤ last }
    ensures { OnOk result (Adds last (IsBetween begin end) out.old.items out.new.items) }
{
    merge_one(&mut maker.pool, last, end - begin, begin, out)?;
    if out.len() > MAX_ENTRIES {
        return Err(Refused::TooManyShapes);
    }
    Ok(())
}

/// Adds all matches of a table.
pub(crate) fn add_all(
    maker: &mut Maker,
    last: u32,
    entries: &[Entry],
    out: &mut Vec<Entry>,
) -> Result<(), Refused>
    requires entries { Fine last entries.now }
    requires fine { Fine last out.old.items }
    ensures { OnOk result (Adds last (IsMatchOf entries.now) out.old.items out.new.items) }
{
    for entry in entries {
        let begins = maker.pool.copy(&entry.begins)?;
        add(maker, last, entry.shape, begins, out)?;
    }
    Ok(())
}

/// Adds what is so many tokens long, whatever they are.
pub(crate) fn add_stretch(
    maker: &mut Maker,
    last: u32,
    count: u32,
    out: &mut Vec<Entry>,
) -> Result<(), Refused>
    requires few { last < 4294967295 }
    requires count { count ≤ last }
    requires fine { Fine last out.old.items }
    ensures { OnOk result (Adds last (IsStretch last count) out.old.items out.new.items) }
{
    let mut begins = maker.pool.none((last / 64) as usize + 1)?;
    begins.put(&Below {
        end: last + 1 - count,
    });
    add(maker, last, Shape::plain(count), begins, out)
}

/// Adds what is so many tokens long at least and at most, whatever they are.
pub(crate) fn add_gap(
    maker: &mut Maker,
    last: u32,
    least: u32,
    most: u32,
    out: &mut Vec<Entry>,
) -> Result<(), Refused>
    requires few { last < 4294967295 }
    requires fine { Fine last out.old.items }
    ensures { OnOk result (Adds last (IsStretchBelow last least (most + 1)) out.old.items out.new.items) }
{
    let end = most.min(last) + 1;
    if end.saturating_sub(least) > MAX_ENTRIES as u32 {
        return Err(Refused::TooManyShapes);
    }
    for count in least..end {
        add_stretch(maker, last, count, out)?;
    }
    Ok(())
}

/// Adds the matches of an entry that a match of another entry follows.
fn join_two(
    maker: &mut Maker,
    last: u32,
    first: &Entry,
    second: &Entry,
    out: &mut Vec<Entry>,
) -> Result<(), Refused>
    requires few { last < 4294967295 }
    requires first { Suits last first.now.shape first.now.begins }
    requires second { Suits last second.now.shape second.now.begins }
    requires fine { Fine last out.old.items }
    ensures { OnOk result (Adds last (m.Joined (IsOf first.now.shape first.now.begins) (IsOf second.now.shape second.now.begins)) out.old.items out.new.items) }
{
    maker.step()?;
    let mut begins = maker.pool.copy(&second.begins)?;
    begins.down(first.shape.length);
    begins.keep(&first.begins);
    if begins.is_empty() {
        maker.pool.give(begins);
        return Ok(());
    }
    add(
        maker,
        last,
        first.shape.followed_by(&second.shape),
        begins,
        out,
    )
}

/// Adds the matches of an entry that a match of a table follows.
fn join_first(
    maker: &mut Maker,
    last: u32,
    first: &Entry,
    seconds: &[Entry],
    out: &mut Vec<Entry>,
) -> Result<(), Refused>
    requires few { last < 4294967295 }
    requires first { Suits last first.now.shape first.now.begins }
    requires seconds { Fine last seconds.now }
    requires fine { Fine last out.old.items }
    ensures { OnOk result (Adds last (m.Joined (IsOf first.now.shape first.now.begins) (IsMatchOf seconds.now)) out.old.items out.new.items) }
{
    for second in seconds {
        join_two(maker, last, first, second, out)?;
    }
    Ok(())
}

/// Adds the matches of a table that a match of another table follows.
pub(crate) fn join(
    maker: &mut Maker,
    last: u32,
    firsts: &[Entry],
    seconds: &[Entry],
    out: &mut Vec<Entry>,
) -> Result<(), Refused>
    requires few { last < 4294967295 }
    requires firsts { Fine last firsts.now }
    requires seconds { Fine last seconds.now }
    requires fine { Fine last out.old.items }
    ensures { OnOk result (Adds last (m.Joined (IsMatchOf firsts.now) (IsMatchOf seconds.now)) out.old.items out.new.items) }
{
    for first in firsts {
        join_first(maker, last, first, seconds, out)?;
    }
    Ok(())
}
