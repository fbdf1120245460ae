//! Turns of a table, one after another.

ghost use Rattle.std.specs.Prelude.{◌≡◌, ◌+◌, ◌<◌, ◌≤◌, [], OnOk, IfOk};
ghost use Rattle.mt_match_spec.specs.Matches as m;
ghost use Rattle.mt_shapes.specs.Tables.{Fine, IsMatchOf, Adds, IsStretch, IsTurned};

use crate::refused::Refused;
use crate::table::{Entry, add_all, add_stretch, join};
use crate::work::Maker;

/// A turn of a table before those that are there.
fn next_turn(
    maker: &mut Maker,
    last: u32,
    inner: &[Entry],
    turn: Vec<Entry>,
) -> Result<Vec<Entry>, Refused>
    requires few { last < 4294967295 }
    requires inner { Fine last inner.now }
    requires turn { Fine last turn.items }
    ensures { IfOk result (λ next. Adds last (m.Joined (IsMatchOf inner.now) (IsMatchOf turn.items)) [] next.items) }
{
    let mut next = maker.table();
    join(maker, last, inner, &turn, &mut next)?;
    maker.give(turn);
    Ok(next)
}

/// No turn at all: every place of the text.
fn no_turn(maker: &mut Maker, last: u32) -> Result<Vec<Entry>, Refused>
    requires { last < 4294967295 }
    ensures { IfOk result (λ none. Adds last (IsStretch last 0) [] none.items) }
{
    let mut none = maker.table();
    add_stretch(maker, last, 0, &mut none)?;
    Ok(none)
}

/// Adds the matches of a table of so many turns, where they are enough.
fn count(
    maker: &mut Maker,
    last: u32,
    least: u32,
    turns: u32,
    entries: &[Entry],
    out: &mut Vec<Entry>,
) -> Result<(), Refused>
    requires entries { Fine last entries.now }
    requires fine { Fine last out.old.items }
    ensures enough { least ≤ turns → OnOk result (Adds last (IsMatchOf entries.now) out.old.items out.new.items) }
    ensures few { turns < least → out.new.items ≡ out.old.items }
{
    if least <= turns {
        add_all(maker, last, entries, out)
    } else {
        Ok(())
    }
}

/// Adds what a table matches in so many turns at least and at most. It ends where a turn has no match left.
pub(crate) fn add_turns(
    maker: &mut Maker,
    last: u32,
    inner: &[Entry],
    least: u32,
    most: u32,
    out: &mut Vec<Entry>,
) -> Result<(), Refused>
    requires few { last < 4294967295 }
    requires inner { Fine last inner.now }
    requires fine { Fine last out.old.items }
    ensures { OnOk result (Adds last (IsTurned last (IsMatchOf inner.now) least most) out.old.items out.new.items) }
{
    let mut turn = no_turn(maker, last)?;
    count(maker, last, least, 0, &turn, out)?;
    for k in 0..most {
        if turn.is_empty() {
            return Ok(());
        }
        turn = next_turn(maker, last, inner, turn)?;
        count(maker, last, least, k + 1, &turn, out)?;
    }
    maker.give(turn);
    Ok(())
}
