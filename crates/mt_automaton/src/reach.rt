//! Where a part leads to from a set of places.

ghost use Rattle.std.specs.Prelude.{◌≡◌, ◌+◌, ◌<◌, ◌≤◌, ◌⊎◌, length, IfOk};
ghost use Rattle.mt_places.specs.Places.{In, HasJust};
ghost use Rattle.mt_automaton.specs.Parts.{PartMatches, Stands, Longer, HasAllInside, width};
ghost use Rattle.mt_automaton.specs.Ways.{Image, Along, Adds, From, AreBegins, Counts, Later, UpTo, near, far};
ghost use Rattle.mt_automaton.specs.declared.part.Part.TheVariants.{Token as OneToken, Whole as OneWhole, Gap as OneGap};

use crate::part::Part;
use crate::pool::Pool;
use crate::view::{Mark, Standing, View, Way};
use mt_base::NoMemory;
use mt_places::{Below, Places};

/// One token.
fn token<V: View>(view: &V, test: u32, way: Way, mut set: Places) -> Places
    requires { length set ≡ width (V.seen view.now) }
    ensures { Image (Along way (PartMatches (V.seen view.now) (OneToken test))) set result }
{
    let mark = Standing {
        view,
        mark: Mark::Holds(test),
    };
    match way {
        Way::On => {
            set.keep(&mark);
            set.up(1);
        }
        Way::Back => {
            set.down(1);
            set.keep(&mark);
        }
    }
    set
}

/// From where to where an instance is followed.
fn ordered(way: Way, begin: u32, end: u32) -> (u32, u32)
    ensures near { result.0 ≡ near way begin end }
    ensures far { result.1 ≡ far way begin end }
{
    match way {
        Way::On => (begin, end),
        Way::Back => (end, begin),
    }
}

/// Adds to `out` where the instance of a tag leads to that begins at a place and has a token. `near` is for the view.
fn follow_one<V: View>(
    view: &V,
    tag: u32,
    way: Way,
    at: u32,
    near: &mut usize,
    set: &Places,
    out: &mut Places,
)
    requires set { length set.now ≡ width (V.seen view.now) }
    requires out { length out.old ≡ width (V.seen view.now) }
    ensures { Adds way (From (Longer (V.seen view.now) tag) at) set.now out.old out.new }
{
    if let Some(end) = view.whole_end(tag, at, near) {
        let (here, there) = ordered(way, at, end);
        if set.contains(here) {
            out.insert(there);
        }
    }
}

/// Adds to `out` where the instances of a tag lead to that have a token. `last` is the place behind the last token, and `begins` has the begins of those that are met from the set.
fn follow<V: View>(
    view: &V,
    tag: u32,
    way: Way,
    last: u32,
    begins: &Places,
    set: &Places,
    out: &mut Places,
)
    requires last { last ≡ (V.seen view.now).text.tokens }
    requires few { last < 4294967295 }
    requires begins { AreBegins way (Longer (V.seen view.now) tag) (V.seen view.now).text.tokens set.now begins.now }
    requires set { length set.now ≡ width (V.seen view.now) }
    requires out { length out.old ≡ width (V.seen view.now) }
    ensures { Adds way (Longer (V.seen view.now) tag) set.now out.old out.new }
{
    let mut near = 0;
    let mut from = 0;
    while let Some(at) = begins.first_from(from) {
        follow_one(view, tag, way, at, &mut near, set, out);
        from = at + 1;
    }
}

/// The begins of a tag that are to be followed from the set.
fn begins_of<V: View>(
    pool: &mut Pool,
    view: &V,
    tag: u32,
    way: Way,
    set: &Places,
) -> Result<Places, NoMemory>
    requires inside { HasAllInside (V.seen view.now).text }
    requires set { length set.now ≡ width (V.seen view.now) }
    ensures { IfOk result (λ begins. AreBegins way (Longer (V.seen view.now) tag) (V.seen view.now).text.tokens set.now begins) }
{
    let mut begins = pool.copy(set)?;
    let mark = Standing {
        view,
        mark: Mark::Begins(tag),
    };
    match way {
        Way::On => begins.keep(&mark),
        Way::Back => begins.put(&mark),
    }
    Ok(begins)
}

/// A whole instance, with tokens or without.
fn whole<V: View>(
    pool: &mut Pool,
    view: &V,
    tag: u32,
    way: Way,
    set: Places,
) -> Result<Places, NoMemory>
    requires { length set ≡ width (V.seen view.now) }
    ensures { IfOk result (λ out. Image (Along way (PartMatches (V.seen view.now) (OneWhole tag))) set out) }
{
    let last = view.tokens();
    let begins = begins_of(pool, view, tag, way, &set)?;
    let mut out = pool.copy(&set)?;
    out.keep(&Standing {
        view,
        mark: Mark::Empty(tag),
    });
    follow(view, tag, way, last, &begins, &set, &mut out);
    pool.give(begins);
    pool.give(set);
    Ok(out)
}

/// The places of the set at which a mark stands.
fn marked<V: View>(view: &V, mark: Mark, mut set: Places) -> Places
    ensures width { length result ≡ length set }
    ensures places { HasJust (λ place. In set place × Stands (V.seen view.now) mark place) result }
{
    set.keep(&Standing { view, mark });
    set
}

/// What is in either of two sets.
fn joined(pool: &mut Pool, mut all: Places, more: Places) -> Places
    ensures width { length result ≡ length all }
    ensures places { HasJust (λ place. In all place ⊎ In more place) result }
{
    all.add(&more);
    pool.give(more);
    all
}

/// What no turn at all leads to: the set itself, where none is asked for.
fn unturned(pool: &mut Pool, least: u32, set: &Places) -> Result<Places, NoMemory>
    ensures width { IfOk result (λ all. length all ≡ length set.now) }
    ensures places { IfOk result (λ all. HasJust (λ place. (least ≡ 0) × In set.now place) all) }
{
    let mut all = pool.copy(set)?;
    if least > 0 {
        all.clear();
    }
    Ok(all)
}

/// Counts a turn, where it is not one too few: keeps of it what is new, and adds that to all that is counted.
fn count(least: u32, turns: u32, turn: &mut Places, all: &mut Places)
    requires { length turn.old ≡ length all.old }
    ensures few { turns < least → (turn.new ≡ turn.old) × (all.new ≡ all.old) }
    ensures enough { least ≤ turns → Counts turn.old all.old turn.new all.new }
{
    if least <= turns {
        turn.remove(all);
        all.add(turn);
    }
}

/// Moves each place by so many, along the way.
fn shift(set: &mut Places, way: Way, by: u32)
    ensures { Image (Along way (Later by)) set.old set.new }
{
    match way {
        Way::On => set.up(by),
        Way::Back => set.down(by),
    }
}

/// How far a set is moved next that is spread already, to be spread by so many more: at most one place further than it is spread, so that none is left out.
fn stride(spread: u32, more: u32) -> u32
    requires { 0 < more }
    ensures some { 0 < result }
    ensures low { result ≤ spread + 1 }
    ensures high { result ≤ more }
{
    if spread < more { spread + 1 } else { more }
}

/// Where up to so many steps of one place lead to. What is spread doubles with each turn.
fn spread(pool: &mut Pool, way: Way, by: u32, mut set: Places) -> Result<Places, NoMemory>
    ensures { IfOk result (λ out. Image (Along way (UpTo by)) set out) }
{
    let mut done = 0;
    while done < by {
        let step = stride(done, by - done);
        let mut more = pool.copy(&set)?;
        shift(&mut more, way, step);
        set = joined(pool, set, more);
        done += step;
    }
    Ok(set)
}

/// So many tokens at least and at most, whatever they are.
fn gap<V: View>(
    pool: &mut Pool,
    view: &V,
    least: u32,
    most: u32,
    way: Way,
    mut set: Places,
) -> Result<Places, NoMemory>
    requires { length set ≡ width (V.seen view.now) }
    ensures { IfOk result (λ out. Image (Along way (PartMatches (V.seen view.now) (OneGap least most))) set out) }
{
    let last = view.tokens();
    let all = unturned(pool, least, &set)?;
    if most < least {
        pool.give(set);
        return Ok(all);
    }
    let inside = Below { end: last + 1 };
    set.keep(&inside);
    shift(&mut set, way, least);
    let mut reached = spread(pool, way, most - least, set)?;
    reached.keep(&inside);
    Ok(joined(pool, all, reached))
}

/// Where a part leads to: on from begins to ends, or back from ends to begins. A repetition ends where a turn leads to no new place.
fn reach<V: View>(
    pool: &mut Pool,
    view: &V,
    part: &Part,
    way: Way,
    set: Places,
) -> Result<Places, NoMemory>
    requires inside { HasAllInside (V.seen view.now).text }
    requires set { length set ≡ width (V.seen view.now) }
    ensures { IfOk result (λ out. Image (Along way (PartMatches (V.seen view.now) part.now)) set out) }
{
    match part {
        Part::Token(test) => Ok(token(view, *test, way, set)),
        Part::Begin(tag) => Ok(marked(view, Mark::Begins(*tag), set)),
        Part::End(tag) => Ok(marked(view, Mark::Ends(*tag), set)),
        Part::Whole(tag) => whole(pool, view, *tag, way, set),
        Part::Gap(least, most) => gap(pool, view, *least, *most, way, set),
        Part::Seq(left, right) => match way {
            Way::On => {
                let cut = reach(pool, view, left, way, set)?;
                reach(pool, view, right, way, cut)
            }
            Way::Back => {
                let cut = reach(pool, view, right, way, set)?;
                reach(pool, view, left, way, cut)
            }
        },
        Part::Choice(left, right) => {
            let again = pool.copy(&set)?;
            let all = reach(pool, view, left, way, set)?;
            let more = reach(pool, view, right, way, again)?;
            Ok(joined(pool, all, more))
        }
        Part::Repeat(inner, least, most) => {
            let mut all = unturned(pool, *least, &set)?;
            let mut turn = set;
            for k in 0..*most {
                if turn.is_empty() {
                    pool.give(turn);
                    return Ok(all);
                }
                turn = reach(pool, view, inner, way, turn)?;
                count(*least, k + 1, &mut turn, &mut all);
            }
            pool.give(turn);
            Ok(all)
        }
    }
}

/// The ends of the matches of a part that begin in the set.
pub fn ends<V: View>(
    pool: &mut Pool,
    view: &V,
    part: &Part,
    from: Places,
) -> Result<Places, NoMemory>
    requires { length from ≡ width (V.seen view.now) }
    ensures { IfOk result (λ out. Image (PartMatches (V.seen view.now) part.now) from out) }
{
    let _inside = view.tokens();
    reach(pool, view, part, Way::On, from)
}

/// The begins of the matches of a part that end in the set.
pub fn starts<V: View>(
    pool: &mut Pool,
    view: &V,
    part: &Part,
    to: Places,
) -> Result<Places, NoMemory>
    requires { length to ≡ width (V.seen view.now) }
    ensures { IfOk result (λ out. Image (λ end begin. PartMatches (V.seen view.now) part.now begin end) to out) }
{
    let _inside = view.tokens();
    reach(pool, view, part, Way::Back, to)
}
