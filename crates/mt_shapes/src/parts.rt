//! The shapes of parts of queries.

ghost use Rattle.std.specs.Prelude.{◌≡◌, ◌+◌, ◌<◌, ◌≤◌, [], OnOk, IfOk, length};
ghost use Rattle.std.specs.List.{AllByRecursion};
ghost use Rattle.mt_text_spec.specs.Queries.{Any};
ghost use Rattle.mt_match_spec.specs.Matches as m;
ghost use Rattle.mt_automaton.specs.Parts.{Stands, Longer, HasAllInside, meant};
ghost use Rattle.mt_automaton.specs.LabelledParts.{labelled_meant};
ghost use Rattle.mt_shapes.specs.Shapes.{IsWithin};
ghost use Rattle.mt_shapes.specs.Tables.{Fine, Adds, Inside, IsMarked, IsLongerAt, IsLongerBelow};
ghost use Rattle.mt_automaton.specs.declared.part.Part.TheVariants.{Whole as OneWhole};
ghost use Rattle.mt_places.specs.Places.{In};

use crate::refused::Refused;
use crate::shape::Shape;
use crate::table::{Entry, add, add_gap, add_one, join};
use crate::turns::add_turns;
use crate::work::Maker;
use mt_automaton::{Labelled, Mark, Part, View};
use mt_places::{Marks, Places};

/// Where a mark stands in a text.
#[derive(Clone, Copy, Drop)]
pub(crate) struct Standing<'a, V: View> {
    pub view: &'a V,
    pub mark: Mark,
}

impl<'a, V: View> Marks for Standing<'a, V> {
    ghost use Rattle.mt_automaton.specs.Parts.{Stands};

    ghost stands = { λ s. Stands (V.seen s.view.now) s.mark };

    fn word(&self, at: usize) -> u64 {
        self.view.word(self.mark, at)
    }
}

/// Adds matches of a shape, where a mark stands at their begin.
fn add_marked<V: View>(
    maker: &mut Maker,
    view: &V,
    last: u32,
    mark: Mark,
    shape: Shape,
    out: &mut Vec<Entry>,
) -> Result<(), Refused>
    requires few { last < 4294967295 }
    requires last { last ≡ (V.seen view.now).text.tokens }
    requires inside { (begin : _) → Stands (V.seen view.now) mark begin → begin + shape.length ≤ last }
    requires nine { length shape.labels ≡ 9 }
    requires labels { AllByRecursion (IsWithin shape.length) shape.labels }
    requires fine { Fine last out.old.items }
    ensures { OnOk result (Adds last (IsMarked (V.seen view.now) mark shape) out.old.items out.new.items) }
{
    let mut begins = maker.pool.none((last / 64) as usize + 1)?;
    begins.put(&Standing { view, mark });
    add(maker, last, shape, begins, out)
}

/// Adds the instance of a tag that begins at a place and has a token. `near` is for the view.
fn add_longer_at<V: View>(
    maker: &mut Maker,
    view: &V,
    last: u32,
    tag: u32,
    at: u32,
    near: &mut usize,
    out: &mut Vec<Entry>,
) -> Result<(), Refused>
    requires few { last < 4294967295 }
    requires last { last ≡ (V.seen view.now).text.tokens }
    requires fine { Fine last out.old.items }
    ensures { OnOk result (Adds last (IsLongerAt (V.seen view.now) tag at) out.old.items out.new.items) }
{
    match view.whole_end(tag, at, near) {
        Some(end) => add_one(maker, last, at, end, out),
        None => Ok(()),
    }
}

/// Adds the instances of a tag that have a token. `begins` has the begins of all of them.
fn add_longer<V: View>(
    maker: &mut Maker,
    view: &V,
    last: u32,
    tag: u32,
    begins: &Places,
    out: &mut Vec<Entry>,
) -> Result<(), Refused>
    requires few { last < 4294967295 }
    requires last { last ≡ (V.seen view.now).text.tokens }
    requires all { (begin end : _) → Longer (V.seen view.now) tag begin end → In begins.now begin }
    requires inside { (begin : _) → In begins.now begin → begin ≤ last }
    requires fine { Fine last out.old.items }
    ensures { OnOk result (Adds last (IsLongerBelow (V.seen view.now) tag (last + 1)) out.old.items out.new.items) }
{
    let mut near = 0;
    let mut from = 0;
    while let Some(at) = begins.first_from(from) {
        add_longer_at(maker, view, last, tag, at, &mut near, out)?;
        from = at + 1;
    }
    Ok(())
}

/// Adds the whole instances of a tag, with tokens or without.
fn add_whole<V: View>(
    maker: &mut Maker,
    view: &V,
    last: u32,
    tag: u32,
    out: &mut Vec<Entry>,
) -> Result<(), Refused>
    requires few { last < 4294967295 }
    requires last { last ≡ (V.seen view.now).text.tokens }
    requires inside { HasAllInside (V.seen view.now).text }
    requires fine { Fine last out.old.items }
    ensures { OnOk result (Adds last (Inside last (m.Matches (V.seen view.now).text (meant (V.seen view.now) (OneWhole tag)))) out.old.items out.new.items) }
{
    add_marked(maker, view, last, Mark::Empty(tag), Shape::plain(0), out)?;
    let mut begins = maker.pool.none((last / 64) as usize + 1)?;
    begins.put(&Standing {
        view,
        mark: Mark::Begins(tag),
    });
    add_longer(maker, view, last, tag, &begins, out)?;
    maker.pool.give(begins);
    Ok(())
}

/// Adds the matches of a part without labels in a text.
fn add_part<V: View>(
    maker: &mut Maker,
    view: &V,
    last: u32,
    part: &Part,
    out: &mut Vec<Entry>,
) -> Result<(), Refused>
    requires few { last < 4294967295 }
    requires last { last ≡ (V.seen view.now).text.tokens }
    requires any { (place : _) → place < last → (V.seen view.now).text.holds Any place }
    requires inside { HasAllInside (V.seen view.now).text }
    requires fine { Fine last out.old.items }
    ensures { OnOk result (Adds last (Inside last (m.Matches (V.seen view.now).text (meant (V.seen view.now) part.now))) out.old.items out.new.items) }
{
    match part {
        Part::Token(test) => {
            add_marked(maker, view, last, Mark::Holds(*test), Shape::plain(1), out)
        }
        Part::Begin(tag) => {
            add_marked(maker, view, last, Mark::Begins(*tag), Shape::plain(0), out)
        }
        Part::End(tag) => add_marked(maker, view, last, Mark::Ends(*tag), Shape::plain(0), out),
        Part::Whole(tag) => add_whole(maker, view, last, *tag, out),
        Part::Gap(least, most) => add_gap(maker, last, *least, *most, out),
        Part::Seq(left, right) => {
            let mut firsts = maker.table();
            add_part(maker, view, last, left, &mut firsts)?;
            let mut seconds = maker.table();
            add_part(maker, view, last, right, &mut seconds)?;
            join(maker, last, &firsts, &seconds, out)?;
            maker.give(firsts);
            maker.give(seconds);
            Ok(())
        }
        Part::Choice(left, right) => {
            add_part(maker, view, last, left, out)?;
            add_part(maker, view, last, right, out)
        }
        Part::Repeat(inner, least, most) => {
            let mut turn = maker.table();
            add_part(maker, view, last, inner, &mut turn)?;
            add_turns(maker, last, &turn, *least, *most, out)?;
            maker.give(turn);
            Ok(())
        }
    }
}

/// Adds the matches of a part in a text.
pub(crate) fn add_labelled<V: View>(
    maker: &mut Maker,
    view: &V,
    last: u32,
    part: &Labelled,
    out: &mut Vec<Entry>,
) -> Result<(), Refused>
    requires few { last < 4294967295 }
    requires last { last ≡ (V.seen view.now).text.tokens }
    requires any { (place : _) → place < last → (V.seen view.now).text.holds Any place }
    requires inside { HasAllInside (V.seen view.now).text }
    requires fine { Fine last out.old.items }
    ensures { OnOk result (Adds last (Inside last (m.Matches (V.seen view.now).text (labelled_meant (V.seen view.now) part.now))) out.old.items out.new.items) }
{
    match part {
        Labelled::Plain(plain) => add_part(maker, view, last, plain, out),
        Labelled::Token(label, test) => add_marked(
            maker,
            view,
            last,
            Mark::Holds(*test),
            Shape::token(*label),
            out,
        ),
        Labelled::Seq(left, right) => {
            let mut firsts = maker.table();
            add_labelled(maker, view, last, left, &mut firsts)?;
            let mut seconds = maker.table();
            add_labelled(maker, view, last, right, &mut seconds)?;
            join(maker, last, &firsts, &seconds, out)?;
            maker.give(firsts);
            maker.give(seconds);
            Ok(())
        }
        Labelled::Choice(left, right) => {
            add_labelled(maker, view, last, left, out)?;
            add_labelled(maker, view, last, right, out)
        }
    }
}
