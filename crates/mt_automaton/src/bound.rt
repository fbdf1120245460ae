//! How far a match may lead.

ghost use Rattle.std.specs.Prelude.{◌≡◌, ◌+◌, ◌<◌, ◌≤◌, min, max, IfSome};
ghost use Rattle.mt_automaton.specs.Parts.{PartMatches, HasAllInside};
ghost use Rattle.mt_automaton.specs.LabelledParts.{MatchesSomehow};
ghost use Rattle.mt_automaton.specs.Bounds.{EndsBy, HasAtMost};
ghost use Rattle.mt_automaton.specs.declared.part.Part.TheVariants.{Whole as OneWhole};

use crate::labelled::Labelled;
use crate::part::Part;
use crate::view::View;

/// A place so many further, where the text has it, else its last.
fn ahead(at: u32, by: u32, last: u32) -> u32
    requires { at ≤ last }
    ensures { result ≡ min (at + by) last }
{
    if by < last - at { at + by } else { last }
}

/// The greater of two numbers.
fn greater(one: u32, other: u32) -> u32
    ensures { result ≡ max one other }
{
    if one < other { other } else { one }
}

/// The most tokens that a match of a part has in the text, where no whole instance stands in the part.
fn longest<V: View>(view: &V, part: &Part) -> Option<u32>
    requires few { (V.seen view.now).text.tokens < 4294967295 }
    requires inside { HasAllInside (V.seen view.now).text }
    ensures { IfSome result (λ most. HasAtMost (PartMatches (V.seen view.now) part.now) (V.seen view.now).text.tokens most) }
{
    match part {
        Part::Token(_) => Some(1),
        Part::Begin(_) => Some(0),
        Part::End(_) => Some(0),
        Part::Whole(_) => None,
        Part::Gap(_, most) => Some(*most),
        Part::Seq(left, right) => {
            let first = longest(view, left)?;
            let second = longest(view, right)?;
            Some(first.saturating_add(second))
        }
        Part::Choice(left, right) => {
            let one = longest(view, left)?;
            let other = longest(view, right)?;
            Some(greater(one, other))
        }
        Part::Repeat(inner, _, most) => {
            let turn = longest(view, inner)?;
            Some(turn.saturating_mul(*most))
        }
    }
}

/// The last end of the whole instances of a tag that begin at a place or before, but no place before that one.
fn whole_end<V: View>(view: &V, tag: u32, at: u32, last: u32) -> u32
    requires last { last ≡ (V.seen view.now).text.tokens }
    requires at { at ≤ last }
    ensures { EndsBy (PartMatches (V.seen view.now) (OneWhole tag)) (V.seen view.now).text.tokens at result }
{
    let far = greater(at, view.last_end(tag, at));
    if far < last { far } else { last }
}

/// Behind which place no match of a part ends that begins at a place or before.
fn part_end<V: View>(view: &V, part: &Part, at: u32, last: u32) -> u32
    requires last { last ≡ (V.seen view.now).text.tokens }
    requires few { last < 4294967295 }
    requires inside { HasAllInside (V.seen view.now).text }
    requires at { at ≤ last }
    ensures { EndsBy (PartMatches (V.seen view.now) part.now) (V.seen view.now).text.tokens at result }
{
    match part {
        Part::Token(_) => ahead(at, 1, last),
        Part::Begin(_) => at,
        Part::End(_) => at,
        Part::Whole(tag) => whole_end(view, *tag, at, last),
        Part::Gap(_, most) => ahead(at, *most, last),
        Part::Seq(left, right) => {
            let cut = part_end(view, left, at, last);
            part_end(view, right, cut, last)
        }
        Part::Choice(left, right) => {
            let one = part_end(view, left, at, last);
            let other = part_end(view, right, at, last);
            greater(one, other)
        }
        Part::Repeat(inner, _, most) => {
            if let Some(turn) = longest(view, inner) {
                return ahead(at, turn.saturating_mul(*most), last);
            }
            let mut far = at;
            for _ in 0..*most {
                let next = part_end(view, inner, far, last);
                if next == far {
                    return far;
                }
                far = next;
            }
            far
        }
    }
}

/// Behind which place no match of a part with labels ends that begins at a place or before.
fn labelled_end<V: View>(view: &V, part: &Labelled, at: u32, last: u32) -> u32
    requires last { last ≡ (V.seen view.now).text.tokens }
    requires few { last < 4294967295 }
    requires inside { HasAllInside (V.seen view.now).text }
    requires at { at ≤ last }
    ensures { EndsBy (MatchesSomehow (V.seen view.now) part.now) (V.seen view.now).text.tokens at result }
{
    match part {
        Labelled::Plain(plain) => part_end(view, plain, at, last),
        Labelled::Token(_, _) => ahead(at, 1, last),
        Labelled::Seq(left, right) => {
            let cut = labelled_end(view, left, at, last);
            labelled_end(view, right, cut, last)
        }
        Labelled::Choice(left, right) => {
            let one = labelled_end(view, left, at, last);
            let other = labelled_end(view, right, at, last);
            greater(one, other)
        }
    }
}

/// How far the matches of a part lead that begin at a place or before, in the text. No match need end there.
pub fn furthest<V: View>(view: &V, part: &Labelled, at: u32) -> u32
    requires { at ≤ (V.seen view.now).text.tokens }
    ensures { EndsBy (MatchesSomehow (V.seen view.now) part.now) (V.seen view.now).text.tokens at result }
{
    let last = view.tokens();
    labelled_end(view, part, at, last)
}

/// The same of a part without labels.
pub fn furthest_plain<V: View>(view: &V, part: &Part, at: u32) -> u32
    requires { at ≤ (V.seen view.now).text.tokens }
    ensures { EndsBy (PartMatches (V.seen view.now) part.now) (V.seen view.now).text.tokens at result }
{
    let last = view.tokens();
    part_end(view, part, at, last)
}
