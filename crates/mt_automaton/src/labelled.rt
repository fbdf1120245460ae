//! Parts of a query with labels.

ghost use Rattle.std.specs.Prelude.{◌≡◌, length, IfOk};
ghost use Rattle.mt_automaton.specs.Parts.{HasAllInside, width};
ghost use Rattle.mt_automaton.specs.LabelledParts.{MatchesSomehow};
ghost use Rattle.mt_automaton.specs.Ways.{Image};

use crate::part::Part;
use crate::pool::Pool;
use crate::reach::starts;
use crate::view::View;
use mt_base::NoMemory;
use mt_places::Places;

/// What a part of a query with labels matches: a part without labels, a token that passes a test, under its label; one part after another; either of two. No label
/// stands within a repetition.
#[derive(Drop)]
pub enum Labelled {
    Plain(Part),
    Token(u8, u32),
    Seq(Box<Labelled>, Box<Labelled>),
    Choice(Box<Labelled>, Box<Labelled>),
}

/// The begins of the matches that end in the set, whatever their labels.
pub fn labelled_starts<V: View>(
    pool: &mut Pool,
    view: &V,
    part: &Labelled,
    to: Places,
) -> Result<Places, NoMemory>
    requires { length to ≡ width (V.seen view.now) }
    ensures inside { HasAllInside (V.seen view.now).text }
    ensures begins { IfOk result (λ out. Image (λ end begin. MatchesSomehow (V.seen view.now) part.now begin end) to out) }
{
    let _inside = view.tokens();
    match part {
        Labelled::Plain(plain) => starts(pool, view, plain, to),
        Labelled::Token(_, test) => starts(pool, view, &Part::Token(*test), to),
        Labelled::Seq(left, right) => {
            let cut = labelled_starts(pool, view, right, to)?;
            labelled_starts(pool, view, left, cut)
        }
        Labelled::Choice(left, right) => {
            let again = pool.copy(&to)?;
            let mut all = labelled_starts(pool, view, left, to)?;
            let more = labelled_starts(pool, view, right, again)?;
            all.add(&more);
            pool.give(more);
            Ok(all)
        }
    }
}
