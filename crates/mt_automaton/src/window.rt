//! A part of a text, seen as a text.

ghost use Rattle.std.specs.Prelude.{◌≡◌, ◌+◌, ◌*◌, ◌/◌, ◌<◌, ◌≤◌};
ghost use Rattle.mt_automaton.specs.LabelledParts.{MatchesSomehow};
ghost use Rattle.mt_automaton.specs.Bounds.{EndsBy};
ghost use Rattle.mt_automaton.specs.Windows.{window, end_of, HasMatchesFrom};

use crate::bound::furthest;
use crate::labelled::Labelled;
use crate::view::{Mark, View};
use mt_places::{Below, Marks};

/// The `tokens` tokens of a text from the token 64 * `first` on. Its places are counted from there.
#[derive(Drop)]
pub struct Window<'a, V: View> {
    view: &'a V,
    first: usize,
    tokens: u32,
    ghost inside: { 64 * first + tokens ≤ (V.seen view.now).text.tokens },
    ghost few: { 64 * first + tokens < 4294967295 },
}

impl<'a, V: View> Window<'a, V> {
    /// The part of so many tokens.
    pub fn new(view: &'a V, first: usize, tokens: u32) -> Self
        requires { 64 * first + tokens ≤ (V.seen view.now).text.tokens }
        ensures view { result.view.now ≡ view.now }
        ensures first { result.first ≡ first }
        ensures tokens { result.tokens ≡ tokens }
        ensures matches { HasMatchesFrom (V.seen view.now).text (64 * first) (window (V.seen view.now) (64 * first) tokens).text }
    {
        let _inside = view.tokens();
        Window {
            view,
            first,
            tokens,
        }
    }

    /// The part in which all matches lie that begin at a place: from the place's word to the furthest of their ends.
    pub fn around(view: &'a V, part: &Labelled, at: u32) -> Self
        requires { at ≤ (V.seen view.now).text.tokens }
        ensures view { result.view.now ≡ view.now }
        ensures first { result.first ≡ at / 64 }
        ensures all { EndsBy (MatchesSomehow (V.seen view.now) part.now) (V.seen view.now).text.tokens at (64 * (at / 64) + result.tokens) }
        ensures matches { HasMatchesFrom (V.seen view.now).text (64 * (at / 64)) (window (V.seen view.now) (64 * (at / 64)) result.tokens).text }
    {
        let first = at / 64;
        let end = furthest(view, part, at);
        Window::new(view, first as usize, end - 64 * first)
    }

    /// The place of the text where it begins.
    pub fn base(&self) -> u32
        ensures { result ≡ 64 * self.now.first }
    {
        64 * self.first as u32
    }
}

/// The places at which a mark may stand in so many tokens are those below this number.
fn places_of(mark: Mark, tokens: u32) -> u32
    requires { tokens < 4294967295 }
    ensures { result ≡ end_of mark tokens }
{
    match mark {
        Mark::Holds(_) => tokens,
        _ => tokens + 1,
    }
}

impl<'a, V: View> View for Window<'a, V> {
    ghost use Rattle.std.specs.Prelude.{◌*◌};
    ghost use Rattle.mt_automaton.specs.Windows.{window};

    ghost seen = { λ w. window (V.seen w.view.now) (64 * w.first) w.tokens };

    fn tokens(&self) -> u32 {
        let _inside = self.view.tokens();
        self.tokens
    }

    fn word(&self, mark: Mark, at: usize) -> u64 {
        if at > (self.tokens / 64) as usize {
            return 0;
        }
        let end = places_of(mark, self.tokens);
        self.view.word(mark, self.first + at) & Below { end }.word(at)
    }

    fn whole_end(&self, tag: u32, at: u32, near: &mut usize) -> Option<u32> {
        if at > self.tokens {
            return None;
        }
        let base = self.base();
        match self.view.whole_end(tag, base + at, near) {
            Some(end) => {
                if end <= base + self.tokens {
                    Some(end - base)
                } else {
                    None
                }
            }
            None => None,
        }
    }

    fn last_end(&self, tag: u32, at: u32) -> u32 {
        if at >= self.tokens {
            return at;
        }
        let base = self.base();
        self.view.last_end(tag, base + at).saturating_sub(base)
    }
}
