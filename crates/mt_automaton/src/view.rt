//! What is asked of a text.

ghost use Rattle.std.specs.Prelude.{◌≡◌, ℕ, ◌<◌, ◌≤◌, max, Some, IfSome};
ghost use Rattle.mt_text_spec.specs.Queries.{Any};
ghost use Rattle.mt_places.specs.Places.{WordIs};
ghost use Rattle.mt_automaton.specs.Parts.{Seen, Stands, Lies, Longer, HasAllInside};

use mt_places::Marks;

/// What stands at a place: a token that passes a test; a begin of an instance of a tag, an end of one of the tag's kind, an empty instance of the tag.
#[derive(Clone, Copy, Debug, Drop)]
pub enum Mark {
    Holds(u32),
    Begins(u32),
    Ends(u32),
    Empty(u32),
}

/// From begins on to ends, or from ends back to begins.
#[derive(Clone, Copy, Debug, Drop)]
pub(crate) enum Way {
    On,
    Back,
}

/// A text, as it is seen for the tests and tags of some expression.
pub trait View {
    ghost seen: { Self → Seen };

    /// How many tokens it has. Of each the test holds that asks nothing.
    fn tokens(&self) -> u32
        ensures is { result ≡ (seen self.now).text.tokens }
        ensures few { result < 4294967295 }
        ensures any { (place : ℕ) → place < (seen self.now).text.tokens → (seen self.now).text.holds Any place }
        ensures inside { HasAllInside (seen self.now).text };

    /// At which of the 64 places from 64 * at on a mark stands, the lowest bit first.
    fn word(&self, mark: Mark, at: usize) -> u64
        ensures { WordIs (Stands (seen self.now) mark) at result };

    /// Where the instance of a tag ends that begins at a place, has a token, and ends in the text; no two of these begin at one place. `near` is where one was found
    /// last, so that the next one is found at once, or any number: the answer is the same.
    fn whole_end(&self, tag: u32, at: u32, near: &mut usize) -> Option<u32>
        ensures some { IfSome result (λ end. Longer (seen self.now) tag at end) }
        ensures only { (end : ℕ) → Longer (seen self.now) tag at end → result ≡ Some end };

    /// How far the instances of a tag lead that begin at a place or before: none ends behind the place and behind this one, in the text.
    fn last_end(&self, tag: u32, at: u32) -> u32
        ensures { (begin end : ℕ) → Lies (seen self.now) tag begin end → begin ≤ at → end ≤ (seen self.now).text.tokens → end ≤ max at result };
}

/// Where a mark stands in a text.
#[derive(Clone, Copy, Drop)]
pub(crate) struct Standing<'a, V: View> {
    pub view: &'a V,
    pub mark: Mark,
}

impl<'a, V: View> Marks for Standing<'a, V> {
    ghost use Rattle.mt_automaton.specs.Parts.{Stands};

    ghost stands = { λ s. Stands (V.seen s.view.now) s.mark };

    fn word(&self, at: usize) -> u64 {
        self.view.word(self.mark, at)
    }
}
