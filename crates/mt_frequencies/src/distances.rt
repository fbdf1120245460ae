//! How far from a span values are looked at.

ghost use Rattle.std.specs.Prelude.{◌≡◌, ◌+◌, ◌-◌, ◌^◌, ◌<◌, ◌≤◌, ◌≤ℤ◌, [], ◌∷◌, ◌++◌};
ghost use Rattle.std.specs.List.{range_with_len};
ghost use Rattle.mt_frequencies.specs.Distances.{AreDistances, distances_of, left_size, right_size};
ghost use Rattle.mt_frequencies.specs.Seen.{places_near};
ghost use Rattle.mt_report_spec.specs.Near as near;
ghost use Rattle.mt_report_spec.specs.Near.{places_at};
ghost use Rattle.std.specs.Prelude.{min};

use mt_base::Span;

/// Distances before a span's first token, from one on and before another, and distances behind a token of it, likewise.
#[derive(Clone, Copy, Debug, Drop)]
pub(crate) struct Distances {
    pub(crate) before_from: u32,
    pub(crate) before_to: u32,
    pub(crate) behind_from: u32,
    pub(crate) behind_to: u32,
}

/// Two runs of places, each from a place on and before another.
#[derive(Clone, Copy, Debug, Drop)]
pub(crate) struct Places {
    pub(crate) before_from: u32,
    pub(crate) before_to: u32,
    pub(crate) behind_from: u32,
    pub(crate) behind_to: u32,
}

/// What the windows of the spans of a text are made of: the distances, the text's first place in its segment, and how many tokens it has.
#[derive(Clone, Copy, Debug, Drop)]
pub(crate) struct Around {
    pub(crate) distances: Distances,
    pub(crate) first: u32,
    pub(crate) tokens: u32,
}

/// What is looked at near a span: the values of an attribute so far before its first token, and so far behind its last one.
#[derive(Clone, Copy, Debug, Drop)]
pub(crate) struct Near {
    pub(crate) attr: u16,
    pub(crate) distances: Distances,
}

/// The distances from the first to the last of them, without 0.
pub(crate) fn window(from: i32, to: i32) -> Distances
    requires { from ≤ℤ to }
    ensures distances { distances_of result ≡ near.window from to }
    ensures valid { AreDistances result }
{
    Distances {
        before_from: to_left(to).max(1),
        before_to: to_left(from) + 1,
        behind_from: to_right(from).max(1),
        behind_to: to_right(to) + 1,
    }
}

/// How far to the left a distance leads.
pub(crate) fn to_left(distance: i32) -> u32
    ensures { result ≡ left_size distance }
{
    if distance < 0 {
        distance.unsigned_abs()
    } else {
        0
    }
}

/// How far to the right it leads.
pub(crate) fn to_right(distance: i32) -> u32
    ensures { result ≡ right_size distance }
{
    if distance > 0 {
        distance.unsigned_abs()
    } else {
        0
    }
}

impl Distances {
    /// The places of a text of so many tokens that are so far before one place and behind another.
    pub(crate) fn places(&self, first: u32, last: u32, tokens: u32) -> Places
        requires distances { AreDistances self.now }
        requires first { first ≤ tokens }
        ensures before_from_is { result.before_from ≡ first - (self.now.before_to - 1) }
        ensures before_to_is { result.before_to ≡ first - (self.now.before_from - 1) }
        ensures behind_from_is { result.behind_from ≡ min (last + self.now.behind_from) tokens }
        ensures behind_to_is { result.behind_to ≡ min (last + self.now.behind_to) tokens }
        ensures places { places_at tokens first last (distances_of self.now) ≡ range_with_len result.before_from (result.before_to - result.before_from) ++ range_with_len result.behind_from (result.behind_to - result.behind_from) }
        ensures before { result.before_from ≤ result.before_to }
        ensures before_within { result.before_to ≤ tokens }
        ensures behind { result.behind_from ≤ result.behind_to }
        ensures behind_within { result.behind_to ≤ tokens }
    {
        Places {
            before_from: first.saturating_sub(self.before_to - 1),
            before_to: first.saturating_sub(self.before_from - 1),
            behind_from: last.saturating_add(self.behind_from).min(tokens),
            behind_to: last.saturating_add(self.behind_to).min(tokens),
        }
    }
}

impl Around {
    /// The places of the segment in the window of a span of the text.
    #[inline]
    pub(crate) fn places(&self, span: &Span) -> Places
        requires distances { AreDistances self.now.distances }
        requires few { self.now.first + self.now.tokens < 2 ^ 32 }
        requires some { span.now.begin < span.now.end }
        requires inside { span.now.end ≤ self.now.tokens }
        ensures { result ≡ places_near self.now span.now }
    {
        let near = self
            .distances
            .places(span.begin(), span.end() - 1, self.tokens);
        Places {
            before_from: self.first + near.before_from,
            before_to: self.first + near.before_to,
            behind_from: self.first + near.behind_from,
            behind_to: self.first + near.behind_to,
        }
    }
}
