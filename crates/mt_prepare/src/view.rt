//! One text of a segment, as an expression sees it.

ghost use Rattle.std.specs.Prelude.{◌≡◌, ◌+◌, ◌/◌, ◌%◌, ◌<◌, ◌≤◌, [], length, slice_index_or};
ghost use Rattle.mt_places.specs.Places.{In, WordIs};
ghost use Rattle.mt_cql.specs.Shape.{shape};
ghost use Rattle.mt_segment_spec.specs.Tables.{AreTables, first_place};
ghost use Rattle.mt_eval_spec.specs.Told.{told_tokens};
ghost use Rattle.mt_automaton.specs.Compiled.{IsSeenFor};
ghost use Rattle.mt_prepare.specs.Viewed.{Viewed, Shows, seen_of};

use crate::shared_spans::SharedSpans;
use crate::tag_rows::{TagRows, last_end, longer_end};
use mt_automaton::{Mark, View};
use mt_cql::Expr;
use mt_places::{Below, Marks, Places};
use mt_segment::Segment;
use mt_segment_laws::instances_lie_in_texts;
use std::marker::Model;

/// One text of a segment, for an expression: what the tables tell of it, by the rows of the expression's tests and tags.
#[derive(Drop)]
pub struct TextView<'a> {
    segment: &'a Segment,
    expr: &'a Expr,
    text: u32,
    first: u32,
    tokens: u32,
    tests: &'a [Places],
    spans: &'a [SharedSpans],
    rows: &'a [TagRows],
}

impl<'a> Model for TextView<'a> {
    ghost use Rattle.mt_cql.specs.Shape.{shape};
    ghost use Rattle.mt_prepare.specs.Viewed.{Viewed, Shows, viewed_code};

    ghost Value = { Viewed };

    ghost coded = { viewed_code };

    ghost view = { λ v. record { tables = v.segment.now; text = v.text; expr = shape v.expr.now } };

    ghost invariant = { λ v. Shows v.segment.now v.text v.first v.tokens (shape v.expr.now) v.tests.now v.spans.now v.rows.now };
}

impl<'a> TextView<'a> {
    /// The view of a text: of the expression's tests there are the rows in the segment, and of its tags the spans in the segment and what was found when the text
    /// was entered.
    pub fn new(
        segment: &'a Segment,
        expr: &'a Expr,
        text: u32,
        tests: &'a [Places],
        spans: &'a [SharedSpans],
        rows: &'a [TagRows],
    ) -> Self
        requires text { text < length segment.now.texts }
        requires shows { AreTables segment.now → Shows segment.now text (first_place segment.now text) (told_tokens segment.now text) (shape expr.now) tests.now spans.now rows.now }
        ensures { result ≡ record { tables = segment.entry.now; text = text; expr = shape expr.entry.now } }
    {
        let _texts = segment.texts();
        let (first, end) = segment.text_bounds(text);
        TextView {
            segment,
            expr,
            text,
            first,
            tokens: end - first,
            tests,
            spans,
            rows,
        }
    }
}

/// What a view sees of a text is seen for its expression: the tests and the tags of the expression by number. Its text is what the tables tell (`seen_of`).
pub fn views_are_seen()
    ensures { (view : Viewed) → IsSeenFor view.expr (seen_of view) }
{}

impl<'a> View for TextView<'a> {
    ghost use Rattle.mt_prepare.specs.Viewed.{seen_of};

    ghost seen = { seen_of };

    fn tokens(&self) -> u32 {
        instances_lie_in_texts();
        let _texts = self.segment.texts();
        self.tokens
    }

    fn word(&self, mark: Mark, at: usize) -> u64 {
        instances_lie_in_texts();
        match mark {
            Mark::Holds(test) => test_word(self.tests, test, self.first, self.tokens, at),
            Mark::Begins(tag) => begins_word(self.rows, tag, at),
            Mark::Ends(tag) => ends_word(self.rows, tag, at),
            Mark::Empty(tag) => empty_word(self.rows, tag, at),
        }
    }

    fn whole_end(&self, tag: u32, at: u32, near: &mut usize) -> Option<u32> {
        instances_lie_in_texts();
        if at >= self.tokens || tag as usize >= self.rows.len() {
            return None;
        }
        let rows = &self.rows[tag as usize];
        let spans = self.spans[tag as usize].as_slice();
        longer_end(spans, rows.from, rows.to, self.text, at, near)
    }

    fn last_end(&self, tag: u32, at: u32) -> u32 {
        instances_lie_in_texts();
        if at >= self.tokens || tag as usize >= self.rows.len() {
            return self.tokens;
        }
        let rows = &self.rows[tag as usize];
        let spans = self.spans[tag as usize].as_slice();
        last_end(spans, rows.from, rows.to, self.text, at)
    }
}

/// 64 places of a text, by the row of a test in its segment; none, where there is no such test.
fn test_word(tests: &[Places], test: u32, first: u32, tokens: u32, at: usize) -> u64
    ensures some { test < length tests.now → WordIs (λ place. In (slice_index_or tests.now test []) (first + place) × (place < tokens)) at result }
    ensures none { length tests.now ≤ test → result ≡ 0 }
{
    if test as usize >= tests.len() {
        return 0;
    }
    text_word(&tests[test as usize], first, tokens, at)
}

/// 64 places where instances of a tag begin.
fn begins_word(rows: &[TagRows], tag: u32, at: usize) -> u64
    ensures some { (d : TagRows) → tag < length rows.now → WordIs (In (slice_index_or rows.now tag d).begins) at result }
    ensures none { length rows.now ≤ tag → result ≡ 0 }
{
    if tag as usize >= rows.len() {
        return 0;
    }
    rows[tag as usize].begins.word(at)
}

/// 64 places where instances of a tag's kind end.
fn ends_word(rows: &[TagRows], tag: u32, at: usize) -> u64
    ensures some { (d : TagRows) → tag < length rows.now → WordIs (In (slice_index_or rows.now tag d).ends) at result }
    ensures none { length rows.now ≤ tag → result ≡ 0 }
{
    if tag as usize >= rows.len() {
        return 0;
    }
    rows[tag as usize].ends.word(at)
}

/// 64 places where empty instances of a tag stand.
fn empty_word(rows: &[TagRows], tag: u32, at: usize) -> u64
    ensures some { (d : TagRows) → tag < length rows.now → WordIs (In (slice_index_or rows.now tag d).empty) at result }
    ensures none { length rows.now ≤ tag → result ≡ 0 }
{
    if tag as usize >= rows.len() {
        return 0;
    }
    rows[tag as usize].empty.word(at)
}

/// 64 places of a row, as many words and bits behind its begin as `first` and `at` say.
fn moved_word(row: &Places, first: u32, at: usize) -> u64
    requires { at ≤ 67108864 }
    ensures { WordIs (λ place. In row.now (first + place)) at result }
{
    let skip = at + (first / 64) as usize;
    let low = u128::from(row.word(skip));
    let high = u128::from(row.word(skip + 1));
    (((high << 64) + low >> (first % 64)) & u128::from(u64::MAX)) as u64
}

/// 64 places of a text of so many tokens, by the row of its segment in which the text's first token stands at `first`.
fn text_word(row: &Places, first: u32, tokens: u32, at: usize) -> u64
    ensures { WordIs (λ place. In row.now (first + place) × (place < tokens)) at result }
{
    if at > (tokens / 64) as usize {
        return 0;
    }
    let within = Below { end: tokens };
    moved_word(row, first, at) & within.word(at)
}
