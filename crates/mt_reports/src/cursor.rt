//! Where a live text stands among segments.

ghost use Rattle.std.specs.Prelude.{◌≡◌, ◌+◌, ◌<◌, ◌≤◌, length, slice_index_or};
ghost use Rattle.mt_reports.specs.Places.{IsAt, Stands, texts_of};
ghost use Rattle.mt_reports.specs.Starts.{IsStart};

use mt_base::List;

/// A segment, and how many live texts the segments before it have.
#[derive(Clone, Copy, Debug, Drop)]
pub struct Cursor {
    pub segment: usize,
    pub before: u32,
}

/// At the first segment.
pub fn first() -> Cursor
    ensures segment { result.segment ≡ 0 }
    ensures before { result.before ≡ 0 }
{
    Cursor {
        segment: 0,
        before: 0,
    }
}

/// Where to look for a text: from where one was found last, or from the front for an earlier one.
fn start(last: Cursor, text: u32) -> Cursor
    ensures { IsStart last text result }
{
    if last.before <= text { last } else { first() }
}

/// The segment of the live text with this number. From one text to a later one only the segments between them are passed.
pub fn seek(live: &[List<u32>], last: Cursor, text: u32) -> Cursor
    requires last { IsAt live.now last.segment last.before }
    requires text { text < texts_of live.now }
    ensures { Stands live.now text result.segment result.before }
{
    let from = start(last, text);
    let mut segment = from.segment;
    let mut before = from.before;
    while (text - before) as usize >= live[segment].len() {
        before += live[segment].len() as u32;
        segment += 1;
    }
    Cursor { segment, before }
}
