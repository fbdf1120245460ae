//! Numbers of values.

ghost use Rattle.std.specs.Prelude.{◌≡◌, ◌<◌, length};
ghost use Rattle.mt_segment_spec.specs.Tables.{number_at, tables_at, token_count};

use mt_base::Steps;
use mt_segment::Segment;
use std::marker::Brand;
use std::sync::ledger::{Blank, Ledger};

/// The number of an attribute's value at a place of a segment.
pub fn number_of(segment: &Segment, attr: u16, place: u32) -> u32
    requires attr { attr < length segment.now.attrs }
    requires place { place < token_count segment.now }
    ensures number { result ≡ number_at segment.now attr place }
    ensures within { result < length (tables_at segment.now.attrs attr).lexicon }
{
    number_by::<Brand>(segment, attr, place, Blank::new(1))
}

/// The same. The blank names a ledger for this step alone.
fn number_by<L: Ledger>(segment: &Segment, attr: u16, place: u32, blank: Blank) -> u32
    requires attr { attr < length segment.now.attrs }
    requires place { place < token_count segment.now }
    requires name { blank.name ≡ L.name }
    requires parts { blank.parts ≡ L.parts }
    requires some { 0 < L.parts }
    ensures number { result ≡ number_at segment.now attr place }
    ensures within { result < length (tables_at segment.now.attrs attr).lexicon }
{
    let mut steps = Steps::<L>::new(blank);
    segment.value_id(attr, place, &mut steps)
}
