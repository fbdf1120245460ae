//! Conditions on the labels of matches.

ghost use Rattle.std.specs.Prelude.{◌≡◌, ℕ, ◌+◌, ◌<◌, ◌≤◌, length, Decides, IfSome, IfNone, OnOk};
ghost use Rattle.std.specs.List.{All};
ghost use Rattle.mt_match_spec.specs.Labels.{IsSetTo};
ghost use Rattle.mt_places.specs.Places.{In, HasJust};
ghost use Rattle.mt_segment_spec.specs.Tables.{first_place, token_count};
ghost use Rattle.mt_eval_spec.specs.Told.{told_value};
ghost use Rattle.mt_eval_spec.specs.RowsIn.{MeetsIn};
ghost use Rattle.mt_shapes.specs.Shapes.{row_of};
ghost use Rattle.mt_tally.specs.Conds.{AreFor, IsFor};
ghost use Rattle.mt_tally.specs.Tallies.{HasLabelsFrom};

use mt_base::{NoMemory, Row, Steps};
use mt_cql::Cond;
use mt_places::Places;
use mt_segment::Segment;
use mt_shapes::{Entry, Shape};
use std::sync::ledger::Ledger;

/// The place of a label, where it is set.
pub fn place_in(labels: &[u32; 9], label: u8) -> Option<u32>
    ensures some { IfSome result (λ place. IsSetTo labels.now label place) }
    ensures none { IfNone result ((place : ℕ) → ¬ IsSetTo labels.now label place) }
{
    if label == 0 {
        return None;
    }
    match labels.get(label as usize - 1) {
        None => None,
        Some(place) => {
            if *place == Row::UNSET {
                None
            } else {
                Some(*place)
            }
        }
    }
}

/// Whether the values at two places are equal: their numbers are compared where the attributes are one, else the values themselves.
pub fn are_same<L: Ledger>(
    segment: &Segment,
    left_attr: u16,
    left: u32,
    right_attr: u16,
    right: u32,
    steps: &mut Steps<L>,
) -> bool
    requires left_attr { left_attr < length segment.now.attrs }
    requires left { left < token_count segment.now }
    requires right_attr { right_attr < length segment.now.attrs }
    requires right { right < token_count segment.now }
    ensures same { Decides result (told_value segment.now left_attr left ≡ told_value segment.now right_attr right) }
    ensures rises { steps.old ≤ steps.new }
{
    let one = segment.value_id(left_attr, left, steps);
    let other = segment.value_id(right_attr, right, steps);
    if left_attr == right_attr {
        segment.lexicon(left_attr).len();
        return one == other;
    }
    segment.lexicon(left_attr).value(one) == segment.lexicon(right_attr).value(other)
}

/// Whether the row of a match of a shape meets a condition, where the match begins at a place of a text whose first token has this place in the segment.
fn meets<L: Ledger>(
    segment: &Segment,
    shape: &Shape,
    first: u32,
    begin: u32,
    cond: &Cond,
    steps: &mut Steps<L>,
) -> bool
    requires few { token_count segment.now < 4294967296 }
    requires labels { HasLabelsFrom segment.now first begin shape.now }
    requires cond { IsFor segment.now cond.now }
    ensures meets { (text : ℕ) → first ≡ first_place segment.now text → Decides result (MeetsIn segment.now (row_of shape.now text begin) cond.now) }
    ensures rises { steps.old ≤ steps.new }
{
    let Some(left) = place_in(&shape.labels, cond.left) else {
        return false;
    };
    let Some(right) = place_in(&shape.labels, cond.right) else {
        return false;
    };
    let same = are_same(
        segment,
        cond.left_attr,
        first + (begin + left),
        cond.right_attr,
        first + (begin + right),
        steps,
    );
    if cond.equal { same } else { !same }
}

/// Whether it meets all conditions.
fn meets_all<L: Ledger>(
    segment: &Segment,
    shape: &Shape,
    first: u32,
    begin: u32,
    conds: &[Cond],
    steps: &mut Steps<L>,
) -> bool
    requires few { token_count segment.now < 4294967296 }
    requires labels { HasLabelsFrom segment.now first begin shape.now }
    requires conds { AreFor segment.now conds.now }
    ensures meets { (text : ℕ) → first ≡ first_place segment.now text → Decides result (All (MeetsIn segment.now (row_of shape.now text begin)) conds.now) }
    ensures rises { steps.old ≤ steps.new }
{
    for cond in conds {
        if !meets(segment, shape, first, begin, cond, steps) {
            return false;
        }
    }
    true
}

/// Puts the begins of an entry into a set at which the row of the match meets all conditions.
fn put_met<L: Ledger>(
    met: &mut Places,
    segment: &Segment,
    first: u32,
    entry: &Entry,
    conds: &[Cond],
    steps: &mut Steps<L>,
)
    requires width { length met.old ≡ length entry.now.begins }
    requires few { token_count segment.now < 4294967296 }
    requires begins { (begin : ℕ) → In entry.now.begins begin → begin < 4294967295 }
    requires labels { (begin : ℕ) → In entry.now.begins begin → HasLabelsFrom segment.now first begin entry.now.shape }
    requires conds { AreFor segment.now conds.now }
    ensures width { length met.new ≡ length met.old }
    ensures met { (text : ℕ) → first ≡ first_place segment.now text → HasJust (λ begin. In entry.now.begins begin × All (MeetsIn segment.now (row_of entry.now.shape text begin)) conds.now) met.new }
    ensures rises { steps.old ≤ steps.new }
{
    met.clear();
    let mut from = 0;
    while let Some(at) = entry.begins.first_from(from) {
        if meets_all(segment, &entry.shape, first, at, conds, steps) {
            met.insert(at);
        }
        from = at + 1;
    }
}

/// Makes a set that of the begins of an entry at which the row of the match meets all conditions.
pub(crate) fn meet<L: Ledger>(
    met: &mut Places,
    segment: &Segment,
    first: u32,
    entry: &Entry,
    conds: &[Cond],
    steps: &mut Steps<L>,
) -> Result<(), NoMemory>
    requires few { token_count segment.now < 4294967296 }
    requires width { length entry.now.begins ≤ 67108864 }
    requires begins { (begin : ℕ) → In entry.now.begins begin → begin < 4294967295 }
    requires labels { (begin : ℕ) → In entry.now.begins begin → HasLabelsFrom segment.now first begin entry.now.shape }
    requires conds { AreFor segment.now conds.now }
    ensures width { OnOk result (length met.new ≡ length entry.now.begins) }
    ensures met { (text : ℕ) → first ≡ first_place segment.now text
        → OnOk result (HasJust (λ begin. In entry.now.begins begin × All (MeetsIn segment.now (row_of entry.now.shape text begin)) conds.now) met.new) }
    ensures rises { steps.old ≤ steps.new }
{
    if conds.is_empty() {
        return met.copy_from(&entry.begins);
    }
    met.reset(entry.begins.width())?;
    put_met(met, segment, first, entry, conds, steps);
    Ok(())
}
