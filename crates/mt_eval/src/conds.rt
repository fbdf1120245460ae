//! Conditions on the labels of rows.

ghost use Rattle.std.specs.Prelude.{◌≡◌, ℕ, ◌+◌, ◌<◌, ◌≤◌, length, Decides, IfSome, IfNone, OnOk};
ghost use Rattle.std.specs.List.{All};
ghost use Rattle.mt_match_spec.specs.Labels.{IsSetTo};
ghost use Rattle.mt_segment_spec.specs.Tables.{token_count};
ghost use Rattle.mt_eval_spec.specs.Told.{told_value};
ghost use Rattle.mt_eval_spec.specs.RowsIn.{MeetsIn};
ghost use Rattle.mt_tally.specs.Conds.{AreFor, IsFor};
ghost use Rattle.mt_eval.specs.Conds.{StandsIn};
ghost use Rattle.mt_rows.specs.Marks.{Tell};

use mt_base::{NoMemory, Row, Steps};
use mt_cql::Cond;
use mt_rows::RowList;
use mt_segment::Segment;
use mt_tally::{are_same, place_in};
use std::sync::ledger::Ledger;

/// Whether a row meets a condition.
fn meets<L: Ledger>(segment: &Segment, row: &Row, cond: &Cond, steps: &mut Steps<L>) -> bool
    requires row { StandsIn segment.now row.now }
    requires cond { IsFor segment.now cond.now }
    ensures meets { Decides result (MeetsIn segment.now row.now cond.now) }
    ensures rises { steps.old ≤ steps.new }
{
    let (first, _) = segment.text_bounds(row.span().text());
    let Some(left) = place_in(row.labels(), cond.left) else {
        return false;
    };
    let Some(right) = place_in(row.labels(), cond.right) else {
        return false;
    };
    let same = are_same(
        segment,
        cond.left_attr,
        first + left,
        cond.right_attr,
        first + right,
        steps,
    );
    if cond.equal { same } else { !same }
}

/// Whether a row meets all conditions.
fn meets_all<L: Ledger>(segment: &Segment, row: &Row, conds: &[Cond], steps: &mut Steps<L>) -> bool
    requires row { StandsIn segment.now row.now }
    requires conds { AreFor segment.now conds.now }
    ensures meets { Decides result (All (MeetsIn segment.now row.now) conds.now) }
    ensures rises { steps.old ≤ steps.new }
{
    for cond in conds {
        if !meets(segment, row, cond, steps) {
            return false;
        }
    }
    true
}

/// Marks the rows that meet all conditions.
pub(crate) fn mark_met<L: Ledger>(
    marks: &mut Vec<bool>,
    segment: &Segment,
    rows: &RowList,
    conds: &[Cond],
    steps: &mut Steps<L>,
) -> Result<(), NoMemory>
    requires rows { All (StandsIn segment.now) rows.now }
    requires conds { AreFor segment.now conds.now }
    ensures tell { OnOk result (Tell (λ row. All (MeetsIn segment.now row) conds.now) rows.now marks.new.items) }
    ensures rises { steps.old ≤ steps.new }
{
    marks.clear();
    for i in 0..rows.len() {
        let row = rows.get(i);
        marks.push(meets_all(segment, &row, conds, steps))?;
    }
    Ok(())
}
