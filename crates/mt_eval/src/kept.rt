//! The rows that a query keeps.

ghost use Rattle.std.specs.Prelude.{◌≡◌, ◌-◌, ◌≤◌, [], length, IfOk, OnOk, IsErrOf};
ghost use Rattle.std.specs.List.{All, Contains};
ghost use Rattle.mt_text_spec.specs.Orders.{row_cmp};
ghost use Rattle.mt_match_spec.specs.Rows.{ListsAll};
ghost use Rattle.mt_prepare.specs.KnownRows.{AreKnownIn};
ghost use Rattle.mt_prepare.specs.Prepared.{IsPrepared};
ghost use Rattle.mt_eval_spec.specs.Told.{IsFor};
ghost use Rattle.mt_eval_spec.specs.Literals.{AreFew, IsPlain};
ghost use Rattle.mt_eval_spec.specs.RowsIn.{EachLeaves, KeptIn, MeetsIn, SomePasses, heads};
ghost use Rattle.mt_tally.specs.Conds.{AreFor};
ghost use Rattle.mt_eval.specs.Conds.{StandsIn};
ghost use Rattle.mt_eval.specs.Runs.{AreTexts};

use super::conds::mark_met;
use super::finding::Asked;
use super::run::{let_pass, take_rows};
use super::scratch::Scratch;
use mt_base::{List, NoMemory, Steps};
use mt_cql::Cond;
use mt_eval_laws::labels_are_inside;
use mt_rows::{EvalError, RowList};
use mt_segment::Segment;
use std::alloc::Global;
use std::sync::ledger::Ledger;

/// Keeps the rows that meet all conditions.
fn keep_met<L: Ledger>(
    marks: &mut Vec<bool>,
    segment: &Segment,
    rows: &mut RowList,
    conds: &[Cond],
    steps: &mut Steps<L>,
) -> Result<(), NoMemory>
    requires rows { All (StandsIn segment.now) rows.old }
    requires conds { AreFor segment.now conds.now }
    ensures met { OnOk result (ListsAll row_cmp (λ row. Contains rows.old row × All (MeetsIn segment.now row) conds.now) rows.new) }
    ensures rises { steps.old ≤ steps.new }
    ensures none { conds.now ≡ [] → steps.new ≡ steps.old }
{
    rows.len();
    if conds.is_empty() {
        return Ok(());
    }
    mark_met(marks, segment, rows, conds, steps)?;
    rows.keep(marks);
    Ok(())
}

/// The rows that the query keeps in the texts. The head and each operand has its room.
pub(crate) fn kept_rows<L: Ledger>(
    alloc: Global,
    asked: &Asked<'_>,
    rooms: &mut List<u32>,
    scratch: &mut Scratch,
    steps: &mut Steps<L>,
) -> Result<RowList, EvalError>
    requires query { IsFor asked.now.segment.now asked.now.query.now }
    requires prepared { IsPrepared asked.now.segment.now asked.now.query.now asked.now.prepared.now }
    requires texts { AreTexts asked.now.segment.now asked.now.texts.now }
    requires rooms { length rooms.old ≡ length (heads asked.now.query.now) }
    requires known { AreKnownIn asked.now.segment.now scratch.old.known }
    ensures known { AreKnownIn asked.now.segment.now scratch.new.known }
    ensures rises { steps.old ≤ steps.new }
    ensures steps { IsPlain asked.now.query.now → AreFew asked.now.segment.now asked.now.query.now.head (steps.new - steps.old) }
    ensures kept { IfOk result (λ rows. KeptIn asked.now.segment.now asked.now.texts.now asked.now.query.now rows) }
    ensures rooms { OnOk result (EachLeaves asked.now.segment.now asked.now.texts.now (heads asked.now.query.now) 0 rooms.old rooms.new) }
    ensures too_many { IsErrOf result EvalError.TooManyRows → SomePasses asked.now.segment.now asked.now.texts.now (heads asked.now.query.now) 0 rooms.old }
{
    labels_are_inside();
    let mut rows = take_rows(alloc, asked, asked.query.head(), 0, rooms, scratch, steps)?;
    let_pass(
        alloc,
        asked,
        asked.query.filters(),
        1,
        &mut rows,
        rooms,
        scratch,
        steps,
    )?;
    let conds = asked.query.conds().as_slice();
    keep_met(&mut scratch.marks, asked.segment, &mut rows, conds, steps)?;
    Ok(rows)
}
