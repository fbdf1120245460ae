//! The rows that a query keeps in texts of a segment: the rows of its head and of its operands, one text after another, as far as there is room; its filters, each by
//! one sweep; and its conditions.
//!
//! A query is made ready for a segment by `prepare` of `mt_prepare`, which builds its patterns; `eval` then asks no shop.
#![tactic(auto)]

ghost use Rattle.std.specs.Prelude.{◌≡◌, ◌-◌, ◌≤◌, length, IsTrue, IfOk, OnOk, IsErrOf};
ghost use Rattle.mt_prepare.specs.KnownRows.{AreKnownIn};
ghost use Rattle.mt_prepare.specs.Prepared.{IsPrepared};
ghost use Rattle.mt_eval_spec.specs.Told.{IsFor};
ghost use Rattle.mt_eval_spec.specs.Literals.{AreEquals, AreFew, IsPlain};
ghost use Rattle.mt_eval_spec.specs.RowsIn.{EachLeaves, KeptIn, SomePasses, heads};
ghost use Rattle.mt_eval.specs.Runs.{AreTexts};

mod conds;
mod every;
mod finding;
mod gap;
mod gapped;
mod kept;
mod looks;
mod query_spans;
mod rarest;
mod run;
mod scan;
mod scratch;
mod sequence;
mod spans;
mod walk;

use finding::Asked;
use kept::kept_rows;
use mt_base::{List, Steps};
use mt_cql::Query;
pub use mt_prepare::{PatternError, Patterns, Prepared, check, prepare};
pub use mt_rows::{EvalError, RowList};
use mt_segment::Segment;
pub use query_spans::QuerySpans;
pub use scratch::Scratch;
use std::alloc::Global;
use std::sync::ledger::Ledger;

/// The rows that a query keeps in the texts with these numbers, ascending and numbered in the segment. There is a room for the head and then one for each operand, in
/// the order of `prepare`: how many rows each may have, before filters and conditions. Each is lowered by the rows that it has; after an error the rooms are unknown.
/// Rows of values that are known for the segment are not found again, and those that are found are kept for the next query, as far as there is room for them.
/// The rows are put into memory that `scratch` took back, where there is some.
/// A position that is read and a value that is looked at are a step each. A sequence of `==` tests alone takes at most as many steps as there are tests at each place of
/// the rarest of its values.
pub fn eval<L: Ledger>(
    alloc: Global,
    query: &Query,
    prepared: &Prepared,
    segment: &Segment,
    texts: &List<u32>,
    rooms: &mut List<u32>,
    scratch: &mut Scratch,
    steps: &mut Steps<L>,
) -> Result<RowList, EvalError>
    requires query { IsFor segment.now query.now }
    requires prepared { IsPrepared segment.now query.now prepared.now }
    requires texts { AreTexts segment.now texts.now }
    requires rooms { length rooms.old ≡ length (heads query.now) }
    requires known { AreKnownIn segment.now scratch.old.known }
    ensures known { AreKnownIn segment.now scratch.new.known }
    ensures rises { steps.old ≤ steps.new }
    ensures few { IsPlain query.now → AreFew segment.now query.now.head (steps.new - steps.old) }
    ensures kept { IfOk result (λ rows. KeptIn segment.now texts.now query.now rows) }
    ensures rooms { OnOk result (EachLeaves segment.now texts.now (heads query.now) 0 rooms.old rooms.new) }
    ensures too_many { IsErrOf result EvalError.TooManyRows → SomePasses segment.now texts.now (heads query.now) 0 rooms.old }
{
    let asked = Asked {
        query,
        prepared,
        segment,
        texts: texts.as_slice(),
    };
    kept_rows(alloc, &asked, rooms, scratch, steps)
}

/// Whether `eval` finds the rows of the head of a query in a segment by its automaton. It never does so for a sequence of `==` tests alone.
pub fn is_by_automaton(query: &Query, prepared: &Prepared, segment: &Segment) -> bool
    requires { IsPrepared segment.now query.now prepared.now }
    ensures { IsTrue result → ¬ AreEquals query.now.head }
{
    finding::is_by_automaton(query, prepared, segment)
}
