//! Rows and spans that are counted.

ghost use Rattle.std.specs.Prelude.{◌≡◌, ℕ, ◌<◌, ◌≤◌, length, IfOk, IsErrOf};
ghost use Rattle.mt_rows.specs.declared.error.EvalError.TheVariants.{TooManyRows as TooMany};
ghost use Rattle.mt_eval_spec.specs.Told.{told_tokens};
ghost use Rattle.mt_shapes.specs.Tables.{Fine, IsRowOf};
ghost use Rattle.mt_tally.specs.Counts.{HasCount, HasMore};
ghost use Rattle.mt_tally.specs.Conds.{AreFor};
ghost use Rattle.mt_tally.specs.Tallies.{HasLabelsInside, IsSpanMet};

use super::rows::row_count;
use super::spans::{Seen, span_count};
use mt_base::Steps;
use mt_cql::Cond;
use mt_rows::EvalError;
use mt_segment::Segment;
use mt_shapes::Entry;
use std::sync::ledger::Ledger;

/// How many rows there are, and how many different spans those of them have that are kept.
#[derive(Clone, Copy, Debug, Drop)]
pub struct Tally {
    pub rows: usize,
    pub spans: usize,
}

/// How many rows a table has in a text of so many tokens, where there is room for so many, and how many different spans those of them have that meet all conditions.
pub fn table_tally<L: Ledger>(
    seen: &mut Seen,
    segment: &Segment,
    text: u32,
    last: u32,
    entries: &[Entry],
    conds: &[Cond],
    room: u32,
    steps: &mut Steps<L>,
) -> Result<Tally, EvalError>
    requires text { text < length segment.now.texts }
    requires last { last ≡ told_tokens segment.now text }
    requires few { last < 4294967295 }
    requires fine { Fine last entries.now }
    requires labels { HasLabelsInside entries.now text last }
    requires conds { AreFor segment.now conds.now }
    ensures rows { IfOk result (λ tally. HasCount (IsRowOf entries.now text) tally.rows) }
    ensures spans { IfOk result (λ tally. HasCount (IsSpanMet segment.now conds.now entries.now text) tally.spans) }
    ensures within { IfOk result (λ tally. tally.rows ≤ room) }
    ensures more { IsErrOf result TooMany → HasMore (IsRowOf entries.now text) room }
    ensures rises { steps.old ≤ steps.new }
{
    let rows = row_count(entries, last, room)?;
    let spans = span_count(seen, segment, text, last, entries, rows, conds, steps)?;
    Ok(Tally { rows, spans })
}
