//! How many different spans the rows of a table have that meet conditions.

ghost use Rattle.std.specs.Prelude.{◌≡◌, ℕ, ◌+◌, ◌/◌, ◌<◌, ◌≤◌, length, IfOk, OnOk};
ghost use Rattle.mt_places.specs.Places.{In};
ghost use Rattle.mt_segment_spec.specs.Tables.{first_place, token_count};
ghost use Rattle.mt_eval_spec.specs.Told.{told_tokens};
ghost use Rattle.mt_shapes.specs.Tables.{Fine, IsRowOf};
ghost use Rattle.mt_tally.specs.Counts.{HasCount};
ghost use Rattle.mt_tally.specs.Conds.{AreFor};
ghost use Rattle.mt_tally.specs.Tallies.{HasLabelsInside, HasSeen, IsFresh, IsSpanMet};

use super::conds::meet;
use super::sets::place_count;
use mt_base::{NoMemory, Steps};
use mt_cql::Cond;
use mt_places::Places;
use mt_segment::Segment;
use mt_shapes::Entry;
use std::alloc::Global;
use std::sync::ledger::Ledger;

/// The begins of the spans of one length that are counted, used again from text to text.
#[derive(Drop)]
pub struct Seen {
    begins: Places,
    met: Places,
    tokens: u32,
}

impl Seen {
    /// No span.
    pub fn new(alloc: Global) -> Result<Self, NoMemory> {
        Ok(Seen {
            begins: Places::none(alloc, 0)?,
            met: Places::none(alloc, 0)?,
            tokens: 0,
        })
    }

    /// Turns to spans of so many tokens: where these are others than before, none is counted yet.
    fn turn(&mut self, tokens: u32)
        ensures width { length self.new.begins ≡ length self.old.begins }
        ensures tokens { self.new.tokens ≡ tokens }
        ensures same { tokens ≡ self.old.tokens → self.new.begins ≡ self.old.begins }
        ensures none { (¬ (tokens ≡ self.old.tokens)) → (begin : ℕ) → ¬ In self.new.begins begin }
    {
        if tokens != self.tokens {
            self.begins.clear();
            self.tokens = tokens;
        }
    }

    /// Adds the spans of the rows of an entry in a text that meet all conditions. Returns how many are new.
    fn add<L: Ledger>(
        &mut self,
        segment: &Segment,
        text: u32,
        entries: &[Entry],
        at: usize,
        conds: &[Cond],
        steps: &mut Steps<L>,
    ) -> Result<usize, NoMemory>
        requires text { text < length segment.now.texts }
        requires at { at < length entries.now }
        requires few { told_tokens segment.now text < 4294967295 }
        requires fine { Fine (told_tokens segment.now text) entries.now }
        requires labels { HasLabelsInside entries.now text (told_tokens segment.now text) }
        requires conds { AreFor segment.now conds.now }
        requires width { length self.old.begins ≡ told_tokens segment.now text / 64 + 1 }
        requires seen { HasSeen segment.now conds.now entries.now text at self.old.tokens self.old.begins }
        ensures width { OnOk result (length self.new.begins ≡ told_tokens segment.now text / 64 + 1) }
        ensures seen { OnOk result (HasSeen segment.now conds.now entries.now text (at + 1) self.new.tokens self.new.begins) }
        ensures fresh { IfOk result (HasCount (IsFresh segment.now conds.now entries.now text at)) }
        ensures rises { steps.old ≤ steps.new }
    {
        let entry = &entries[at];
        if entry.shape.length == 0 {
            return Ok(0);
        }
        let _tokens = segment.tokens();
        let (first, _) = segment.text_bounds(text);
        self.turn(entry.shape.length);
        meet(&mut self.met, segment, first, entry, conds, steps)?;
        self.met.remove(&self.begins);
        self.begins.add(&self.met);
        Ok(place_count(&self.met))
    }

    /// No span is counted yet, of a text of so many tokens.
    fn start(&mut self, last: u32) -> Result<(), NoMemory>
        requires { last < 4294967295 }
        ensures width { OnOk result (length self.new.begins ≡ last / 64 + 1) }
        ensures tokens { OnOk result (self.new.tokens ≡ 0) }
        ensures none { OnOk result ((begin : ℕ) → ¬ In self.new.begins begin) }
    {
        self.begins.reset((last / 64) as usize + 1)?;
        self.tokens = 0;
        Ok(())
    }
}

/// How many different spans the rows of a table have in a text that meet all conditions. The text has so many tokens, and the table so many rows there.
pub(crate) fn span_count<L: Ledger>(
    seen: &mut Seen,
    segment: &Segment,
    text: u32,
    last: u32,
    entries: &[Entry],
    rows: usize,
    conds: &[Cond],
    steps: &mut Steps<L>,
) -> Result<usize, NoMemory>
    requires text { text < length segment.now.texts }
    requires last { last ≡ told_tokens segment.now text }
    requires few { last < 4294967295 }
    requires fine { Fine last entries.now }
    requires labels { HasLabelsInside entries.now text last }
    requires rows { HasCount (IsRowOf entries.now text) rows }
    requires conds { AreFor segment.now conds.now }
    ensures spans { IfOk result (HasCount (IsSpanMet segment.now conds.now entries.now text)) }
    ensures few { IfOk result (λ count. count ≤ rows) }
    ensures rises { steps.old ≤ steps.new }
{
    seen.start(last)?;
    let mut count = 0;
    for at in 0..entries.len() {
        count += seen.add(segment, text, entries, at, conds, steps)?;
    }
    Ok(count)
}
