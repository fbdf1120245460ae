//! How many rows and spans a query without filters has in the segments of a corpus.

ghost use Rattle.std.specs.Prelude.{◌≡◌, ◌-◌, ◌≤◌, IfOk, IsErrOf};
ghost use Rattle.mt_text_spec.specs.Queries.{NoMore};
ghost use Rattle.mt_match_spec.specs.Kept.{HasTooMany, operand_rows_limit};
ghost use Rattle.mt_match_spec.specs.Values.{Images};
ghost use Rattle.mt_prepare.specs.Prepared.{IsPrepared};
ghost use Rattle.mt_prepare.specs.KnownRows.{AreKnownIn};
ghost use Rattle.mt_eval_spec.specs.Asked.{query_patterns};
ghost use Rattle.mt_eval_spec.specs.Fits.{Fits};
ghost use Rattle.mt_eval_spec.specs.Literals.{AreFew, IsPlain};
ghost use Rattle.mt_eval_spec.specs.RowsIn.{IsRowIn};
ghost use Rattle.mt_eval_spec.specs.Told.{IsFor};
ghost use Rattle.mt_eval.specs.Runs.{AreTexts};
ghost use Rattle.mt_corpus_spec.specs.Groups.{corpus_of};
ghost use Rattle.mt_corpus_spec.specs.Images.{AreImagesBy};
ghost use Rattle.mt_search.specs.Steps.{TakesIn, TakesInAll};
ghost use Rattle.mt_tally.specs.Counts.{HasMore};
ghost use Rattle.mt_totals.specs.Tallies.{HasTally, HasTallyIn};

use super::shaped::shaped_tally;
use super::spans::span_count;
use mt_base::{List, Steps};
use mt_corpus::Corpus;
use mt_corpus_laws::{groups_are_told, kept_are_joined, rows_are_joined, rows_go_on};
use mt_cql::Query;
use mt_eval::{Scratch, eval, is_by_automaton};
use mt_eval_laws::{have_rows_in, kept_are_told};
use mt_match_laws::{have_kept, have_rows, have_spans};
use mt_pattern::PatternShop;
use mt_prepare::{KnownSpans, Patterns, Prepared};
use mt_rows::EvalError;
use mt_segment::Segment;
use mt_tally::Tally;
use std::alloc::Global;
use std::sync::ledger::Ledger;

/// The most rows of a head in a corpus.
const OPERAND_ROWS_LIMIT: u32 = 4_194_304;

/// How many rows of tests are kept for the listing of rows, where there were too many shapes.
const MOST_KNOWN: usize = 16;

/// The rows and spans of a query in the texts of a segment, of which the rows are listed.
fn listed_tally<L: Ledger>(
    alloc: Global,
    query: &Query,
    prepared: &Prepared,
    segment: &Segment,
    live: &List<u32>,
    room: u32,
    scratch: &mut Scratch,
    steps: &mut Steps<L>,
) -> Result<Tally, EvalError>
    requires query { IsFor segment.now query.now }
    requires prepared { IsPrepared segment.now query.now prepared.now }
    requires live { AreTexts segment.now live.now }
    requires filters { query.now.filters ≡ NoMore }
    requires known { AreKnownIn segment.now scratch.old.known }
    ensures tally { IfOk result (λ tally. HasTallyIn segment.now live.now query.now tally.rows tally.spans) }
    ensures within { IfOk result (λ tally. tally.rows ≤ room) }
    ensures too_many { IsErrOf result EvalError.TooManyRows → HasMore (IsRowIn segment.now live.now query.now.head) room }
    ensures rises { steps.old ≤ steps.new }
    ensures few { IsPlain query.now → AreFew segment.now query.now.head (steps.new - steps.old) }
{
    let mut rooms = List::new(alloc);
    rooms.push(room)?;
    let rows = eval(
        alloc, query, prepared, segment, live, &mut rooms, scratch, steps,
    )?;
    let left = *rooms.get(0);
    Ok(Tally {
        rows: (room - left) as usize,
        spans: span_count(&rows),
    })
}

/// The rows and spans of a query in the texts of a segment for which it is ready: by the shapes of its matches, where it goes by its automaton and they are not too many.
fn ready_tally<L: Ledger>(
    alloc: Global,
    query: &Query,
    prepared: &Prepared,
    segment: &Segment,
    live: &List<u32>,
    room: u32,
    steps: &mut Steps<L>,
) -> Result<Tally, EvalError>
    requires query { IsFor segment.now query.now }
    requires prepared { IsPrepared segment.now query.now prepared.now }
    requires live { AreTexts segment.now live.now }
    requires filters { query.now.filters ≡ NoMore }
    ensures tally { IfOk result (λ tally. HasTallyIn segment.now live.now query.now tally.rows tally.spans) }
    ensures within { IfOk result (λ tally. tally.rows ≤ room) }
    ensures too_many { IsErrOf result EvalError.TooManyRows → HasMore (IsRowIn segment.now live.now query.now.head) room }
    ensures rises { steps.old ≤ steps.new }
    ensures few { IsPlain query.now → AreFew segment.now query.now.head (steps.new - steps.old) }
{
    let mut scratch = Scratch::new(alloc, MOST_KNOWN);
    if !is_by_automaton(query, prepared, segment) {
        return listed_tally(
            alloc,
            query,
            prepared,
            segment,
            live,
            room,
            &mut scratch,
            steps,
        );
    }
    let texts = live.as_slice();
    let known = &mut scratch.known;
    match shaped_tally(alloc, query, prepared, segment, texts, room, known, steps)? {
        Some(tally) => Ok(tally),
        None => listed_tally(
            alloc,
            query,
            prepared,
            segment,
            live,
            room,
            &mut scratch,
            steps,
        ),
    }
}

/// The rows and spans of a query in the texts of a segment.
fn segment_tally<P: PatternShop, L: Ledger>(
    alloc: Global,
    query: &Query,
    patterns: &mut Patterns<P>,
    segment: &Segment,
    live: &List<u32>,
    room: u32,
    shop: &mut P,
    steps: &mut Steps<L>,
) -> Result<Tally, EvalError>
    requires query { IsFor segment.now query.now }
    requires patterns { patterns.old ≡ query_patterns query.now }
    requires live { AreTexts segment.now live.now }
    requires filters { query.now.filters ≡ NoMore }
    ensures tally { IfOk result (λ tally. HasTallyIn segment.now live.now query.now tally.rows tally.spans) }
    ensures within { IfOk result (λ tally. tally.rows ≤ room) }
    ensures too_many { IsErrOf result EvalError.TooManyRows → HasMore (IsRowIn segment.now live.now query.now.head) room }
    ensures patterns { patterns.new ≡ patterns.old }
    ensures shop { P.refused shop.new ≡ P.refused shop.old }
    ensures rises { steps.old ≤ steps.new }
    ensures takes { IsPlain query.now → TakesIn query.now segment.now (steps.new - steps.old) }
{
    let mut spans = KnownSpans::new(alloc);
    let prepared = patterns.prepare(alloc, query, segment, &mut spans, shop, steps)?;
    ready_tally(alloc, query, &prepared, segment, live, room, steps)
}

/// The rows and spans of a query without filters in all texts.
pub(crate) fn corpus_tally<P: PatternShop, L: Ledger>(
    alloc: Global,
    corpus: &Corpus,
    query: &Query,
    patterns: &mut Patterns<P>,
    shop: &mut P,
    steps: &mut Steps<L>,
) -> Result<Tally, EvalError>
    requires query { Fits corpus.now.registry query.now }
    requires filters { query.now.filters ≡ NoMore }
    requires patterns { patterns.old ≡ query_patterns query.now }
    ensures tally { (images : Images) → AreImagesBy images corpus.now.taken
        → IfOk result (λ tally. HasTally images corpus.now.registry (corpus_of corpus.now.groups) query.now tally.rows tally.spans) }
    ensures few { IfOk result (λ tally. tally.rows ≤ operand_rows_limit) }
    ensures too_many { (images : Images) → AreImagesBy images corpus.now.taken
        → IsErrOf result EvalError.TooManyRows → HasTooMany images corpus.now.registry (corpus_of corpus.now.groups) query.now.head }
    ensures shop { P.refused shop.new ≡ P.refused shop.old }
    ensures rises { steps.old ≤ steps.new }
    ensures takes { IsPlain query.now → (images : Images) → AreImagesBy images corpus.now.taken → TakesInAll images corpus.now.registry query.now corpus.now.groups (steps.new - steps.old) }
{
    groups_are_told();
    have_kept();
    have_rows();
    have_rows_in();
    have_spans();
    kept_are_joined();
    kept_are_told();
    rows_are_joined();
    rows_go_on();
    let (segments, live) = corpus.held();
    let mut rows = 0;
    let mut spans = 0;
    for i in 0..segments.len() {
        let room = OPERAND_ROWS_LIMIT - rows as u32;
        let tally = segment_tally(
            alloc,
            query,
            patterns,
            segments.get(i),
            live.get(i),
            room,
            shop,
            steps,
        )?;
        rows += tally.rows;
        spans += tally.spans;
    }
    Ok(Tally { rows, spans })
}
