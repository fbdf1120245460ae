//! How many rows and spans a query without filters has in texts of a segment, by the shapes of its matches.

ghost use Rattle.std.specs.Prelude.{◌≡◌, ◌<◌, ◌≤◌, [], ◌∷◌, length, IfOk, IfSome, OnOk, IsErrOf};
ghost use Rattle.mt_cql.specs.Shape.{shape};
ghost use Rattle.mt_shapes.specs.Tables.{Fine, TellsRows};
ghost use Rattle.mt_automaton.specs.Compiled.{IsOf};
ghost use Rattle.mt_prepare.specs.Prepared.{IsPrepared, IsReady};
ghost use Rattle.mt_prepare.specs.Sighted.{IsSighted};
ghost use Rattle.mt_prepare.specs.KnownRows.{AreKnownIn};
ghost use Rattle.mt_eval_spec.specs.Told.{IsFor, told, told_tokens};
ghost use Rattle.mt_eval_spec.specs.RowsIn.{IsRowIn};
ghost use Rattle.mt_eval.specs.Runs.{AreTexts};
ghost use Rattle.mt_tally.specs.Counts.{HasMore};
ghost use Rattle.mt_totals.specs.Tallies.{HasTallyIn};

use mt_automaton::{Automaton, Pool, View, labels_stand};
use mt_base::{NoMemory, Steps};
use mt_cql::{Expr, Query};
use mt_eval_laws::labels_are_inside;
use mt_prepare::{KnownRows, Prepared, PreparedExpr, Sighted};
use mt_rows::EvalError;
use mt_segment::Segment;
use mt_shapes::{Entry, Work, may_have_many, shapes_of_text};
use mt_tally::{Seen, Tally, table_tally};
use std::alloc::Global;
use std::sync::ledger::Ledger;

/// The table of the shapes that the rows of an expression have in one text, where there are not too many.
fn text_shapes(
    work: &mut Work,
    expr: &Expr,
    ready: &PreparedExpr,
    segment: &Segment,
    automaton: &Automaton,
    sighted: &mut Sighted,
    text: u32,
) -> Result<Option<Vec<Entry>>, NoMemory>
    requires text { text < length segment.now.texts }
    requires ready { IsReady segment.now (shape expr.now) ready.now }
    requires automaton { IsOf (shape expr.now) automaton.now }
    requires sighted { IsSighted segment.now (shape expr.now) sighted.old }
    ensures sighted { IsSighted segment.now (shape expr.now) sighted.new }
    ensures few { OnOk result (told_tokens segment.now text < 4294967295) }
    ensures fine { IfOk result (λ found. IfSome found (λ entries. Fine (told_tokens segment.now text) entries.items)) }
    ensures rows { IfOk result (λ found. IfSome found (λ entries. TellsRows entries.items (told segment.now text) (shape expr.now))) }
{
    sighted.enter(ready, segment, text)?;
    let view = sighted.view(expr, ready, segment, text);
    let _last = view.tokens();
    shapes_of_text(work, &view, automaton)
}

/// The rows and spans of a query in one text, where there are not too many shapes.
fn text_tally<L: Ledger>(
    work: &mut Work,
    seen: &mut Seen,
    query: &Query,
    ready: &PreparedExpr,
    segment: &Segment,
    automaton: &Automaton,
    sighted: &mut Sighted,
    text: u32,
    room: u32,
    steps: &mut Steps<L>,
) -> Result<Option<Tally>, EvalError>
    requires text { text < length segment.now.texts }
    requires query { IsFor segment.now query.now }
    requires ready { IsReady segment.now query.now.head ready.now }
    requires automaton { IsOf query.now.head automaton.now }
    requires sighted { IsSighted segment.now query.now.head sighted.old }
    ensures sighted { IsSighted segment.now query.now.head sighted.new }
    ensures tally { IfOk result (λ found. IfSome found (λ tally. HasTallyIn segment.now (text ∷ []) query.now tally.rows tally.spans)) }
    ensures within { IfOk result (λ found. IfSome found (λ tally. tally.rows ≤ room)) }
    ensures too_many { IsErrOf result EvalError.TooManyRows → HasMore (IsRowIn segment.now (text ∷ []) query.now.head) room }
    ensures rises { steps.old ≤ steps.new }
{
    labels_are_inside();
    let expr = query.head();
    let found = text_shapes(work, expr, ready, segment, automaton, sighted, text)?;
    let Some(entries) = found else {
        return Ok(None);
    };
    let conds = query.conds().as_slice();
    let (first, end) = segment.text_bounds(text);
    let last = end - first;
    let result = table_tally(seen, segment, text, last, &entries, conds, room, steps);
    work.give_back(entries);
    match result {
        Ok(tally) => Ok(Some(tally)),
        Err(error) => Err(error),
    }
}

/// The rows and spans of a query in the texts, one text after another, where there are not too many shapes in any.
fn texts_tally<L: Ledger>(
    alloc: Global,
    query: &Query,
    ready: &PreparedExpr,
    segment: &Segment,
    texts: &[u32],
    automaton: &Automaton,
    sighted: &mut Sighted,
    room: u32,
    steps: &mut Steps<L>,
) -> Result<Option<Tally>, EvalError>
    requires query { IsFor segment.now query.now }
    requires texts { AreTexts segment.now texts.now }
    requires ready { IsReady segment.now query.now.head ready.now }
    requires automaton { IsOf query.now.head automaton.now }
    requires sighted { IsSighted segment.now query.now.head sighted.old }
    ensures tally { IfOk result (λ found. IfSome found (λ tally. HasTallyIn segment.now texts.now query.now tally.rows tally.spans)) }
    ensures within { IfOk result (λ found. IfSome found (λ tally. tally.rows ≤ room)) }
    ensures too_many { IsErrOf result EvalError.TooManyRows → HasMore (IsRowIn segment.now texts.now query.now.head) room }
    ensures rises { steps.old ≤ steps.new }
{
    let mut work = Work::new(alloc);
    let mut seen = Seen::new(alloc)?;
    let mut rows = 0;
    let mut spans = 0;
    for text in texts {
        let left = room - rows as u32;
        let found = text_tally(
            &mut work, &mut seen, query, ready, segment, automaton, sighted, *text, left, steps,
        )?;
        let Some(tally) = found else {
            return Ok(None);
        };
        rows += tally.rows;
        spans += tally.spans;
    }
    Ok(Some(Tally { rows, spans }))
}

/// Whether there may be too many shapes in the first of some texts.
fn has_many(automaton: &Automaton, segment: &Segment, texts: &[u32]) -> bool
    requires { AreTexts segment.now texts.now }
{
    if texts.is_empty() {
        return false;
    }
    let (first, end) = segment.text_bounds(texts[0]);
    may_have_many(automaton, end - first)
}

/// The rows and spans of a query without filters in the texts, where there are not too many shapes. Rows of values that are known for the segment are not found again.
pub(crate) fn shaped_tally<L: Ledger>(
    alloc: Global,
    query: &Query,
    prepared: &Prepared,
    segment: &Segment,
    texts: &[u32],
    room: u32,
    known: &mut KnownRows,
    steps: &mut Steps<L>,
) -> Result<Option<Tally>, EvalError>
    requires query { IsFor segment.now query.now }
    requires prepared { IsPrepared segment.now query.now prepared.now }
    requires texts { AreTexts segment.now texts.now }
    requires known { AreKnownIn segment.now known.old }
    ensures known { AreKnownIn segment.now known.new }
    ensures tally { IfOk result (λ found. IfSome found (λ tally. HasTallyIn segment.now texts.now query.now tally.rows tally.spans)) }
    ensures within { IfOk result (λ found. IfSome found (λ tally. tally.rows ≤ room)) }
    ensures too_many { IsErrOf result EvalError.TooManyRows → HasMore (IsRowIn segment.now texts.now query.now.head) room }
    ensures rises { steps.old ≤ steps.new }
{
    labels_stand();
    let expr = query.head();
    let ready = prepared.exprs.get(0);
    let automaton = Automaton::compile(alloc, expr)?;
    if has_many(&automaton, segment, texts) {
        return Ok(None);
    }
    let mut pool = Pool::new(alloc);
    let mut sighted = Sighted::new(alloc, &mut pool, known, expr, ready, segment, steps)?;
    texts_tally(
        alloc,
        query,
        ready,
        segment,
        texts,
        &automaton,
        &mut sighted,
        room,
        steps,
    )
}
