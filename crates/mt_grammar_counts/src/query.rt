//! The rows of one query in one text.

ghost use Rattle.std.specs.Prelude.{◌≡◌, [], ◌∷◌, ◌++◌, List as Items, replicate, None, IfOk, IfSome, MatchOption, OnOk, IsErrOf};
ghost use Rattle.mt_text_spec.specs.Texts as texts;
ghost use Rattle.mt_match_spec.specs.Values.{Images};
ghost use Rattle.mt_match_spec.specs.Kept.{Over, operand_rows_limit};
ghost use Rattle.mt_eval_spec.specs.Told.{told_tokens};
ghost use Rattle.mt_eval_spec.specs.Fits.{Fits};
ghost use Rattle.mt_eval_spec.specs.RowsIn.{KeptIn};
ghost use Rattle.mt_prepare.specs.KnownRows.{AreKnownIn};
ghost use Rattle.mt_prepare.specs.Prepared.{IsPrepared};
ghost use Rattle.mt_instances.specs.Gains.{LabelsLie};
ghost use Rattle.mt_instances.specs.Laws.{AreOfLines, Line};
ghost use Rattle.mt_grammar_counts.specs.Collecting.{AreButOne, Knows, OnlyGives, line_of};
ghost use Rattle.mt_grammar_counts.specs.Told.{IsTextIn, Tells};

use super::error::CountError;
use mt_base::{List, NoMemory, Registry, Steps};
use mt_corpus_laws::{kept_are_joined, over_is_some, rows_are_joined};
use mt_cql::Query;
use mt_decode_laws::{live_texts_are_numbered, numbers_are_live};
use mt_eval::eval;
use mt_eval_laws::labels_are_inside;
use mt_grammar::Relation;
use mt_instances::{Collector, lines_go_on};
use mt_match_laws::rows_are_one;
use mt_prepare::Prepared;
use mt_rows::{EvalError, RowList};
use mt_segment::Segment;
use mt_segment_laws::{numbers_stand_for_values, tokens_stand_in_texts};
use rayon::{current_num_threads, join_mut};
use std::alloc::Global;
use std::sync::ledger::Ledger;
use std::thread::Threads;

/// The most rows of a head or of an operand in a text.
const OPERAND_ROWS_LIMIT: u32 = 4_194_304;

/// A text of a segment, by its number and by a list of this number alone.
#[derive(Clone, Copy, Drop)]
pub(crate) struct TextOf<'a> {
    pub(crate) registry: &'a Registry,
    pub(crate) segment: &'a Segment,
    pub(crate) number: u32,
    pub(crate) listed: &'a List<u32>,
}

/// What the queries use one after another: rooms that are made whole again for each, and the lists of the evaluation, with the rows of the segment that are known so far.
#[derive(Drop)]
pub(crate) struct Scratch {
    pub(crate) rooms: List<u32>,
    pub(crate) lists: mt_eval::Scratch,
}

/// Makes the rooms of a head and of operands, so many in all, whole again.
fn make_whole(rooms: &mut List<u32>, count: usize) -> Result<(), NoMemory>
    ensures { OnOk result (rooms.new ≡ replicate count operand_rows_limit) }
{
    rooms.truncate(0);
    'fill: while rooms.len() < count {
        rooms.push(OPERAND_ROWS_LIMIT)?;
    }
    Ok(())
}

/// The rows that a query keeps in a text by itself.
fn rows_of<L: Ledger>(
    alloc: Global,
    query: &Query,
    prepared: &Prepared,
    text: &TextOf<'_>,
    scratch: &mut Scratch,
    steps: &mut Steps<L>,
) -> Result<RowList, CountError>
    requires text { IsTextIn text.now.registry.now text.now.segment.now text.now.number text.now.listed.now }
    requires fits { Fits text.now.registry.now query.now }
    requires prepared { IsPrepared text.now.segment.now query.now prepared.now }
    requires rows { AreKnownIn text.now.segment.now scratch.old.lists.known }
    ensures rows { AreKnownIn text.now.segment.now scratch.new.lists.known }
    ensures kept { IfOk result (KeptIn text.now.segment.now (text.now.number ∷ []) query.now) }
    ensures room { (images : Images) (of : texts.Text) → Tells images text.now.registry.now text.now.segment.now text.now.number of
        → OnOk result (¬ Over images text.now.registry.now (of ∷ []) query.now) }
    ensures too_many { (images : Images) (of : texts.Text) → Tells images text.now.registry.now text.now.segment.now text.now.number of
        → IsErrOf result CountError.TooManyRows → Over images text.now.registry.now (of ∷ []) query.now }
{
    rows_are_joined();
    live_texts_are_numbered();
    numbers_are_live();
    over_is_some();
    rows_are_one();
    make_whole(&mut scratch.rooms, prepared.exprs.len())?;
    match eval(
        alloc,
        query,
        prepared,
        text.segment,
        text.listed,
        &mut scratch.rooms,
        &mut scratch.lists,
        steps,
    ) {
        Ok(rows) => Ok(rows),
        Err(EvalError::TooManyRows) => Err(CountError::TooManyRows),
        Err(EvalError::NoMemory) => Err(CountError::NoMemory),
    }
}

/// The many rows that a query of a relation keeps in a text, which are not told yet.
#[derive(Drop)]
pub(crate) struct Waiting<'a> {
    pub(crate) relation: &'a Relation,
    pub(crate) rows: RowList,
}

/// Tells the collector rows that a query of a relation keeps in a text. After an error what is given is unknown.
pub(crate) fn tell(
    relation: &Relation,
    rows: &RowList,
    text: &TextOf<'_>,
    collector: &mut Collector<'_>,
) -> Result<(), NoMemory>
    requires text { IsTextIn text.now.registry.now text.now.segment.now text.now.number text.now.listed.now }
    requires known { Knows text.now.segment.now text.now.registry.now.ws_attr text.now.number collector.old }
    requires lie { LabelsLie rows.now (told_tokens text.now.segment.now text.now.number) }
    ensures only { OnlyGives collector.old collector.new }
    ensures given { (images : Images) (of : texts.Text) (lines : Items Line) → Tells images text.now.registry.now text.now.segment.now text.now.number of
        → AreButOne images text.now.registry.now of text.now.segment.now text.now.number lines relation.now rows.now collector.old.given
        → OnOk result (AreOfLines images text.now.registry.now of lines collector.new.given) }
{
    kept_are_joined();
    live_texts_are_numbered();
    numbers_are_live();
    lines_go_on();
    numbers_stand_for_values();
    tokens_stand_in_texts();
    collector.add_rows(relation, rows)?;
    Ok(())
}

/// The rows that a query keeps in a text by itself. Another thread tells the collector those that wait meanwhile.
fn tell_meanwhile<R: Threads + Sync, L: Ledger>(
    rt: &R,
    alloc: Global,
    waiting: &Waiting<'_>,
    query: &Query,
    prepared: &Prepared,
    text: &TextOf<'_>,
    collector: &mut Collector<'_>,
    scratch: &mut Scratch,
    steps: &mut Steps<L>,
) -> (Result<(), NoMemory>, Result<RowList, CountError>)
    requires text { IsTextIn text.now.registry.now text.now.segment.now text.now.number text.now.listed.now }
    requires fits { Fits text.now.registry.now query.now }
    requires prepared { IsPrepared text.now.segment.now query.now prepared.now }
    requires known { Knows text.now.segment.now text.now.registry.now.ws_attr text.now.number collector.old }
    requires lie { LabelsLie waiting.now.rows (told_tokens text.now.segment.now text.now.number) }
    requires rows { AreKnownIn text.now.segment.now scratch.old.lists.known }
    ensures rows { AreKnownIn text.now.segment.now scratch.new.lists.known }
    ensures only { OnlyGives collector.old collector.new }
    ensures given { (images : Images) (of : texts.Text) (lines : Items Line) → Tells images text.now.registry.now text.now.segment.now text.now.number of
        → AreButOne images text.now.registry.now of text.now.segment.now text.now.number lines waiting.now.relation.now waiting.now.rows collector.old.given
        → OnOk result.0 (AreOfLines images text.now.registry.now of lines collector.new.given) }
    ensures kept { IfOk result.1 (KeptIn text.now.segment.now (text.now.number ∷ []) query.now) }
    ensures room { (images : Images) (of : texts.Text) → Tells images text.now.registry.now text.now.segment.now text.now.number of
        → OnOk result.1 (¬ Over images text.now.registry.now (of ∷ []) query.now) }
    ensures too_many { (images : Images) (of : texts.Text) → Tells images text.now.registry.now text.now.segment.now text.now.number of
        → IsErrOf result.1 CountError.TooManyRows → Over images text.now.registry.now (of ∷ []) query.now }
{
    join_mut(
        rt,
        &mut || tell(waiting.relation, &waiting.rows, text, collector),
        &mut || rows_of(alloc, query, prepared, text, scratch, steps),
    )
}

/// So many rows take a millisecond or so to tell, far longer than starting a thread does.
const MANY: usize = 1 << 15;

/// The rows that a query keeps in a text by itself. The collector is told those that wait, where they are many by another thread meanwhile. After an error what is given
/// is unknown.
fn tell_and_list<R: Threads + Sync, L: Ledger>(
    rt: &R,
    alloc: Global,
    waiting: &Waiting<'_>,
    query: &Query,
    prepared: &Prepared,
    text: &TextOf<'_>,
    collector: &mut Collector<'_>,
    scratch: &mut Scratch,
    steps: &mut Steps<L>,
) -> Result<RowList, CountError>
    requires text { IsTextIn text.now.registry.now text.now.segment.now text.now.number text.now.listed.now }
    requires fits { Fits text.now.registry.now query.now }
    requires prepared { IsPrepared text.now.segment.now query.now prepared.now }
    requires known { Knows text.now.segment.now text.now.registry.now.ws_attr text.now.number collector.old }
    requires lie { LabelsLie waiting.now.rows (told_tokens text.now.segment.now text.now.number) }
    requires rows { AreKnownIn text.now.segment.now scratch.old.lists.known }
    ensures rows { AreKnownIn text.now.segment.now scratch.new.lists.known }
    ensures only { OnlyGives collector.old collector.new }
    ensures given { (images : Images) (of : texts.Text) (lines : Items Line) → Tells images text.now.registry.now text.now.segment.now text.now.number of
        → AreButOne images text.now.registry.now of text.now.segment.now text.now.number lines waiting.now.relation.now waiting.now.rows collector.old.given
        → OnOk result (AreOfLines images text.now.registry.now of lines collector.new.given) }
    ensures kept { IfOk result (KeptIn text.now.segment.now (text.now.number ∷ []) query.now) }
    ensures room { (images : Images) (of : texts.Text) → Tells images text.now.registry.now text.now.segment.now text.now.number of
        → OnOk result (¬ Over images text.now.registry.now (of ∷ []) query.now) }
    ensures too_many { (images : Images) (of : texts.Text) → Tells images text.now.registry.now text.now.segment.now text.now.number of
        → IsErrOf result CountError.TooManyRows → Over images text.now.registry.now (of ∷ []) query.now }
{
    if waiting.rows.len() < MANY || current_num_threads(rt) < 2 {
        tell(waiting.relation, &waiting.rows, text, collector)?;
        return rows_of(alloc, query, prepared, text, scratch, steps);
    }
    let (told, rows) = tell_meanwhile(
        rt, alloc, waiting, query, prepared, text, collector, scratch, steps,
    );
    told?;
    rows
}

/// The rows that a query keeps in a text by itself. The collector is told those that wait, if any do, as `tell_and_list` tells them, and none wait any more.
#[inline(never)]
fn tell_waiting<R: Threads + Sync, L: Ledger>(
    rt: &R,
    alloc: Global,
    waiting: &mut Option<Waiting<'_>>,
    query: &Query,
    prepared: &Prepared,
    text: &TextOf<'_>,
    collector: &mut Collector<'_>,
    scratch: &mut Scratch,
    steps: &mut Steps<L>,
) -> Result<RowList, CountError>
    requires text { IsTextIn text.now.registry.now text.now.segment.now text.now.number text.now.listed.now }
    requires fits { Fits text.now.registry.now query.now }
    requires prepared { IsPrepared text.now.segment.now query.now prepared.now }
    requires known { Knows text.now.segment.now text.now.registry.now.ws_attr text.now.number collector.old }
    requires waiting { IfSome waiting.old (λ w. LabelsLie w.rows (told_tokens text.now.segment.now text.now.number)) }
    requires rows { AreKnownIn text.now.segment.now scratch.old.lists.known }
    ensures rows { AreKnownIn text.now.segment.now scratch.new.lists.known }
    ensures none { waiting.new ≡ None }
    ensures only { OnlyGives collector.old collector.new }
    ensures given { (images : Images) (of : texts.Text) (lines : Items Line) → Tells images text.now.registry.now text.now.segment.now text.now.number of
        → MatchOption waiting.old (AreOfLines images text.now.registry.now of lines collector.old.given)
        (λ w. AreButOne images text.now.registry.now of text.now.segment.now text.now.number lines w.relation.now w.rows collector.old.given)
        → OnOk result (AreOfLines images text.now.registry.now of lines collector.new.given) }
    ensures kept { IfOk result (KeptIn text.now.segment.now (text.now.number ∷ []) query.now) }
    ensures room { (images : Images) (of : texts.Text) → Tells images text.now.registry.now text.now.segment.now text.now.number of
        → OnOk result (¬ Over images text.now.registry.now (of ∷ []) query.now) }
    ensures too_many { (images : Images) (of : texts.Text) → Tells images text.now.registry.now text.now.segment.now text.now.number of
        → IsErrOf result CountError.TooManyRows → Over images text.now.registry.now (of ∷ []) query.now }
{
    match waiting.take() {
        None => rows_of(alloc, query, prepared, text, scratch, steps),
        Some(last) => {
            let rows = tell_and_list(
                rt, alloc, &last, query, prepared, text, collector, scratch, steps,
            )?;
            scratch.lists.take_back(last.rows);
            Ok(rows)
        }
    }
}

/// The rows that a query keeps in a text by itself, and none wait any more: the quick way for the many texts of which none do.
fn list_next<R: Threads + Sync, L: Ledger>(
    rt: &R,
    alloc: Global,
    waiting: &mut Option<Waiting<'_>>,
    query: &Query,
    prepared: &Prepared,
    text: &TextOf<'_>,
    collector: &mut Collector<'_>,
    scratch: &mut Scratch,
    steps: &mut Steps<L>,
) -> Result<RowList, CountError>
    requires text { IsTextIn text.now.registry.now text.now.segment.now text.now.number text.now.listed.now }
    requires fits { Fits text.now.registry.now query.now }
    requires prepared { IsPrepared text.now.segment.now query.now prepared.now }
    requires known { Knows text.now.segment.now text.now.registry.now.ws_attr text.now.number collector.old }
    requires waiting { IfSome waiting.old (λ w. LabelsLie w.rows (told_tokens text.now.segment.now text.now.number)) }
    requires rows { AreKnownIn text.now.segment.now scratch.old.lists.known }
    ensures rows { AreKnownIn text.now.segment.now scratch.new.lists.known }
    ensures none { waiting.new ≡ None }
    ensures only { OnlyGives collector.old collector.new }
    ensures given { (images : Images) (of : texts.Text) (lines : Items Line) → Tells images text.now.registry.now text.now.segment.now text.now.number of
        → MatchOption waiting.old (AreOfLines images text.now.registry.now of lines collector.old.given)
        (λ w. AreButOne images text.now.registry.now of text.now.segment.now text.now.number lines w.relation.now w.rows collector.old.given)
        → OnOk result (AreOfLines images text.now.registry.now of lines collector.new.given) }
    ensures kept { IfOk result (KeptIn text.now.segment.now (text.now.number ∷ []) query.now) }
    ensures room { (images : Images) (of : texts.Text) → Tells images text.now.registry.now text.now.segment.now text.now.number of
        → OnOk result (¬ Over images text.now.registry.now (of ∷ []) query.now) }
    ensures too_many { (images : Images) (of : texts.Text) → Tells images text.now.registry.now text.now.segment.now text.now.number of
        → IsErrOf result CountError.TooManyRows → Over images text.now.registry.now (of ∷ []) query.now }
{
    match waiting {
        None => rows_of(alloc, query, prepared, text, scratch, steps),
        Some(_) => tell_waiting(
            rt, alloc, waiting, query, prepared, text, collector, scratch, steps,
        ),
    }
}

/// Tells the collector the rows that a query of a relation keeps in a text, or lets them wait where they are many. After an error what is given is unknown.
fn settle<'a>(
    relation: &'a Relation,
    query: &Query,
    rows: RowList,
    text: &TextOf<'_>,
    collector: &mut Collector<'_>,
    waiting: &mut Option<Waiting<'a>>,
    scratch: &mut Scratch,
) -> Result<(), NoMemory>
    requires text { IsTextIn text.now.registry.now text.now.segment.now text.now.number text.now.listed.now }
    requires fits { Fits text.now.registry.now query.now }
    requires known { Knows text.now.segment.now text.now.registry.now.ws_attr text.now.number collector.old }
    requires none { waiting.old ≡ None }
    requires kept { KeptIn text.now.segment.now (text.now.number ∷ []) query.now rows }
    requires rows { AreKnownIn text.now.segment.now scratch.old.lists.known }
    ensures rows { AreKnownIn text.now.segment.now scratch.new.lists.known }
    ensures only { OnlyGives collector.old collector.new }
    ensures waiting { IfSome waiting.new (λ w. LabelsLie w.rows (told_tokens text.now.segment.now text.now.number)) }
    ensures given { (images : Images) (of : texts.Text) (lines : Items Line) → Tells images text.now.registry.now text.now.segment.now text.now.number of
        → AreOfLines images text.now.registry.now of lines collector.old.given
        → OnOk result (MatchOption waiting.new (AreOfLines images text.now.registry.now of (lines ++ line_of relation.now query.now ∷ []) collector.new.given)
        (λ w. AreButOne images text.now.registry.now of text.now.segment.now text.now.number (lines ++ line_of relation.now query.now ∷ []) w.relation.now w.rows collector.new.given)) }
{
    labels_are_inside();
    if rows.len() >= MANY {
        *waiting = Some(Waiting { relation, rows });
        return Ok(());
    }
    tell(relation, &rows, text, collector)?;
    scratch.lists.take_back(rows);
    Ok(())
}

/// Lists the rows that a query of a relation keeps in a text by itself. The collector is told those that waited before, and these, unless they are many and wait. After an
/// error what is given is unknown.
pub(crate) fn add_query<'a, R: Threads + Sync, L: Ledger>(
    rt: &R,
    alloc: Global,
    relation: &'a Relation,
    query: &Query,
    prepared: &Prepared,
    text: &TextOf<'_>,
    collector: &mut Collector<'_>,
    waiting: &mut Option<Waiting<'a>>,
    scratch: &mut Scratch,
    steps: &mut Steps<L>,
) -> Result<(), CountError>
    requires text { IsTextIn text.now.registry.now text.now.segment.now text.now.number text.now.listed.now }
    requires fits { Fits text.now.registry.now query.now }
    requires prepared { IsPrepared text.now.segment.now query.now prepared.now }
    requires known { Knows text.now.segment.now text.now.registry.now.ws_attr text.now.number collector.old }
    requires waiting { IfSome waiting.old (λ w. LabelsLie w.rows (told_tokens text.now.segment.now text.now.number)) }
    requires rows { AreKnownIn text.now.segment.now scratch.old.lists.known }
    ensures rows { AreKnownIn text.now.segment.now scratch.new.lists.known }
    ensures only { OnlyGives collector.old collector.new }
    ensures waiting { IfSome waiting.new (λ w. LabelsLie w.rows (told_tokens text.now.segment.now text.now.number)) }
    ensures given { (images : Images) (of : texts.Text) (lines : Items Line) → Tells images text.now.registry.now text.now.segment.now text.now.number of
        → MatchOption waiting.old (AreOfLines images text.now.registry.now of lines collector.old.given)
        (λ w. AreButOne images text.now.registry.now of text.now.segment.now text.now.number lines w.relation.now w.rows collector.old.given)
        → OnOk result (MatchOption waiting.new (AreOfLines images text.now.registry.now of (lines ++ line_of relation.now query.now ∷ []) collector.new.given)
        (λ w. AreButOne images text.now.registry.now of text.now.segment.now text.now.number (lines ++ line_of relation.now query.now ∷ []) w.relation.now w.rows collector.new.given)) }
    ensures room { (images : Images) (of : texts.Text) → Tells images text.now.registry.now text.now.segment.now text.now.number of
        → OnOk result (¬ Over images text.now.registry.now (of ∷ []) query.now) }
    ensures too_many { (images : Images) (of : texts.Text) → Tells images text.now.registry.now text.now.segment.now text.now.number of
        → IsErrOf result CountError.TooManyRows → Over images text.now.registry.now (of ∷ []) query.now }
{
    let rows = list_next(
        rt, alloc, waiting, query, prepared, text, collector, scratch, steps,
    )?;
    settle(relation, query, rows, text, collector, waiting, scratch)?;
    Ok(())
}
