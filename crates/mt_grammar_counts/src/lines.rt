//! The rows of all queries of a sketch grammar in one text.

ghost use Rattle.std.specs.Prelude.{[], ◌∷◌, ◌++◌, List as Items, IfSome, MatchOption, OnOk, IsErrOf};
ghost use Rattle.std.specs.List.{All, Contains};
ghost use Rattle.mt_text_spec.specs.Texts as texts;
ghost use Rattle.mt_text_spec.specs.Queries as queries;
ghost use Rattle.mt_match_spec.specs.Values.{Images};
ghost use Rattle.mt_match_spec.specs.Kept.{Over};
ghost use Rattle.mt_count_spec.specs.Counts.{HasRoom};
ghost use Rattle.mt_eval_spec.specs.Told.{told_tokens};
ghost use Rattle.mt_prepare.specs.KnownRows.{AreKnownIn};
ghost use Rattle.mt_instances.specs.Gains.{LabelsLie};
ghost use Rattle.mt_instances.specs.Laws.{AreOfLines, Line};
ghost use Rattle.mt_grammar_counts.specs.Collecting.{AreButOne, IsReadyGrammar, IsReadyRelation, Knows, OnlyGives, all_lines, lines_of};
ghost use Rattle.mt_grammar_counts.specs.Told.{AllFit, HasNoRoom, IsTextIn, SomeIsOver, Tells};

use super::error::CountError;
use super::query::{Scratch, TextOf, Waiting, add_query, tell};
use mt_base::{List, NoMemory, Steps};
use mt_grammar::{Grammar, Relation};
use mt_instances::Collector;
use mt_prepare::Prepared;
use std::alloc::Global;
use std::sync::ledger::Ledger;
use std::thread::Threads;

/// Lists the rows of each query of a relation in a text, and tells the collector those that waited before, and all of these but the last ones.
fn add_relation<'a, R: Threads + Sync, L: Ledger>(
    rt: &R,
    alloc: Global,
    relation: &'a Relation,
    prepared: &[Prepared],
    text: &TextOf<'_>,
    collector: &mut Collector<'_>,
    waiting: &mut Option<Waiting<'a>>,
    scratch: &mut Scratch,
    steps: &mut Steps<L>,
) -> Result<(), CountError>
    requires text { IsTextIn text.now.registry.now text.now.segment.now text.now.number text.now.listed.now }
    requires fit { AllFit text.now.registry.now relation.now }
    requires prepared { IsReadyRelation text.now.segment.now relation.now prepared.now }
    requires known { Knows text.now.segment.now text.now.registry.now.ws_attr text.now.number collector.old }
    requires waiting { IfSome waiting.old (λ w. LabelsLie w.rows (told_tokens text.now.segment.now text.now.number)) }
    requires rows { AreKnownIn text.now.segment.now scratch.old.lists.known }
    ensures rows { AreKnownIn text.now.segment.now scratch.new.lists.known }
    ensures only { OnlyGives collector.old collector.new }
    ensures waiting { IfSome waiting.new (λ w. LabelsLie w.rows (told_tokens text.now.segment.now text.now.number)) }
    ensures given { (images : Images) (of : texts.Text) (lines : Items Line) → Tells images text.now.registry.now text.now.segment.now text.now.number of
        → MatchOption waiting.old (AreOfLines images text.now.registry.now of lines collector.old.given)
        (λ w. AreButOne images text.now.registry.now of text.now.segment.now text.now.number lines w.relation.now w.rows collector.old.given)
        → OnOk result (MatchOption waiting.new (AreOfLines images text.now.registry.now of (lines ++ lines_of relation.now) collector.new.given)
        (λ w. AreButOne images text.now.registry.now of text.now.segment.now text.now.number (lines ++ lines_of relation.now) w.relation.now w.rows collector.new.given)) }
    ensures room { (images : Images) (of : texts.Text) → Tells images text.now.registry.now text.now.segment.now text.now.number of
        → OnOk result ((query : queries.Query) → Contains relation.now.queries query → ¬ Over images text.now.registry.now (of ∷ []) query) }
    ensures too_many { (images : Images) (of : texts.Text) → Tells images text.now.registry.now text.now.segment.now text.now.number of
        → IsErrOf result CountError.TooManyRows → SomeIsOver images text.now.registry.now of relation.now.queries }
{
    let queries = relation.queries();
    for i in 0..queries.len() {
        let query = queries.get(i);
        add_query(
            rt,
            alloc,
            relation,
            query,
            &prepared[i],
            text,
            collector,
            waiting,
            scratch,
            steps,
        )?;
    }
    Ok(())
}

/// Tells the collector the rows that wait, if there are any.
fn tell_last(
    waiting: Option<Waiting<'_>>,
    text: &TextOf<'_>,
    collector: &mut Collector<'_>,
    scratch: &mut Scratch,
) -> Result<(), NoMemory>
    requires text { IsTextIn text.now.registry.now text.now.segment.now text.now.number text.now.listed.now }
    requires known { Knows text.now.segment.now text.now.registry.now.ws_attr text.now.number collector.old }
    requires waiting { IfSome waiting (λ w. LabelsLie w.rows (told_tokens text.now.segment.now text.now.number)) }
    requires rows { AreKnownIn text.now.segment.now scratch.old.lists.known }
    ensures rows { AreKnownIn text.now.segment.now scratch.new.lists.known }
    ensures only { OnlyGives collector.old collector.new }
    ensures given { (images : Images) (of : texts.Text) (lines : Items Line) → Tells images text.now.registry.now text.now.segment.now text.now.number of
        → MatchOption waiting.entry (AreOfLines images text.now.registry.now of lines collector.old.given)
        (λ w. AreButOne images text.now.registry.now of text.now.segment.now text.now.number lines w.relation.now w.rows collector.old.given)
        → OnOk result (AreOfLines images text.now.registry.now of lines collector.new.given) }
{
    match waiting {
        None => Ok(()),
        Some(last) => {
            tell(last.relation, &last.rows, text, collector)?;
            scratch.lists.take_back(last.rows);
            Ok(())
        }
    }
}

/// Tells the collector the rows of each query of a grammar in a text. Where they are many, those of the next query are listed meanwhile.
pub(crate) fn add_lines<R: Threads + Sync, L: Ledger>(
    rt: &R,
    alloc: Global,
    grammar: &Grammar,
    prepared: &[Prepared],
    text: &TextOf<'_>,
    collector: &mut Collector<'_>,
    scratch: &mut Scratch,
    steps: &mut Steps<L>,
) -> Result<(), CountError>
    requires text { IsTextIn text.now.registry.now text.now.segment.now text.now.number text.now.listed.now }
    requires fit { All (AllFit text.now.registry.now) grammar.now.relations }
    requires prepared { IsReadyGrammar text.now.segment.now grammar.now prepared.now }
    requires known { Knows text.now.segment.now text.now.registry.now.ws_attr text.now.number collector.old }
    requires rows { AreKnownIn text.now.segment.now scratch.old.lists.known }
    ensures rows { AreKnownIn text.now.segment.now scratch.new.lists.known }
    ensures only { OnlyGives collector.old collector.new }
    ensures given { (images : Images) (of : texts.Text) → Tells images text.now.registry.now text.now.segment.now text.now.number of
        → AreOfLines images text.now.registry.now of [] collector.old.given
        → OnOk result (AreOfLines images text.now.registry.now of (all_lines grammar.now) collector.new.given) }
    ensures room { (images : Images) (of : texts.Text) → Tells images text.now.registry.now text.now.segment.now text.now.number of
        → OnOk result (HasRoom images text.now.registry.now grammar.now (of ∷ [])) }
    ensures too_many { (images : Images) (of : texts.Text) → Tells images text.now.registry.now text.now.segment.now text.now.number of
        → IsErrOf result CountError.TooManyRows → HasNoRoom images text.now.registry.now grammar.now (of ∷ []) }
{
    let relations = grammar.relations();
    let mut from = 0;
    let mut waiting = None;
    for i in 0..relations.len() {
        let relation = relations.get(i);
        let behind = from + relation.queries().len();
        let ready = &prepared[from..behind];
        add_relation(
            rt,
            alloc,
            relation,
            ready,
            text,
            collector,
            &mut waiting,
            scratch,
            steps,
        )?;
        from = behind;
    }
    tell_last(waiting, text, collector, scratch)?;
    Ok(())
}
