//! Counting texts of a segment, one after another.

ghost use Rattle.std.specs.Prelude.{◌≡◌, [], ◌∷◌, ◌++◌, ◌<◌, length, List as Items, None, OnOk, IsErrOf};
ghost use Rattle.std.specs.List.{All};
ghost use Rattle.mt_text_spec.specs.Texts as texts;
ghost use Rattle.mt_match_spec.specs.Values.{Images};
ghost use Rattle.mt_count_spec.specs.Counts.{HasRoom};
ghost use Rattle.mt_segment_spec.specs.Tables.{AreTablesUnder, tables_at};
ghost use Rattle.mt_eval.specs.Runs.{AreTexts};
ghost use Rattle.mt_prepare.specs.KnownRows.{AreKnownIn};
ghost use Rattle.mt_triples.specs.CountsOf.{AreCountsOf};
ghost use Rattle.mt_grammar_counts.specs.Collecting.{IsFresh, IsReadyGrammar, Knows};
ghost use Rattle.mt_grammar_counts.specs.Told.{AllFit, HasNoRoom, IsTextIn, TellAll, Tells};

use super::error::CountError;
use super::lines::add_lines;
use super::query::{Scratch, TextOf};
use mt_base::{List, NoMemory, Registry, Steps};
use mt_grammar::Grammar;
use mt_instances::{Collector, none_are_given, text_is_counted};
use mt_prepare::Prepared;
use mt_segment::Segment;
use mt_segment_laws::{numbers_stand_for_values, tables_are_whole, tokens_stand_in_texts};
use std::alloc::Global;
use std::sync::ledger::Ledger;
use std::thread::Threads;

/// Tells the collector the number of the value at each place of a text.
fn add_places<L: Ledger>(
    text: &TextOf<'_>,
    collector: &mut Collector<'_>,
    steps: &mut Steps<L>,
) -> Result<(), NoMemory>
    requires text { IsTextIn text.now.registry.now text.now.segment.now text.now.number text.now.listed.now }
    requires fresh { IsFresh text.now.segment.now text.now.registry.now.ws_attr collector.old }
    ensures known { OnOk result (Knows text.now.segment.now text.now.registry.now.ws_attr text.now.number collector.new) }
    ensures given { OnOk result (collector.new.given ≡ []) }
    ensures counted { collector.new.counted ≡ collector.old.counted }
{
    let (begin, end) = text.segment.text_bounds(text.number);
    collector.make_room((end - begin) as usize)?;
    let attr = text.registry.ws_attr();
    match text.segment.base(attr) {
        None => add_base_places(text, attr, collector, steps),
        Some(_) => add_mapped_places(text, attr, collector, steps),
    }
}

/// The same, where the attribute is a base attribute: from its column.
fn add_base_places<L: Ledger>(
    text: &TextOf<'_>,
    attr: u16,
    collector: &mut Collector<'_>,
    steps: &mut Steps<L>,
) -> Result<(), NoMemory>
    requires text { IsTextIn text.now.registry.now text.now.segment.now text.now.number text.now.listed.now }
    requires fresh { IsFresh text.now.segment.now text.now.registry.now.ws_attr collector.old }
    requires attr { attr ≡ text.now.registry.now.ws_attr }
    requires base { (tables_at text.now.segment.now.attrs attr).base ≡ None }
    ensures known { OnOk result (Knows text.now.segment.now text.now.registry.now.ws_attr text.now.number collector.new) }
    ensures given { OnOk result (collector.new.given ≡ []) }
    ensures counted { collector.new.counted ≡ collector.old.counted }
{
    tables_are_whole();
    let column = text.segment.column(attr);
    let (begin, end) = text.segment.text_bounds(text.number);
    for place in begin..end {
        let number = column.get(place, steps);
        collector.add_place(number)?;
    }
    Ok(())
}

/// The same, where it is a mapped attribute: each number by that of its base.
fn add_mapped_places<L: Ledger>(
    text: &TextOf<'_>,
    attr: u16,
    collector: &mut Collector<'_>,
    steps: &mut Steps<L>,
) -> Result<(), NoMemory>
    requires text { IsTextIn text.now.registry.now text.now.segment.now text.now.number text.now.listed.now }
    requires fresh { IsFresh text.now.segment.now text.now.registry.now.ws_attr collector.old }
    requires attr { attr ≡ text.now.registry.now.ws_attr }
    ensures known { OnOk result (Knows text.now.segment.now text.now.registry.now.ws_attr text.now.number collector.new) }
    ensures given { OnOk result (collector.new.given ≡ []) }
    ensures counted { collector.new.counted ≡ collector.old.counted }
{
    let (begin, end) = text.segment.text_bounds(text.number);
    for place in begin..end {
        let number = text.segment.value_id(attr, place, steps);
        collector.add_place(number)?;
    }
    Ok(())
}

/// Counts a text.
fn add_text<R: Threads + Sync, L: Ledger>(
    rt: &R,
    alloc: Global,
    grammar: &Grammar,
    prepared: &[Prepared],
    text: &TextOf<'_>,
    collector: &mut Collector<'_>,
    scratch: &mut Scratch,
    steps: &mut Steps<L>,
) -> Result<(), CountError>
    requires text { IsTextIn text.now.registry.now text.now.segment.now text.now.number text.now.listed.now }
    requires fit { All (AllFit text.now.registry.now) grammar.now.relations }
    requires prepared { IsReadyGrammar text.now.segment.now grammar.now prepared.now }
    requires fresh { IsFresh text.now.segment.now text.now.registry.now.ws_attr collector.old }
    requires rows { AreKnownIn text.now.segment.now scratch.old.lists.known }
    ensures rows { AreKnownIn text.now.segment.now scratch.new.lists.known }
    ensures fresh { OnOk result (IsFresh text.now.segment.now text.now.registry.now.ws_attr collector.new) }
    ensures counts { (images : Images) (of : texts.Text) (done : Items texts.Text) → Tells images text.now.registry.now text.now.segment.now text.now.number of
        → AreCountsOf images text.now.registry.now grammar.now done collector.old.counted
        → OnOk result (AreCountsOf images text.now.registry.now grammar.now (done ++ of ∷ []) collector.new.counted) }
    ensures room { (images : Images) (of : texts.Text) → Tells images text.now.registry.now text.now.segment.now text.now.number of
        → OnOk result (HasRoom images text.now.registry.now grammar.now (of ∷ [])) }
    ensures too_many { (images : Images) (of : texts.Text) → Tells images text.now.registry.now text.now.segment.now text.now.number of
        → IsErrOf result CountError.TooManyRows → HasNoRoom images text.now.registry.now grammar.now (of ∷ []) }
{
    none_are_given();
    text_is_counted();
    numbers_stand_for_values();
    tokens_stand_in_texts();
    add_places(text, collector, steps)?;
    add_lines(
        rt, alloc, grammar, prepared, text, collector, scratch, steps,
    )?;
    collector.finish_text()?;
    Ok(())
}

/// Makes a list one of this number alone.
fn list_alone(listed: &mut List<u32>, number: u32) -> Result<(), NoMemory>
    ensures { OnOk result (listed.new ≡ number ∷ []) }
{
    listed.truncate(0);
    listed.push(number)
}

/// Counts the text of a segment that has this number.
fn add_number<R: Threads + Sync, L: Ledger>(
    rt: &R,
    alloc: Global,
    registry: &Registry,
    grammar: &Grammar,
    prepared: &[Prepared],
    segment: &Segment,
    number: u32,
    collector: &mut Collector<'_>,
    listed: &mut List<u32>,
    scratch: &mut Scratch,
    steps: &mut Steps<L>,
) -> Result<(), CountError>
    requires under { AreTablesUnder registry.now segment.now }
    requires number { number < length segment.now.texts }
    requires fit { All (AllFit registry.now) grammar.now.relations }
    requires prepared { IsReadyGrammar segment.now grammar.now prepared.now }
    requires fresh { IsFresh segment.now registry.now.ws_attr collector.old }
    requires rows { AreKnownIn segment.now scratch.old.lists.known }
    ensures rows { AreKnownIn segment.now scratch.new.lists.known }
    ensures fresh { OnOk result (IsFresh segment.now registry.now.ws_attr collector.new) }
    ensures counts { (images : Images) (of : texts.Text) (done : Items texts.Text) → Tells images registry.now segment.now number of → AreCountsOf images registry.now grammar.now done collector.old.counted
        → OnOk result (AreCountsOf images registry.now grammar.now (done ++ of ∷ []) collector.new.counted) }
    ensures room { (images : Images) (of : texts.Text) → Tells images registry.now segment.now number of → OnOk result (HasRoom images registry.now grammar.now (of ∷ [])) }
    ensures too_many { (images : Images) (of : texts.Text) → Tells images registry.now segment.now number of → IsErrOf result CountError.TooManyRows → HasNoRoom images registry.now grammar.now (of ∷ []) }
{
    list_alone(listed, number)?;
    let text = TextOf {
        registry,
        segment,
        number,
        listed,
    };
    add_text(
        rt, alloc, grammar, prepared, &text, collector, scratch, steps,
    )
}

/// Counts the texts of a segment that have these numbers, each by itself.
pub(crate) fn add_texts<R: Threads + Sync, L: Ledger>(
    rt: &R,
    alloc: Global,
    registry: &Registry,
    grammar: &Grammar,
    prepared: &[Prepared],
    segment: &Segment,
    numbers: &[u32],
    collector: &mut Collector<'_>,
    listed: &mut List<u32>,
    scratch: &mut Scratch,
    steps: &mut Steps<L>,
) -> Result<(), CountError>
    requires under { AreTablesUnder registry.now segment.now }
    requires numbers { AreTexts segment.now numbers.now }
    requires fit { All (AllFit registry.now) grammar.now.relations }
    requires prepared { IsReadyGrammar segment.now grammar.now prepared.now }
    requires fresh { IsFresh segment.now registry.now.ws_attr collector.old }
    requires rows { AreKnownIn segment.now scratch.old.lists.known }
    ensures rows { AreKnownIn segment.now scratch.new.lists.known }
    ensures counts { (images : Images) (of : Items texts.Text) (done : Items texts.Text) → TellAll images registry.now segment.now numbers.now of → AreCountsOf images registry.now grammar.now done collector.old.counted
        → OnOk result (AreCountsOf images registry.now grammar.now (done ++ of) collector.new.counted) }
    ensures room { (images : Images) (of : Items texts.Text) → TellAll images registry.now segment.now numbers.now of → OnOk result (HasRoom images registry.now grammar.now of) }
    ensures too_many { (images : Images) (of : Items texts.Text) → TellAll images registry.now segment.now numbers.now of → IsErrOf result CountError.TooManyRows → HasNoRoom images registry.now grammar.now of }
{
    for k in 0..numbers.len() {
        let number = numbers[k];
        add_number(
            rt, alloc, registry, grammar, prepared, segment, number, collector, listed, scratch,
            steps,
        )?;
    }
    Ok(())
}
