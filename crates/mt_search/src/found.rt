//! What is found in the texts so far.

ghost use Rattle.std.specs.Prelude.{◌≡◌, ◌+◌, ◌-◌, ◌≤◌, ◌++◌, [], List as Items, length, IfOk, OnOk, IsErrOf};
ghost use Rattle.mt_text_spec.specs.Registries as registries;
ghost use Rattle.mt_text_spec.specs.Texts as spec;
ghost use Rattle.mt_match_spec.specs.Values.{Images};
ghost use Rattle.mt_eval_spec.specs.Told.{IsFor};
ghost use Rattle.mt_eval_spec.specs.Asked.{query_patterns};
ghost use Rattle.mt_eval_spec.specs.RowsIn.{heads};
ghost use Rattle.mt_eval_spec.specs.Literals.{IsPlain};
ghost use Rattle.mt_eval.specs.Runs.{AreTexts};
ghost use Rattle.mt_corpus_spec.specs.Groups.{Group, live_texts};
ghost use Rattle.mt_corpus_laws.specs.Joined.{SomeHasTooMany};
ghost use Rattle.mt_search.specs.Finds.{AreInOrder, Finds, IsNext};
ghost use Rattle.mt_search.specs.Steps.{TakesIn};

use super::placing::add_placed;
use super::rooms::whole_rooms;
use mt_base::{List, NoMemory, Steps};
use mt_corpus_laws::{kept_are_joined, rows_are_joined};
use mt_cql::Query;
use mt_decode_laws::live_texts_are_numbered;
use mt_eval::{Scratch, eval};
use mt_pattern::PatternShop;
use mt_prepare::{KnownSpans, Patterns};
use mt_rows::{EvalError, Rows};
use mt_segment::Segment;
use std::alloc::Global;
use std::sync::ledger::Ledger;

/// What is found in the first texts of a corpus.
#[derive(Drop)]
pub(crate) struct Found {
    /// The rows that the query keeps, ascending.
    pub(crate) rows: Rows,
    /// How many rows more the head and each operand may have.
    pub(crate) rooms: List<u32>,
    /// How many texts there are.
    pub(crate) texts: u32,
}

impl Found {
    /// What is found in no texts.
    pub(crate) fn new(alloc: Global, query: &Query) -> Result<Self, NoMemory>
        ensures count { IfOk result (λ found. length found.rooms ≡ length (heads query.now)) }
        ensures order { IfOk result (λ found. AreInOrder found.rows found.texts) }
        ensures finds { (images : Images) (registry : registries.Registry) → IfOk result (λ found. Finds images registry [] query.now found.rows found.rooms found.texts) }
    {
        Ok(Found {
            rows: Rows::new(alloc),
            rooms: whole_rooms(alloc, query)?,
            texts: 0,
        })
    }

    /// Adds what is found in the texts of a segment that have these numbers. After an error what is found is unknown.
    pub(crate) fn add_segment<P: PatternShop, L: Ledger>(
        &mut self,
        alloc: Global,
        query: &Query,
        patterns: &mut Patterns<P>,
        segment: &Segment,
        live: &List<u32>,
        shop: &mut P,
        steps: &mut Steps<L>,
    ) -> Result<(), EvalError>
        requires query { IsFor segment.now query.now }
        requires patterns { patterns.old ≡ query_patterns query.now }
        requires live { AreTexts segment.now live.now }
        requires count { length self.old.rooms ≡ length (heads query.now) }
        requires order { AreInOrder self.old.rows self.old.texts }
        ensures count { OnOk result (length self.new.rooms ≡ length (heads query.now)) }
        ensures order { OnOk result (AreInOrder self.new.rows self.new.texts) }
        ensures finds { (images : Images) (registry : registries.Registry) (corpus : Items spec.Text) (group : Group) → IsNext images registry query.now group segment.now live.now
            → Finds images registry corpus query.now self.old.rows self.old.rooms self.old.texts
            → OnOk result (Finds images registry (corpus ++ live_texts group) query.now self.new.rows self.new.rooms self.new.texts) }
        ensures too_many { (images : Images) (registry : registries.Registry) (corpus : Items spec.Text) (group : Group) → IsNext images registry query.now group segment.now live.now
            → Finds images registry corpus query.now self.old.rows self.old.rooms self.old.texts
            → IsErrOf result EvalError.TooManyRows → SomeHasTooMany images registry (corpus ++ live_texts group) (heads query.now) }
        ensures patterns { patterns.new ≡ patterns.old }
        ensures shop { P.refused shop.new ≡ P.refused shop.old }
        ensures rises { steps.old ≤ steps.new }
        ensures takes { IsPlain query.now → TakesIn query.now segment.now (steps.new - steps.old) }
    {
        kept_are_joined();
        rows_are_joined();
        live_texts_are_numbered();
        let mut spans = KnownSpans::new(alloc);
        let prepared = patterns.prepare(alloc, query, segment, &mut spans, shop, steps)?;
        let rows = eval(
            alloc,
            query,
            &prepared,
            segment,
            live,
            &mut self.rooms,
            &mut Scratch::new(alloc, 0),
            steps,
        )?;
        let texts = number_behind(self.texts, live.len())?;
        add_placed(&mut self.rows, rows, live.as_slice(), self.texts)?;
        self.texts = texts;
        Ok(())
    }
}

/// How many texts there are with so many more. More than a row can number, which are far more than a corpus holds, are refused as want of memory.
fn number_behind(texts: u32, more: usize) -> Result<u32, NoMemory>
    ensures number { IfOk result (λ number. number ≡ texts + more) }
    ensures room { OnOk result (texts + more ≤ 4294967295) }
{
    if more > (u32::MAX - texts) as usize {
        return Err(NoMemory);
    }
    Ok(texts + more as u32)
}
