//! Counting the texts of segments, one segment after another.

ghost use Rattle.std.specs.Prelude.{◌≡◌, [], ◌++◌, List as Items, OnOk, IsErrOf};
ghost use Rattle.mt_text_spec.specs.Texts as texts;
ghost use Rattle.mt_match_spec.specs.Values.{Images};
ghost use Rattle.mt_count_spec.specs.Counts.{HasRoom};
ghost use Rattle.mt_grammar_spec.specs.ValidGrammar.{ValidGrammar};
ghost use Rattle.mt_segment_spec.specs.Tables.{AreTablesUnder};
ghost use Rattle.mt_eval.specs.Runs.{AreTexts};
ghost use Rattle.mt_triples.specs.CountsOf.{AreCountsOf};
ghost use Rattle.mt_corpus_spec.specs.Groups.{corpus_of};
ghost use Rattle.mt_corpus_spec.specs.Images.{AreImagesBy};
ghost use Rattle.mt_grammar_counts.specs.Asked.{patterns_of};
ghost use Rattle.mt_grammar_counts.specs.Collecting.{IsFresh};
ghost use Rattle.mt_grammar_counts.specs.Told.{HasNoRoom, TellAll};

use super::error::CountError;
use super::patterns::GrammarPatterns;
use super::query::Scratch;
use super::ready_queries::ReadyQueries;
use super::text_counts::TextCounts;
use super::texts::add_texts;
use mt_base::{List, Registry, Steps};
use mt_corpus::Corpus;
use mt_corpus_laws::groups_are_told;
use mt_decode_laws::live_texts_are_numbered;
use mt_grammar::Grammar;
use mt_grammar_laws::grammar_queries_are_in_order;
use mt_instances::Collector;
use mt_pattern::PatternShop;
use mt_prepare::KnownSpans;
use mt_segment::Segment;
use mt_triples::Triples;
use std::alloc::Global;
use std::sync::ledger::Ledger;
use std::thread::Threads;

/// So many rows of a segment at most are kept for the queries that ask for the same. A row has a bit for each token of the segment.
const MOST_ROWS: usize = 32;

/// A segment with more tokens is large.
const SMALL: u32 = 512;

/// Lists that are filled again for each text and query.
#[derive(Drop)]
pub(crate) struct Buffers {
    spans: KnownSpans,
    ready: ReadyQueries,
    listed: List<u32>,
    scratch: Scratch,
}

impl Buffers {
    /// Empty ones. They take no memory.
    pub(crate) fn new(alloc: Global) -> Self {
        Buffers {
            spans: KnownSpans::new(alloc),
            ready: ReadyQueries::new(alloc),
            listed: List::new(alloc),
            scratch: Scratch {
                rooms: List::new(alloc),
                lists: mt_eval::Scratch::new(alloc, MOST_ROWS),
            },
        }
    }

    /// Whether they are so small that their memory may well be kept for other texts.
    pub(crate) fn are_small(&self) -> bool {
        self.scratch.lists.is_small()
    }

    /// Lets the queries go that are ready for a segment, where it is large: they have bits for all its values, and all its spans.
    fn let_queries_go_where_large(&mut self, alloc: Global, segment: &Segment) {
        if segment.tokens() > SMALL {
            self.spans = KnownSpans::new(alloc);
            self.ready = ReadyQueries::new(alloc);
        }
    }
}

/// Makes the queries of a grammar ready for a segment, once for all of its texts, and counts those that have these numbers, each by itself. The queries share the rows of
/// their tests.
fn add_ready<P: PatternShop, R: Threads + Sync, L: Ledger>(
    rt: &R,
    alloc: Global,
    registry: &Registry,
    grammar: &Grammar,
    patterns: &mut GrammarPatterns<P>,
    segment: &Segment,
    numbers: &[u32],
    collector: &mut Collector<'_>,
    buffers: &mut Buffers,
    shop: &mut P,
    steps: &mut Steps<L>,
) -> Result<(), CountError>
    requires under { AreTablesUnder registry.now segment.now }
    requires numbers { AreTexts segment.now numbers.now }
    requires grammar { ValidGrammar registry.now grammar.now }
    requires patterns { patterns.old ≡ patterns_of grammar.now }
    requires fresh { IsFresh segment.now registry.now.ws_attr collector.old }
    ensures counts { (images : Images) (of : Items texts.Text) (done : Items texts.Text) → TellAll images registry.now segment.now numbers.now of → AreCountsOf images registry.now grammar.now done collector.old.counted
        → OnOk result (AreCountsOf images registry.now grammar.now (done ++ of) collector.new.counted) }
    ensures room { (images : Images) (of : Items texts.Text) → TellAll images registry.now segment.now numbers.now of → OnOk result (HasRoom images registry.now grammar.now of) }
    ensures too_many { (images : Images) (of : Items texts.Text) → TellAll images registry.now segment.now numbers.now of → IsErrOf result CountError.TooManyRows → HasNoRoom images registry.now grammar.now of }
    ensures patterns { patterns.new ≡ patterns.old }
    ensures shop { P.refused shop.new ≡ P.refused shop.old }
{
    grammar_queries_are_in_order();
    patterns.prepare_all(
        alloc,
        grammar,
        segment,
        &mut buffers.spans,
        &mut buffers.ready,
        shop,
        steps,
    )?;
    buffers.scratch.lists.turn(alloc, MOST_ROWS);
    add_texts(
        rt,
        alloc,
        registry,
        grammar,
        buffers.ready.as_slice(),
        segment,
        numbers,
        collector,
        &mut buffers.listed,
        &mut buffers.scratch,
        steps,
    )
}

/// Counts the texts of a segment that have these numbers, each by itself. What was made ready for a large segment goes, also after an error.
pub(crate) fn add_segment<'a, P: PatternShop, R: Threads + Sync, L: Ledger>(
    rt: &R,
    alloc: Global,
    registry: &Registry,
    grammar: &Grammar,
    patterns: &mut GrammarPatterns<P>,
    segment: &'a Segment,
    numbers: &[u32],
    collector: &mut Collector<'a>,
    buffers: &mut Buffers,
    shop: &mut P,
    steps: &mut Steps<L>,
) -> Result<(), CountError>
    requires under { AreTablesUnder registry.now segment.now }
    requires numbers { AreTexts segment.now numbers.now }
    requires grammar { ValidGrammar registry.now grammar.now }
    requires patterns { patterns.old ≡ patterns_of grammar.now }
    ensures counts { (images : Images) (of : Items texts.Text) (done : Items texts.Text) → TellAll images registry.now segment.now numbers.now of → AreCountsOf images registry.now grammar.now done collector.old.counted
        → OnOk result (AreCountsOf images registry.now grammar.now (done ++ of) collector.new.counted) }
    ensures room { (images : Images) (of : Items texts.Text) → TellAll images registry.now segment.now numbers.now of → OnOk result (HasRoom images registry.now grammar.now of) }
    ensures too_many { (images : Images) (of : Items texts.Text) → TellAll images registry.now segment.now numbers.now of → IsErrOf result CountError.TooManyRows → HasNoRoom images registry.now grammar.now of }
    ensures patterns { patterns.new ≡ patterns.old }
    ensures shop { P.refused shop.new ≡ P.refused shop.old }
{
    let _valid = segment.texts();
    collector.turn_to(segment.lexicon(registry.ws_attr()));
    let counted = add_ready(
        rt, alloc, registry, grammar, patterns, segment, numbers, collector, buffers, shop, steps,
    );
    buffers.let_queries_go_where_large(alloc, segment);
    counted
}

/// Counts the texts of a segment that have these numbers. After an error nothing is known of the counts, and the memory of large texts is given back.
pub(crate) fn count_segment<P: PatternShop, R: Threads + Sync, L: Ledger>(
    rt: &R,
    alloc: Global,
    registry: &Registry,
    grammar: &Grammar,
    patterns: &mut GrammarPatterns<P>,
    segment: &Segment,
    numbers: &[u32],
    counts: &mut TextCounts,
    shop: &mut P,
    steps: &mut Steps<L>,
) -> Result<(), CountError>
    requires under { AreTablesUnder registry.now segment.now }
    requires numbers { AreTexts segment.now numbers.now }
    requires grammar { ValidGrammar registry.now grammar.now }
    requires patterns { patterns.old ≡ patterns_of grammar.now }
    ensures counts { (images : Images) (of : Items texts.Text) → TellAll images registry.now segment.now numbers.now of → OnOk result (AreCountsOf images registry.now grammar.now of counts.new) }
    ensures room { (images : Images) (of : Items texts.Text) → TellAll images registry.now segment.now numbers.now of → OnOk result (HasRoom images registry.now grammar.now of) }
    ensures too_many { (images : Images) (of : Items texts.Text) → TellAll images registry.now segment.now numbers.now of → IsErrOf result CountError.TooManyRows → HasNoRoom images registry.now grammar.now of }
    ensures patterns { patterns.new ≡ patterns.old }
    ensures shop { P.refused shop.new ≡ P.refused shop.old }
{
    let _valid = segment.texts();
    let mut collector = counts.collector(alloc, segment.lexicon(registry.ws_attr()));
    match add_segment(
        rt,
        alloc,
        registry,
        grammar,
        patterns,
        segment,
        numbers,
        &mut collector,
        &mut counts.buffers,
        shop,
        steps,
    ) {
        Ok(()) => {
            counts.take(collector);
            Ok(())
        }
        Err(error) => {
            counts.let_go_where_large(alloc);
            Err(error)
        }
    }
}

/// Counts the texts of a corpus, one segment after another, each in the memory of the one before, and adds them to the counts over no texts.
fn add_each<P: PatternShop, R: Threads + Sync, L: Ledger>(
    rt: &R,
    alloc: Global,
    corpus: &Corpus,
    grammar: &Grammar,
    patterns: &mut GrammarPatterns<P>,
    counts: &mut TextCounts,
    triples: &mut Triples,
    shop: &mut P,
    steps: &mut Steps<L>,
) -> Result<(), CountError>
    requires grammar { ValidGrammar corpus.now.registry grammar.now }
    requires patterns { patterns.old ≡ patterns_of grammar.now }
    requires none { (images : Images) → AreCountsOf images corpus.now.registry grammar.now [] triples.old }
    ensures counts { (images : Images) → AreImagesBy images corpus.now.taken → OnOk result (AreCountsOf images corpus.now.registry grammar.now (corpus_of corpus.now.groups) triples.new) }
    ensures room { (images : Images) → AreImagesBy images corpus.now.taken → OnOk result (HasRoom images corpus.now.registry grammar.now (corpus_of corpus.now.groups)) }
    ensures too_many { (images : Images) → AreImagesBy images corpus.now.taken → IsErrOf result CountError.TooManyRows → HasNoRoom images corpus.now.registry grammar.now (corpus_of corpus.now.groups) }
    ensures patterns { patterns.new ≡ patterns.old }
    ensures shop { P.refused shop.new ≡ P.refused shop.old }
{
    groups_are_told();
    live_texts_are_numbered();
    let registry = corpus.registry();
    let (segments, live) = corpus.held();
    for i in 0..segments.len() {
        let segment = segments.get(i);
        let numbers = live.get(i);
        count_segment(
            rt,
            alloc,
            registry,
            grammar,
            patterns,
            segment,
            numbers.as_slice(),
            counts,
            shop,
            steps,
        )?;
        triples.add(alloc, counts.noted())?;
    }
    Ok(())
}

/// Counts the texts of a corpus, and adds them to the counts over no texts.
pub(crate) fn add_segments<P: PatternShop, R: Threads + Sync, L: Ledger>(
    rt: &R,
    alloc: Global,
    corpus: &Corpus,
    grammar: &Grammar,
    patterns: &mut GrammarPatterns<P>,
    triples: &mut Triples,
    shop: &mut P,
    steps: &mut Steps<L>,
) -> Result<(), CountError>
    requires grammar { ValidGrammar corpus.now.registry grammar.now }
    requires patterns { patterns.old ≡ patterns_of grammar.now }
    requires none { (images : Images) → AreCountsOf images corpus.now.registry grammar.now [] triples.old }
    ensures counts { (images : Images) → AreImagesBy images corpus.now.taken → OnOk result (AreCountsOf images corpus.now.registry grammar.now (corpus_of corpus.now.groups) triples.new) }
    ensures room { (images : Images) → AreImagesBy images corpus.now.taken → OnOk result (HasRoom images corpus.now.registry grammar.now (corpus_of corpus.now.groups)) }
    ensures too_many { (images : Images) → AreImagesBy images corpus.now.taken → IsErrOf result CountError.TooManyRows → HasNoRoom images corpus.now.registry grammar.now (corpus_of corpus.now.groups) }
    ensures patterns { patterns.new ≡ patterns.old }
    ensures shop { P.refused shop.new ≡ P.refused shop.old }
{
    let mut counts = TextCounts::new(alloc);
    add_each(
        rt,
        alloc,
        corpus,
        grammar,
        patterns,
        &mut counts,
        triples,
        shop,
        steps,
    )
}
