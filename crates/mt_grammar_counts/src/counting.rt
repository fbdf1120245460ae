//! Counting a sketch grammar over a corpus, over a text that may be added to it, and over one of its texts.

ghost use Rattle.std.specs.Prelude.{◌≡◌, [], ◌∷◌, ◌<◌, length, IfOk, OnOk, IsErrOf};
ghost use Rattle.mt_text_spec.specs.Texts as texts;
ghost use Rattle.mt_match_spec.specs.Values.{Images};
ghost use Rattle.mt_count_spec.specs.Counts.{HasRoom};
ghost use Rattle.mt_grammar_spec.specs.ValidGrammar.{ValidGrammar};
ghost use Rattle.mt_segment_spec.specs.Tables.{AreTablesUnder};
ghost use Rattle.mt_triples.specs.CountsOf.{AreCountsOf};
ghost use Rattle.mt_corpus_spec.specs.Groups.{HoldsName, corpus_of};
ghost use Rattle.mt_corpus_spec.specs.Images.{AreImagesBy};
ghost use Rattle.mt_corpus_spec.specs.Decoded.{images_in};
ghost use Rattle.mt_corpus.specs.Added.{MayBeKept, SomeMayBeKept};
ghost use Rattle.mt_corpus.specs.Named.{SplitsAt};
ghost use Rattle.mt_grammar_counts.specs.Asked.{patterns_of};
ghost use Rattle.mt_grammar_counts.specs.Told.{HasNoRoom, Tells};

use super::error::CountError;
use super::patterns::GrammarPatterns;
use super::segments::{add_segments, count_segment};
use super::text_counts::TextCounts;
use mt_base::{Registry, Steps, Value};
use mt_corpus::Corpus;
use mt_decode_laws::images_are_decoded;
use mt_grammar::Grammar;
use mt_pattern::PatternShop;
use mt_segment::Segment;
use mt_triples::Triples;
use std::alloc::Global;
use std::marker::Brand;
use std::sync::ledger::{Blank, Ledger};
use std::thread::Threads;

/// What a grammar counts over all texts of a corpus. No text is counted by the rows of another, and none has a query with more than 4,194,304 rows of its head or of an
/// operand in it. The patterns, built once, may be used again. It costs by how many rows the queries have.
pub fn count_corpus<P: PatternShop, R: Threads + Sync>(
    rt: &R,
    alloc: Global,
    corpus: &Corpus,
    grammar: &Grammar,
    patterns: &mut GrammarPatterns<P>,
    shop: &mut P,
) -> Result<Triples, CountError>
    requires grammar { ValidGrammar corpus.now.registry grammar.now }
    requires patterns { patterns.old ≡ patterns_of grammar.now }
    ensures counts { (images : Images) → AreImagesBy images corpus.now.taken → IfOk result (AreCountsOf images corpus.now.registry grammar.now (corpus_of corpus.now.groups)) }
    ensures room { (images : Images) → AreImagesBy images corpus.now.taken → OnOk result (HasRoom images corpus.now.registry grammar.now (corpus_of corpus.now.groups)) }
    ensures too_many { (images : Images) → AreImagesBy images corpus.now.taken → IsErrOf result CountError.TooManyRows → HasNoRoom images corpus.now.registry grammar.now (corpus_of corpus.now.groups) }
    ensures patterns { patterns.new ≡ patterns.old }
    ensures shop { P.refused shop.new ≡ P.refused shop.old }
{
    count_all::<P, R, Brand>(rt, alloc, corpus, grammar, patterns, shop, Blank::new(1))
}

/// The same. The blank names a ledger for the steps that are taken.
fn count_all<P: PatternShop, R: Threads + Sync, L: Ledger>(
    rt: &R,
    alloc: Global,
    corpus: &Corpus,
    grammar: &Grammar,
    patterns: &mut GrammarPatterns<P>,
    shop: &mut P,
    blank: Blank,
) -> Result<Triples, CountError>
    requires name { blank.name ≡ L.name }
    requires parts { blank.parts ≡ L.parts }
    requires some { 0 < L.parts }
    requires grammar { ValidGrammar corpus.now.registry grammar.now }
    requires patterns { patterns.old ≡ patterns_of grammar.now }
    ensures counts { (images : Images) → AreImagesBy images corpus.now.taken → IfOk result (AreCountsOf images corpus.now.registry grammar.now (corpus_of corpus.now.groups)) }
    ensures room { (images : Images) → AreImagesBy images corpus.now.taken → OnOk result (HasRoom images corpus.now.registry grammar.now (corpus_of corpus.now.groups)) }
    ensures too_many { (images : Images) → AreImagesBy images corpus.now.taken → IsErrOf result CountError.TooManyRows → HasNoRoom images corpus.now.registry grammar.now (corpus_of corpus.now.groups) }
    ensures patterns { patterns.new ≡ patterns.old }
    ensures shop { P.refused shop.new ≡ P.refused shop.old }
{
    let mut steps = Steps::<L>::new(blank);
    let mut triples = Triples::new(alloc);
    add_segments(
        rt,
        alloc,
        corpus,
        grammar,
        patterns,
        &mut triples,
        shop,
        &mut steps,
    )?;
    Ok(triples)
}

/// Counts one text of a segment, by its number there.
fn count_one<P: PatternShop, R: Threads + Sync, L: Ledger>(
    rt: &R,
    alloc: Global,
    registry: &Registry,
    grammar: &Grammar,
    patterns: &mut GrammarPatterns<P>,
    segment: &Segment,
    number: u32,
    counts: &mut TextCounts,
    shop: &mut P,
    blank: Blank,
) -> Result<(), CountError>
    requires name { blank.name ≡ L.name }
    requires parts { blank.parts ≡ L.parts }
    requires some { 0 < L.parts }
    requires under { AreTablesUnder registry.now segment.now }
    requires number { number < length segment.now.texts }
    requires grammar { ValidGrammar registry.now grammar.now }
    requires patterns { patterns.old ≡ patterns_of grammar.now }
    ensures counts { (images : Images) (text : texts.Text) → Tells images registry.now segment.now number text → OnOk result (AreCountsOf images registry.now grammar.now (text ∷ []) counts.new) }
    ensures room { (images : Images) (text : texts.Text) → Tells images registry.now segment.now number text → OnOk result (HasRoom images registry.now grammar.now (text ∷ [])) }
    ensures too_many { (images : Images) (text : texts.Text) → Tells images registry.now segment.now number text → IsErrOf result CountError.TooManyRows → HasNoRoom images registry.now grammar.now (text ∷ []) }
    ensures patterns { patterns.new ≡ patterns.old }
    ensures shop { P.refused shop.new ≡ P.refused shop.old }
{
    let mut steps = Steps::<L>::new(blank);
    count_segment(
        rt,
        alloc,
        registry,
        grammar,
        patterns,
        segment,
        &[number],
        counts,
        shop,
        &mut steps,
    )
}

/// Counts a text whose segment is built and may be kept, before it is. After an error nothing is known of the counts.
pub fn count_added<P: PatternShop, R: Threads + Sync>(
    rt: &R,
    alloc: Global,
    corpus: &Corpus,
    grammar: &Grammar,
    patterns: &mut GrammarPatterns<P>,
    segment: &Segment,
    counts: &mut TextCounts,
    shop: &mut P,
) -> Result<(), CountError>
    requires segment { SomeMayBeKept corpus.now segment.now }
    requires grammar { ValidGrammar corpus.now.registry grammar.now }
    requires patterns { patterns.old ≡ patterns_of grammar.now }
    ensures counts { (images : Images) (text : texts.Text) → MayBeKept corpus.now text segment.now → AreImagesBy images (images_in corpus.now.registry segment.now)
        → OnOk result (AreCountsOf images corpus.now.registry grammar.now (text ∷ []) counts.new) }
    ensures room { (images : Images) (text : texts.Text) → MayBeKept corpus.now text segment.now → AreImagesBy images (images_in corpus.now.registry segment.now)
        → OnOk result (HasRoom images corpus.now.registry grammar.now (text ∷ [])) }
    ensures too_many { (images : Images) (text : texts.Text) → MayBeKept corpus.now text segment.now → AreImagesBy images (images_in corpus.now.registry segment.now)
        → IsErrOf result CountError.TooManyRows → HasNoRoom images corpus.now.registry grammar.now (text ∷ []) }
    ensures patterns { patterns.new ≡ patterns.old }
    ensures shop { P.refused shop.new ≡ P.refused shop.old }
{
    images_are_decoded();
    let registry = corpus.registry();
    count_one::<P, R, Brand>(
        rt,
        alloc,
        registry,
        grammar,
        patterns,
        segment,
        0,
        counts,
        shop,
        Blank::new(1),
    )
}

/// Counts the one text of this name. After an error nothing is known of the counts.
pub fn count_named<P: PatternShop, R: Threads + Sync>(
    rt: &R,
    alloc: Global,
    corpus: &Corpus,
    name: &Value,
    grammar: &Grammar,
    patterns: &mut GrammarPatterns<P>,
    counts: &mut TextCounts,
    shop: &mut P,
) -> Result<(), CountError>
    requires name { HoldsName corpus.now.groups name.now }
    requires grammar { ValidGrammar corpus.now.registry grammar.now }
    requires patterns { patterns.old ≡ patterns_of grammar.now }
    ensures counts { (images : Images) (split : SplitsAt corpus.now.groups name.now) → AreImagesBy images corpus.now.taken
        → OnOk result (AreCountsOf images corpus.now.registry grammar.now (split.text ∷ []) counts.new) }
    ensures room { (images : Images) (split : SplitsAt corpus.now.groups name.now) → AreImagesBy images corpus.now.taken
        → OnOk result (HasRoom images corpus.now.registry grammar.now (split.text ∷ [])) }
    ensures too_many { (images : Images) (split : SplitsAt corpus.now.groups name.now) → AreImagesBy images corpus.now.taken
        → IsErrOf result CountError.TooManyRows → HasNoRoom images corpus.now.registry grammar.now (split.text ∷ []) }
    ensures patterns { patterns.new ≡ patterns.old }
    ensures shop { P.refused shop.new ≡ P.refused shop.old }
{
    let registry = corpus.registry();
    let Some((segment, number)) = corpus.find(name) else {
        unreachable!();
    };
    count_one::<P, R, Brand>(
        rt,
        alloc,
        registry,
        grammar,
        patterns,
        segment,
        number,
        counts,
        shop,
        Blank::new(1),
    )
}
