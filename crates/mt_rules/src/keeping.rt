//! A text that comes to the corpus.

ghost use Rattle.std.specs.Prelude.{◌≡◌, OnOk, OnErr, IsErrOf};
ghost use Rattle.mt_text_spec.specs.Texts as texts;
ghost use Rattle.mt_corpus.specs.Added.{MayBeKept, SomeMayBeKept};
ghost use Rattle.mt_rules.specs.Ruled.{AreOver};
ghost use Rattle.mt_rules.specs.Keeping.{HaveImages, IsCountedAlone, IsNotTooRich, IsTooRich, KeepsAlone};

use super::rules::Rules;
use mt_answer::GrammarCounts;
use mt_corpus::Corpus;
use mt_count_laws::{one_count, one_unary_count};
use mt_counts::Noted;
use mt_grammar::Grammar;
use mt_grammar_counts::{CountError, count_added};
use mt_pattern::PatternShop;
use mt_segment::Segment;
use std::alloc::Global;
use std::thread::Threads;

impl<P: PatternShop> Rules<P> {
    /// Keeps the text of a segment behind the others of the corpus, and counts it, unless some query has too many rows in it. Where it is not kept, the corpus is as it
    /// was, and so are the counts. No text that was counted before is looked at. The caller knows mappers that make the images that were taken and those
    /// of the segment.
    pub fn keep<R: Threads + Sync>(
        &mut self,
        rt: &R,
        alloc: Global,
        corpus: &mut Corpus,
        segment: Segment,
        shop: &mut P,
    ) -> Result<(), CountError>
        requires over { AreOver corpus.old self.old }
        requires segment { SomeMayBeKept corpus.old segment }
        requires images { HaveImages corpus.old segment }
        ensures ok { (text : texts.Text) → MayBeKept corpus.old text segment → OnOk result (KeepsAlone corpus.old text segment corpus.new) }
        ensures err { OnErr result (corpus.new ≡ corpus.old) }
        ensures over { AreOver corpus.new self.new }
        ensures grammar { self.new.grammar ≡ self.old.grammar }
        ensures too_many { (text : texts.Text) → MayBeKept corpus.old text segment → IsErrOf result CountError.TooManyRows → IsTooRich corpus.old self.old.grammar text segment }
        ensures room { (text : texts.Text) → MayBeKept corpus.old text segment → OnOk result (IsNotTooRich corpus.old self.old.grammar text segment) }
        ensures shop { P.refused shop.new ≡ P.refused shop.old }
    {
        count_added(
            rt,
            alloc,
            corpus,
            &self.grammar,
            &mut self.patterns,
            &segment,
            &mut self.text_counts,
            shop,
        )?;
        let kept = keep_counted(
            alloc,
            &self.grammar,
            &mut self.counts,
            corpus,
            segment,
            self.text_counts.noted(),
        );
        self.text_counts.let_go_where_large(alloc);
        kept
    }
}

/// Keeps the text of a segment, which has been counted.
fn keep_counted(
    alloc: Global,
    grammar: &Grammar,
    counts: &mut GrammarCounts,
    corpus: &mut Corpus,
    segment: Segment,
    more: &Noted,
) -> Result<(), CountError>
    requires over { AreOver corpus.old (record { grammar = grammar.now; counted = counts.old }) }
    requires segment { SomeMayBeKept corpus.old segment }
    requires images { HaveImages corpus.old segment }
    requires counts { (text : texts.Text) → MayBeKept corpus.old text segment → IsCountedAlone corpus.old grammar.now text segment more.now.counted }
    ensures ok { (text : texts.Text) → MayBeKept corpus.old text segment → OnOk result (KeepsAlone corpus.old text segment corpus.new) }
    ensures err { OnErr result (corpus.new ≡ corpus.old) }
    ensures over { AreOver corpus.new (record { grammar = grammar.now; counted = counts.new }) }
    ensures starved { IsErrOf result CountError.TooManyRows → ⊥ }
{
    one_count();
    one_unary_count();
    counts.add(alloc, more)?;
    match corpus.keep(segment) {
        Ok(()) => Ok(()),
        Err(_) => {
            counts.subtract(more);
            Err(CountError::NoMemory)
        }
    }
}
