//! How many rows a test of a token has in the segments of a corpus.

ghost use Rattle.std.specs.Prelude.{◌≡◌, ℕ, ◌+◌, ◌-◌, ◌<◌, ◌≤◌, IfOk, IsErrOf};
ghost use Rattle.mt_text_spec.specs.Queries.{Test, TokenTest};
ghost use Rattle.mt_match_spec.specs.Kept.{HasTooMany, operand_rows_limit};
ghost use Rattle.mt_match_spec.specs.Values.{Images};
ghost use Rattle.mt_segment_spec.specs.Tables.{token_count};
ghost use Rattle.mt_eval_spec.specs.Asked.{query_patterns};
ghost use Rattle.mt_eval_spec.specs.Fits.{Fits};
ghost use Rattle.mt_eval_spec.specs.Literals.{IsPlain};
ghost use Rattle.mt_eval_spec.specs.Told.{HoldsAt, IsFor};
ghost use Rattle.mt_corpus_spec.specs.Groups.{corpus_of};
ghost use Rattle.mt_corpus_spec.specs.Images.{AreImagesBy};
ghost use Rattle.mt_search.specs.Steps.{TakesIn, TakesInAll};
ghost use Rattle.mt_tally.specs.Counts.{CountsBelow};
ghost use Rattle.mt_totals.specs.Totals.{HasRowTotal, IsTokenAlone};
ghost use Rattle.mt_totals.specs.Whole.{IsWholeCorpus};

use super::counts::test_count;
use mt_base::{NoMemory, Steps};
use mt_corpus::Corpus;
use mt_corpus_laws::{groups_are_told, rows_are_joined, rows_go_on};
use mt_cql::Query;
use mt_eval_laws::have_rows_in;
use mt_match_laws::have_rows;
use mt_pattern::PatternShop;
use mt_prepare::{KnownSpans, Patterns};
use mt_rows::EvalError;
use mt_segment::Segment;
use std::alloc::Global;
use std::sync::ledger::Ledger;

/// The most rows of a head in a corpus.
const OPERAND_ROWS_LIMIT: usize = 4_194_304;

/// How many rows there are with so many more, where they are not too many.
fn total_with(total: usize, more: usize) -> Result<usize, EvalError>
    requires { total ≤ operand_rows_limit }
    ensures sum { IfOk result (λ all. all ≡ total + more) }
    ensures few { IfOk result (λ all. all ≤ operand_rows_limit) }
    ensures too_many { IsErrOf result EvalError.TooManyRows → operand_rows_limit < total + more }
{
    if more > OPERAND_ROWS_LIMIT - total {
        return Err(EvalError::TooManyRows);
    }
    Ok(total + more)
}

/// Of how many tokens of a segment the test of a query holds.
fn count_in<P: PatternShop, L: Ledger>(
    alloc: Global,
    query: &Query,
    patterns: &mut Patterns<P>,
    segment: &Segment,
    shop: &mut P,
    steps: &mut Steps<L>,
) -> Result<usize, NoMemory>
    requires query { IsFor segment.now query.now }
    requires alone { IsTokenAlone query.now }
    requires patterns { patterns.old ≡ query_patterns query.now }
    ensures count { (label : ℕ) (test : Test) → query.now.head ≡ TokenTest label test → IfOk result (CountsBelow (token_count segment.now) (HoldsAt segment.now test)) }
    ensures patterns { patterns.new ≡ patterns.old }
    ensures shop { P.refused shop.new ≡ P.refused shop.old }
    ensures rises { steps.old ≤ steps.new }
    ensures takes { IsPlain query.now → TakesIn query.now segment.now (steps.new - steps.old) }
{
    let mut spans = KnownSpans::new(alloc);
    let prepared = patterns.prepare(alloc, query, segment, &mut spans, shop, steps)?;
    test_count(alloc, prepared.exprs.get(0).tests.get(0), segment, steps)
}

/// How many rows the test of a query has in all texts, of which none was removed.
pub(crate) fn row_total<P: PatternShop, L: Ledger>(
    alloc: Global,
    corpus: &Corpus,
    query: &Query,
    patterns: &mut Patterns<P>,
    shop: &mut P,
    steps: &mut Steps<L>,
) -> Result<usize, EvalError>
    requires query { Fits corpus.now.registry query.now }
    requires alone { IsTokenAlone query.now }
    requires whole { IsWholeCorpus corpus.now }
    requires patterns { patterns.old ≡ query_patterns query.now }
    ensures total { (images : Images) → AreImagesBy images corpus.now.taken → IfOk result (HasRowTotal images corpus.now.registry (corpus_of corpus.now.groups) query.now.head) }
    ensures few { IfOk result (λ total. total ≤ operand_rows_limit) }
    ensures too_many { (images : Images) → AreImagesBy images corpus.now.taken
        → IsErrOf result EvalError.TooManyRows → HasTooMany images corpus.now.registry (corpus_of corpus.now.groups) query.now.head }
    ensures shop { P.refused shop.new ≡ P.refused shop.old }
    ensures rises { steps.old ≤ steps.new }
    ensures takes { IsPlain query.now → (images : Images) → AreImagesBy images corpus.now.taken → TakesInAll images corpus.now.registry query.now corpus.now.groups (steps.new - steps.old) }
{
    groups_are_told();
    have_rows();
    have_rows_in();
    rows_are_joined();
    rows_go_on();
    let (segments, _live) = corpus.held();
    let mut total = 0;
    for i in 0..segments.len() {
        let count = count_in(alloc, query, patterns, segments.get(i), shop, steps)?;
        total = total_with(total, count)?;
    }
    Ok(total)
}
