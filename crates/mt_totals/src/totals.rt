//! The number of the spans of a query.

ghost use Rattle.std.specs.Prelude.{◌≡◌, ◌-◌, ◌≤◌, IfOk, IfErr, OnOk, IsErrOf};
ghost use Rattle.std.specs.List.{All};
ghost use Rattle.mt_text_spec.specs.Queries.{NoMore};
ghost use Rattle.mt_match_spec.specs.Kept.{Over};
ghost use Rattle.mt_match_spec.specs.Values.{Images};
ghost use Rattle.mt_eval_spec.specs.Asked.{query_patterns};
ghost use Rattle.mt_eval_spec.specs.Fits.{Fits};
ghost use Rattle.mt_eval_spec.specs.Literals.{IsPlain};
ghost use Rattle.mt_prepare.specs.Built.{IsWhole};
ghost use Rattle.mt_corpus_spec.specs.Groups.{corpus_of};
ghost use Rattle.mt_corpus_spec.specs.Images.{AreImagesBy};
ghost use Rattle.mt_search.specs.Refused.{RefusesBy};
ghost use Rattle.mt_search.specs.Steps.{TakesInAll};
ghost use Rattle.mt_totals.specs.Totals.{HasSpanTotal, IsTokenAlone};
ghost use Rattle.mt_totals.specs.Whole.{IsWholeCorpus};

use super::alone::{are_none, is_token_alone};
use super::segments::row_total;
use super::spans::span_count;
use super::tallies::corpus_tally;
use super::whole::is_whole;
use mt_base::Steps;
use mt_corpus::Corpus;
use mt_cql::Query;
use mt_match_laws::{have_spans, rows_are_one};
use mt_pattern::PatternShop;
use mt_prepare::Patterns;
use mt_rows::EvalError;
use mt_search::{RowsError, rows};
use std::alloc::Global;
use std::sync::ledger::Ledger;

/// How many spans a query has that is one test of a token, in a corpus of which no text was removed.
fn token_total<P: PatternShop, L: Ledger>(
    alloc: Global,
    corpus: &Corpus,
    query: &Query,
    shop: &mut P,
    steps: &mut Steps<L>,
) -> Result<usize, RowsError>
    requires query { Fits corpus.now.registry query.now }
    requires alone { IsTokenAlone query.now }
    requires whole { IsWholeCorpus corpus.now }
    ensures total { (images : Images) → AreImagesBy images corpus.now.taken → IfOk result (HasSpanTotal images corpus.now.registry (corpus_of corpus.now.groups) query.now) }
    ensures within { (images : Images) → AreImagesBy images corpus.now.taken → OnOk result (¬ Over images corpus.now.registry (corpus_of corpus.now.groups) query.now) }
    ensures over { (images : Images) → AreImagesBy images corpus.now.taken → IsErrOf result RowsError.TooManyRows → Over images corpus.now.registry (corpus_of corpus.now.groups) query.now }
    ensures whole { OnOk result (All IsWhole (query_patterns query.now)) }
    ensures blames { IfErr result (RefusesBy (query_patterns query.now) (P.refused shop.old) (P.refused shop.new)) }
    ensures shop { OnOk result (P.refused shop.new ≡ P.refused shop.old) }
    ensures rises { steps.old ≤ steps.new }
    ensures takes { IsPlain query.now → (images : Images) → AreImagesBy images corpus.now.taken → TakesInAll images corpus.now.registry query.now corpus.now.groups (steps.new - steps.old) }
{
    have_spans();
    rows_are_one();
    let mut patterns = Patterns::<P>::build(alloc, query, shop)?;
    match row_total(alloc, corpus, query, &mut patterns, shop, steps) {
        Ok(total) => Ok(total),
        Err(EvalError::TooManyRows) => Err(RowsError::TooManyRows),
        Err(EvalError::NoMemory) => Err(RowsError::NoMemory),
    }
}

/// How many spans a query without filters has in a corpus.
fn unfiltered_total<P: PatternShop, L: Ledger>(
    alloc: Global,
    corpus: &Corpus,
    query: &Query,
    shop: &mut P,
    steps: &mut Steps<L>,
) -> Result<usize, RowsError>
    requires query { Fits corpus.now.registry query.now }
    requires filters { query.now.filters ≡ NoMore }
    ensures total { (images : Images) → AreImagesBy images corpus.now.taken → IfOk result (HasSpanTotal images corpus.now.registry (corpus_of corpus.now.groups) query.now) }
    ensures within { (images : Images) → AreImagesBy images corpus.now.taken → OnOk result (¬ Over images corpus.now.registry (corpus_of corpus.now.groups) query.now) }
    ensures over { (images : Images) → AreImagesBy images corpus.now.taken → IsErrOf result RowsError.TooManyRows → Over images corpus.now.registry (corpus_of corpus.now.groups) query.now }
    ensures whole { OnOk result (All IsWhole (query_patterns query.now)) }
    ensures blames { IfErr result (RefusesBy (query_patterns query.now) (P.refused shop.old) (P.refused shop.new)) }
    ensures shop { OnOk result (P.refused shop.new ≡ P.refused shop.old) }
    ensures rises { steps.old ≤ steps.new }
    ensures takes { IsPlain query.now → (images : Images) → AreImagesBy images corpus.now.taken → TakesInAll images corpus.now.registry query.now corpus.now.groups (steps.new - steps.old) }
{
    rows_are_one();
    let mut patterns = Patterns::<P>::build(alloc, query, shop)?;
    match corpus_tally(alloc, corpus, query, &mut patterns, shop, steps) {
        Ok(tally) => Ok(tally.spans),
        Err(EvalError::TooManyRows) => Err(RowsError::TooManyRows),
        Err(EvalError::NoMemory) => Err(RowsError::NoMemory),
    }
}

/// How many spans a query has in a corpus: how many different ones the rows have that it keeps. The patterns of the query are built first, whatever the corpus holds, and
/// the shop refuses nothing but the pattern for which it is blamed. Too many rows, and how many steps it takes, are those of `rows`.
pub fn span_total<P: PatternShop, L: Ledger>(
    alloc: Global,
    corpus: &Corpus,
    query: &Query,
    shop: &mut P,
    steps: &mut Steps<L>,
) -> Result<usize, RowsError>
    requires { Fits corpus.now.registry query.now }
    ensures total { (images : Images) → AreImagesBy images corpus.now.taken → IfOk result (HasSpanTotal images corpus.now.registry (corpus_of corpus.now.groups) query.now) }
    ensures within { (images : Images) → AreImagesBy images corpus.now.taken → OnOk result (¬ Over images corpus.now.registry (corpus_of corpus.now.groups) query.now) }
    ensures over { (images : Images) → AreImagesBy images corpus.now.taken → IsErrOf result RowsError.TooManyRows → Over images corpus.now.registry (corpus_of corpus.now.groups) query.now }
    ensures whole { OnOk result (All IsWhole (query_patterns query.now)) }
    ensures blames { IfErr result (RefusesBy (query_patterns query.now) (P.refused shop.old) (P.refused shop.new)) }
    ensures shop { OnOk result (P.refused shop.new ≡ P.refused shop.old) }
    ensures rises { steps.old ≤ steps.new }
    ensures takes { IsPlain query.now → (images : Images) → AreImagesBy images corpus.now.taken → TakesInAll images corpus.now.registry query.now corpus.now.groups (steps.new - steps.old) }
{
    if is_token_alone(query) && is_whole(corpus) {
        return token_total(alloc, corpus, query, shop, steps);
    }
    if are_none(query.filters()) {
        return unfiltered_total(alloc, corpus, query, shop, steps);
    }
    let rows = rows(alloc, corpus, query, shop, steps)?;
    Ok(span_count(&rows))
}
