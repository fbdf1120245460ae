//! The search in a corpus.

ghost use Rattle.std.specs.Prelude.{◌≡◌, ◌-◌, ◌≤◌, IfOk, IfErr, OnOk, IsErrOf};
ghost use Rattle.std.specs.List.{All};
ghost use Rattle.mt_match_spec.specs.Kept.{Kept, Over};
ghost use Rattle.mt_match_spec.specs.Values.{Images};
ghost use Rattle.mt_eval_spec.specs.Asked.{query_patterns};
ghost use Rattle.mt_eval_spec.specs.RowsIn.{heads};
ghost use Rattle.mt_eval_spec.specs.Fits.{Fits};
ghost use Rattle.mt_eval_spec.specs.Literals.{IsPlain};
ghost use Rattle.mt_prepare.specs.Built.{IsWhole};
ghost use Rattle.mt_corpus_spec.specs.Groups.{corpus_of};
ghost use Rattle.mt_corpus_spec.specs.Images.{AreImagesBy};
ghost use Rattle.mt_corpus_laws.specs.Joined.{SomeHasTooMany};
ghost use Rattle.mt_search.specs.Finds.{AreInOrder, Finds};
ghost use Rattle.mt_search.specs.Refused.{RefusesBy};
ghost use Rattle.mt_search.specs.Steps.{TakesInAll};

use super::error::RowsError;
use super::found::Found;
use mt_base::Steps;
use mt_corpus::Corpus;
use mt_corpus_laws::{groups_are_told, over_is_some, rows_go_on};
use mt_cql::Query;
use mt_match_laws::{have_rows, rows_are_one};
use mt_pattern::PatternShop;
use mt_prepare::Patterns;
use mt_rows::{EvalError, RowList};
use std::alloc::Global;
use std::sync::ledger::Ledger;

/// What is found in all texts, one segment after another.
fn found_in<P: PatternShop, L: Ledger>(
    alloc: Global,
    corpus: &Corpus,
    query: &Query,
    patterns: &mut Patterns<P>,
    shop: &mut P,
    steps: &mut Steps<L>,
) -> Result<Found, EvalError>
    requires query { Fits corpus.now.registry query.now }
    requires patterns { patterns.old ≡ query_patterns query.now }
    ensures order { IfOk result (λ found. AreInOrder found.rows found.texts) }
    ensures finds { (images : Images) → AreImagesBy images corpus.now.taken
        → IfOk result (λ found. Finds images corpus.now.registry (corpus_of corpus.now.groups) query.now found.rows found.rooms found.texts) }
    ensures too_many { (images : Images) → AreImagesBy images corpus.now.taken
        → IsErrOf result EvalError.TooManyRows → SomeHasTooMany images corpus.now.registry (corpus_of corpus.now.groups) (heads query.now) }
    ensures shop { P.refused shop.new ≡ P.refused shop.old }
    ensures rises { steps.old ≤ steps.new }
    ensures takes { IsPlain query.now → (images : Images) → AreImagesBy images corpus.now.taken → TakesInAll images corpus.now.registry query.now corpus.now.groups (steps.new - steps.old) }
{
    groups_are_told();
    have_rows();
    rows_go_on();
    let (segments, live) = corpus.held();
    let mut found = Found::new(alloc, query)?;
    for i in 0..segments.len() {
        found.add_segment(
            alloc,
            query,
            patterns,
            segments.get(i),
            live.get(i),
            shop,
            steps,
        )?;
    }
    Ok(found)
}

/// All rows that a query keeps in a corpus, ascending; the texts of the corpus are numbered from 0 on. The patterns of the query are built first, whatever the
/// corpus holds, and the shop refuses nothing but the pattern for which it is blamed. Too many are more than 4,194,304 rows of the head or of an operand in all
/// texts, before filters and conditions. A sequence of `==` tests alone takes no more steps in a segment, removed texts among its own, than it takes to find each value
/// once and to put each test to a token at each position of the rarest value.
pub fn rows<P: PatternShop, L: Ledger>(
    alloc: Global,
    corpus: &Corpus,
    query: &Query,
    shop: &mut P,
    steps: &mut Steps<L>,
) -> Result<RowList, RowsError>
    requires { Fits corpus.now.registry query.now }
    ensures kept { (images : Images) → AreImagesBy images corpus.now.taken → IfOk result (λ rows. Kept images corpus.now.registry (corpus_of corpus.now.groups) query.now rows) }
    ensures within { (images : Images) → AreImagesBy images corpus.now.taken → OnOk result (¬ Over images corpus.now.registry (corpus_of corpus.now.groups) query.now) }
    ensures over { (images : Images) → AreImagesBy images corpus.now.taken → IsErrOf result RowsError.TooManyRows → Over images corpus.now.registry (corpus_of corpus.now.groups) query.now }
    ensures whole { OnOk result (All IsWhole (query_patterns query.now)) }
    ensures blames { IfErr result (RefusesBy (query_patterns query.now) (P.refused shop.old) (P.refused shop.new)) }
    ensures shop { OnOk result (P.refused shop.new ≡ P.refused shop.old) }
    ensures rises { steps.old ≤ steps.new }
    ensures takes { IsPlain query.now → (images : Images) → AreImagesBy images corpus.now.taken → TakesInAll images corpus.now.registry query.now corpus.now.groups (steps.new - steps.old) }
{
    over_is_some();
    rows_are_one();
    let mut patterns = Patterns::<P>::build(alloc, query, shop)?;
    match found_in(alloc, corpus, query, &mut patterns, shop, steps) {
        Ok(found) => Ok(RowList::new(found.rows)),
        Err(EvalError::TooManyRows) => Err(RowsError::TooManyRows),
        Err(EvalError::NoMemory) => Err(RowsError::NoMemory),
    }
}
