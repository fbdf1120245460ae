//! The rows of a question's query.

ghost use Rattle.std.specs.Prelude.{◌≡◌, ◌<◌, ℕ, List as Items, Ok, IfOk, IfErr, OnOk, IsErrOf};
ghost use Rattle.std.specs.List.{All};
ghost use Rattle.mt_query_spec.specs.Verdicts.{Means};
ghost use Rattle.mt_match_spec.specs.Kept.{Kept, Over};
ghost use Rattle.mt_match_spec.specs.Values.{Images};
ghost use Rattle.mt_eval_spec.specs.Asked.{query_patterns};
ghost use Rattle.mt_eval_spec.specs.Fits.{Fits};
ghost use Rattle.mt_prepare.specs.Built.{IsWhole};
ghost use Rattle.mt_corpus_spec.specs.Groups.{corpus_of};
ghost use Rattle.mt_corpus_spec.specs.Images.{AreImagesBy};
ghost use Rattle.mt_search.specs.Refused.{RefusesBy};
ghost use Rattle.mt_answer.specs.Declines.{DeclinesQuery};
ghost use Rattle.mt_answer.specs.Errors.{declined_by};
ghost use Rattle.mt_answer.specs.Rows.{HasRows};

use super::declined::Declined;
use super::reading::read_query;
use super::refusal::Refusal;
use mt_base::Steps;
use mt_corpus::Corpus;
use mt_cql::Query;
use mt_pattern::PatternShop;
use mt_prepare::PatternError;
use mt_query_laws::one_meaning;
use mt_rows::RowList;
use mt_search::{RowsError, rows};
use std::alloc::Global;
use std::marker::Brand;
use std::sync::ledger::{Blank, Ledger};

/// The rows of the query of a question, or the first of its checks that stands: the text is no query, a pattern is none, or there are too many rows.
pub fn query_rows<'a, P: PatternShop>(
    alloc: Global,
    corpus: &Corpus,
    cql: &'a str,
    shop: &mut P,
) -> Result<RowList, Declined<'a>>
    ensures rows { IfOk result (HasRows corpus.now cql.now) }
    ensures declined { IfErr result (DeclinesQuery corpus.now cql.now (P.refused shop.old) (P.refused shop.new)) }
    ensures shop { OnOk result (P.refused shop.new ≡ P.refused shop.old) }
{
    let query = read_query(alloc, corpus.registry(), cql)?;
    found(alloc, corpus, &query, shop)
}

/// The rows that a query keeps, or why they are not told.
fn found<P: PatternShop>(
    alloc: Global,
    corpus: &Corpus,
    query: &Query,
    shop: &mut P,
) -> Result<RowList, Declined<'static>>
    requires { Fits corpus.now.registry query.now }
    ensures rows { (cql : Items ℕ) → Means corpus.now.registry 0 cql (Ok query.now) → IfOk result (HasRows corpus.now cql) }
    ensures declined { (cql : Items ℕ) → Means corpus.now.registry 0 cql (Ok query.now) → IfErr result (DeclinesQuery corpus.now cql (P.refused shop.old) (P.refused shop.new)) }
    ensures shop { OnOk result (P.refused shop.new ≡ P.refused shop.old) }
{
    one_meaning();
    match rows_by::<P, Brand>(alloc, corpus, query, shop, Blank::new(1)) {
        Ok(rows) => Ok(rows),
        Err(error) => Err(declined_by(error)),
    }
}

/// The rows that a query keeps, while steps are counted by a ledger that the blank names.
fn rows_by<P: PatternShop, L: Ledger>(
    alloc: Global,
    corpus: &Corpus,
    query: &Query,
    shop: &mut P,
    blank: Blank,
) -> Result<RowList, RowsError>
    requires query { Fits corpus.now.registry query.now }
    requires name { blank.name ≡ L.name }
    requires parts { blank.parts ≡ L.parts }
    requires some { 0 < L.parts }
    ensures kept { (images : Images) → AreImagesBy images corpus.now.taken → IfOk result (λ rows. Kept images corpus.now.registry (corpus_of corpus.now.groups) query.now rows) }
    ensures few { (images : Images) → AreImagesBy images corpus.now.taken → OnOk result (¬ Over images corpus.now.registry (corpus_of corpus.now.groups) query.now) }
    ensures over { (images : Images) → AreImagesBy images corpus.now.taken → IsErrOf result RowsError.TooManyRows → Over images corpus.now.registry (corpus_of corpus.now.groups) query.now }
    ensures whole { OnOk result (All IsWhole (query_patterns query.now)) }
    ensures blames { IfErr result (RefusesBy (query_patterns query.now) (P.refused shop.old) (P.refused shop.new)) }
    ensures shop { OnOk result (P.refused shop.new ≡ P.refused shop.old) }
{
    let mut steps = Steps::<L>::new(blank);
    rows(alloc, corpus, query, shop, &mut steps)
}

/// Why there are no rows, as it is told.
pub(crate) fn declined_by(error: RowsError) -> Declined<'static>
    ensures { result ≡ declined_by error }
{
    match error {
        RowsError::Pattern(PatternError::Syntax(number)) => {
            Declined::Refused(Refusal::BadPattern(number))
        }
        RowsError::Pattern(PatternError::Refused(number)) => Declined::PatternRefused(number),
        RowsError::Pattern(PatternError::NoMemory) => Declined::NoMemory,
        RowsError::TooManyRows => Declined::Refused(Refusal::TooManyRows),
        RowsError::NoMemory => Declined::NoMemory,
    }
}
