//! How many spans a question's query has.

ghost use Rattle.std.specs.Prelude.{◌≡◌, ◌<◌, ℕ, List as Items, Ok, IfOk, IfErr, OnOk, IsErrOf};
ghost use Rattle.std.specs.List.{All};
ghost use Rattle.mt_query_spec.specs.Verdicts.{Means};
ghost use Rattle.mt_match_spec.specs.Kept.{Over};
ghost use Rattle.mt_match_spec.specs.Values.{Images};
ghost use Rattle.mt_eval_spec.specs.Asked.{query_patterns};
ghost use Rattle.mt_eval_spec.specs.Fits.{Fits};
ghost use Rattle.mt_prepare.specs.Built.{IsWhole};
ghost use Rattle.mt_corpus_spec.specs.Groups.{corpus_of};
ghost use Rattle.mt_corpus_spec.specs.Images.{AreImagesBy};
ghost use Rattle.mt_search.specs.Refused.{RefusesBy};
ghost use Rattle.mt_totals.specs.Totals.{HasSpanTotal};
ghost use Rattle.mt_answer.specs.Declines.{DeclinesQuery};
ghost use Rattle.mt_answer.specs.Rows.{HasTotal};

use super::declined::Declined;
use super::reading::read_query;
use super::rows::declined_by;
use mt_base::Steps;
use mt_corpus::Corpus;
use mt_cql::Query;
use mt_pattern::PatternShop;
use mt_query_laws::one_meaning;
use mt_search::RowsError;
use mt_totals::span_total;
use std::alloc::Global;
use std::marker::Brand;
use std::sync::ledger::{Blank, Ledger};

/// How many spans the query of a question has, or the first of its checks that stands: the text is no query, a pattern is none, or there are too many rows.
pub(crate) fn query_total<'a, P: PatternShop>(
    alloc: Global,
    corpus: &Corpus,
    cql: &'a str,
    shop: &mut P,
) -> Result<usize, Declined<'a>>
    ensures total { IfOk result (HasTotal corpus.now cql.now) }
    ensures declined { IfErr result (DeclinesQuery corpus.now cql.now (P.refused shop.old) (P.refused shop.new)) }
    ensures shop { OnOk result (P.refused shop.new ≡ P.refused shop.old) }
{
    let query = read_query(alloc, corpus.registry(), cql)?;
    total(alloc, corpus, &query, shop)
}

/// How many spans a query has, or why that is not told.
fn total<P: PatternShop>(
    alloc: Global,
    corpus: &Corpus,
    query: &Query,
    shop: &mut P,
) -> Result<usize, Declined<'static>>
    requires { Fits corpus.now.registry query.now }
    ensures total { (cql : Items ℕ) → Means corpus.now.registry 0 cql (Ok query.now) → IfOk result (HasTotal corpus.now cql) }
    ensures declined { (cql : Items ℕ) → Means corpus.now.registry 0 cql (Ok query.now) → IfErr result (DeclinesQuery corpus.now cql (P.refused shop.old) (P.refused shop.new)) }
    ensures shop { OnOk result (P.refused shop.new ≡ P.refused shop.old) }
{
    one_meaning();
    match total_by::<P, Brand>(alloc, corpus, query, shop, Blank::new(1)) {
        Ok(total) => Ok(total),
        Err(error) => Err(declined_by(error)),
    }
}

/// How many spans a query has, while steps are counted by a ledger that the blank names.
fn total_by<P: PatternShop, L: Ledger>(
    alloc: Global,
    corpus: &Corpus,
    query: &Query,
    shop: &mut P,
    blank: Blank,
) -> Result<usize, RowsError>
    requires query { Fits corpus.now.registry query.now }
    requires name { blank.name ≡ L.name }
    requires parts { blank.parts ≡ L.parts }
    requires some { 0 < L.parts }
    ensures total { (images : Images) → AreImagesBy images corpus.now.taken → IfOk result (HasSpanTotal images corpus.now.registry (corpus_of corpus.now.groups) query.now) }
    ensures few { (images : Images) → AreImagesBy images corpus.now.taken → OnOk result (¬ Over images corpus.now.registry (corpus_of corpus.now.groups) query.now) }
    ensures over { (images : Images) → AreImagesBy images corpus.now.taken → IsErrOf result RowsError.TooManyRows → Over images corpus.now.registry (corpus_of corpus.now.groups) query.now }
    ensures whole { OnOk result (All IsWhole (query_patterns query.now)) }
    ensures blames { IfErr result (RefusesBy (query_patterns query.now) (P.refused shop.old) (P.refused shop.new)) }
    ensures shop { OnOk result (P.refused shop.new ≡ P.refused shop.old) }
{
    let mut steps = Steps::<L>::new(blank);
    span_total(alloc, corpus, query, shop, &mut steps)
}
