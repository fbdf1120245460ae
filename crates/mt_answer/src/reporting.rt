//! Of what a report is made.

ghost use Rattle.std.specs.Prelude.{◌≡◌, IfOk, IfErr, OnOk};
ghost use Rattle.mt_answer.specs.Declines.{DeclinesReport};
ghost use Rattle.mt_answer.specs.Reports.{HasReport};
ghost use Rattle.mt_answer.specs.Rows.{HasImages};

use super::declined::Declined;
use super::refusal::Refusal;
use super::rows::query_rows;
use mt_base::NoMemory;
use mt_corpus::Corpus;
use mt_eval::QuerySpans;
use mt_match_laws::have_rows;
use mt_pattern::PatternShop;
use std::alloc::Global;

/// What a report is made of.
#[derive(Drop)]
pub(crate) struct Report {
    /// The number of the attribute.
    pub(crate) attr: u16,
    /// The spans of the query, ascending.
    pub(crate) spans: QuerySpans,
}

/// The attribute of a report and the spans of its query, or the first of its checks that stands: the attribute is not declared, or one of the query's own.
pub(crate) fn report_of<'a, P: PatternShop>(
    alloc: Global,
    corpus: &Corpus,
    attr: &'a str,
    cql: &'a str,
    shop: &mut P,
) -> Result<Report, Declined<'a>>
    requires { HasImages corpus.now }
    ensures report { IfOk result (λ report. HasReport corpus.now attr.now cql.now report.attr report.spans) }
    ensures declined { IfErr result (DeclinesReport corpus.now attr.now cql.now (P.refused shop.old) (P.refused shop.new)) }
    ensures shop { OnOk result (P.refused shop.new ≡ P.refused shop.old) }
{
    have_rows();
    let Some(number) = corpus.registry().find_attr(attr) else {
        return Err(Declined::Refused(Refusal::UnknownName(attr)));
    };
    let rows = query_rows(alloc, corpus, cql, shop)?;
    match QuerySpans::of(alloc, rows) {
        Ok(spans) => Ok(Report {
            attr: number,
            spans,
        }),
        Err(NoMemory) => Err(Declined::NoMemory),
    }
}
