//! `freq`.

ghost use Rattle.std.specs.Prelude.{IfOk, Option};
ghost use Rattle.mt_match_spec.specs.Values.{Images};
ghost use Rattle.mt_corpus_spec.specs.Images.{AreImagesBy};
ghost use Rattle.mt_counts.specs.Counted.{Counted};
ghost use Rattle.mt_script_spec.specs.Commands as spec;
ghost use Rattle.mt_answer.specs.Replies.{AnswersAsk};
ghost use Rattle.mt_answer.specs.Reports.{IsFrequencyList, IsReportOver};
ghost use Rattle.mt_answer.specs.Rows.{HasImages};

use super::reply::{Reply, lines};
use super::reporting::{Report, report_of};
use mt_base::{List, NoMemory, Value};
use mt_corpus::Corpus;
use mt_frequencies::frequency;
use mt_pattern::PatternShop;
use std::alloc::Global;

/// `freq`: the values of an attribute so far from the begin of each span of a query, the most frequent first.
pub(crate) fn freq<P: PatternShop>(
    alloc: Global,
    corpus: &Corpus,
    attr: &Value,
    offset: i32,
    cql: &Value,
    shop: &mut P,
) -> Reply
    requires { HasImages corpus.now }
    ensures { (counts : Option Counted) → AnswersAsk corpus.now counts (spec.Freq attr.now offset cql.now) (P.refused shop.old) (P.refused shop.new) result }
{
    match report_of(alloc, corpus, attr.as_str(), cql.as_str(), shop) {
        Ok(report) => lines(frequency_list(alloc, corpus, &report, offset)),
        Err(declined) => declined.reply(alloc),
    }
}

/// The lines of the frequency list of a report.
fn frequency_list(
    alloc: Global,
    corpus: &Corpus,
    report: &Report,
    offset: i32,
) -> Result<List<u8>, NoMemory>
    requires images { HasImages corpus.now }
    requires report { IsReportOver corpus.now report.now.attr report.now.spans }
    ensures { (images : Images) → AreImagesBy images corpus.now.taken → IfOk result (IsFrequencyList images corpus.now report.now.spans report.now.attr offset) }
{
    let (segments, live) = corpus.held();
    let spans = report.spans.as_slice();
    let mut lines = List::new(alloc);
    frequency(
        alloc,
        segments,
        live,
        spans,
        report.attr,
        offset,
        &mut lines,
    )?;
    Ok(lines)
}
