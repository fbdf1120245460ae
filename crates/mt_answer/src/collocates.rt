//! `colloc`.

ghost use Rattle.std.specs.Prelude.{◌≡◌, ◌≤ℤ◌, IfOk, Option};
ghost use Rattle.mt_match_spec.specs.Values.{Images};
ghost use Rattle.mt_corpus_spec.specs.Images.{AreImagesBy};
ghost use Rattle.mt_report_spec.specs.Near.{window};
ghost use Rattle.mt_counts.specs.Counted.{Counted};
ghost use Rattle.mt_script_spec.specs.Commands as spec;
ghost use Rattle.mt_answer.specs.Replies.{AnswersAsk};
ghost use Rattle.mt_answer.specs.Reports.{IsCollocationList, IsReportOver};
ghost use Rattle.mt_answer.specs.Rows.{HasImages};

use super::reply::{Reply, lines};
use super::reporting::{Report, report_of};
use mt_base::{List, NoMemory, Value};
use mt_corpus::Corpus;
use mt_frequencies::collocations;
use mt_pattern::PatternShop;
use std::alloc::Global;

/// `colloc`: the values of an attribute in a window round the spans of a query, in the order of their scores.
pub(crate) fn colloc<P: PatternShop>(
    alloc: Global,
    corpus: &Corpus,
    attr: &Value,
    from: i32,
    to: i32,
    min: u32,
    cql: &Value,
    shop: &mut P,
) -> Reply
    requires { HasImages corpus.now }
    ensures { (counts : Option Counted) → AnswersAsk corpus.now counts (spec.Colloc attr.now from to min cql.now) (P.refused shop.old) (P.refused shop.new) result }
{
    match report_of(alloc, corpus, attr.as_str(), cql.as_str(), shop) {
        Ok(report) => lines(collocation_list(alloc, corpus, &report, from, to, min)),
        Err(declined) => declined.reply(alloc),
    }
}

/// The lines of the collocates of a report.
fn collocation_list(
    alloc: Global,
    corpus: &Corpus,
    report: &Report,
    from: i32,
    to: i32,
    min: u32,
) -> Result<List<u8>, NoMemory>
    requires images { HasImages corpus.now }
    requires report { IsReportOver corpus.now report.now.attr report.now.spans }
    ensures { (images : Images) → AreImagesBy images corpus.now.taken →
        IfOk result (IsCollocationList images corpus.now report.now.spans report.now.attr from to min) }
{
    let (segments, live) = corpus.held();
    let spans = report.spans.as_slice();
    let last = last_place(from, to);
    let mut lines = List::new(alloc);
    collocations(
        alloc,
        segments,
        live,
        spans,
        report.attr,
        from,
        last,
        min,
        &mut lines,
    )?;
    Ok(lines)
}

/// Where a window ends, which has its first place alone where it would end before that.
fn last_place(from: i32, to: i32) -> i32
    ensures order { from ≤ℤ result }
    ensures same { window from result ≡ window from to }
{
    if to < from { from } else { to }
}
