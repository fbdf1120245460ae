//! `query`.

ghost use Rattle.std.specs.Prelude.{IfOk, Option};
ghost use Rattle.std.specs.List.{All};
ghost use Rattle.mt_match_spec.specs.Values.{Images};
ghost use Rattle.mt_corpus_spec.specs.Groups.{corpus_of};
ghost use Rattle.mt_corpus_spec.specs.Images.{AreImagesBy};
ghost use Rattle.mt_report_spec.specs.Held.{LiesIn};
ghost use Rattle.mt_counts.specs.Counted.{Counted};
ghost use Rattle.mt_script_spec.specs.Commands as spec;
ghost use Rattle.mt_answer.specs.Replies.{AnswersAsk};
ghost use Rattle.mt_answer.specs.Rows.{HasImages, IsConcordance};

use super::reply::{Reply, count_line, lines};
use super::rows::query_rows;
use mt_base::{List, NoMemory, Value};
use mt_corpus::Corpus;
use mt_pattern::PatternShop;
use mt_reports::kwic_lines;
use mt_rows::RowList;
use std::alloc::Global;

/// `query`: the concordance of a query, one line a span.
pub fn query<P: PatternShop>(alloc: Global, corpus: &Corpus, cql: &Value, shop: &mut P) -> Reply
    requires { HasImages corpus.now }
    ensures { (counts : Option Counted) → AnswersAsk corpus.now counts (spec.Query cql.now) (P.refused shop.old) (P.refused shop.new) result }
{
    match query_rows(alloc, corpus, cql.as_str(), shop) {
        Ok(rows) => lines(concordance(alloc, corpus, &rows)),
        Err(declined) => declined.reply(alloc),
    }
}

/// The number of the spans of rows, and a line for each.
fn concordance(alloc: Global, corpus: &Corpus, rows: &RowList) -> Result<List<u8>, NoMemory>
    requires images { HasImages corpus.now }
    requires inside { All (λ row. LiesIn (corpus_of corpus.now.groups) row.span) rows.now }
    ensures { (images : Images) → AreImagesBy images corpus.now.taken → IfOk result (IsConcordance images corpus.now rows.now) }
{
    let spans = rows.spans(alloc)?;
    let mut lines = count_line(alloc, "=", spans.len() as u128)?;
    let (segments, live) = corpus.held();
    kwic_lines(segments, live, spans.as_slice(), &mut lines)?;
    Ok(lines)
}
