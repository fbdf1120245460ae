//! `count`.

ghost use Rattle.std.specs.Prelude.{Option};
ghost use Rattle.mt_counts.specs.Counted.{Counted};
ghost use Rattle.mt_script_spec.specs.Commands as spec;
ghost use Rattle.mt_answer.specs.Replies.{AnswersAsk};

use super::reply::{Reply, count_line, lines};
use super::totals::query_total;
use mt_base::Value;
use mt_corpus::Corpus;
use mt_pattern::PatternShop;
use std::alloc::Global;

/// `count`: the number of spans of a query.
pub fn count<P: PatternShop>(alloc: Global, corpus: &Corpus, cql: &Value, shop: &mut P) -> Reply
    ensures { (counts : Option Counted) → AnswersAsk corpus.now counts (spec.Count cql.now) (P.refused shop.old) (P.refused shop.new) result }
{
    match query_total(alloc, corpus, cql.as_str(), shop) {
        Ok(total) => lines(count_line(alloc, "=", total as u128)),
        Err(declined) => declined.reply(alloc),
    }
}
