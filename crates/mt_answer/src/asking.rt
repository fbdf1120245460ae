//! Questions.

ghost use Rattle.std.specs.Prelude.{IfSome, option_copied};
ghost use Rattle.mt_script.specs.Seen.{ask_of};
ghost use Rattle.mt_sketch.specs.Told.{AreOfSome};
ghost use Rattle.mt_answer.specs.Replies.{AnswersAsk};
ghost use Rattle.mt_answer.specs.Rows.{HasImages};

use super::collocates::colloc;
use super::counted::GrammarCounts;
use super::counting::count;
use super::frequencies::freq;
use super::querying::query;
use super::reply::Reply;
use super::sketches::sketch;
use super::thesaurus::thes;
use mt_corpus::Corpus;
use mt_pattern::PatternShop;
use mt_script::Ask;
use std::alloc::Global;
use std::thread::Threads;

/// Answers a question about a corpus, by what the grammar that is held counts there, if one is held. The caller knows mappers that make the images that the corpus has
/// taken, and texts of which the counts are.
pub fn answer<P: PatternShop, R: Threads + Sync>(
    rt: &R,
    alloc: Global,
    corpus: &Corpus,
    counts: Option<&GrammarCounts>,
    ask: &Ask,
    shop: &mut P,
) -> Reply
    requires images { HasImages corpus.now }
    requires counted { IfSome (option_copied counts) AreOfSome }
    ensures { AnswersAsk corpus.now (option_copied counts.entry) (ask_of ask.now) (P.refused shop.old) (P.refused shop.new) result }
{
    match ask {
        Ask::Count { cql } => count(alloc, corpus, cql, shop),
        Ask::Query { cql } => query(alloc, corpus, cql, shop),
        Ask::Freq { attr, offset, cql } => freq(alloc, corpus, attr, *offset, cql, shop),
        Ask::Colloc {
            attr,
            from,
            to,
            min,
            cql,
        } => colloc(alloc, corpus, attr, *from, *to, *min, cql, shop),
        Ask::Sketch { min, max, lemma } => sketch(alloc, counts, *min, *max, lemma),
        Ask::Thes { max, lemma } => thes(rt, alloc, counts, *max, lemma),
    }
}
