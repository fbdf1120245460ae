//! `thes`.

ghost use Rattle.std.specs.Prelude.{ℕ, List as Items, IfSome, option_copied};
ghost use Rattle.mt_corpus_spec.specs.Images as images;
ghost use Rattle.mt_script_spec.specs.Commands as spec;
ghost use Rattle.mt_sketch.specs.Told.{AreOfSome};
ghost use Rattle.mt_answer.specs.Replies.{AnswersAsk};

use super::counted::GrammarCounts;
use super::refusal::Refusal;
use super::reply::{Reply, lines, refused};
use mt_base::Value;
use std::alloc::Global;
use std::thread::Threads;

/// `thes`: the first `max` words that stand where a lemma does.
pub(crate) fn thes<R: Threads + Sync>(
    rt: &R,
    alloc: Global,
    counts: Option<&GrammarCounts>,
    max: u32,
    lemma: &Value,
) -> Reply
    requires { IfSome (option_copied counts) AreOfSome }
    ensures { (corpus : images.Corpus) (before : Items (Items ℕ)) → AnswersAsk corpus (option_copied counts.entry) (spec.Thes max lemma.now) before before result }
{
    match counts {
        Some(counts) => lines(counts.thesaurus(rt, alloc, lemma.as_str(), max)),
        None => refused(alloc, &Refusal::NoGrammar),
    }
}
