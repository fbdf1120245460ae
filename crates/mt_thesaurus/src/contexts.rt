//! The contexts of words, and the reply to `thes`.

ghost use Rattle.std.specs.Prelude.{◌≡◌, ℕ, ◌<◌, List as Items, length, slice_get, Some, IfOk};
ghost use Rattle.std.specs.List.{All};
ghost use Rattle.mt_text_spec.specs.Registries as registries;
ghost use Rattle.mt_text_spec.specs.Texts as texts;
ghost use Rattle.mt_text_spec.specs.Queries as queries;
ghost use Rattle.mt_match_spec.specs.Values.{Images};
ghost use Rattle.mt_counts.specs.Counted.{Counted};
ghost use Rattle.mt_sketch.specs.Told.{AreWithin, frequencies_of};
ghost use Rattle.mt_triples.specs.CountsOf.{AreCountsOf};
ghost use Rattle.mt_word_sketch_spec.specs.Frequencies.{Frequencies};
ghost use Rattle.mt_thesaurus.specs.Scores.{AreScoresOf};
ghost use Rattle.mt_thesaurus.specs.Told.{AreFirstAlike, IsSmall, IsThesaurusReply};

use super::alike::{first_ranked, others_of};
use super::fresh::{placed_of, words_of};
use super::grouped::{Grouped, group_both};
use super::lines::{number_line, put_words};
use super::placed::turned_all;
use super::sums::{parts_of, sums_of};
use indexmap::IndexSet;
use mt_base::{List, NoMemory, Value};
use mt_ranks::RankedWord;
use mt_triples::Triples;
use std::alloc::Global;
use std::marker::Model;
use std::thread::Threads;

/// The contexts in which words stand, with their scores, by numbers: in the order of words and in that of contexts, 24 bytes for each word in a context and 4 for each word and each context.
#[derive(Drop)]
pub struct Contexts {
    words: IndexSet<Value>,
    by_word: Grouped,
    by_context: Grouped,
    sums: Vec<u64>,
}

impl Model for Contexts {
    ghost use Rattle.mt_thesaurus.specs.Scores.{Scores};
    ghost use Rattle.mt_thesaurus.specs.Sums.{AreJoined};

    ghost Value = { Scores };

    ghost view = { λ c. record { words = c.words.keys; placed = c.by_word } };

    ghost invariant = { λ c. AreJoined c.words.keys c.by_word c.by_context c.sums.items };
}

impl Contexts {
    /// The contexts of all words that are counted. It costs by how many they are, and sorts them twice, side by side where they are many.
    pub fn new<R: Threads + Sync>(
        rt: &R,
        alloc: Global,
        triples: &Triples,
    ) -> Result<Self, NoMemory>
        requires { AreWithin triples.now }
        ensures { IfOk result (AreScoresOf (frequencies_of triples.now)) }
    {
        let numbered = triples.numbered();
        let words = words_of(alloc, &numbered)?;
        let placed = placed_of(alloc, &numbered)?;
        let turned = turned_all(alloc, &placed)?;
        let sums = sums_of(alloc, words.len(), &placed)?;
        let (by_word, by_context) = group_both(rt, alloc, placed, turned)?;
        Ok(Contexts {
            words,
            by_word,
            by_context,
            sums,
        })
    }

    /// The lines of the thesaurus of a lemma: the first `max` words that share a context with it. It costs by how many words stand in the lemma's contexts, and by how
    /// many words there are; it sorts and copies no more than are shown. Where there is much to add up, several threads do so. Where the scores are those of counts, the reply is that to `thes` over any texts of which the counts are.
    pub fn thesaurus<R: Threads + Sync>(
        &self,
        rt: &R,
        alloc: Global,
        lemma: &str,
        max: u32,
    ) -> Result<List<u8>, NoMemory>
        ensures { (images : Images) (registry : registries.Registry) (grammar : queries.Grammar) (corpus : Items texts.Text) (counted : Counted) → AreCountsOf images registry grammar corpus counted
            → AreScoresOf (frequencies_of counted) self.now → IfOk result (IsThesaurusReply images registry grammar corpus lemma.now max) }
    {
        let shown = self.alike(rt, alloc, lemma, max as usize)?;
        let mut reply = number_line(alloc, shown.len())?;
        put_words(shown.as_slice(), &mut reply)?;
        Ok(reply)
    }

    /// The first `max` words that are like a lemma.
    fn alike<R: Threads + Sync>(
        &self,
        rt: &R,
        alloc: Global,
        lemma: &str,
        max: usize,
    ) -> Result<List<RankedWord>, NoMemory>
        ensures are { (f : Frequencies) → AreScoresOf f self.now → IfOk result (AreFirstAlike f lemma.now max) }
        ensures small { IfOk result (All IsSmall) }
    {
        let lemma = Value::new(alloc, lemma)?;
        match self.words.get_index_of(&lemma) {
            Some(number) => self.alike_at(rt, alloc, number, max),
            None => Ok(List::new(alloc)),
        }
    }

    /// The first `max` words that are like the one with a number.
    fn alike_at<R: Threads + Sync>(
        &self,
        rt: &R,
        alloc: Global,
        lemma: usize,
        max: usize,
    ) -> Result<List<RankedWord>, NoMemory>
        requires { lemma < length self.now.words }
        ensures are { (f : Frequencies) (word : Items ℕ) → slice_get self.now.words lemma ≡ Some word → AreScoresOf f self.now → IfOk result (AreFirstAlike f word max) }
        ensures small { IfOk result (All IsSmall) }
    {
        if self.sums[lemma] == 0 {
            return Ok(List::new(alloc));
        }
        let own = self.by_word.of(lemma as u32);
        let parts = parts_of(rt, alloc, self.words.len(), own, &self.by_context)?;
        let numbers = others_of(alloc, &parts, lemma)?;
        first_ranked(
            alloc,
            &self.words,
            &numbers,
            &parts,
            &self.sums,
            lemma as u32,
            max,
        )
    }
}
