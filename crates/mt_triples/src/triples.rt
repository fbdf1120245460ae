//! The counts of a sketch grammar over texts.

ghost use Rattle.std.specs.Prelude.{◌≡◌, List as Items, ◌++◌, [], IfOk, OnErr, OnOk};
ghost use Rattle.mt_text_spec.specs.Registries as registries;
ghost use Rattle.mt_text_spec.specs.Texts as texts;
ghost use Rattle.mt_text_spec.specs.Queries as queries;
ghost use Rattle.mt_match_spec.specs.Values.{Images};
ghost use Rattle.mt_counts.specs.Numbered.{IsNumberingOf};
ghost use Rattle.mt_counts.specs.Tallies.{ListsOnce};
ghost use Rattle.mt_triples.specs.CountsOf.{AreCountsOf};
ghost use Rattle.mt_triples.specs.Told.{AreFirstWordsIn, IsHeadIn, IsPairIn};

use super::{
    differences_are_counts, parts_are_within, rest_is_left, same_count_same, sums_are_counts,
};
use mt_base::{List, NoMemory, Value};
use mt_count_laws::{one_count, one_unary_count};
use mt_counts::{Counts, Head, Noted, Numbered, Pair};
use std::alloc::Global;
use std::marker::Model;

/// What a grammar counts over some texts. Contracts speak of any texts, grammar, registry and images whose counts these are.
#[derive(Drop)]
pub struct Triples {
    counts: Counts,
}

impl Model for Triples {
    ghost use Rattle.mt_counts.specs.Counted.{Counted};

    ghost Value = { Counted };

    ghost view = { λ t. t.counts };
}

impl Triples {
    /// The counts over no texts. It takes no memory.
    pub fn new(alloc: Global) -> Self
        ensures { (images : Images) (registry : registries.Registry) (grammar : queries.Grammar) → AreCountsOf images registry grammar [] result }
    {
        Triples {
            counts: Counts::new(alloc),
        }
    }

    /// Adds what is noted over other texts, at the cost of what that is. Out of memory, or where all counts together would be 2^64 or more, each count is as it was.
    pub fn add(&mut self, alloc: Global, text: &Noted) -> Result<(), NoMemory>
        ensures ok { (images : Images) (registry : registries.Registry) (grammar : queries.Grammar) (corpus others : Items texts.Text) → AreCountsOf images registry grammar corpus self.old
            → AreCountsOf images registry grammar others text.now.counted → OnOk result (AreCountsOf images registry grammar (corpus ++ others) self.new) }
        ensures err { (images : Images) (registry : registries.Registry) (grammar : queries.Grammar) (corpus : Items texts.Text) → AreCountsOf images registry grammar corpus self.old
            → OnErr result (AreCountsOf images registry grammar corpus self.new) }
    {
        sums_are_counts();
        same_count_same();
        self.counts.add(alloc, text)
    }

    /// Takes away what is noted over some of the texts, wherever these stand among them, at the cost of what that is. It takes no memory.
    pub fn subtract(&mut self, text: &Noted)
        ensures { (images : Images) (registry : registries.Registry) (grammar : queries.Grammar) (before texts behind : Items texts.Text)
            → AreCountsOf images registry grammar (before ++ texts ++ behind) self.old → AreCountsOf images registry grammar texts text.now.counted → AreCountsOf images registry grammar (before ++ behind) self.new }
    {
        parts_are_within();
        rest_is_left();
        self.counts.subtract(text);
    }

    /// The words that stand in the texts as first ones, ascending by their bytes, each once.
    pub fn words(&self, alloc: Global) -> Result<List<Value>, NoMemory>
        ensures { (images : Images) (registry : registries.Registry) (grammar : queries.Grammar) (corpus : Items texts.Text) → AreCountsOf images registry grammar corpus self.now
            → IfOk result (λ words. AreFirstWordsIn images registry grammar corpus words) }
    {
        one_count();
        self.counts.words(alloc)
    }

    /// The names under which a word stands in the texts, each once, in any order. It costs by how many they are.
    pub fn heads(&self, alloc: Global, word: &str) -> Result<List<Head>, NoMemory>
        ensures { (images : Images) (registry : registries.Registry) (grammar : queries.Grammar) (corpus : Items texts.Text) → AreCountsOf images registry grammar corpus self.now
            → IfOk result (λ heads. ListsOnce (IsHeadIn images registry grammar corpus word.now) heads) }
    {
        one_count();
        one_unary_count();
        self.counts.heads(alloc, word)
    }

    /// The words that stand in the texts under a name with a first word, each once, in any order. It costs by how many pairs the first word has under the name.
    pub fn collocates(&self, alloc: Global, name: &str, word: &str) -> Result<List<Pair>, NoMemory>
        ensures { (images : Images) (registry : registries.Registry) (grammar : queries.Grammar) (corpus : Items texts.Text) → AreCountsOf images registry grammar corpus self.now
            → IfOk result (λ pairs. ListsOnce (IsPairIn images registry grammar corpus name.now word.now) pairs) }
    {
        one_count();
        self.counts.collocates(alloc, name, word)
    }

    /// The counts, whatever they are of. It takes no memory.
    pub fn counts(&self) -> &Counts
        ensures { result.now ≡ self.now }
    {
        &self.counts
    }

    /// The counts of two words by numbers. It takes no memory.
    pub fn numbered(&self) -> Numbered<'_>
        ensures { IsNumberingOf self.now result }
    {
        self.counts.numbered()
    }
}
