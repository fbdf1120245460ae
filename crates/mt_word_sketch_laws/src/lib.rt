//! Laws of word sketches and of the thesaurus: each function's contract is a law, and the functions do nothing.
#![tactic(auto)]

ghost use Rattle.mt_word_sketch_laws.specs.Laws.{HaveSketches, HaveThesauri, OneFrequencies, OneSketch, OneThesaurus, PairsAreWithin};

use mt_count_laws::{one_count, one_unary_count};
use mt_score::laws::{score_is_unique, there_is_a_score};
use mt_triples::have_counts;

/// Two words stand together no more often than each does by itself.
pub fn pairs_are_within()
    ensures { PairsAreWithin }
{}

/// Frequencies over texts are one.
pub fn one_frequencies()
    ensures { OneFrequencies }
{
    one_count();
    one_unary_count();
}

/// There is one sketch at most.
pub fn one_sketch()
    ensures { OneSketch }
{
    one_frequencies();
    score_is_unique();
}

/// Every lemma has a sketch over any texts, whatever is asked for.
pub fn have_sketches()
    ensures { HaveSketches }
{
    have_counts();
    pairs_are_within();
    there_is_a_score();
}

/// There is one thesaurus at most.
pub fn one_thesaurus()
    ensures { OneThesaurus }
{
    one_frequencies();
}

/// Every lemma has a thesaurus over any texts.
pub fn have_thesauri()
    ensures { HaveThesauri }
{
    have_counts();
    pairs_are_within();
    score_is_unique();
    there_is_a_score();
}
