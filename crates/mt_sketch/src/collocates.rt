//! The words that stand beside a lemma in a relation.

ghost use Rattle.std.specs.Prelude.{◌≡◌, ◌<◌, IfOk};
ghost use Rattle.std.specs.List.{All};
ghost use Rattle.mt_sketch.specs.Told.{AreCandidates, AreShown, AreWithin, IsSmall, candidates_of, frequencies_of, weighed_of};

use mt_base::{List, NoMemory, Value};
use mt_counts::Pair;
use mt_ranks::{RankedWord, first};
use mt_triples::Triples;
use std::alloc::Global;

/// The collocates of a lemma in a binary relation in which it stands so often, those that are shown, in the order of their ranks.
pub(crate) fn shown(
    alloc: Global,
    triples: &Triples,
    name: &str,
    lemma: &str,
    left: u64,
    least: u32,
    max: u32,
) -> Result<List<RankedWord>, NoMemory>
    requires within { AreWithin triples.now }
    requires left { left ≡ (frequencies_of triples.now).first name.now lemma.now }
    requires some { 0 < left }
    ensures { IfOk result (AreShown (frequencies_of triples.now) name.now lemma.now least max) }
{
    let candidates = candidates(alloc, triples, name, lemma, left, least)?;
    first(alloc, candidates, max as usize)
}

/// All its collocates there.
fn candidates(
    alloc: Global,
    triples: &Triples,
    name: &str,
    lemma: &str,
    left: u64,
    least: u32,
) -> Result<List<RankedWord>, NoMemory>
    requires within { AreWithin triples.now }
    requires left { left ≡ (frequencies_of triples.now).first name.now lemma.now }
    requires some { 0 < left }
    ensures { IfOk result (AreCandidates (frequencies_of triples.now) name.now lemma.now least) }
{
    let pairs = triples.counts().collocates(alloc, name, lemma)?;
    ranked(alloc, pairs, left, least)
}

/// The words of pairs, with the fractions by which they are ranked; those that stand there less often than is asked for are left out.
fn ranked(
    alloc: Global,
    pairs: List<Pair>,
    left: u64,
    least: u32,
) -> Result<List<RankedWord>, NoMemory>
    requires { 0 < left }
    ensures words { IfOk result (λ words. words ≡ candidates_of left least pairs) }
    ensures small { IfOk result (All IsSmall) }
{
    let mut words = List::new(alloc);
    for pair in pairs.into_vec() {
        if pair.both >= u64::from(least) {
            words.push(word_of(pair.word, pair.both, left, pair.right))?;
        }
    }
    Ok(words)
}

/// A word that stands beside the lemma `both` times, ranked. The lemma stands in the relation `left` times, and the word `right` times.
fn word_of(word: Value, both: u64, left: u64, right: u64) -> RankedWord
    requires { 0 < left }
    ensures is { result ≡ weighed_of left (record { word = word; both = both; right = right }) }
    ensures small { IsSmall result }
{
    let whole = u128::from(left) + u128::from(right);
    RankedWord::new(word, 2 * u128::from(both), whole)
}
