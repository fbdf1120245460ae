//! The reply to `sketch`.

ghost use Rattle.std.specs.Prelude.{◌≡◌, List as Items, IfOk, OnOk};
ghost use Rattle.mt_text_spec.specs.Lines.{closed};
ghost use Rattle.mt_text_spec.specs.Registries as registries;
ghost use Rattle.mt_text_spec.specs.Texts as texts;
ghost use Rattle.mt_text_spec.specs.Queries as queries;
ghost use Rattle.mt_match_spec.specs.Values.{Images};
ghost use Rattle.mt_counts.specs.Counted.{Counted};
ghost use Rattle.mt_triples.specs.CountsOf.{AreCountsOf};
ghost use Rattle.mt_word_sketch_spec.specs.Ranks.{number_line};
ghost use Rattle.mt_word_sketch_spec.specs.Sketches.{RelationLines};
ghost use Rattle.mt_sketch.specs.Told.{AppendsLines, AreOfSome, AreWithin, IsHeadOf, IsSketchReply, frequencies_of, heading_of};

use super::collocates::shown;
use super::lines::{put_heading, put_number, put_words};
use super::relations::headings;
use mt_base::{List, NoMemory};
use mt_counts::Head;
use mt_triples::Triples;
use mt_word_sketch_laws::pairs_are_within;
use std::alloc::Global;

/// The lines of the sketch of a lemma: its relations, and in each binary one the first `max` words that stand beside it at least `least` times. It costs by how many relations and
/// words stand beside the lemma; of the words it sorts no more than are shown. The counts are those of some texts, and the reply is that to `sketch` over any texts
/// of which they are.
pub fn sketch(
    alloc: Global,
    triples: &Triples,
    lemma: &str,
    least: u32,
    max: u32,
) -> Result<List<u8>, NoMemory>
    requires { AreOfSome triples.now }
    ensures { (images : Images) (registry : registries.Registry) (grammar : queries.Grammar) (corpus : Items texts.Text) → AreCountsOf images registry grammar corpus triples.now
        → IfOk result (IsSketchReply images registry grammar corpus lemma.now least max) }
{
    counts_are_within();
    sketch_within(alloc, triples, lemma, least, max)
}

/// That counts of texts are within one another.
pub fn counts_are_within()
    ensures { (counted : Counted) → AreOfSome counted → AreWithin counted }
{
    pairs_are_within();
}

/// The same of any counts that are within one another.
pub(crate) fn sketch_within(
    alloc: Global,
    triples: &Triples,
    lemma: &str,
    least: u32,
    max: u32,
) -> Result<List<u8>, NoMemory>
    requires { AreWithin triples.now }
    ensures { (images : Images) (registry : registries.Registry) (grammar : queries.Grammar) (corpus : Items texts.Text) → AreCountsOf images registry grammar corpus triples.now
        → IfOk result (IsSketchReply images registry grammar corpus lemma.now least max) }
{
    let headings = headings(alloc, triples, lemma)?;
    let mut reply = number_line(alloc, headings.len())?;
    for heading in headings.as_slice() {
        put_relation(alloc, triples, lemma, heading, least, max, &mut reply)?;
    }
    Ok(reply)
}

/// The first line of a list.
fn number_line(alloc: Global, count: usize) -> Result<List<u8>, NoMemory>
    ensures { IfOk result (λ line. line ≡ closed (number_line count)) }
{
    let mut line = List::new(alloc);
    line.push(b'=')?;
    put_number(b' ', count as u64, &mut line)?;
    line.push(b'\n')?;
    Ok(line)
}

/// Appends the lines of a relation.
fn put_relation(
    alloc: Global,
    triples: &Triples,
    lemma: &str,
    heading: &Head,
    least: u32,
    max: u32,
    out: &mut List<u8>,
) -> Result<(), NoMemory>
    requires within { AreWithin triples.now }
    requires heading { IsHeadOf (frequencies_of triples.now) lemma.now heading.now }
    ensures { OnOk result (AppendsLines (RelationLines (frequencies_of triples.now) lemma.now least max (heading_of heading.now)) out.old out.new) }
{
    put_heading(heading, out)?;
    if heading.unary {
        return out.extend(b"\tunary\n");
    }
    let words = shown(
        alloc,
        triples,
        heading.name.as_str(),
        lemma,
        heading.count,
        least,
        max,
    )?;
    put_number(b'\t', words.len() as u64, out)?;
    out.push(b'\n')?;
    put_words(&words, out)
}
