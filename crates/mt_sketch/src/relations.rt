//! The relations of a lemma.

ghost use Rattle.std.specs.Prelude.{◌≡◌, IfOk};
ghost use Rattle.mt_word_sketch_spec.specs.Sketches.{heading_cmp};
ghost use Rattle.mt_sketch.specs.Told.{AreHeadings, frequencies_of, heading_of};

use mt_base::{List, NoMemory};
use mt_counts::Head;
use mt_triples::Triples;
use std::alloc::Global;
use std::cmp::Ordering;

/// The relations in which a lemma stands, in their order.
pub(crate) fn headings(
    alloc: Global,
    triples: &Triples,
    lemma: &str,
) -> Result<List<Head>, NoMemory>
    ensures { IfOk result (AreHeadings (frequencies_of triples.now) lemma.now) }
{
    let mut heads = triples.counts().heads(alloc, lemma)?.into_vec();
    heads.sort_unstable_by(|one, other| compare(one, other));
    Ok(List::from_vec(heads))
}

/// Which of two relations is listed first.
fn compare(one: &Head, other: &Head) -> Ordering
    ensures { result ≡ heading_cmp (heading_of one.now) (heading_of other.now) }
{
    match one.name.cmp(&other.name) {
        Ordering::Equal => one.unary.cmp(&other.unary),
        order => order,
    }
}
