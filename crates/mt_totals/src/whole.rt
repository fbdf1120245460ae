//! Whether each text that a corpus keeps is live.

ghost use Rattle.std.specs.Prelude.{IsTrue};
ghost use Rattle.mt_totals.specs.Whole.{IsWholeCorpus};

use mt_corpus::Corpus;

/// Whether no text of a corpus was removed, as far as its segments still hold it.
pub(crate) fn is_whole(corpus: &Corpus) -> bool
    ensures { IsTrue result → IsWholeCorpus corpus.now }
{
    let (segments, live) = corpus.held();
    for i in 0..segments.len() {
        if live.get(i).len() != segments.get(i).texts() as usize {
            return false;
        }
    }
    true
}
