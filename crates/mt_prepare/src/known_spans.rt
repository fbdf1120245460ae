//! Spans of one segment that were listed before, so that they need not be listed again.

ghost use Rattle.std.specs.Prelude.{◌≡◌, [], IfOk, IfSome};
ghost use Rattle.mt_text_spec.specs.Queries as q;
ghost use Rattle.mt_segment_spec.specs.Tables.{Tables};
ghost use Rattle.mt_prepare.specs.KnownSpans.{AreSpansKnown};
ghost use Rattle.mt_prepare.specs.Resolved.{AreSpansOf};

use crate::prepared::PreparedExpr;
use crate::shared_spans::SharedSpans;
use crate::spare::Spare;
use mt_base::{NoMemory, Span};
use std::alloc::Global;

/// The spans of all instances of a kind of structure.
#[derive(Drop)]
struct KindSpans {
    kind: u16,
    spans: SharedSpans,
}

/// Spans of one segment that were listed before: those of all instances of some kinds of structures, each kind once. Lists of spans that are done with wait here for the
/// next segment.
#[derive(Drop)]
pub struct KnownSpans {
    kinds: Vec<KindSpans>,
    spare: Spare,
}

impl KnownSpans {
    /// No spans yet. It takes no memory.
    pub fn new(alloc: Global) -> Self
        ensures known { (tables : Tables) → AreSpansKnown tables result }
    {
        KnownSpans {
            kinds: Vec::new(alloc),
            spare: Spare::new(alloc),
        }
    }

    /// Turns to another segment: what is known of the one before goes, and its memory is kept.
    pub fn turn(&mut self)
        ensures known { (tables : Tables) → AreSpansKnown tables self.new }
    {
        self.kinds.clear();
    }

    /// A list without spans, with room for so many.
    pub(crate) fn spans(&mut self, alloc: Global, count: usize) -> Result<Vec<Span>, NoMemory>
        ensures none { IfOk result (λ spans. spans.items ≡ []) }
        ensures known { (tables : Tables) → AreSpansKnown tables self.old → AreSpansKnown tables self.new }
    {
        self.spare.spans(alloc, count)
    }

    /// Takes the tests and the tags out of an expression that is done with. Its lists keep their memory, and that of the spans waits here.
    pub(crate) fn empty(&mut self, alloc: Global, expr: &mut PreparedExpr)
        ensures known { (tables : Tables) → AreSpansKnown tables self.old → AreSpansKnown tables self.new }
        ensures tests { expr.new.tests ≡ [] }
        ensures tags { expr.new.tags ≡ [] }
    {
        self.spare.empty(alloc, expr);
    }

    /// The spans of a kind, where they are kept.
    pub(crate) fn find(&self, kind: u16) -> Option<&SharedSpans>
        ensures found { (tables : Tables) → AreSpansKnown tables self.now → IfSome result (λ spans. AreSpansOf tables (record { kind = kind; test = q.Any }) spans.now) }
    {
        for kept in &self.kinds {
            if kept.kind == kind {
                return Some(&kept.spans);
            }
        }
        None
    }

    /// Keeps the spans of a kind, where there is memory for them.
    pub(crate) fn keep(&mut self, kind: u16, spans: &SharedSpans)
        ensures known { (tables : Tables) → AreSpansKnown tables self.old → AreSpansOf tables (record { kind = kind; test = q.Any }) spans.now → AreSpansKnown tables self.new }
    {
        match shared_by(kind, spans) {
            Ok(kept) => match self.kinds.push(kept) {
                Ok(()) => {}
                Err(_) => {}
            },
            Err(_) => {}
        }
    }
}

/// The spans as they are kept.
fn shared_by(kind: u16, spans: &SharedSpans) -> Result<KindSpans, NoMemory>
    ensures { IfOk result (λ kept. kept ≡ record { kind = kind; spans = spans.now }) }
{
    let spans = spans.share()?;
    Ok(KindSpans { kind, spans })
}
