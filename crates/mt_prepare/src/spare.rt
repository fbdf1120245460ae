//! Lists of spans that are done with, kept for the next segment.

ghost use Rattle.std.specs.Prelude.{◌≡◌, [], IfOk};

use crate::prepared::PreparedExpr;
use crate::shared_spans::SharedSpans;
use mt_base::{List, NoMemory, Span};
use std::alloc::Global;
use std::mem::replace;

/// A list with room for more items is let go, so that the memory of a large text does not stay.
const MOST_ITEMS: usize = 64;

/// So many lists are kept at most.
const MOST_LISTS: usize = 16;

/// Lists of spans that are done with, whose memory the next ones take.
#[derive(Drop)]
pub(crate) struct Spare {
    spans: Vec<Vec<Span>>,
}

impl Spare {
    /// No lists. It takes no memory.
    pub(crate) fn new(alloc: Global) -> Self {
        Spare {
            spans: Vec::new(alloc),
        }
    }

    /// A list without spans, with room for so many.
    pub(crate) fn spans(&mut self, alloc: Global, count: usize) -> Result<Vec<Span>, NoMemory>
        ensures { IfOk result (λ spans. spans.items ≡ []) }
    {
        match self.spans.pop() {
            Some(spans) => emptied(spans, count),
            None => Ok(Vec::with_capacity(alloc, count)?),
        }
    }

    /// Takes the tests and the tags out of an expression, whose lists keep their memory. That of spans is kept here.
    pub(crate) fn empty(&mut self, alloc: Global, expr: &mut PreparedExpr)
        ensures tests { expr.new.tests ≡ [] }
        ensures tags { expr.new.tags ≡ [] }
    {
        expr.tests.truncate(0);
        if !expr.tags.is_empty() {
            let mut tags = replace(&mut expr.tags, List::new(alloc)).into_vec();
            self.take_all(&mut tags);
            expr.tags = List::from_vec(tags);
        }
    }

    /// Takes the spans of all tags. Those that another tag shares are left to it.
    fn take_all(&mut self, tags: &mut Vec<SharedSpans>)
        ensures { tags.new.items ≡ [] }
    {
        while let Some(spans) = tags.pop() {
            if let Some(list) = spans.into_list() {
                self.keep(list.into_vec());
            }
        }
    }

    /// Keeps a list, unless it has no room, or too much, or so many are kept. Without memory it is let go.
    fn keep(&mut self, spans: Vec<Span>) {
        let room = spans.capacity();
        if room == 0 || room > MOST_ITEMS || self.spans.len() >= MOST_LISTS {
            return;
        }
        match self.spans.push(spans) {
            Ok(()) => {}
            Err(_) => {}
        }
    }
}

/// The list with no span in it, and with room for so many.
fn emptied(mut spans: Vec<Span>, count: usize) -> Result<Vec<Span>, NoMemory>
    ensures { IfOk result (λ emptied. emptied.items ≡ []) }
{
    spans.clear();
    spans.reserve(count)?;
    Ok(spans)
}
