//! Spans that several tags share.

ghost use Rattle.std.specs.Prelude.{◌≡◌, IfOk, IfSome};

use mt_base::{List, NoMemory, Span};
use std::alloc::Global;
use std::marker::Model;
use std::sync::Arc;

/// The spans of a tag, each from left to right. Tags that have the same ones share them. They are seen as their list.
#[derive(Drop)]
pub struct SharedSpans {
    spans: Arc<List<Span>>,
}

impl Model for SharedSpans {
    ghost use Rattle.std.specs.Prelude.{List as Items};
    ghost use Rattle.mt_text_spec.specs.Texts.{Span};

    ghost Value = { Items Span };

    ghost view = { λ s. s.spans.value };
}

impl SharedSpans {
    /// Spans that one tag has.
    pub(crate) fn new(alloc: Global, spans: List<Span>) -> Result<Self, NoMemory>
        ensures { IfOk result (λ shared. shared ≡ spans) }
    {
        match Arc::new(alloc, spans) {
            Ok(spans) => Ok(SharedSpans { spans }),
            Err(_) => Err(NoMemory),
        }
    }

    /// The same spans for another tag. It takes no memory.
    pub(crate) fn share(&self) -> Result<Self, NoMemory>
        ensures { IfOk result (λ shared. shared ≡ self.now) }
    {
        match Arc::try_clone(&self.spans) {
            Ok(spans) => Ok(SharedSpans { spans }),
            Err(_) => Err(NoMemory),
        }
    }

    /// The spans one after another.
    pub fn as_slice(&self) -> &[Span]
        ensures { result.now ≡ self.now }
    {
        self.spans.as_slice()
    }

    /// The list, where no other tag shares it.
    pub(crate) fn into_list(self) -> Option<List<Span>>
        ensures { IfSome result (λ spans. spans ≡ self) }
    {
        let SharedSpans { spans } = self;
        Arc::into_inner(spans)
    }
}
