//! Instances of structures, kind by kind and text by text.

ghost use Rattle.std.specs.Prelude.{◌≡◌, ◌≤◌, ◌∷◌, [], ◌++◌, length, filter, IfOk, OnOk};
ghost use Rattle.mt_text_spec.specs.Texts.{corpus_texts_limit};
ghost use Rattle.mt_segment_spec.specs.Tables.{instances_of, is_of_kind};
ghost use Rattle.mt_segment.specs.Building.{AreInstances};

use super::lists::Lists;
use mt_base::{NoMemory, StructSpan, Text};
use std::alloc::Global;

/// The instances of each kind in each text, with copies of their values.
pub(crate) fn all_instances(
    alloc: Global,
    texts: &[Text],
    kinds: u16,
) -> Result<Lists<StructSpan>, NoMemory>
    requires { length texts.now ≤ corpus_texts_limit }
    ensures { IfOk result (λ all. AreInstances texts.now all kinds) }
{
    let lists = kinds as usize * texts.len();
    let mut all = Lists::with_capacity(alloc, lists, count(texts))?;
    for kind in 0..kinds {
        add_kind(alloc, &mut all, texts, kind)?;
    }
    Ok(all)
}

/// How many instances there are, for which there is room to be.
fn count(texts: &[Text]) -> usize {
    let mut count = 0usize;
    for text in texts {
        count = count.saturating_add(text.structs().len());
    }
    count
}

/// Adds the instances of a kind in each text.
fn add_kind(
    alloc: Global,
    all: &mut Lists<StructSpan>,
    texts: &[Text],
    kind: u16,
) -> Result<(), NoMemory>
    ensures { OnOk result (all.new ≡ all.old ++ instances_of kind texts.now) }
{
    for text in texts {
        add_text(alloc, all, text, kind)?;
    }
    Ok(())
}

/// Adds the instances of a kind in a text.
fn add_text(
    alloc: Global,
    all: &mut Lists<StructSpan>,
    text: &Text,
    kind: u16,
) -> Result<(), NoMemory>
    ensures { OnOk result (all.new ≡ all.old ++ filter (is_of_kind kind) text.now.structs ∷ []) }
{
    all.begin()?;
    for span in text.structs().as_slice() {
        if span.kind() == kind {
            all.push(span.copy(alloc)?)?;
        }
    }
    Ok(())
}
