//! The instances of structures of a generated text.

ghost use Rattle.std.specs.Prelude.{◌≡◌, ◌<◌, [], ◌∷◌, ◌++◌, length, map, IfOk, OnOk, List as Items};
ghost use Rattle.std.specs.List.{range_with_len};
ghost use Rattle.mt_text_spec.specs.Texts as texts;
ghost use Rattle.mt_generate_spec.specs.Generated.{sentence, sentence_count};
ghost use Rattle.mt_generate_tables.specs.Joined.{AreInstances};

use mt_base::{List, NoMemory, StructSpan, Value};
use mt_segment::Lists;
use std::alloc::Global;

/// The document, the sentences, and no glue.
pub(crate) fn instances(
    alloc: Global,
    name: &Value,
    tokens: u32,
) -> Result<Lists<StructSpan>, NoMemory>
    ensures { IfOk result (AreInstances name.now tokens) }
{
    let mut values = List::with_capacity(alloc, 1)?;
    values.push(name.copy(alloc)?)?;
    let mut all = Lists::with_capacity(alloc, 3, 1 + tokens.div_ceil(10) as usize)?;
    all.begin()?;
    all.push(StructSpan::new(0, 0, tokens, values))?;
    all.begin()?;
    push_sentences(alloc, &mut all, tokens)?;
    all.begin()?;
    Ok(all)
}

/// Adds all sentences of so many tokens to the last list, where it has no instance.
fn push_sentences(alloc: Global, all: &mut Lists<StructSpan>, tokens: u32) -> Result<(), NoMemory>
    requires { (before : Items (Items texts.StructSpan)) × (all.old ≡ before ++ [] ∷ []) }
    ensures { OnOk result ((before : Items (Items texts.StructSpan)) → all.old ≡ before ++ [] ∷ [] →
        all.new ≡ before ++ map (sentence tokens) (range_with_len 0 (sentence_count tokens)) ∷ []) }
{
    for number in 0..tokens.div_ceil(10) {
        let begin = 10 * number;
        let end = begin.saturating_add(10).min(tokens);
        all.push(StructSpan::new(1, begin, end, List::new(alloc)))?;
    }
    Ok(())
}
