//! Patterns that accept one value: themselves.

ghost use Rattle.std.specs.Prelude.{◌≡◌, ◌<◌, IsTrue, IfOk, IfSome, IfNone, slice_get, Some, Contains, IsUtf8};
ghost use Rattle.std.specs.List.{AllPass, AllZip};
ghost use Rattle.mt_pattern_spec.specs.Patterns.{IsPattern, MarksAccepted, wrapped};
ghost use Rattle.mt_pattern.specs.Plain.{AcceptsJust, is_plain_byte};

use super::id_set::IdSet;
use mt_base::{List, NoMemory, Steps, Value};
use mt_lexicon::Lexicon;
use std::alloc::Global;
use std::marker::Brand;
use std::sync::ledger::{Blank, Ledger};

/// Whether each character of a text stands for itself in a pattern: it is an ASCII letter or digit, or beyond ASCII.
pub fn is_plain(text: &str) -> bool
    ensures plain { IsTrue result → AllPass is_plain_byte text.now }
    ensures all { AllPass is_plain_byte text.now → IsTrue result }
{
    text.as_bytes()
        .iter()
        .all(|byte| byte.is_ascii_alphanumeric() || *byte >= 128)
}

/// Marks in each lexicon the value that such a text is, where the lexicon has it.
pub fn mark_itself_in_each(
    alloc: Global,
    lexicons: &[&Lexicon],
    text: &Value,
) -> Result<List<IdSet>, NoMemory>
    requires utf8 { IsUtf8 text.now }
    requires plain { AllPass is_plain_byte text.now }
    requires alone { IsPattern text.now }
    requires whole { IsPattern (wrapped text.now) }
    ensures { IfOk result (λ sets. AllZip (λ lexicon marks. MarksAccepted text.now lexicon.now marks) lexicons.now sets) }
{
    let mut sets = List::with_capacity(alloc, lexicons.len())?;
    for lexicon in lexicons {
        sets.push(mark_itself(alloc, lexicon, text)?)?;
    }
    Ok(sets)
}

/// Marks the value that such a text is, where the lexicon has it.
pub(crate) fn mark_itself(alloc: Global, lexicon: &Lexicon, text: &Value) -> Result<IdSet, NoMemory>
    requires utf8 { IsUtf8 text.now }
    requires plain { AllPass is_plain_byte text.now }
    requires alone { IsPattern text.now }
    requires whole { IsPattern (wrapped text.now) }
    ensures { IfOk result (λ marks. MarksAccepted text.now lexicon.now marks) }
{
    let mut marks = IdSet::new(alloc, lexicon.len())?;
    let Some(id) = place_of(lexicon, text) else {
        return Ok(marks);
    };
    marks.insert(id);
    Ok(marks)
}

/// The number of the one value that such a text accepts, which is itself, where the lexicon has it.
pub(crate) fn own_number(lexicon: &Lexicon, text: &Value) -> Option<u32>
    requires utf8 { IsUtf8 text.now }
    requires plain { AllPass is_plain_byte text.now }
    requires alone { IsPattern text.now }
    requires whole { IsPattern (wrapped text.now) }
    ensures { AcceptsJust text.now lexicon.now result }
{
    let _ascending = lexicon.len();
    place_of(lexicon, text)
}

/// The number of a value.
fn place_of(lexicon: &Lexicon, value: &Value) -> Option<u32>
    ensures found { IfSome result (λ id. slice_get lexicon.now id ≡ Some value.now) }
    ensures none { IfNone result (¬ Contains lexicon.now value.now) }
{
    place_by::<Brand>(lexicon, value, Blank::new(1))
}

/// The number of a value. The blank names a ledger for the steps of this search alone.
fn place_by<L: Ledger>(lexicon: &Lexicon, value: &Value, blank: Blank) -> Option<u32>
    requires name { blank.name ≡ L.name }
    requires parts { blank.parts ≡ L.parts }
    requires some { 0 < L.parts }
    ensures found { IfSome result (λ id. slice_get lexicon.now id ≡ Some value.now) }
    ensures none { IfNone result (¬ Contains lexicon.now value.now) }
{
    let mut steps = Steps::<L>::new(blank);
    lexicon.find(value.as_str(), &mut steps)
}
