//! The tables of base attributes.

ghost use Rattle.std.specs.Prelude.{◌≡◌, ◌+◌, ◌-◌, ◌^◌, ◌<◌, ◌≤◌, ◌++◌, length, map, IfOk, OnOk};
ghost use Rattle.mt_text_spec.specs.Texts.{total_tokens, corpus_tokens_limit, value_of};
ghost use Rattle.mt_segment_spec.specs.Tables.{AreBaseTables, column_values};

use super::inverting::postings_of;
use super::numbering::Numbering;
use super::sorting::{FEW, Sorter, sorted_tables};
use super::table::{AttrTables, Column, Numbers};
use mt_base::{NoMemory, Text};
use std::alloc::Global;

/// The tables of the base attribute that has this place among the base attributes. The number of tokens is known, and tells how much room is wanted, and which
/// of two ways is the cheaper one. What was in the sorter goes.
pub(crate) fn base_tables<'a>(
    alloc: Global,
    texts: &'a [Text],
    column: usize,
    tokens: usize,
    sorter: &mut Sorter<'a>,
) -> Result<AttrTables, NoMemory>
    requires { total_tokens texts.now ≤ corpus_tokens_limit }
    ensures { IfOk result (λ tables. AreBaseTables (column_values column texts.now) tables) }
{
    if tokens <= FEW {
        sorted_tables(alloc, texts, column, sorter)
    } else {
        numbered_tables(alloc, texts, column, tokens)
    }
}

/// The same tables for many tokens, whose values are numbered as they are seen.
pub(crate) fn numbered_tables(
    alloc: Global,
    texts: &[Text],
    column: usize,
    tokens: usize,
) -> Result<AttrTables, NoMemory>
    requires { total_tokens texts.now ≤ corpus_tokens_limit }
    ensures { IfOk result (λ tables. AreBaseTables (column_values column texts.now) tables) }
{
    let mut numbering = Numbering::new(alloc, tokens)?;
    for text in texts {
        add_text(&mut numbering, text, column)?;
    }
    let (lexicon, numbers) = numbering.finish()?;
    let postings = postings_of(alloc, numbers.as_slice(), lexicon.len() as usize)?;
    Ok(AttrTables {
        lexicon,
        numbers: Numbers::Base(Column::new(numbers)),
        postings,
    })
}

/// Adds the values of a text's tokens.
fn add_text(numbering: &mut Numbering, text: &Text, column: usize) -> Result<(), NoMemory>
    requires { length numbering.old + length text.now.tokens < 2 ^ 32 - 1 }
    ensures { OnOk result (numbering.new ≡ numbering.old ++ map (λ token. value_of token column) text.now.tokens) }
{
    let tokens = text.tokens();
    for place in 0..tokens.len() {
        numbering.push(tokens.value(place, column))?;
    }
    Ok(())
}
