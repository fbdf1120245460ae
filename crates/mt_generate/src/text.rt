//! A generated text under the standard registry.

ghost use Rattle.std.specs.Prelude.{true, false, ◌≡◌, ◌+◌, ◌*◌, ◌<◌, ◌≤◌, ◌^◌, ◌++◌, ◌∷◌, [], map, length, IfOk, OnOk};
ghost use Rattle.std.specs.List.{range_with_len};
ghost use Rattle.mt_generate_spec.specs.Generated.{token_of, tag_of, tokens_from, generated_text, document, sentence, sentence_count};
ghost use Rattle.mt_generate.specs.Sources.{rows_of};

use super::source::{Drawn, Source};
use itoa::Buffer;
use mt_base::{List, NoMemory, Strings, StructSpan, Text, Tokens, Value};
use std::alloc::Global;

/// Below so many tokens the rows of all ranks are not worth writing.
const FEW_TOKENS: u32 = 4_000;

/// The text of this name that has so many tokens drawn from the seed, under the standard registry.
pub fn generated_text(alloc: Global, name: Value, seed: u64, tokens: u32) -> Result<Text, NoMemory>
    ensures { IfOk result (λ text. text ≡ generated_text name seed tokens) }
{
    let structs = structs(alloc, &name, tokens)?;
    let mut all = Tokens::new(alloc, 3);
    push_tokens(alloc, &mut all, seed, tokens)?;
    all.shrink_to_fit();
    Ok(Text::new(name, all, structs))
}

/// The document, and the sentences.
fn structs(alloc: Global, name: &Value, tokens: u32) -> Result<List<StructSpan>, NoMemory>
    ensures { IfOk result (λ spans. spans ≡ document name.now tokens ∷ map (sentence tokens) (range_with_len 0 (sentence_count tokens))) }
{
    let mut values = List::with_capacity(alloc, 1)?;
    values.push(name.copy(alloc)?)?;
    let mut spans = List::with_capacity(alloc, 1 + tokens.div_ceil(10) as usize)?;
    spans.push(StructSpan::new(0, 0, tokens, values))?;
    for number in 0..tokens.div_ceil(10) {
        let begin = 10 * number;
        let end = begin.saturating_add(10).min(tokens);
        spans.push(StructSpan::new(1, begin, end, List::new(alloc)))?;
    }
    Ok(spans)
}

/// Adds the tokens of the seed, so many. Where they are few, the values of each are written anew; else all rows that there can be are written first.
fn push_tokens(alloc: Global, all: &mut Tokens, seed: u64, tokens: u32) -> Result<(), NoMemory>
    requires { all.old ≡ record { columns = 3; tokens = [] } }
    ensures { OnOk result (all.new.tokens ≡ tokens_from seed 0 tokens) }
{
    if tokens < FEW_TOKENS {
        return push_written(alloc, all, seed, tokens);
    }
    let mut text = String::with_capacity(alloc, 5)?;
    let singular = rows(alloc, &mut text, false)?;
    let plural = rows(alloc, &mut text, true)?;
    push_rows(all, &singular, &plural, seed, tokens)
}

/// Adds the tokens of the seed, so many, each by its values.
fn push_written(alloc: Global, all: &mut Tokens, seed: u64, tokens: u32) -> Result<(), NoMemory>
    requires { all.old ≡ record { columns = 3; tokens = [] } }
    ensures { OnOk result (all.new.tokens ≡ tokens_from seed 0 tokens) }
{
    let mut source = Source::new(seed);
    let mut row = Strings::with_capacity(alloc, 3, 11)?;
    let mut text = String::with_capacity(alloc, 5)?;
    for _ in 0..tokens {
        make_row(&mut row, &mut text, source.draw())?;
        all.push(&row)?;
    }
    Ok(())
}

/// Adds the tokens of the seed, so many, each by its row.
fn push_rows(
    all: &mut Tokens,
    singular: &List<Strings>,
    plural: &List<Strings>,
    seed: u64,
    tokens: u32,
) -> Result<(), NoMemory>
    requires none { all.old ≡ record { columns = 3; tokens = [] } }
    requires singular { singular.now ≡ rows_of false 1000 }
    requires plural { plural.now ≡ rows_of true 1000 }
    ensures { OnOk result (all.new.tokens ≡ tokens_from seed 0 tokens) }
{
    let mut source = Source::new(seed);
    for _ in 0..tokens {
        all.push(row(singular, plural, source.draw()))?;
    }
    Ok(())
}

/// The row of a token.
fn row<'a>(singular: &'a List<Strings>, plural: &'a List<Strings>, token: Drawn) -> &'a Strings
    requires singular { singular.now ≡ rows_of false 1000 }
    requires plural { plural.now ≡ rows_of true 1000 }
    requires low { token.rank < 1000 }
    ensures { result.now ≡ (token_of token.rank token.plural).values }
{
    if token.plural {
        one_row(plural, token.rank, token.plural)
    } else {
        one_row(singular, token.rank, token.plural)
    }
}

/// The row of a rank.
fn one_row(rows: &List<Strings>, rank: u32, plural: bool) -> &Strings
    requires rows { rows.now ≡ rows_of plural 1000 }
    requires low { rank < 1000 }
    ensures { result.now ≡ (token_of rank plural).values }
{
    rows.get(rank as usize)
}

/// The rows of all ranks.
fn rows(alloc: Global, text: &mut String, plural: bool) -> Result<List<Strings>, NoMemory>
    ensures { IfOk result (λ rows. rows ≡ rows_of plural 1000) }
{
    let mut rows = List::with_capacity(alloc, 1000)?;
    for rank in 0..1000 {
        let mut row = Strings::with_capacity(alloc, 3, 11)?;
        make_row(&mut row, text, Drawn { rank, plural })?;
        rows.push(row)?;
    }
    Ok(rows)
}

/// Makes the row the values of a token under the standard registry. What the text beside it had is lost.
pub fn make_row(row: &mut Strings, text: &mut String, token: Drawn) -> Result<(), NoMemory>
    ensures { OnOk result (row.new ≡ (token_of token.rank token.plural).values) }
{
    let mut buffer = Buffer::new();
    let digits = buffer.format(token.rank);
    row.clear();
    text.clear();
    text.push_str("l")?;
    text.push_str(digits)?;
    if token.plural {
        text.push_str("s")?;
    }
    row.push(text.as_str())?;
    row.push(tag(token.rank))?;
    text.clear();
    text.push_str("l")?;
    text.push_str(digits)?;
    row.push(text.as_str())
}

/// The tag of a lemma.
fn tag(rank: u32) -> &'static str
    ensures { result.now ≡ tag_of rank }
{
    match rank % 4 {
        0 => "N",
        1 => "J",
        2 => "V",
        _ => "D",
    }
}
