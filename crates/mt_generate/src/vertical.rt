//! The vertical of a generated text.

ghost use Rattle.std.specs.Prelude.{◌≡◌, ◌+◌, ◌*◌, ◌<◌, ◌≤◌, ◌^◌, ◌++◌, ◌∷◌, [], codes, map, length, IfOk, OnOk};
ghost use Rattle.std.specs.List.{flat_map, range_with_len};
ghost use Rattle.mt_text_spec.specs.Lines.{closed};
ghost use Rattle.mt_generate_spec.specs.Generated.{token_of, tag_of, tokens_from, sentence_begin, sentence_count};
ghost use Rattle.mt_generate_spec.specs.Verticals.{token_line, sentence_of, sentence_lines, generated_vertical};

use super::source::{Drawn, Source};
use itoa::Buffer;
use mt_base::{List, NoMemory};
use std::alloc::Global;

/// The vertical of the text of this name that has so many tokens drawn from the seed. It is made in one block.
pub fn generated(alloc: Global, name: &str, seed: u64, tokens: u32) -> Result<List<u8>, NoMemory>
    ensures { IfOk result (λ bytes. bytes ≡ generated_vertical name.now seed tokens) }
{
    let mut out = List::with_capacity(alloc, room(name, tokens))?;
    out.extend(b"<doc id=\"")?;
    out.extend(name.as_bytes())?;
    out.extend(b"\">\n")?;
    let mut source = Source::new(seed);
    push_sentences(&mut out, &mut source, tokens)?;
    out.extend(b"</doc>\n")?;
    Ok(out)
}

/// Room for the vertical: at most 13 bytes for a token, 9 for the tags of a sentence, 19 for those of the document beside the name.
fn room(name: &str, tokens: u32) -> usize {
    name.len() + 14 * tokens as usize + 29
}

/// Adds all sentences of a text of so many tokens.
fn push_sentences(out: &mut List<u8>, source: &mut Source, tokens: u32) -> Result<(), NoMemory>
    requires { source.old.place ≡ 0 }
    ensures { OnOk result (out.new ≡ out.old ++ flat_map closed (flat_map (sentence_lines source.old.seed tokens) (range_with_len 0 (sentence_count tokens)))) }
{
    let tokens = u64::from(tokens);
    for number in 0..tokens.div_ceil(10) {
        let left = tokens - 10 * number;
        push_sentence(out, source, left.min(10))?;
    }
    Ok(())
}

/// Adds a sentence of the next tokens, so many.
fn push_sentence(out: &mut List<u8>, source: &mut Source, count: u64) -> Result<(), NoMemory>
    requires { source.old.place + count ≤ 2 ^ 32 }
    ensures next { OnOk result (source.new ≡ record { seed = source.old.seed; place = source.old.place + count }) }
    ensures lines { OnOk result (out.new ≡ out.old ++ flat_map closed (sentence_of (tokens_from source.old.seed source.old.place count))) }
{
    out.extend(b"<s>\n")?;
    push_tokens(out, source, count)?;
    out.extend(b"</s>\n")
}

/// Adds the lines of the next tokens, so many.
fn push_tokens(out: &mut List<u8>, source: &mut Source, count: u64) -> Result<(), NoMemory>
    requires { source.old.place + count ≤ 2 ^ 32 }
    ensures next { OnOk result (source.new ≡ record { seed = source.old.seed; place = source.old.place + count }) }
    ensures lines { OnOk result (out.new ≡ out.old ++ flat_map closed (map token_line (tokens_from source.old.seed source.old.place count))) }
{
    for _ in 0..count {
        push_token(out, source.draw())?;
    }
    Ok(())
}

/// Adds the line of a token.
fn push_token(out: &mut List<u8>, token: Drawn) -> Result<(), NoMemory>
    ensures { OnOk result (out.new ≡ out.old ++ closed (token_line (token_of token.rank token.plural))) }
{
    let mut buffer = Buffer::new();
    let digits = buffer.format(token.rank).as_bytes();
    out.push(b'l')?;
    out.extend(digits)?;
    if token.plural {
        out.push(b's')?;
    }
    out.extend(tag_column(token.rank))?;
    out.extend(digits)?;
    out.push(b'\n')
}

/// What stands between the word of a token and the digits of its lemma.
fn tag_column(rank: u32) -> &'static [u8]
    ensures { result.now ≡ 9 ∷ tag_of rank ++ 9 ∷ codes "l" }
{
    match rank % 4 {
        0 => b"\tN\tl",
        1 => b"\tJ\tl",
        2 => b"\tV\tl",
        _ => b"\tD\tl",
    }
}
