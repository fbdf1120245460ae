//! The texts that strings write.

ghost use Rattle.std.specs.Prelude.{◌≡◌, ◌≤◌, ◌==◌, ◌++◌, Bool, true, false, length, take, drop, slice_index, ◌+◌, ◌<◌, IfOk, IfSome, IfNone, OnOk, IsUtf8, string_bytes};
ghost use Rattle.std.specs.List.{prefix_len};
ghost use Rattle.mt_query_spec.specs.Meaning as meaning;
ghost use Rattle.mt_cql.specs.Texts.{is_plain, falls};

use super::lexer::{byte_at, text_behind};
use mt_base::{NoMemory, Value};
use std::alloc::Global;

fn is_plain(b: u8) -> bool
    ensures { result ≡ is_plain b }
{
    b != b'\\'
}

/// How many bytes stand before the first backslash.
fn plain_length(bytes: &[u8]) -> usize
    ensures { result ≡ prefix_len is_plain bytes.now }
{
    bytes.iter().take_while(|b| is_plain(**b)).count()
}

/// Whether a backslash before this byte falls away.
pub fn falls(literal: bool, b: u8) -> bool
    ensures { result ≡ falls literal b }
{
    b == b'"' || literal && b == b'\\'
}

/// Adds a piece at the end.
pub fn add(text: &mut String, piece: &str) -> Result<(), NoMemory>
    ensures { OnOk result (string_bytes text.new ≡ string_bytes text.old ++ piece.now) }
{
    text.push_str(piece)?;
    Ok(())
}

/// Adds what a character behind a backslash writes, and gives the text behind it.
fn add_taken<'a>(text: &mut String, rest: &'a str, literal: bool) -> Result<&'a str, NoMemory>
    ensures ok { IfOk result (λ more. string_bytes text.new ++ meaning.unescaped (falls literal) false more.now
        ≡ string_bytes text.old ++ meaning.unescaped (falls literal) true rest.now) }
    ensures shorter { IfOk result (λ more. length more.now ≤ length rest.now) }
    ensures utf8 { IfOk result (λ more. IsUtf8 more.now) }
{
    let b = byte_at(rest.as_bytes(), 0);
    if b == b'"' {
        add(text, "\"")?;
        return Ok(text_behind(rest));
    }
    if b == b'\\' && literal {
        add(text, "\\")?;
        return Ok(text_behind(rest));
    }
    if b == b'\\' {
        add(text, "\\\\")?;
        return Ok(text_behind(rest));
    }
    add(text, "\\")?;
    Ok(rest)
}

/// The text before the first backslash, and what follows that backslash, if there is one.
fn cut(rest: &str) -> (&str, Option<&str>)
    ensures front { result.0.now ≡ take (prefix_len is_plain rest.now) rest.now }
    ensures none { IfNone result.1 (length rest.now ≡ prefix_len is_plain rest.now) }
    ensures some { IfSome result.1 (λ more. (prefix_len is_plain rest.now < length rest.now) × (more.now ≡ drop (prefix_len is_plain rest.now + 1) rest.now)) }
{
    let n = plain_length(rest.as_bytes());
    if n == rest.len() {
        (rest, None)
    } else {
        (&rest[..n], Some(&rest[n + 1..]))
    }
}

/// The text that a string's content writes.
fn unescaped(alloc: Global, content: &str, literal: bool) -> Result<String, NoMemory>
    ensures { IfOk result (λ text. string_bytes text ≡ meaning.unescaped (falls literal) false content.now) }
{
    let mut text = String::new(alloc);
    let mut rest = content;
    loop {
        let (front, more) = cut(rest);
        add(&mut text, front)?;
        match more {
            None => return Ok(text),
            Some(more) => {
                rest = add_taken(&mut text, more, literal)?;
            }
        }
    }
}

/// The text of a pattern.
pub fn pattern_text(alloc: Global, content: &str) -> Result<Value, NoMemory>
    ensures { IfOk result (λ value. value ≡ meaning.pattern_text content.now) }
{
    Ok(Value::from_string(unescaped(alloc, content, false)?))
}

/// The text of a literal.
pub fn literal_text(alloc: Global, content: &str) -> Result<Value, NoMemory>
    ensures { IfOk result (λ value. value ≡ meaning.literal_text content.now) }
{
    Ok(Value::from_string(unescaped(alloc, content, true)?))
}
