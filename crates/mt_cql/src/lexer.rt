//! Cutting a text into tokens.

ghost use Rattle.std.specs.Prelude.{◌≡◌, ◌+◌, ◌<◌, ◌≤◌, ◌∷◌, ℕ, List, length, drop, take, slice_index, Option, None, Some, IfOk, IfSome, IfNone, MatchOption, Result, Ok, Err, true, false};
ghost use Rattle.std.specs.List.{AllPass, prefix_len};
ghost use Rattle.std.specs.Char.{is_ascii_digit};
ghost use Rattle.mt_text_spec.specs.Words.{is_identifier_start};
ghost use Rattle.mt_query_spec.specs.Tokens as spec;
ghost use Rattle.mt_cql.specs.Seen.{LexemeSeen, long_sign_seen, maybe_sign_seen};

use super::token::{Sign, Token, Unlexed};
use mt_base::{begins_identifier, identifier_len};

pub fn is_blank(b: u8) -> bool
    ensures { result ≡ spec.is_blank b }
{
    b == b' ' || b == b'\t'
}

/// How many bytes stand before the quote that ends a string.
fn string_length(bytes: &[u8]) -> Option<usize>
    ensures { result ≡ spec.string_length false bytes.now }
{
    let mut taken = false;
    for (i, b) in bytes.iter().enumerate() {
        if taken {
            taken = false;
        } else if *b == b'"' {
            return Some(i);
        } else {
            taken = *b == b'\\';
        }
    }
    None
}

/// How many digits stand in front.
fn digits_length(bytes: &[u8]) -> usize
    ensures { result ≡ prefix_len is_ascii_digit bytes.now }
{
    bytes.iter().take_while(|b| b.is_ascii_digit()).count()
}

/// The byte at a place, or 0 past the end.
pub fn byte_at(bytes: &[u8], i: usize) -> u8
    ensures { result ≡ slice_index bytes.now i }
{
    match bytes.get(i) {
        Some(b) => *b,
        None => 0,
    }
}

/// The bytes behind the first.
fn behind(bytes: &[u8]) -> &[u8]
    requires { 0 < length bytes.now }
    ensures { result.now ≡ drop 1 bytes.now }
{
    &bytes[1..]
}

/// The text behind its first byte, which is no part of a longer character.
pub fn text_behind(text: &str) -> &str
    requires some { 0 < length text.now }
    requires ascii { slice_index text.now 0 < 128 }
    ensures { result.now ≡ drop 1 text.now }
{
    &text[1..]
}

/// The number that at most nine digits write.
fn decimal(digits: &[u8]) -> u32
    requires few { length digits.now ≤ 9 }
    requires each { AllPass is_ascii_digit digits.now }
    ensures { result ≡ spec.decimal_value 0 digits.now }
{
    let mut value: u32 = 0;
    for digit in digits {
        value = value * 10 + (*digit - b'0') as u32;
    }
    value
}

/// A sign of more than one byte, and how many bytes it takes behind its first.
fn long_sign(b: u8, rest: &[u8]) -> Option<(Sign, usize)>
    ensures { long_sign_seen result ≡ spec.long_sign b rest.now }
{
    let next = byte_at(rest, 0);
    if b == b'!' && next == b'=' {
        if byte_at(rest, 1) == b'=' {
            Some((Sign::Differs, 2))
        } else {
            Some((Sign::IsNot, 1))
        }
    } else if b == b'=' && next == b'=' {
        Some((Sign::Same, 1))
    } else if b == b'<' && next == b'/' {
        Some((Sign::ClosingTag, 1))
    } else if b == b'/' && next == b'>' {
        Some((Sign::WholeEnd, 1))
    } else {
        None
    }
}

/// The sign of one byte.
fn sign_of(b: u8) -> Option<Sign>
    ensures { maybe_sign_seen result ≡ spec.sign_of b }
{
    match b {
        b'=' => Some(Sign::Is),
        b'!' => Some(Sign::Bang),
        b'<' => Some(Sign::TagBegin),
        b'>' => Some(Sign::TagEnd),
        b'[' => Some(Sign::OpenSquare),
        b']' => Some(Sign::CloseSquare),
        b'(' => Some(Sign::OpenRound),
        b')' => Some(Sign::CloseRound),
        b'}' => Some(Sign::CloseCurly),
        b',' => Some(Sign::Comma),
        b':' => Some(Sign::Colon),
        b'.' => Some(Sign::Dot),
        b'|' => Some(Sign::Bar),
        b'&' => Some(Sign::And),
        b'*' => Some(Sign::Star),
        b'+' => Some(Sign::Plus),
        b'?' => Some(Sign::Question),
        _ => None,
    }
}

/// The sign that begins here.
fn sign_at<'a>(at: u32, b: u8, rest: &[u8]) -> Result<(Token<'a>, usize), Unlexed>
    ensures { LexemeSeen result (spec.sign_at at b rest.now) }
{
    if b == b'{' {
        return Ok((Token::OpenCurly { at }, 0));
    }
    match long_sign(b, rest) {
        Some((sign, n)) => Ok((Token::Mark(sign), n)),
        None => match sign_of(b) {
            Some(sign) => Ok((Token::Mark(sign), 0)),
            None => Err(Unlexed::NoToken),
        },
    }
}

/// The string whose opening quote stands before this text.
fn string_at(rest: &str) -> Result<(Token<'_>, usize), Unlexed>
    ensures { LexemeSeen result (spec.string_at rest.now) }
{
    match string_length(rest.as_bytes()) {
        Some(n) => Ok((Token::Quoted(&rest[..n]), n + 1)),
        None => Err(Unlexed::NoEnd),
    }
}

/// The number that begins here.
fn number_at<'a>(at: u32, bytes: &[u8]) -> Result<(Token<'a>, usize), Unlexed>
    requires some { 0 < length bytes.now }
    requires digit { is_ascii_digit (slice_index bytes.now 0) ≡ true }
    ensures { LexemeSeen result (spec.number_at at (slice_index bytes.now 0) (drop 1 bytes.now)) }
{
    let n = digits_length(behind(bytes));
    if n < 9 {
        let value = decimal(&bytes[..n + 1]);
        Ok((Token::Number { at, value }, n))
    } else {
        Err(Unlexed::NoToken)
    }
}

/// The word that begins here.
fn word_at(at: u32, text: &str) -> Result<(Token<'_>, usize), Unlexed>
    requires some { 0 < length text.now }
    requires start { is_identifier_start (slice_index text.now 0) ≡ true }
    ensures { LexemeSeen result (spec.word_at at (slice_index text.now 0) (drop 1 text.now)) }
{
    let n = identifier_len(behind(text.as_bytes()));
    if n < 64 {
        Ok((
            Token::Word {
                at,
                name: &text[..n + 1],
            },
            n,
        ))
    } else {
        Err(Unlexed::NoToken)
    }
}

/// What begins at the front of a text, and how many bytes it takes behind its first.
#[tactic(auto, unfolding(mt_query_spec::specs::Tokens::lexeme))]
pub fn lexeme(at: u32, text: &str) -> Result<(Token<'_>, usize), Unlexed>
    requires { 0 < length text.now }
    ensures { LexemeSeen result (spec.lexeme at (slice_index text.now 0) (drop 1 text.now)) }
{
    let bytes = text.as_bytes();
    let b = bytes[0];
    if b == b'"' {
        string_at(text_behind(text))
    } else if b.is_ascii_digit() {
        number_at(at, bytes)
    } else if begins_identifier(b) {
        word_at(at, text)
    } else {
        sign_at(at, b, behind(bytes))
    }
}
