//! The attributes in a tag, by where their parts lie in the line.

ghost use Rattle.std.specs.Prelude.{◌≡◌, ℕ, ◌<◌, ◌≤◌, List, length, option_map};
ghost use Rattle.std.specs.List.{prefix_len, list_all};
ghost use Rattle.mt_file_spec.specs.Tags.{TagAttr as SpelledAttr, is_space, is_quote, differs, tag_value};
ghost use Rattle.mt_vertical.specs.TagReading as reading;
ghost use Rattle.mt_vertical.specs.TagReading.{past, ReadsAttrs};

use memchr::memchr;
use mt_base::{begins_identifier, identifier_len};

/// An attribute in a tag.
#[derive(Clone, Copy, Debug, Drop)]
pub struct TagAttr<'a> {
    pub name: &'a str,
    pub value: &'a str,
}

/// The value of an attribute that is not there.
pub const MISSING: &str = "===NONE===";

/// How many spaces stand in front.
fn spaces_len(bytes: &[u8]) -> usize
    ensures count { result ≡ prefix_len is_space bytes.now }
    ensures within { result ≤ length bytes.now }
{
    bytes.iter().take_while(|b| **b == b' ').count()
}

/// What stands behind the spaces in front.
pub fn past_spaces(text: &str) -> &str
    ensures { result.now ≡ past is_space text.now }
{
    text.split_at(spaces_len(text.as_bytes())).1
}

/// Whether all of these are spaces.
pub fn are_spaces(bytes: &[u8]) -> bool
    ensures { result ≡ list_all is_space bytes.now }
{
    bytes.iter().all(|b| *b == b' ')
}

/// What stands behind this ASCII byte.
#[tactic(auto, unfolding(crate::specs::TagReading::behind))]
pub fn behind(byte: u8, text: &str) -> Option<&str>
    requires { byte < 128 }
    ensures { option_map (λ rest. rest.now) result ≡ reading.behind byte text.now }
{
    let first = text.as_bytes().first()?;
    if *first == byte {
        Some(text.split_at(1).1)
    } else {
        None
    }
}

/// The identifier in front, and what follows it.
#[tactic(auto, unfolding(crate::specs::TagReading::identifier_at))]
fn read_identifier(text: &str) -> Option<(&str, &str)>
    ensures { option_map (λ found. (found.0.now, found.1.now)) result ≡ reading.identifier_at text.now }
{
    let first = text.as_bytes().first()?;
    let n = identifier_len(text.as_bytes());
    if begins_identifier(*first) && n <= 64 {
        Some(text.split_at(n))
    } else {
        None
    }
}

/// What stands behind `=` and the spaces round it.
#[tactic(auto, unfolding(crate::specs::TagReading::equals_at))]
fn past_equals(text: &str) -> Option<&str>
    ensures { option_map (λ rest. rest.now) result ≡ reading.equals_at text.now }
{
    let rest = behind(b'=', past_spaces(text))?;
    Some(past_spaces(rest))
}

/// Whether a value may begin and end with this byte.
fn is_quote_mark(b: u8) -> bool
    ensures { result ≡ is_quote b }
{
    b == b'"' || b == b'\''
}

/// The value between quotes in front, and what follows it.
#[tactic(auto, unfolding(crate::specs::TagReading::quoted_at))]
fn read_quoted(text: &str) -> Option<(&str, &str)>
    ensures { option_map (λ found. (found.0.now, found.1.now)) result ≡ reading.quoted_at text.now }
{
    let quote = text.as_bytes().first()?;
    if is_quote_mark(*quote) {
        read_to_quote(*quote, text.split_at(1).1)
    } else {
        None
    }
}

/// What stands before the next quote of this kind, and what follows it.
#[tactic(auto, unfolding(crate::specs::TagReading::quote_at))]
fn read_to_quote(quote: u8, text: &str) -> Option<(&str, &str)>
    requires { quote < 128 }
    ensures { option_map (λ found. (found.0.now, found.1.now)) result ≡ reading.quote_at quote text.now }
{
    match memchr(quote, text.as_bytes()) {
        Some(at) => Some((text.split_at(at).0, text.split_at(at + 1).1)),
        None => None,
    }
}

/// The attribute in front, and what follows it.
#[tactic(auto, unfolding(crate::specs::TagReading::attr_at))]
pub fn read_attr(text: &str) -> Option<(TagAttr, &str)>
    ensures { option_map (λ found. (record { name = found.0.name.now; value = found.0.value.now }, found.1.now)) result ≡ reading.attr_at text.now }
{
    if text.as_bytes().first() != Some(&b' ') {
        return None;
    }
    let (name, rest) = read_identifier(past_spaces(text))?;
    let rest = past_equals(rest)?;
    let (value, rest) = read_quoted(rest)?;
    Some((TagAttr { name, value }, rest))
}

/// What stands behind all attributes in front.
pub fn past_attrs(text: &str) -> &str
    ensures { (attrs : List SpelledAttr) × ReadsAttrs text.now attrs result.now }
{
    let mut rest = text;
    while let Some((_, others)) = read_attr(rest) {
        rest = others;
    }
    rest
}

/// The value of the first of these attributes that has this name.
pub fn value_of<'a>(text: &'a str, name: &str) -> &'a str
    ensures { (attrs : List SpelledAttr) (rest : List ℕ) → ReadsAttrs text.now attrs rest → result.now ≡ tag_value attrs name.now }
{
    let mut rest = text;
    while let Some((attr, others)) = read_attr(rest) {
        if attr.name == name {
            return attr.value;
        }
        rest = others;
    }
    MISSING
}
