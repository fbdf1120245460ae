//! The tags of structures, by where their parts lie in the line.

ghost use Rattle.std.specs.Prelude.{◌≡◌, ℕ, ◌≤◌, ◌∷◌, List, length, Bool, None, Some, option_map, IfSome, IfNone};
ghost use Rattle.std.specs.List.{prefix_len};
ghost use Rattle.mt_file_spec.specs.Tags.{IsTag, Spells, Tag as SpelledTag, TagAttr, is_tag_name_byte};
ghost use Rattle.mt_vertical.specs.TagForms.{IsFound, BehindTag, IsBegin, IsEnd, ReadsBegin, ReadsEnd};
ghost use Rattle.mt_vertical.specs.TagReading as reading;

use super::attrs::{are_spaces, behind, past_attrs, past_spaces};
use memchr::memchr;
use mt_base::begins_identifier;

/// What a tag does.
#[derive(Clone, Copy, Debug, PartialEq, Eq, Drop)]
pub enum Form {
    /// It begins an instance of a structure.
    Opening,
    /// It is a whole instance, with nothing in it.
    Empty,
    /// It ends one.
    Closing,
}

/// A tag: what it does, its name, and the part of its line in which its attributes are.
#[derive(Clone, Copy, Debug, Drop)]
pub struct Tag<'a> {
    pub form: Form,
    pub name: &'a str,
    pub attrs: &'a str,
}

fn is_in_name(b: u8) -> bool
    ensures { result ≡ is_tag_name_byte b }
{
    b.is_ascii_alphanumeric() || b == b'_' || b == b'-' || b == b'.' || b == b':'
}

/// How many bytes in front may stand in a tag's name.
fn name_len(bytes: &[u8]) -> usize
    ensures count { result ≡ prefix_len is_tag_name_byte bytes.now }
    ensures within { result ≤ length bytes.now }
{
    bytes.iter().take_while(|b| is_in_name(**b)).count()
}

/// The tag's name in front, and what follows it.
#[tactic(auto, unfolding(crate::specs::TagReading::tag_name_at))]
fn read_name(text: &str) -> Option<(&str, &str)>
    ensures { option_map (λ found. (found.0.now, found.1.now)) result ≡ reading.tag_name_at text.now }
{
    let first = text.as_bytes().first()?;
    if begins_identifier(*first) {
        Some(text.split_at(name_len(text.as_bytes())))
    } else {
        None
    }
}

/// Whether `>` ends the tag here, with nothing but spaces behind it.
#[tactic(auto, unfolding(crate::specs::TagReading::ends))]
fn ends(text: &str) -> bool
    ensures { result ≡ reading.ends text.now }
{
    match text.as_bytes().split_first() {
        Some((b'>', rest)) => are_spaces(rest),
        _ => false,
    }
}

/// How a tag ends here: whether it is an empty one.
#[tactic(auto, unfolding(crate::specs::TagReading::tail_at))]
fn read_tail(text: &str) -> Option<bool>
    ensures { result ≡ reading.tail_at text.now }
{
    let rest = past_spaces(text);
    if ends(rest) {
        return Some(false);
    }
    if ends(behind(b'/', rest)?) {
        Some(true)
    } else {
        None
    }
}

/// The tag that begins an instance, behind its `<`.
fn read_begin(text: &str) -> Option<Tag>
    ensures some { IfSome result (λ tag. IsBegin text.now tag.form tag.name.now tag.attrs.now) }
    ensures none { IfNone result ((name region : List ℕ) (attrs : List TagAttr) (empty : Bool) → ¬ ReadsBegin text.now name region attrs empty) }
{
    let (name, attrs) = read_name(text)?;
    let form = match read_tail(past_attrs(attrs))? {
        true => Form::Empty,
        false => Form::Opening,
    };
    Some(Tag { form, name, attrs })
}

/// The tag that ends an instance, behind its `</`.
fn read_end(text: &str) -> Option<Tag>
    ensures some { IfSome result (λ tag. IsEnd text.now tag.form tag.name.now) }
    ensures none { IfNone result ((name : List ℕ) → ¬ ReadsEnd text.now name) }
{
    let (name, rest) = read_name(text)?;
    match read_tail(rest)? {
        true => None,
        false => Some(Tag {
            form: Form::Closing,
            name,
            attrs: rest,
        }),
    }
}

/// The tag that the line is.
pub fn read_tag(line: &str) -> Option<Tag>
    ensures some { IfSome result (λ tag. IsFound line.now tag.form tag.name.now tag.attrs.now) }
    ensures none { IfNone result ((tag : SpelledTag) → ¬ IsTag line.now tag) }
{
    let rest = behind(b'<', line)?;
    match memchr(b'\t', line.as_bytes()) {
        Some(_) => None,
        None => read_behind(rest),
    }
}

/// The tag that the line is, behind its `<`.
fn read_behind(text: &str) -> Option<Tag>
    ensures some { IfSome result (λ tag. BehindTag text.now tag.form tag.name.now tag.attrs.now) }
    ensures none { IfNone result ((tag : SpelledTag) → ¬ Spells (60 ∷ text.now) tag) }
{
    match behind(b'/', text) {
        Some(rest) => read_end(rest),
        None => read_begin(text),
    }
}
