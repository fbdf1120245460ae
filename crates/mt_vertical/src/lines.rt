//! What a line of a vertical is.

ghost use Rattle.std.specs.Prelude.{◌≡◌, ℕ, ◌↔◌, ◌∷◌, ◌++◌, [], List, IsTrue, IfSome, IfNone};
ghost use Rattle.mt_file_spec.specs.VerticalLines.{Encloses, IsSkipped};
ghost use Rattle.mt_vertical.specs.Columns.{column_in};
ghost use Rattle.mt_vertical.specs.Lines.{IsLine, IsToken};

use super::attrs::are_spaces;
use super::tags::{Tag, read_tag};
use super::values::column_at;

/// A line, whatever is declared.
#[derive(Clone, Copy, Debug, Drop)]
pub enum Line<'a> {
    /// It stands for nothing.
    Skipped,
    /// It is a tag.
    Tag(Tag<'a>),
    /// It is a token.
    Token,
}

/// Whether the last byte is `>`.
fn is_closed(bytes: &[u8]) -> bool
    ensures { IsTrue result ↔ ((inner : List ℕ) × (bytes.now ≡ inner ++ 62 ∷ [])) }
{
    match bytes.split_last() {
        Some((last, _)) => *last == b'>',
        None => false,
    }
}

/// Whether the line begins so and ends with `>` behind that. Few lines end so, and that is seen at once.
fn encloses(start: &[u8], line: &[u8]) -> bool
    ensures { IsTrue result ↔ Encloses start.now line.now }
{
    if !is_closed(line) {
        return false;
    }
    match line.strip_prefix(start) {
        Some(rest) => is_closed(rest),
        None => false,
    }
}

/// Whether the line is blank, a comment or a processing instruction.
fn is_skipped(line: &[u8]) -> bool
    ensures { IsTrue result ↔ IsSkipped line.now }
{
    if are_spaces(line) {
        return true;
    }
    if encloses(b"<?", line) {
        return true;
    }
    encloses(b"<!--", line)
}

/// What the line is.
pub fn read_line(line: &str) -> Line
    ensures { IsLine line.now result }
{
    if is_skipped(line.as_bytes()) {
        return Line::Skipped;
    }
    match read_tag(line) {
        Some(tag) => Line::Tag(tag),
        None => Line::Token,
    }
}

/// Whether the first byte alone shows that the line is a token. It does in most lines.
pub fn begins_as_token(line: &str) -> bool
    ensures { IsTrue result → IsToken line.now }
{
    match line.as_bytes().first() {
        Some(first) => *first != b' ' && *first != b'<',
        None => false,
    }
}

/// Whether the line is a token.
fn is_token(line: &str) -> bool
    ensures { IsTrue result ↔ IsToken line.now }
{
    if begins_as_token(line) {
        return true;
    }
    match read_line(line) {
        Line::Token => true,
        Line::Skipped => false,
        Line::Tag(_) => false,
    }
}

/// The value that a line gives its token at the base attribute that has this place among the base attributes, where the line is a token. It may be longer than a
/// value may be.
pub fn token_value(line: &str, column: usize) -> Option<&str>
    ensures token { IfSome result (λ value. IsToken line.now) }
    ensures value { IfSome result (λ value. value.now ≡ column_in column line.now) }
    ensures none { IfNone result (¬ IsToken line.now) }
{
    if is_token(line) {
        Some(column_at(line, column))
    } else {
        None
    }
}
