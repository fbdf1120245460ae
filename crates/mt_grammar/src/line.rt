//! What a line of a grammar file is by itself.

ghost use Rattle.std.specs.Prelude.{◌≡◌, ◌≢◌, ◌≤◌, ◌↔◌, length, not, IsTrue};
ghost use Rattle.std.specs.List.{prefix_len, suffix_len};
ghost use Rattle.mt_file_spec.specs.RegistryFile as file;
ghost use Rattle.mt_grammar_spec.specs.GrammarLines as spec;
ghost use Rattle.mt_grammar.specs.SeenLine.{directive_seen, line_seen};

use super::kind::RelationKind;

/// What a directive says. A name is a part of the line.
#[derive(Clone, Copy, Debug, PartialEq, Eq, Drop)]
pub enum Directive<'a> {
    /// The kind of the next heading.
    Kind(RelationKind),
    /// The attribute that is the default in the queries that follow.
    DefaultAttr(&'a [u8]),
    /// The structure that limits the queries that follow.
    StructLimit(&'a [u8]),
    /// None of these.
    Unknown,
}

/// What a line is that is not skipped.
#[derive(Clone, Copy, Debug, PartialEq, Eq, Drop)]
pub enum Line<'a> {
    Directive(Directive<'a>),
    /// A heading, without its `=`.
    Heading(&'a str),
    /// The text of a query.
    Query(&'a str),
}

/// Whether a line without blanks at its ends is empty or a comment.
pub fn is_skipped(bare: &[u8]) -> bool
    ensures { IsTrue result ↔ (spec.bare_form bare.now ≡ spec.Skipped) }
{
    bare.is_empty() || bare[0] == b'#'
}

/// What a line without blanks at its ends is.
pub fn line_of(bare: &str) -> Line
    requires { spec.bare_form bare.now ≢ spec.Skipped }
    ensures { line_seen result ≡ spec.bare_form bare.now }
{
    match bare.as_bytes().split_first() {
        Some((b'*', rest)) => Line::Directive(directive_of(rest)),
        Some((b'=', _)) => Line::Heading(&bare[1..]),
        _ => Line::Query(bare),
    }
}

/// The directive that stands behind `*`.
fn directive_of(rest: &[u8]) -> Directive
    ensures { directive_seen result ≡ spec.directive_by (spec.word_of rest.now) (spec.behind_word rest.now) }
{
    let (word, behind) = rest.split_at(word_len(rest));
    directive_by(word, trimmed(behind))
}

/// The directive of a word and the name behind it.
fn directive_by<'a>(word: &[u8], name: &'a [u8]) -> Directive<'a>
    ensures { directive_seen result ≡ spec.directive_by word.now name.now }
{
    if word == b"DUAL".as_slice() {
        Directive::Kind(RelationKind::Dual)
    } else if word == b"SYMMETRIC".as_slice() {
        Directive::Kind(RelationKind::Symmetric)
    } else if word == b"TRINARY".as_slice() {
        Directive::Kind(RelationKind::Trinary)
    } else if word == b"UNARY".as_slice() {
        Directive::Kind(RelationKind::Unary)
    } else if word == b"DEFAULTATTR".as_slice() {
        Directive::DefaultAttr(name)
    } else if word == b"STRUCTLIMIT".as_slice() {
        Directive::StructLimit(name)
    } else {
        Directive::Unknown
    }
}

/// How many bytes stand before the first blank.
fn word_len(bytes: &[u8]) -> usize
    ensures value { result ≡ prefix_len (λ b. not (file.is_blank b)) bytes.now }
    ensures few { result ≤ length bytes.now }
{
    bytes.iter().take_while(|b| !is_blank(**b)).count()
}

/// The bytes without the blanks at both ends.
pub fn trimmed(bytes: &[u8]) -> &[u8]
    ensures { result.now ≡ file.trimmed bytes.now }
{
    let (_, rest) = bytes.split_at(blanks_before(bytes));
    trimmed_end(rest)
}

/// The bytes without the blanks at their end.
fn trimmed_end(bytes: &[u8]) -> &[u8]
    ensures { result.now ≡ file.trimmed_end bytes.now }
{
    &bytes[..bytes.len() - blanks_behind(bytes)]
}

/// How many blanks the bytes begin with.
fn blanks_before(bytes: &[u8]) -> usize
    ensures value { result ≡ prefix_len file.is_blank bytes.now }
    ensures few { result ≤ length bytes.now }
{
    bytes.iter().take_while(|b| is_blank(**b)).count()
}

/// How many blanks the bytes end with.
fn blanks_behind(bytes: &[u8]) -> usize
    ensures value { result ≡ suffix_len file.is_blank bytes.now }
    ensures few { result ≤ length bytes.now }
{
    bytes.iter().rev().take_while(|b| is_blank(**b)).count()
}

fn is_blank(b: u8) -> bool
    ensures { result ≡ file.is_blank b }
{
    b == b' ' || b == b'\t'
}
