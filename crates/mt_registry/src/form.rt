//! The form of a line of a registry file.

ghost use Rattle.std.specs.Prelude.{◌≡◌, ◌≤◌, length, reverse};
ghost use Rattle.std.specs.List.{prefix_len, suffix_len};
ghost use Rattle.mt_file_spec.specs.RegistryFile as spec;
ghost use Rattle.mt_registry.specs.SeenForm.{form_seen};

use mt_base::identifier_len;

/// What a line is by itself. Keys and values are parts of the line.
#[derive(Clone, Copy, Debug, PartialEq, Eq, Drop)]
pub enum Form<'a> {
    /// An empty line or a comment.
    Skipped,
    /// `}`.
    Closing,
    /// A key and a value, behind which a brace may open a block.
    Entry {
        key: &'a [u8],
        value: &'a [u8],
        opens: bool,
    },
    /// None of these.
    Formless,
}

/// The form of a line.
pub fn form_of(line: &[u8]) -> Form
    ensures { form_seen result ≡ spec.form_of line.now }
{
    bare_form(trimmed(line))
}

/// The form of a line that has no blanks at its ends.
fn bare_form(bare: &[u8]) -> Form
    ensures { form_seen result ≡ spec.bare_form bare.now }
{
    if bare.is_empty() || bare[0] == b'#' {
        Form::Skipped
    } else if bare == b"}".as_slice() {
        Form::Closing
    } else {
        keyed(bare)
    }
}

/// The form of a line that begins with a key, if it does.
fn keyed(bare: &[u8]) -> Form
    ensures { form_seen result ≡ spec.keyed bare.now }
{
    let len = identifier_len(bare);
    if 0 < len && len < bare.len() && is_blank(bare[len]) {
        let (key, rest) = bare.split_at(len);
        entry(key, rest)
    } else {
        Form::Formless
    }
}

/// A key and what follows it.
fn entry<'a>(key: &'a [u8], rest: &'a [u8]) -> Form<'a>
    ensures { form_seen result ≡ spec.entry key.now rest.now }
{
    if opens_block(rest) {
        valued(key, trimmed(&rest[..rest.len() - 1]), true)
    } else {
        valued(key, trimmed(rest), false)
    }
}

/// A key and the written value.
fn valued<'a>(key: &'a [u8], text: &'a [u8], opens: bool) -> Form<'a>
    ensures { form_seen result ≡ spec.valued key.now text.now opens }
{
    if text.is_empty() {
        Form::Formless
    } else {
        Form::Entry {
            key,
            value: unquoted(text),
            opens,
        }
    }
}

/// What a written value stands for.
fn unquoted(text: &[u8]) -> &[u8]
    ensures { result.now ≡ spec.unquoted text.now }
{
    let len = text.len();
    if 2 <= len && text[0] == b'"' && text[len - 1] == b'"' {
        &text[1..len - 1]
    } else {
        text
    }
}

/// Whether an opening brace stands last, behind a blank.
fn opens_block(rest: &[u8]) -> bool
    ensures { result ≡ spec.opens_block rest.now }
{
    let len = rest.len();
    2 <= len && rest[len - 1] == b'{' && is_blank(rest[len - 2])
}

/// The bytes without the blanks at both ends.
fn trimmed(bytes: &[u8]) -> &[u8]
    ensures { result.now ≡ spec.trimmed bytes.now }
{
    let (_, rest) = bytes.split_at(blanks_before(bytes));
    trimmed_end(rest)
}

/// The bytes without the blanks at their end.
fn trimmed_end(bytes: &[u8]) -> &[u8]
    ensures { result.now ≡ spec.trimmed_end bytes.now }
{
    &bytes[..bytes.len() - blanks_behind(bytes)]
}

/// How many blanks the bytes begin with.
fn blanks_before(bytes: &[u8]) -> usize
    ensures value { result ≡ prefix_len spec.is_blank bytes.now }
    ensures few { result ≤ length bytes.now }
{
    bytes.iter().take_while(|b| is_blank(**b)).count()
}

/// How many blanks the bytes end with.
fn blanks_behind(bytes: &[u8]) -> usize
    ensures value { result ≡ suffix_len spec.is_blank bytes.now }
    ensures few { result ≤ length bytes.now }
{
    bytes.iter().rev().take_while(|b| is_blank(**b)).count()
}

fn is_blank(b: u8) -> bool
    ensures { result ≡ spec.is_blank b }
{
    b == b' ' || b == b'\t'
}
