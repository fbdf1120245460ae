//! Identifiers, the names of attributes and structures, and the bytes of which they are made.

ghost use Rattle.std.specs.Prelude.{◌≡◌, ◌≤◌, ◌↔◌, length, IsTrue};
ghost use Rattle.std.specs.List.{prefix_len};
ghost use Rattle.mt_text_spec.specs.Words.{IsIdentifier, is_identifier_start, is_identifier_byte};

/// Whether an identifier may begin with this byte: an ASCII letter or `_`.
pub fn begins_identifier(b: u8) -> bool
    ensures { result ≡ is_identifier_start b }
{
    b.is_ascii_alphabetic() || b == b'_'
}

/// Whether this byte may stand in an identifier: an ASCII letter, a digit or `_`.
fn is_in_identifier(b: u8) -> bool
    ensures { result ≡ is_identifier_byte b }
{
    b.is_ascii_alphanumeric() || b == b'_'
}

/// How many bytes in front may stand in an identifier, whatever the first of them is.
pub fn identifier_len(bytes: &[u8]) -> usize
    ensures count { result ≡ prefix_len is_identifier_byte bytes.now }
    ensures within { result ≤ length bytes.now }
{
    bytes.iter().take_while(|b| is_in_identifier(**b)).count()
}

/// Whether all of these bytes together are one identifier. None is no identifier, and neither are more than 64.
pub fn is_identifier(bytes: &[u8]) -> bool
    ensures { IsTrue result ↔ IsIdentifier bytes.now }
{
    !bytes.is_empty()
        && bytes.len() <= 64
        && begins_identifier(bytes[0])
        && bytes.iter().all(|b| is_in_identifier(*b))
}
