//! Names in the text of a query.

ghost use Rattle.std.specs.Prelude.{◌≡◌};
ghost use Rattle.mt_session_spec.specs.Asking.{name_at};

use mt_base::identifier_len;
use std::str;

/// The letters, digits and `_` that begin at a byte of a text. There are none where the text ends before it.
pub fn name_at(text: &str, at: usize) -> &str
    ensures { result.now ≡ name_at text.now at }
{
    let bytes = text.as_bytes();
    if at >= bytes.len() {
        return "";
    }
    let rest = &bytes[at..];
    match str::from_utf8(&rest[..identifier_len(rest)]) {
        Ok(name) => name,
        Err(_) => "",
    }
}
