//! Lines in a slice of bytes.

ghost use Rattle.std.specs.Prelude.{◌≡◌, ℕ, ◌≤◌, ◌<◌, ◌↔◌, IsTrue, length, MatchOption, IfSome};
ghost use Rattle.std.specs.Str.Lines.{strip_carriage_return};
ghost use Rattle.mt_script_spec.specs.Commands.{IsSkipped};
ghost use Rattle.mt_script.specs.Places.{NoFeed, Looked, LineAt};

use memchr::memchr;

/// Where the line that begins at `line` ends, given that no line feed is in it before `scanned`.
pub fn line_end(bytes: &[u8], line: usize, scanned: usize) -> Option<usize>
    requires { Looked bytes.now line scanned }
    ensures found { MatchOption result (NoFeed bytes.now line (length bytes.now)) (λ end. LineAt bytes.now line end) }
    ensures later { IfSome result (λ end. scanned ≤ end) }
{
    match memchr(b'\n', &bytes[scanned..]) {
        None => None,
        Some(at) => Some(scanned + at),
    }
}

/// The line without a carriage return at its end.
pub fn without_return(line: &[u8]) -> &[u8]
    ensures { result.now ≡ strip_carriage_return line.now }
{
    if line.last() == Some(&b'\r') {
        &line[..line.len() - 1]
    } else {
        line
    }
}

/// Whether the line stands for nothing.
pub fn is_skipped(line: &[u8]) -> bool
    ensures { IsTrue result ↔ IsSkipped line.now }
{
    match line.first() {
        None => true,
        Some(first) => *first == b'#',
    }
}
