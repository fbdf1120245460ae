//! The values of a column, numbered by their lexicon: where the lines are many, about half of them by another thread.

ghost use Rattle.std.specs.Prelude.{◌≡◌, ◌≤◌, ◌++◌, length, IfOk};
ghost use Rattle.std.specs.Str.Lines.{lines};
ghost use Rattle.mt_text_spec.specs.Texts.{text_tokens_limit};
ghost use Rattle.mt_vertical_tables.specs.Columns.{AreValuesIn};

use super::lines::number_lines;
use super::numbered::Numbered;
use super::unmade::Unmade;
use memchr::memchr;
use rayon::join;
use std::alloc::Global;
use std::thread::Threads;

/// The lines of so many bytes are numbered sooner by two threads. Of fewer the processors have enough to do with the columns and the structures.
const LONG: usize = 1 << 21;

/// The values in a column of a text's lines, by their lexicon. Where the text is long, two threads number its lines, about half of the bytes each.
pub(crate) fn number_beside<R: Threads + Sync>(
    rt: &R,
    alloc: Global,
    text: &str,
    column: usize,
) -> Result<Numbered, Unmade>
    ensures values { IfOk result (λ numbered. AreValuesIn column (lines text.now) numbered) }
    ensures few { IfOk result (λ numbered. length numbered ≤ text_tokens_limit) }
{
    if text.len() < LONG {
        return number_part(alloc, text, column);
    }
    let (front, back) = halves(text);
    let first = move || -> Result<Numbered, Unmade>
        ensures { IfOk result (λ numbered. AreValuesIn column (lines front.entry.now) numbered) }
    { number_part(alloc, front, column) };
    let others = move || -> Result<Numbered, Unmade>
        ensures { IfOk result (λ numbered. AreValuesIn column (lines back.entry.now) numbered) }
    { number_part(alloc, back, column) };
    let (first, others) = join(rt, first, others);
    first?.followed_by(alloc, others?)
}

/// The values in a column of a text's lines, by their lexicon.
fn number_part(alloc: Global, text: &str, column: usize) -> Result<Numbered, Unmade>
    ensures values { IfOk result (λ numbered. AreValuesIn column (lines text.now) numbered) }
    ensures few { IfOk result (λ numbered. length numbered ≤ text_tokens_limit) }
{
    let numbering = number_lines(alloc, text, column)?;
    Ok(Numbered::new(numbering)?)
}

/// A text in two parts, of which the first ends behind the first line feed in the second half of the bytes.
fn halves(text: &str) -> (&str, &str)
    ensures { lines text.now ≡ lines result.0.now ++ lines result.1.now }
{
    let middle = text.len() / 2;
    match memchr(b'\n', &text.as_bytes()[middle..]) {
        Some(place) => {
            let end = middle + place + 1;
            (&text[..end], &text[end..])
        }
        None => (text, ""),
    }
}
