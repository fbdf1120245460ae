//! A text of which no token is kept.

ghost use Rattle.std.specs.Prelude.{◌≡◌, ℕ, ◌≤◌, List as Items, true, false, length, replicate, option_map, Err, IfOk};
ghost use Rattle.std.specs.Str.Lines.{lines};
ghost use Rattle.mt_text_spec.specs.Registries.{ValidRegistry, base_count};
ghost use Rattle.mt_text_spec.specs.Texts.{text_tokens_limit};
ghost use Rattle.mt_file_spec.specs.Vertical.{FirstTextFault, text_lines};
ghost use Rattle.mt_file_spec.specs.VerticalLines.{columns, first_columns};
ghost use Rattle.mt_vertical.specs.Causes.{text_cause_of};
ghost use Rattle.mt_vertical.specs.Lines.{IsToken};
ghost use Rattle.mt_vertical.specs.Outlines.{IsCounted, IsOutlineOf};
ghost use Rattle.mt_vertical.specs.Readers.{AreShort, HasLong, gathered, no_instances};

use super::error::{BadLine, TextCause, TextError};
use super::lines::{self, Line};
use super::reader::base_attrs;
use super::structs::Structs;
use super::values::has_long_column;
use mt_base::limits::{TEXT_TOKENS_LIMIT, VALUE_BYTES_LIMIT};
use mt_base::{NoMemory, Registry, StructSpan};
use std::alloc::Global;

/// How many tokens a text has, and its instances of structures.
#[derive(Debug, Drop)]
pub struct TextOutline {
    /// How many tokens it has.
    pub tokens: u32,
    /// The instances of structures, kind after kind, those of a kind in order.
    pub structs: Vec<StructSpan>,
}

/// How many tokens there are so far, and the instances of each kind.
#[derive(Debug, Drop)]
struct OutlineReader {
    tokens: u32,
    structs: Structs,
}

impl OutlineReader {
    /// Before any line.
    fn new(alloc: Global, registry: &Registry) -> Result<Self, NoMemory>
        ensures tokens { IfOk result (λ reader. reader.tokens ≡ 0) }
        ensures structs { IfOk result (λ reader. reader.structs ≡ replicate (length registry.now.kinds) no_instances) }
    {
        Ok(OutlineReader {
            tokens: 0,
            structs: Structs::new(alloc, registry.kinds().len())?,
        })
    }

    /// Reads a line. A line that has a cause is not read, and the first of its causes is told.
    fn read_line(
        &mut self,
        alloc: Global,
        registry: &Registry,
        line: &str,
    ) -> Result<Option<TextCause>, NoMemory>
        requires valid { ValidRegistry registry.now }
        requires few { self.old.tokens ≤ text_tokens_limit }
        requires kinds { length self.old.structs ≡ length registry.now.kinds }
        ensures { IfOk result (λ cause. IsCounted registry.now self.old.tokens self.old.structs line.now self.new.tokens self.new.structs (option_map text_cause_of cause)) }
    {
        if lines::begins_as_token(line) {
            return Ok(self.count_token(registry, line));
        }
        match lines::read_line(line) {
            Line::Skipped => Ok(None),
            Line::Tag(tag) => {
                let cause = self.structs.read_tag(alloc, registry, self.tokens, tag)?;
                Ok(cause)
            }
            Line::Token => Ok(self.count_token(registry, line)),
        }
    }

    /// Counts a line that is a token.
    fn count_token(&mut self, registry: &Registry, line: &str) -> Option<TextCause>
        requires valid { ValidRegistry registry.now }
        requires few { self.old.tokens ≤ text_tokens_limit }
        requires token { IsToken line.now }
        ensures { IsCounted registry.now self.old.tokens self.old.structs line.now self.new.tokens self.new.structs (option_map text_cause_of result) }
    {
        if self.tokens as usize == TEXT_TOKENS_LIMIT {
            return Some(TextCause::TooManyTokens);
        }
        if has_long_value(registry, line) {
            return Some(TextCause::ValueTooLong);
        }
        self.tokens += 1;
        None
    }

    /// What was read, where the open instances end at the end.
    fn finish(self, alloc: Global) -> Result<TextOutline, NoMemory>
        requires { length self.structs ≤ 16 }
        ensures tokens { IfOk result (λ outline. outline.tokens ≡ self.tokens) }
        ensures structs { IfOk result (λ outline. outline.structs.items ≡ gathered 0 self.tokens self.structs) }
    {
        Ok(TextOutline {
            tokens: self.tokens,
            structs: self.structs.finish(alloc, self.tokens)?,
        })
    }
}

/// Whether a value that a token line gives is longer than a value may be. In a line that is no longer than that there is none, so its columns are not looked at.
fn has_long_value(registry: &Registry, line: &str) -> bool
    ensures long { result ≡ true → HasLong (first_columns (base_count registry.now.attrs) (columns line.now)) }
    ensures short { result ≡ false → AreShort (first_columns (base_count registry.now.attrs) (columns line.now)) }
{
    if line.len() <= VALUE_BYTES_LIMIT {
        return false;
    }
    has_long_column(line, base_attrs(registry.attrs().as_slice()))
}

/// How many tokens the text has that lines are read as, and its instances of structures, or the first line that has a cause to refuse it. The lines are those of a
/// vertical that is UTF-8, behind its byte order mark.
///
/// It goes over the lines once. A token takes no memory.
pub fn read_outline(
    alloc: Global,
    text: &str,
    registry: &Registry,
) -> Result<TextOutline, TextError>
    requires registry { ValidRegistry registry.now }
    ensures few { IfOk result (λ read. read.tokens ≤ text_tokens_limit) }
    ensures ok { IfOk result (λ read. (name bytes : Items ℕ) → text_lines bytes ≡ lines text.now → IsOutlineOf registry.now name bytes read.tokens read.structs.items) }
    ensures bad { (bad : BadLine) → result ≡ Err (TextError.Bad bad) → (bytes : Items ℕ) → text_lines bytes ≡ lines text.now →
        FirstTextFault registry.now bytes bad.line (text_cause_of bad.cause) }
{
    let mut reader = OutlineReader::new(alloc, registry)?;
    let mut number = 0;
    for line in text.lines() {
        number += 1;
        if let Some(cause) = reader.read_line(alloc, registry, line)? {
            return Err(TextError::Bad(BadLine {
                line: number,
                cause,
            }));
        }
    }
    Ok(reader.finish(alloc)?)
}
