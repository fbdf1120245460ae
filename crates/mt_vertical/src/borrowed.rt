//! A text whose values stay in the bytes that it was read from.

ghost use Rattle.std.specs.Prelude.{◌≡◌, ℕ, ◌≤◌, [], List as Items, length, replicate, option_map, IsUtf8, Err, IfOk};
ghost use Rattle.std.specs.Str.Lines.{lines};
ghost use Rattle.mt_text_spec.specs.Registries as registries;
ghost use Rattle.mt_text_spec.specs.Registries.{ValidRegistry, base_count};
ghost use Rattle.mt_text_spec.specs.Texts.{text_tokens_limit};
ghost use Rattle.mt_file_spec.specs.Vertical.{Vertical, FirstTextFault, text_lines};
ghost use Rattle.mt_vertical.specs.Causes.{text_cause_of};
ghost use Rattle.mt_vertical.specs.Lines.{IsToken};
ghost use Rattle.mt_vertical.specs.TagForms.{IsFound};
ghost use Rattle.mt_vertical.specs.Readers.{IsSound, IsRead, gathered, no_instances};

use super::error::{BadLine, TextCause, TextError};
use super::lines::{self, Line};
use super::reader::base_attrs;
use super::rows::Rows;
use super::structs::Structs;
use super::tags::Tag;
use mt_base::limits::TEXT_TOKENS_LIMIT;
use mt_base::{NoMemory, Registry, StructSpan};
use std::alloc::Global;
use std::marker::Model;

/// What a text has beside its name. The values of its tokens are lent by the bytes that it was read from.
#[derive(Debug, Drop)]
pub struct BorrowedText<'a> {
    /// Its tokens.
    pub rows: Rows<'a>,
    /// The instances of structures, kind after kind, those of a kind in order.
    pub structs: Vec<StructSpan>,
}

/// The tokens so far, and the instances of each kind.
#[derive(Debug, Drop)]
struct RowReader<'a> {
    rows: Rows<'a>,
    structs: Structs,
}

impl<'a> Model for RowReader<'a> {
    ghost use Rattle.mt_vertical.specs.Readers as readers;

    ghost Value = { readers.State };

    ghost view = { λ r. record { columns = r.rows.columns; tokens = r.rows.tokens; kinds = r.structs } };
}

impl<'a> RowReader<'a> {
    /// Before any line.
    fn new(alloc: Global, registry: &Registry) -> Result<Self, NoMemory>
        ensures columns { IfOk result (λ reader. reader.columns ≡ base_count registry.now.attrs) }
        ensures tokens { IfOk result (λ reader. reader.tokens ≡ []) }
        ensures kinds { IfOk result (λ reader. reader.kinds ≡ replicate (length registry.now.kinds) no_instances) }
    {
        Ok(RowReader {
            rows: Rows::new(alloc, base_attrs(registry.attrs().as_slice()))?,
            structs: Structs::new(alloc, registry.kinds().len())?,
        })
    }

    /// Reads a line. A line that has a cause is not read, and the first of its causes is told.
    fn read_line(
        &mut self,
        alloc: Global,
        registry: &Registry,
        line: &'a str,
    ) -> Result<Option<TextCause>, NoMemory>
        requires valid { ValidRegistry registry.now }
        requires sound { IsSound registry.now self.old }
        ensures { IfOk result (λ cause. IsRead registry.now self.old line.now self.new (option_map text_cause_of cause)) }
    {
        if lines::begins_as_token(line) {
            return self.read_token(line);
        }
        match lines::read_line(line) {
            Line::Skipped => Ok(None),
            Line::Tag(tag) => self.read_tag(alloc, registry, tag),
            Line::Token => self.read_token(line),
        }
    }

    /// Reads a line that is a token.
    fn read_token(&mut self, line: &'a str) -> Result<Option<TextCause>, NoMemory>
        ensures { IfOk result (λ cause. (registry : registries.Registry) → ValidRegistry registry → IsSound registry self.old → IsToken line.now →
            IsRead registry self.old line.now self.new (option_map text_cause_of cause)) }
    {
        if self.rows.len() == TEXT_TOKENS_LIMIT {
            return Ok(Some(TextCause::TooManyTokens));
        }
        if !self.rows.push(line)? {
            return Ok(Some(TextCause::ValueTooLong));
        }
        Ok(None)
    }

    /// Reads a line that is a tag.
    fn read_tag(
        &mut self,
        alloc: Global,
        registry: &Registry,
        tag: Tag,
    ) -> Result<Option<TextCause>, NoMemory>
        requires valid { ValidRegistry registry.now }
        requires sound { IsSound registry.now self.old }
        ensures { IfOk result (λ cause. (line : Items ℕ) → IsUtf8 line → IsFound line tag.entry.form tag.entry.name.now tag.entry.attrs.now →
            IsRead registry.now self.old line self.new (option_map text_cause_of cause)) }
    {
        let place = self.rows.len() as u32;
        let cause = self.structs.read_tag(alloc, registry, place, tag)?;
        Ok(cause)
    }

    /// What was read, where the open instances end at the end.
    fn finish(self, alloc: Global) -> Result<BorrowedText<'a>, NoMemory>
        requires few { length self.tokens ≤ text_tokens_limit }
        requires kinds { length self.kinds ≤ 16 }
        ensures columns { IfOk result (λ text. text.rows.columns ≡ self.entry.columns) }
        ensures tokens { IfOk result (λ text. text.rows.tokens ≡ self.entry.tokens) }
        ensures structs { IfOk result (λ text. text.structs.items ≡ gathered 0 (length self.entry.tokens) self.entry.kinds) }
    {
        let place = self.rows.len() as u32;
        Ok(BorrowedText {
            rows: self.rows,
            structs: self.structs.finish(alloc, place)?,
        })
    }
}

/// The text that lines are read as, whatever its name, or the first line that has a cause to refuse it. The lines are those of a vertical that is UTF-8, behind its
/// byte order mark.
///
/// It goes over the lines once. It takes memory for the list of values, for that of each kind's instances, and for the values of each instance that has some.
pub fn read_borrowed<'a>(
    alloc: Global,
    text: &'a str,
    registry: &Registry,
) -> Result<BorrowedText<'a>, TextError>
    requires registry { ValidRegistry registry.now }
    ensures columns { IfOk result (λ read. read.rows.columns ≡ base_count registry.now.attrs) }
    ensures few { IfOk result (λ read. length read.rows.tokens ≤ text_tokens_limit) }
    ensures ok { IfOk result (λ read. (name bytes : Items ℕ) → text_lines bytes ≡ lines text.now →
        Vertical registry.now name bytes (record { name = name; tokens = read.rows.tokens; structs = read.structs.items })) }
    ensures bad { (bad : BadLine) → result ≡ Err (TextError.Bad bad) → (bytes : Items ℕ) → text_lines bytes ≡ lines text.now →
        FirstTextFault registry.now bytes bad.line (text_cause_of bad.cause) }
{
    let mut reader = RowReader::new(alloc, registry)?;
    let mut number = 0;
    for line in text.lines() {
        number += 1;
        if let Some(cause) = reader.read_line(alloc, registry, line)? {
            return Err(TextError::Bad(BadLine {
                line: number,
                cause,
            }));
        }
    }
    Ok(reader.finish(alloc)?)
}
