//! What is kept while a vertical is read, line by line.

ghost use Rattle.std.specs.Prelude.{◌≡◌, ℕ, ◌≤◌, [], List as Items, length, replicate, option_map, IsUtf8, IfOk};
ghost use Rattle.mt_text_spec.specs.Registries as registries;
ghost use Rattle.mt_text_spec.specs.Registries.{ValidRegistry, base_count};
ghost use Rattle.mt_text_spec.specs.Texts.{text_tokens_limit};
ghost use Rattle.mt_vertical.specs.Causes.{text_cause_of};
ghost use Rattle.mt_vertical.specs.Lines.{IsToken};
ghost use Rattle.mt_vertical.specs.Readers as readers;
ghost use Rattle.mt_vertical.specs.Readers.{IsSound, IsRead, gathered, no_instances};
ghost use Rattle.mt_vertical.specs.TagForms.{IsFound};

use super::error::TextCause;
use super::lines::{self, Line};
use super::structs::Structs;
use super::tags::Tag;
use super::values::column_values;
use mt_base::limits::TEXT_TOKENS_LIMIT;
use mt_base::{Attr, List, NoMemory, Registry, Strings, Text, Tokens, Value};
use std::alloc::Global;
use std::marker::Model;
use std::str;

/// A text of at most so many tokens keeps the room that its values do not take: it is small, and to give it back costs as much as reading some lines.
const FEW_TOKENS: usize = 16;

/// The tokens so far, and the instances of each kind. The row has the columns of one line, in memory that each line takes anew.
#[derive(Debug, Drop)]
pub struct Reader {
    tokens: Tokens,
    structs: Structs,
    row: Strings,
}

impl Model for Reader {
    ghost Value = { readers.State };

    ghost view = { λ r. record { columns = r.tokens.columns; tokens = r.tokens.tokens; kinds = r.structs } };
}

/// How many of these attributes are base attributes.
pub(crate) fn base_attrs(attrs: &[Attr]) -> usize
    ensures { result ≡ base_count attrs.now }
{
    attrs.iter().filter(|attr| attr.is_base()).count()
}

impl Reader {
    /// Before any line.
    pub fn new(alloc: Global, registry: &Registry) -> Result<Self, NoMemory>
        ensures columns { IfOk result (λ reader. reader.columns ≡ base_count registry.now.attrs) }
        ensures tokens { IfOk result (λ reader. reader.tokens ≡ []) }
        ensures kinds { IfOk result (λ reader. reader.kinds ≡ replicate (length registry.now.kinds) no_instances) }
    {
        Ok(Reader {
            tokens: Tokens::new(alloc, base_attrs(registry.attrs().as_slice())),
            structs: Structs::new(alloc, registry.kinds().len())?,
            row: Strings::new(alloc),
        })
    }

    /// Reads a line. A line that has a cause is not read, and the first of its causes is told.
    pub fn read_line(
        &mut self,
        alloc: Global,
        registry: &Registry,
        line: &[u8],
    ) -> Result<Option<TextCause>, NoMemory>
        requires valid { ValidRegistry registry.now }
        requires sound { IsSound registry.now self.old }
        ensures { IfOk result (λ cause. IsRead registry.now self.old line.now self.new (option_map text_cause_of cause)) }
    {
        match str::from_utf8(line) {
            Ok(text) => self.read_text_line(alloc, registry, text),
            Err(_) => Ok(Some(TextCause::NotUtf8)),
        }
    }

    /// Reads a line that is UTF-8.
    fn read_text_line(
        &mut self,
        alloc: Global,
        registry: &Registry,
        line: &str,
    ) -> Result<Option<TextCause>, NoMemory>
        requires valid { ValidRegistry registry.now }
        requires sound { IsSound registry.now self.old }
        ensures { IfOk result (λ cause. IsRead registry.now self.old line.now self.new (option_map text_cause_of cause)) }
    {
        if lines::begins_as_token(line) {
            return self.read_token(line);
        }
        match lines::read_line(line) {
            Line::Skipped => Ok(None),
            Line::Tag(tag) => self.read_tag(alloc, registry, tag),
            Line::Token => self.read_token(line),
        }
    }

    /// Reads a line that is a token.
    fn read_token(&mut self, line: &str) -> Result<Option<TextCause>, NoMemory>
        ensures { IfOk result (λ cause. (registry : registries.Registry) → ValidRegistry registry → IsSound registry self.old → IsToken line.now →
            IsRead registry self.old line.now self.new (option_map text_cause_of cause)) }
    {
        if self.tokens.len() == TEXT_TOKENS_LIMIT {
            return Ok(Some(TextCause::TooManyTokens));
        }
        if !column_values(self.tokens.columns(), line, &mut self.row)? {
            return Ok(Some(TextCause::ValueTooLong));
        }
        self.tokens.push(&self.row)?;
        Ok(None)
    }

    /// Reads a line that is a tag.
    fn read_tag(
        &mut self,
        alloc: Global,
        registry: &Registry,
        tag: Tag,
    ) -> Result<Option<TextCause>, NoMemory>
        requires valid { ValidRegistry registry.now }
        requires sound { IsSound registry.now self.old }
        ensures { IfOk result (λ cause. (line : Items ℕ) → IsUtf8 line → IsFound line tag.entry.form tag.entry.name.now tag.entry.attrs.now →
            IsRead registry.now self.old line self.new (option_map text_cause_of cause)) }
    {
        let place = self.tokens.len() as u32;
        let cause = self.structs.read_tag(alloc, registry, place, tag)?;
        Ok(cause)
    }

    /// The text of this name, in which the open instances end at its end.
    pub fn finish(self, alloc: Global, name: Value) -> Result<Text, NoMemory>
        requires few { length self.tokens ≤ text_tokens_limit }
        requires kinds { length self.kinds ≤ 16 }
        ensures named { IfOk result (λ text. text.name ≡ name) }
        ensures tokens { IfOk result (λ text. text.tokens ≡ self.tokens) }
        ensures structs { IfOk result (λ text. text.structs ≡ gathered 0 (length self.tokens) self.kinds) }
    {
        let place = self.tokens.len() as u32;
        let structs = self.structs.finish(alloc, place)?;
        let mut tokens = self.tokens;
        if tokens.len() > FEW_TOKENS {
            tokens.shrink_to_fit();
        }
        Ok(Text::new(name, tokens, List::from_vec(structs)))
    }
}
