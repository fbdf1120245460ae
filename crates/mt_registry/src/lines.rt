//! What the lines of a registry file state.

ghost use Rattle.std.specs.Prelude.{◌≡◌, ◌+◌, ◌<◌, ◌^◌, [], ◌∷◌, ◌++◌, ◌↔◌, not, List, length, IsTrue, IfOk, OnOk, IsUtf8, option_map, None, Some, true};
ghost use Rattle.std.specs.Str.Lines.{lines};
ghost use Rattle.mt_file_spec.specs.RegistryFile as spec;
ghost use Rattle.mt_file_spec.specs.RegistryFile.{IsRefused, statements_of, lines_from, behind_all};
ghost use Rattle.mt_registry.specs.SeenForm.{form_seen};
ghost use Rattle.mt_registry.specs.SeenBlock.{keyword_seen, block_seen, effect_seen};
ghost use Rattle.mt_registry.specs.ReadLines.{form_effect, Refuses, IsFirstRefused, IsUnnamed, IsBadValue, IsBadPlace, with_option};

use super::block::{Block, Blocks, Effect, Keyword, effect_in, is_declaring, keyword_of};
use super::form::{Form, form_of};
use mt_base::{Lines, NoMemory, is_identifier};
use std::alloc::Global;
use std::marker::Model;
use std::str;

/// What a line states.
#[derive(Debug, Drop)]
pub struct Statement<'a> {
    line: usize,
    keyword: Keyword,
    place: usize,
    value: &'a [u8],
}

impl<'a> Model for Statement<'a> {
    ghost use Rattle.mt_file_spec.specs.RegistryFile.{Statement as Seen};
    ghost use Rattle.mt_registry.specs.SeenBlock.{keyword_seen as seen};

    ghost Value = { Seen };

    ghost view = { λ s. record { line = s.line; keyword = seen s.keyword; place = s.place; value = s.value.now } };
}

impl<'a> Statement<'a> {
    /// The number of the line, from 1.
    pub fn line(&self) -> usize
        ensures { result ≡ self.now.line }
    {
        self.line
    }

    pub fn keyword(&self) -> Keyword
        ensures { keyword_seen result ≡ self.now.keyword }
    {
        self.keyword
    }

    /// The number of the line that opened the block in which the keyword stands, or 0 at the top.
    pub fn place(&self) -> usize
        ensures { result ≡ self.now.place }
    {
        self.place
    }

    pub fn value(&self) -> &[u8]
        ensures { result.now ≡ self.now.value }
    {
        self.value
    }
}

/// What has been read of a file: how many lines, which blocks are open behind them, what they state, and the number of the first that
/// is refused by its form and place.
#[derive(Debug, Drop)]
pub struct Reader<'a> {
    pub number: usize,
    pub nesting: Blocks,
    pub statements: Vec<Statement<'a>>,
    pub refused: Option<usize>,
}

/// What all lines state.
pub fn read_lines<'a>(alloc: Global, bytes: &'a [u8]) -> Result<Reader<'a>, NoMemory>
    ensures statements { IfOk result (λ r. r.statements.items ≡ statements_of (lines_from 1 [] (lines bytes.now))) }
    ensures opened { IfOk result (λ r. r.nesting ≡ behind_all 1 [] (lines bytes.now)) }
    ensures number { IfOk result (λ r. r.number ≡ length (lines bytes.now)) }
    ensures refused { IfOk result (λ r. IsFirstRefused (lines_from 1 [] (lines bytes.now)) r.refused) }
{
    let mut reader = Reader::new(alloc);
    for text in Lines::new(bytes) {
        reader.take(text)?;
    }
    Ok(reader)
}

impl<'a> Reader<'a> {
    /// Nothing has been read.
    fn new(alloc: Global) -> Self
        ensures number { result.number ≡ 0 }
        ensures opened { result.nesting ≡ [] }
        ensures statements { result.statements.items ≡ [] }
        ensures refused { result.refused ≡ None }
    {
        Reader {
            number: 0,
            nesting: Blocks::new(alloc),
            statements: Vec::new(alloc),
            refused: None,
        }
    }

    /// The number of the last line where a block is open behind it, else 0.
    pub fn unclosed(&self) -> usize
        ensures { result ≡ spec.unclosed_at self.now.nesting self.now.number }
    {
        if self.nesting.depth() == 0 {
            0
        } else {
            self.number
        }
    }

    /// Takes the next line.
    fn take(&mut self, text: &'a [u8]) -> Result<(), NoMemory>
        requires { self.old.number + 1 < 2 ^ 64 }
        ensures number { OnOk result (self.new.number ≡ self.old.number + 1) }
        ensures opened { OnOk result (self.new.nesting ≡ spec.behind (self.old.number + 1) self.old.nesting (spec.form_of text.now)) }
        ensures statements { OnOk result (self.new.statements.items
            ≡ with_option self.old.statements.items (spec.statement_in (self.old.number + 1) self.old.nesting (spec.form_of text.now))) }
        ensures refused { OnOk result (Refuses (record { number = self.old.number + 1; text = text.now; blocks = self.old.nesting }) self.old.refused self.new.refused) }
    {
        self.number += 1;
        let form = form_of(text);
        let effect = self.effect_of(form);
        self.judge(text, form, effect);
        self.keep(form, effect)?;
        self.settle(form, effect)
    }

    /// The effect of the keyword in the next line, if it has one.
    fn effect_of(&self, form: Form<'a>) -> Option<Effect>
        ensures { option_map effect_seen result ≡ form_effect self.now.number self.now.nesting (form_seen form.entry) }
    {
        match form {
            Form::Entry { key, .. } => self.effect_of_key(key),
            _ => None,
        }
    }

    fn effect_of_key(&self, key: &[u8]) -> Option<Effect>
        ensures { option_map effect_seen result ≡ spec.effect_of self.now.number self.now.nesting key.now }
    {
        match keyword_of(key) {
            Some(keyword) => effect_in(self.number, self.nesting.innermost(), keyword),
            None => None,
        }
    }

    /// Notes the line where it is the first that is refused.
    fn judge(&mut self, text: &'a [u8], form: Form<'a>, effect: Option<Effect>)
        requires form { form_seen form ≡ spec.form_of text.now }
        requires effect { option_map effect_seen effect ≡ form_effect self.old.number self.old.nesting (form_seen form) }
        ensures number { self.new.number ≡ self.old.number }
        ensures opened { self.new.nesting ≡ self.old.nesting }
        ensures statements { self.new.statements.items ≡ self.old.statements.items }
        ensures refused { Refuses (record { number = self.old.number; text = text.now; blocks = self.old.nesting }) self.old.refused self.new.refused }
    {
        match self.refused {
            Some(_) => {}
            None => {
                if self.is_refused(text, form, effect) {
                    self.refused = Some(self.number);
                }
            }
        }
    }

    /// Whether the line is refused by its form and place.
    fn is_refused(&self, text: &'a [u8], form: Form<'a>, effect: Option<Effect>) -> bool
        requires form { form_seen form ≡ spec.form_of text.now }
        requires effect { option_map effect_seen effect ≡ form_effect self.now.number self.now.nesting (form_seen form) }
        ensures { IsTrue result ↔ IsRefused (record { number = self.now.number; text = text.now; blocks = self.now.nesting }) }
    {
        match form {
            Form::Skipped => false,
            Form::Formless => true,
            Form::Closing => !is_utf8(text) || self.nesting.depth() == 0,
            Form::Entry { key, value, opens } => {
                is_bad_value(text, value, effect) || self.is_bad_place(key, opens)
            }
        }
    }

    /// Whether a block is opened that is too deep, or a structure is declared in a block that is not ignored.
    fn is_bad_place(&self, key: &[u8], opens: bool) -> bool
        ensures { IsTrue result ↔ IsBadPlace self.now.nesting key.now opens }
    {
        (opens && 2 <= self.nesting.depth()) || self.is_stray(key)
    }

    /// Whether a structure is declared in a block that is not ignored.
    fn is_stray(&self, key: &[u8]) -> bool
        ensures { IsTrue result ↔ ((spec.is_heeded (spec.innermost self.now.nesting) ≡ true) × (spec.keyword_of key.now ≡ Some spec.Structure)) }
    {
        match self.nesting.innermost() {
            None | Some(Block::Ignored) => false,
            Some(_) => matches!(keyword_of(key), Some(Keyword::Structure)),
        }
    }

    /// Keeps what the line states.
    fn keep(&mut self, form: Form<'a>, effect: Option<Effect>) -> Result<(), NoMemory>
        requires { option_map effect_seen effect ≡ form_effect self.old.number self.old.nesting (form_seen form) }
        ensures number { self.new.number ≡ self.old.number }
        ensures opened { self.new.nesting ≡ self.old.nesting }
        ensures refused { self.new.refused ≡ self.old.refused }
        ensures statements { OnOk result (self.new.statements.items
            ≡ with_option self.old.statements.items (spec.statement_in self.old.number self.old.nesting (form_seen form.entry))) }
    {
        let (Form::Entry { value, .. }, Some(effect)) = (form, effect) else {
            return Ok(());
        };
        self.statements.push(Statement {
            line: self.number,
            keyword: effect.keyword,
            place: effect.place,
            value,
        })?;
        Ok(())
    }

    /// Opens or closes the block that the line opens or closes.
    fn settle(&mut self, form: Form<'a>, effect: Option<Effect>) -> Result<(), NoMemory>
        requires { option_map effect_seen effect ≡ form_effect self.old.number self.old.nesting (form_seen form) }
        ensures number { self.new.number ≡ self.old.number }
        ensures statements { self.new.statements.items ≡ self.old.statements.items }
        ensures refused { self.new.refused ≡ self.old.refused }
        ensures opened { OnOk result (self.new.nesting ≡ spec.behind self.old.number self.old.nesting (form_seen form.entry)) }
    {
        match form {
            Form::Closing => {
                self.nesting.close();
                Ok(())
            }
            Form::Entry { opens: true, .. } => self.nesting.open(block_of(effect)),
            _ => Ok(()),
        }
    }
}

fn block_of(effect: Option<Effect>) -> Block
    ensures { block_seen result ≡ spec.block_of (option_map effect_seen effect) }
{
    match effect {
        Some(effect) => effect.block,
        None => Block::Ignored,
    }
}

/// Whether a line is not UTF-8, or declares what is no identifier.
fn is_bad_value(text: &[u8], value: &[u8], effect: Option<Effect>) -> bool
    ensures { IsTrue result ↔ IsBadValue text.now value.now (option_map effect_seen effect) }
{
    !is_utf8(text) || is_unnamed(value, effect)
}

/// Whether a keyword declares what is no identifier.
fn is_unnamed(value: &[u8], effect: Option<Effect>) -> bool
    ensures { IsTrue result ↔ IsUnnamed value.now (option_map effect_seen effect) }
{
    match effect {
        Some(effect) => is_declaring(effect.keyword) && !is_identifier(value),
        None => false,
    }
}

fn is_utf8(bytes: &[u8]) -> bool
    ensures { IsTrue result ↔ IsUtf8 bytes.now }
{
    str::from_utf8(bytes).is_ok()
}
