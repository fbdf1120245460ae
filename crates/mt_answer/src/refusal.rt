//! Why a command is refused, and the line that says so.

ghost use Rattle.std.specs.Prelude.{◌≡◌, ◌∷◌, ◌++◌, IfOk, codes, string_bytes};
ghost use Rattle.std.specs.Fmt.{decimal};
ghost use Rattle.mt_text_spec.specs.Lines.{closed};
ghost use Rattle.mt_cql.specs.Read.{cause_seen};
ghost use Rattle.mt_grammar.specs.Errors.{line_cause_seen};
ghost use Rattle.mt_grammar_spec.specs.GrammarFile.{NoQuery};
ghost use Rattle.mt_session_spec.specs.Refusals as spec;
ghost use Rattle.mt_session_spec.specs.Refusals.{refusal_line, failure_line, pattern_refused_line, query_cause, grammar_cause};
ghost use Rattle.mt_answer.specs.Refusals.{refusal_of, rule_cause_seen};

use mt_base::{List, NoMemory};
use mt_cql::Cause;
use mt_grammar::LineCause;
use mt_registry::BadLine as BadRegistryLine;
use mt_vertical::BadLine as BadTextLine;
use std::alloc::Global;

/// The reply to a line that is no command.
pub const BAD_COMMAND: &str = "! 10 BadCommand\n";

/// The reply to a body that the input cuts short.
pub const CUT_SHORT: &str = "! 11 CutShort\n";

/// The reply to a command that runs out of memory.
pub const NO_MEMORY: &str = "! 30 NoMemory\n";

/// Why a command is refused.
#[derive(Clone, Copy, Debug)]
pub enum Refusal<'a> {
    /// The line is no command.
    BadCommand,
    /// A registry was accepted before, or a text or a grammar is held.
    RegistryLate,
    /// A text of this name is held.
    NameTaken(&'a str),
    /// There is no file of this name.
    NoSuchFile(&'a str),
    /// The file of this name is too long.
    FileTooLong(&'a str),
    /// This line is the first that the registry is refused for.
    BadRegistry(BadRegistryLine),
    /// The registry declares no base attribute.
    NoAttribute,
    /// This line is the first that the text is refused for.
    BadVertical(BadTextLine),
    /// The text is no query, by what stands at this byte.
    BadQuery { at: u32, cause: Cause },
    /// Nothing of this name is declared.
    UnknownName(&'a str),
    /// The pattern with this number, counted from 1, is none, or it nests too deep.
    BadPattern(u32),
    /// The head of the query or an operand has too many rows.
    TooManyRows,
    /// There is no room for the text.
    CorpusFull,
    /// No sketch grammar is held.
    NoGrammar,
    /// This line is the first that the grammar is refused for.
    BadGrammar { line: usize, cause: LineCause },
    /// This line is the first that the grammar is refused for: its text is no query.
    BadRule { line: usize, cause: RuleCause },
    /// The grammar has no heading.
    NoRelation,
    /// The text of the query is too long or nests too deep, or the query is too great.
    QueryTooLarge,
    /// The corpus has no text of this name.
    NoSuchText(&'a str),
}

/// Why the text of a line of a grammar is no query. Bytes count from 0 at the begin of the text.
#[derive(Clone, Copy, Debug)]
pub enum RuleCause {
    /// It is too long or nests too deep, or its query is too great.
    TooLarge,
    /// It is wrong by what stands at this byte.
    Syntax { at: u32, cause: Cause },
    /// What it names at this byte is not declared.
    Unknown { at: u32 },
}

impl Refusal<'_> {
    /// The reply to the command.
    pub fn line(&self, alloc: Global) -> Result<List<u8>, NoMemory>
        ensures { IfOk result (λ line. line ≡ closed (refusal_line (refusal_of self.now))) }
    {
        Ok(List::from_vec(self.text(alloc)?.into_bytes()))
    }

    fn text(&self, alloc: Global) -> Result<String, NoMemory>
        ensures { IfOk result (λ text. string_bytes text ≡ closed (refusal_line (refusal_of self.now))) }
    {
        match self {
            Refusal::BadCommand => whole(alloc, BAD_COMMAND),
            Refusal::RegistryLate => whole(alloc, "! 12 RegistryLate\n"),
            Refusal::NameTaken(name) => named(alloc, "! 13 NameTaken", name),
            Refusal::NoSuchFile(file) => named(alloc, "! 14 NoSuchFile", file),
            Refusal::FileTooLong(file) => named(alloc, "! 15 FileTooLong", file),
            Refusal::BadRegistry(bad) => {
                placed(alloc, "! 16 BadRegistry", bad.line, bad.cause.word())
            }
            Refusal::NoAttribute => whole(alloc, "! 16 BadRegistry 0 NoAttribute\n"),
            Refusal::BadVertical(bad) => {
                placed(alloc, "! 17 BadVertical", bad.line, bad.cause.word())
            }
            Refusal::BadQuery { at, cause } => {
                placed(alloc, "! 18 BadQuery", *at as usize, cause_word(*cause))
            }
            Refusal::UnknownName(name) => named(alloc, "! 19 UnknownName", name),
            Refusal::BadPattern(number) => Ok(format!(in alloc; "! 20 BadPattern {number}\n")?),
            Refusal::TooManyRows => whole(alloc, "! 22 TooManyRows\n"),
            Refusal::CorpusFull => whole(alloc, "! 23 CorpusFull\n"),
            Refusal::NoGrammar => whole(alloc, "! 25 NoGrammar\n"),
            Refusal::BadGrammar { line, cause } => {
                placed(alloc, "! 26 BadGrammar", *line, line_word(*cause))
            }
            Refusal::BadRule { line, cause } => bad_rule(alloc, *line, *cause),
            Refusal::NoRelation => whole(alloc, "! 26 BadGrammar 0 NoRelation\n"),
            Refusal::QueryTooLarge => whole(alloc, "! 27 QueryTooLarge\n"),
            Refusal::NoSuchText(name) => named(alloc, "! 31 NoSuchText", name),
        }
    }
}

/// A reply of this text.
fn whole(alloc: Global, text: &str) -> Result<String, NoMemory>
    ensures { IfOk result (λ made. string_bytes made ≡ text.now) }
{
    Ok(String::from_str(alloc, text)?)
}

/// The reply that names a text or a file.
fn named(alloc: Global, head: &str, name: &str) -> Result<String, NoMemory>
    ensures { IfOk result (λ text. string_bytes text ≡ closed (head.now ++ 32 ∷ name.now)) }
{
    Ok(format!(in alloc; "{head} {name}\n")?)
}

/// Why the text of a query is refused at a place, in one word.
fn cause_word(cause: Cause) -> &'static str
    ensures { result.now ≡ query_cause (cause_seen cause) }
{
    match cause {
        Cause::Token => "Token",
        Cause::String => "String",
        Cause::Char => "Char",
        Cause::Range => "Range",
        Cause::Label => "Label",
    }
}

/// Why a line of a grammar is refused, in one word.
fn line_word(cause: LineCause) -> &'static str
    ensures { result.now ≡ grammar_cause (line_cause_seen cause) }
{
    match cause {
        LineCause::NotUtf8 => "NotUtf8",
        LineCause::Directive => "Directive",
        LineCause::Kind => "Kind",
        LineCause::Name => "Name",
        LineCause::Heading => "Heading",
        LineCause::NoHeading => "NoHeading",
        LineCause::TooMany => "TooMany",
        LineCause::Label => "Label",
    }
}

/// The reply that names a line of a grammar, and why its text is no query.
fn bad_rule(alloc: Global, line: usize, cause: RuleCause) -> Result<String, NoMemory>
    ensures { IfOk result (λ text. string_bytes text ≡ closed (refusal_line (spec.BadGrammar line (NoQuery (rule_cause_seen cause))))) }
{
    match cause {
        RuleCause::TooLarge => placed(alloc, "! 26 BadGrammar", line, "TooLarge"),
        RuleCause::Syntax { at, cause } => bad_syntax(alloc, line, at, cause_word(cause)),
        RuleCause::Unknown { at } => unknown_in(alloc, line, at),
    }
}

/// The reply that names a line of a grammar and a byte of its text, where what is named is not declared.
fn unknown_in(alloc: Global, line: usize, at: u32) -> Result<String, NoMemory>
    ensures { IfOk result (λ text. string_bytes text ≡ closed (codes "! 26 BadGrammar " ++ decimal line ++ 32 ∷ (codes "Unknown " ++ decimal at))) }
{
    Ok(format!(in alloc; "! 26 BadGrammar {line} Unknown {at}\n")?)
}

/// The reply that names a line of a grammar and a byte of its text, and a cause.
fn bad_syntax(alloc: Global, line: usize, at: u32, cause: &str) -> Result<String, NoMemory>
    ensures { IfOk result (λ text. string_bytes text ≡ closed (codes "! 26 BadGrammar " ++ decimal line ++ 32 ∷ (codes "Syntax " ++ decimal at ++ 32 ∷ cause.now))) }
{
    Ok(format!(in alloc; "! 26 BadGrammar {line} Syntax {at} {cause}\n")?)
}

/// The reply that names a line or a byte, and a cause.
fn placed(alloc: Global, head: &str, place: usize, cause: &str) -> Result<String, NoMemory>
    ensures { IfOk result (λ text. string_bytes text ≡ closed (head.now ++ 32 ∷ decimal place ++ 32 ∷ cause.now)) }
{
    Ok(format!(in alloc; "{head} {place} {cause}\n")?)
}

/// The reply where a call of the shelf at this file failed.
pub fn failure(alloc: Global, file: &str) -> Result<List<u8>, NoMemory>
    ensures { IfOk result (λ line. line ≡ closed (failure_line file.now)) }
{
    Ok(List::from_vec(format!(in alloc; "! 29 ShelfFailed {file}\n")?.into_bytes()))
}

/// The reply where the shop refused the pattern with this number, counted from 1.
pub fn pattern_line(alloc: Global, number: u32) -> Result<List<u8>, NoMemory>
    ensures { IfOk result (λ line. line ≡ closed (pattern_refused_line number)) }
{
    Ok(List::from_vec(format!(in alloc; "! 21 PatternRefused {number}\n")?.into_bytes()))
}
