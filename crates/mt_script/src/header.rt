//! What a command line is, by its words.

ghost use Rattle.std.specs.Prelude.{◌≡◌, ℕ, List, ◌++◌, IfOk, MatchOption, map};
ghost use Rattle.std.specs.List.{AllZip};
ghost use Rattle.std.specs.Str.Lines.{lines};
ghost use Rattle.mt_text_spec.specs.Lines.{IsLine, Block, closed};
ghost use Rattle.mt_script_spec.specs.Commands.{IsHeader, IsBatchLine, body_lines, WithBody};
ghost use Rattle.mt_script.specs.Seen.{command_of, batch_line_of};
ghost use Rattle.mt_script_spec.specs.Commands as spec;
ghost use Rattle.mt_script.specs.Headers.{header_of};
ghost use Rattle.mt_script.specs.Reading.{Reads, word_at, words_at, line_at};

use super::asks::{read_ask, read_batch_line};
use super::heads::{
    read_add, read_batch, read_generate, read_grammar, read_keywords, read_merge, read_open,
    read_partner, read_registry, read_remove, read_rules, read_save, read_subcorpus, read_subcount,
    read_text,
};
use super::keyword::{Keyword, read_keyword};
use super::lines::without_return;
use super::words::{Unread, split};
use super::{BatchLine, Command};
use mt_base::{Lines, List, NoMemory, Value};
use std::alloc::Global;

/// The most bytes of a command line.
pub const LINE_BYTES_LIMIT: usize = 65_536;

/// A command line, before its body.
#[derive(Debug, Drop)]
pub enum Header {
    /// A command that has no body.
    Lone(Command),
    /// A text, and how many lines its body has.
    Text {
        name: Value,
        lines: u32,
    },
    /// A sketch grammar of so many lines.
    Rules {
        lines: u32,
    },
    /// A batch of so many lines, and what it merges.
    Batch {
        lines: u32,
        merge: Option<(u32, u32)>,
    },
}

impl Header {
    /// How many lines of body follow.
    pub fn lines(&self) -> u32
        ensures { result ≡ body_lines (header_of self.now) }
    {
        match self {
            Header::Lone(_) => 0,
            Header::Text { lines, .. } => *lines,
            Header::Rules { lines } => *lines,
            Header::Batch { lines, .. } => *lines,
        }
    }

    /// The command with this body. Only what is given out is copied.
    pub fn with_body(self, alloc: Global, body: &[u8]) -> Result<Command, NoMemory>
        ensures { IfOk result (λ command. WithBody (header_of self) body.now (command_of command)) }
    {
        match self {
            Header::Lone(command) => Ok(command),
            Header::Text { name, .. } => {
                let body = copied(alloc, body)?;
                Ok(Command::Text { name, body })
            }
            Header::Rules { .. } => {
                let body = copied(alloc, body)?;
                Ok(Command::Rules { body })
            }
            Header::Batch { merge, .. } => {
                let lines = read_lines(alloc, body)?;
                Ok(Command::Batch { lines, merge })
            }
        }
    }

    /// The command whose body is these lines and a last one, which gets the line feed that it lacks.
    pub fn with_open_body(
        self,
        alloc: Global,
        front: &[u8],
        last: &[u8],
    ) -> Result<Command, NoMemory>
        requires front { (n : ℕ) × Block n front.now }
        requires last { IsLine last.now }
        ensures { IfOk result (λ command. WithBody (header_of self) (closed (front.now ++ last.now)) (command_of command)) }
    {
        match self {
            Header::Lone(command) => Ok(command),
            Header::Text { name, .. } => {
                let body = closed_copy(alloc, front, last)?;
                Ok(Command::Text { name, body })
            }
            Header::Rules { .. } => {
                let body = closed_copy(alloc, front, last)?;
                Ok(Command::Rules { body })
            }
            Header::Batch { merge, .. } => {
                let lines = read_open_lines(alloc, front, last)?;
                Ok(Command::Batch { lines, merge })
            }
        }
    }
}

fn copied(alloc: Global, bytes: &[u8]) -> Result<List<u8>, NoMemory>
    ensures { IfOk result (λ copy. copy ≡ bytes.now) }
{
    Ok(List::from_vec(Vec::from_slice(alloc, bytes)?))
}

/// A copy of lines and of a last one with the line feed that it lacks.
fn closed_copy(alloc: Global, front: &[u8], last: &[u8]) -> Result<List<u8>, NoMemory>
    ensures { IfOk result (λ copy. copy ≡ closed (front.now ++ last.now)) }
{
    let length = front.len().saturating_add(last.len()).saturating_add(1);
    let mut copy = List::with_capacity(alloc, length)?;
    copy.extend(front)?;
    copy.extend(last)?;
    copy.push(b'\n')?;
    Ok(copy)
}

/// The lines of a batch.
fn read_lines(alloc: Global, body: &[u8]) -> Result<List<BatchLine>, NoMemory>
    ensures { IfOk result (λ read. AllZip IsBatchLine (lines body.now) (map batch_line_of read)) }
{
    let mut read = List::new(alloc);
    for line in Lines::new(body) {
        read.push(read_batch_line(alloc, line)?)?;
    }
    Ok(read)
}

/// The lines of a batch, the last of which lacks its line feed.
fn read_open_lines(alloc: Global, front: &[u8], last: &[u8]) -> Result<List<BatchLine>, NoMemory>
    requires front { (n : ℕ) × Block n front.now }
    requires last { IsLine last.now }
    ensures { IfOk result (λ read. AllZip IsBatchLine (lines (closed (front.now ++ last.now))) (map batch_line_of read)) }
{
    let mut read = read_lines(alloc, front)?;
    read.push(read_batch_line(alloc, without_return(last))?)?;
    Ok(read)
}

/// What a first word and the words behind it say.
#[tactic(auto, unfolding(crate::specs::Reading::words_at))]
fn read_words(alloc: Global, keyword: Keyword, words: &str) -> Result<Header, Unread>
    ensures { Reads header_of result (words_at keyword words.now) }
{
    match keyword {
        Keyword::Registry => read_registry(alloc, words),
        Keyword::Text => read_text(alloc, words),
        Keyword::Add => read_add(alloc, words),
        Keyword::Generate => read_generate(alloc, words),
        Keyword::Grammar => read_grammar(alloc, words),
        Keyword::Rules => read_rules(words),
        Keyword::Merge => read_merge(words),
        Keyword::Batch => read_batch(words),
        Keyword::Save => read_save(alloc, words),
        Keyword::Open => read_open(alloc, words),
        Keyword::Remove => read_remove(alloc, words),
        Keyword::Subcorpus => read_subcorpus(alloc, words),
        Keyword::Subcount => read_subcount(alloc, words),
        Keyword::Keywords => read_keywords(alloc, words),
        Keyword::Partner => read_partner(alloc, words),
        _ => {
            let ask = read_ask(alloc, keyword, words)?;
            Ok(Header::Lone(Command::Ask(ask)))
        }
    }
}

/// A command that is one word.
#[tactic(auto, unfolding(crate::specs::Reading::word_at))]
fn read_word(keyword: Keyword) -> Result<Header, Unread>
    ensures { Reads header_of result (word_at keyword) }
{
    match keyword {
        Keyword::Segments => Ok(Header::Lone(Command::Segments)),
        Keyword::Quit => Ok(Header::Lone(Command::Quit)),
        _ => Err(Unread::NoCommand),
    }
}

/// What the words of a line say.
#[tactic(auto, unfolding(crate::specs::Reading::line_at))]
fn read_line(alloc: Global, line: &str) -> Result<Header, Unread>
    ensures { Reads header_of result (line_at line.now) }
{
    match split(line) {
        Some((word, words)) => {
            let keyword = read_keyword(word)?;
            read_words(alloc, keyword, words)
        }
        None => {
            let keyword = read_keyword(line)?;
            read_word(keyword)
        }
    }
}

/// What a command line is, or `None` where it is no command.
pub fn read_header(alloc: Global, line: &[u8]) -> Result<Option<Header>, NoMemory>
    ensures { IfOk result (λ found. MatchOption found ((h : spec.Header) → IsHeader line.now h → ⊥) (λ h. IsHeader line.now (header_of h))) }
{
    if line.len() > LINE_BYTES_LIMIT {
        return Ok(None);
    }
    let Ok(line) = str::from_utf8(line) else {
        return Ok(None);
    };
    match read_line(alloc, line) {
        Ok(header) => Ok(Some(header)),
        Err(Unread::NoCommand) => Ok(None),
        Err(Unread::NoMemory) => Err(NoMemory),
    }
}
