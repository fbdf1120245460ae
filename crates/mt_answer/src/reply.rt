//! What is answered.

ghost use Rattle.std.specs.Prelude.{◌≡◌, ◌∷◌, ◌++◌, IfOk, OnErr};
ghost use Rattle.std.specs.Fmt.{decimal};
ghost use Rattle.mt_text_spec.specs.Lines.{closed};
ghost use Rattle.mt_session_spec.specs.Answers as answers;
ghost use Rattle.mt_session_spec.specs.Refusals as refusals;
ghost use Rattle.mt_answer.specs.Refusals.{refusal_of};
ghost use Rattle.mt_answer.specs.Replies.{Given};

use super::refusal::{Refusal, failure, pattern_line};
use mt_base::{List, NoMemory, Value};
use std::alloc::Global;

/// What is answered to a command. Its bytes are whole lines.
#[derive(Debug, Drop)]
pub enum Reply {
    /// The command is refused as a whole, in this line.
    Refused(List<u8>),
    /// It is accepted, in these lines.
    Lines(List<u8>),
    /// It is accepted, in this line, and the run ends with it.
    Last(List<u8>),
    /// The command is refused as a whole, since memory ran out.
    NoMemory,
}

/// The reply to a refused command.
pub fn refused(alloc: Global, refusal: &Refusal<'_>) -> Reply
    ensures { Given (answers.Refused (refusals.refusal_line (refusal_of refusal.now))) result }
{
    match refusal.line(alloc) {
        Ok(line) => Reply::Refused(line),
        Err(NoMemory) => Reply::NoMemory,
    }
}

/// The reply of these lines, or that there was no memory for them.
pub fn lines(made: Result<List<u8>, NoMemory>) -> Reply
    ensures made { IfOk made (λ bytes. result ≡ Reply.Lines bytes) }
    ensures starved { OnErr made (result ≡ Reply.NoMemory) }
{
    match made {
        Ok(bytes) => Reply::Lines(bytes),
        Err(NoMemory) => Reply::NoMemory,
    }
}

/// The reply where a call of the shelf at this file failed.
pub fn failed(alloc: Global, file: &Value) -> Reply
    ensures { Given (answers.Refused (refusals.failure_line file.now)) result }
{
    match failure(alloc, file.as_str()) {
        Ok(line) => Reply::Refused(line),
        Err(NoMemory) => Reply::NoMemory,
    }
}

/// The reply where the shop refused the pattern with this number, counted from 1.
pub fn pattern_refused(alloc: Global, number: u32) -> Reply
    ensures { Given (answers.Refused (refusals.pattern_refused_line number)) result }
{
    match pattern_line(alloc, number) {
        Ok(line) => Reply::Refused(line),
        Err(NoMemory) => Reply::NoMemory,
    }
}

/// The reply to an accepted command that has nothing else to say.
pub fn ok_line(alloc: Global) -> Result<List<u8>, NoMemory>
    ensures { IfOk result (λ line. line ≡ closed refusals.ok_line) }
{
    Ok(List::from_vec(String::from_str(alloc, "ok\n")?.into_bytes()))
}

/// A line of a word and a number.
pub fn count_line(alloc: Global, word: &str, count: u128) -> Result<List<u8>, NoMemory>
    ensures { IfOk result (λ line. line ≡ closed (word.now ++ 32 ∷ decimal count)) }
{
    Ok(List::from_vec(format!(in alloc; "{word} {count}\n")?.into_bytes()))
}
