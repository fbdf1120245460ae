//! Why a question that has a query is not answered.

ghost use Rattle.mt_session_spec.specs.Answers as answers;
ghost use Rattle.mt_answer.specs.Declines.{declined_line};
ghost use Rattle.mt_answer.specs.Replies.{Given};

use super::refusal::Refusal;
use super::reply::{Reply, pattern_refused, refused};
use std::alloc::Global;

/// Why a question that has a query is not answered.
#[derive(Clone, Copy, Debug)]
pub enum Declined<'a> {
    /// The command is refused.
    Refused(Refusal<'a>),
    /// The shop refused the pattern with this number, counted from 1.
    PatternRefused(u32),
    /// There was no memory for the answer.
    NoMemory,
}

impl Declined<'_> {
    /// The reply that tells why.
    pub fn reply(&self, alloc: Global) -> Reply
        ensures { Given (answers.Refused (declined_line self.now)) result }
    {
        match self {
            Declined::Refused(refusal) => refused(alloc, refusal),
            Declined::PatternRefused(number) => pattern_refused(alloc, *number),
            Declined::NoMemory => Reply::NoMemory,
        }
    }
}
