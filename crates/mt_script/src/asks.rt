//! Questions, in lines of a script and of a batch.

ghost use Rattle.std.specs.Prelude.{◌≡◌, IfOk, List};
ghost use Rattle.mt_script_spec.specs.Commands.{IsBatchLine};
ghost use Rattle.mt_script.specs.Seen.{ask_of, batch_line_of};
ghost use Rattle.mt_script.specs.Reading.{Reads, count_at, query_at, freq_at, colloc_at, sketch_at, thes_at, ask_at, asked_at};

use super::keyword::{Keyword, read_keyword};
use super::words::{Unread, cut, read_identifier, read_rest, read_signed, read_small};
use super::{Ask, BatchLine};
use mt_base::NoMemory;
use std::alloc::Global;

/// `count CQL`, behind its first word, as all that follow.
#[tactic(auto, unfolding(crate::specs::Reading::count_at))]
fn read_count(alloc: Global, words: &str) -> Result<Ask, Unread>
    ensures { Reads ask_of result (count_at words.now) }
{
    let cql = read_rest(alloc, words)?;
    Ok(Ask::Count { cql })
}

/// `query CQL`
#[tactic(auto, unfolding(crate::specs::Reading::query_at))]
fn read_query(alloc: Global, words: &str) -> Result<Ask, Unread>
    ensures { Reads ask_of result (query_at words.now) }
{
    let cql = read_rest(alloc, words)?;
    Ok(Ask::Query { cql })
}

/// `freq ATTR OFFSET CQL`
#[tactic(auto, unfolding(crate::specs::Reading::freq_at))]
fn read_freq(alloc: Global, words: &str) -> Result<Ask, Unread>
    ensures { Reads ask_of result (freq_at words.now) }
{
    let (attr, words) = cut(words)?;
    let attr = read_identifier(alloc, attr)?;
    let (offset, cql) = cut(words)?;
    let offset = read_signed(1000, offset)?;
    let cql = read_rest(alloc, cql)?;
    Ok(Ask::Freq { attr, offset, cql })
}

/// `colloc ATTR FROM TO MIN CQL`
#[tactic(auto, unfolding(crate::specs::Reading::colloc_at))]
fn read_colloc(alloc: Global, words: &str) -> Result<Ask, Unread>
    ensures { Reads ask_of result (colloc_at words.now) }
{
    let (attr, words) = cut(words)?;
    let attr = read_identifier(alloc, attr)?;
    let (from, words) = cut(words)?;
    let from = read_signed(100, from)?;
    let (to, words) = cut(words)?;
    let to = read_signed(100, to)?;
    if from > to {
        return Err(Unread::NoCommand);
    }
    let (min, cql) = cut(words)?;
    let min = read_small(min)?;
    let cql = read_rest(alloc, cql)?;
    Ok(Ask::Colloc {
        attr,
        from,
        to,
        min,
        cql,
    })
}

/// `sketch MIN MAX LEMMA`
#[tactic(auto, unfolding(crate::specs::Reading::sketch_at))]
fn read_sketch(alloc: Global, words: &str) -> Result<Ask, Unread>
    ensures { Reads ask_of result (sketch_at words.now) }
{
    let (min, words) = cut(words)?;
    let min = read_small(min)?;
    let (max, lemma) = cut(words)?;
    let max = read_small(max)?;
    let lemma = read_rest(alloc, lemma)?;
    Ok(Ask::Sketch { min, max, lemma })
}

/// `thes MAX LEMMA`
#[tactic(auto, unfolding(crate::specs::Reading::thes_at))]
fn read_thes(alloc: Global, words: &str) -> Result<Ask, Unread>
    ensures { Reads ask_of result (thes_at words.now) }
{
    let (max, lemma) = cut(words)?;
    let max = read_small(max)?;
    let lemma = read_rest(alloc, lemma)?;
    Ok(Ask::Thes { max, lemma })
}

/// The question that a first word and the words behind it ask.
#[tactic(auto, unfolding(crate::specs::Reading::ask_at))]
pub fn read_ask(alloc: Global, keyword: Keyword, words: &str) -> Result<Ask, Unread>
    ensures { Reads ask_of result (ask_at keyword words.now) }
{
    match keyword {
        Keyword::Count => read_count(alloc, words),
        Keyword::Query => read_query(alloc, words),
        Keyword::Freq => read_freq(alloc, words),
        Keyword::Colloc => read_colloc(alloc, words),
        Keyword::Sketch => read_sketch(alloc, words),
        Keyword::Thes => read_thes(alloc, words),
        _ => Err(Unread::NoCommand),
    }
}

#[tactic(auto, unfolding(crate::specs::Reading::asked_at))]
fn read_asked(alloc: Global, line: &str) -> Result<Ask, Unread>
    ensures { Reads ask_of result (asked_at line.now) }
{
    let (word, words) = cut(line)?;
    let keyword = read_keyword(word)?;
    read_ask(alloc, keyword, words)
}

/// A line of a batch.
pub fn read_batch_line(alloc: Global, line: &[u8]) -> Result<BatchLine, NoMemory>
    ensures { IfOk result (λ read. IsBatchLine line.now (batch_line_of read)) }
{
    let Ok(line) = str::from_utf8(line) else {
        return Ok(BatchLine::Bad);
    };
    match read_asked(alloc, line) {
        Ok(ask) => Ok(BatchLine::Good(ask)),
        Err(Unread::NoCommand) => Ok(BatchLine::Bad),
        Err(Unread::NoMemory) => Err(NoMemory),
    }
}
