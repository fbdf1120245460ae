//! The first words of commands.

ghost use Rattle.mt_script.specs.Reading.{Reads, keyword_at};

use super::words::Unread;

/// The first word of a command line.
#[derive(Clone, Copy, Debug, PartialEq, Eq, Drop)]
pub enum Keyword {
    Registry,
    Text,
    Add,
    Generate,
    Count,
    Query,
    Freq,
    Colloc,
    Grammar,
    Rules,
    Sketch,
    Thes,
    Merge,
    Batch,
    Segments,
    Save,
    Open,
    Quit,
    Remove,
    Subcorpus,
    Subcount,
    Keywords,
    Partner,
}

/// The command that a word names.
#[tactic(auto, unfolding(crate::specs::Reading::keyword_at))]
pub fn read_keyword(word: &str) -> Result<Keyword, Unread>
    ensures { Reads (λ k. k) result (keyword_at word.now) }
{
    match word {
        "registry" => Ok(Keyword::Registry),
        "text" => Ok(Keyword::Text),
        "add" => Ok(Keyword::Add),
        "generate" => Ok(Keyword::Generate),
        "count" => Ok(Keyword::Count),
        "query" => Ok(Keyword::Query),
        "freq" => Ok(Keyword::Freq),
        "colloc" => Ok(Keyword::Colloc),
        "grammar" => Ok(Keyword::Grammar),
        "rules" => Ok(Keyword::Rules),
        "sketch" => Ok(Keyword::Sketch),
        "thes" => Ok(Keyword::Thes),
        "merge" => Ok(Keyword::Merge),
        "batch" => Ok(Keyword::Batch),
        "segments" => Ok(Keyword::Segments),
        "save" => Ok(Keyword::Save),
        "open" => Ok(Keyword::Open),
        "quit" => Ok(Keyword::Quit),
        "remove" => Ok(Keyword::Remove),
        "subcorpus" => Ok(Keyword::Subcorpus),
        "subcount" => Ok(Keyword::Subcount),
        "keywords" => Ok(Keyword::Keywords),
        "partner" => Ok(Keyword::Partner),
        _ => Err(Unread::NoCommand),
    }
}
