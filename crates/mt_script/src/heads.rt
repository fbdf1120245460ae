//! The lines of commands, by the words behind the first.

ghost use Rattle.mt_script.specs.Headers.{header_of};
ghost use Rattle.mt_script.specs.Reading.{Reads, registry_at, text_at, add_at, generate_at, grammar_at, rules_at, range_at, merge_at, merging_at, batch_at, save_at, load_at, remove_at, subcorpus_at, subcount_at, keywords_at, partner_at};

use super::Command;
use super::header::Header;
use super::words::{
    Unread, cut, read_decimal, read_identifier, read_name, read_number, read_rest, read_saved_name,
    read_small, split,
};
use mt_base::is_identifier;
use std::alloc::Global;

/// `registry FILE`, behind its first word, as all that follow.
#[tactic(auto, unfolding(crate::specs::Reading::registry_at))]
pub fn read_registry(alloc: Global, words: &str) -> Result<Header, Unread>
    ensures { Reads header_of result (registry_at words.now) }
{
    let file = read_name(alloc, words)?;
    Ok(Header::Lone(Command::Registry { file }))
}

/// `text NAME N`
#[tactic(auto, unfolding(crate::specs::Reading::text_at))]
pub fn read_text(alloc: Global, words: &str) -> Result<Header, Unread>
    ensures { Reads header_of result (text_at words.now) }
{
    let (name, lines) = cut(words)?;
    let name = read_name(alloc, name)?;
    let lines = read_small(lines)?;
    Ok(Header::Text { name, lines })
}

/// `add NAME FILE`
#[tactic(auto, unfolding(crate::specs::Reading::add_at))]
pub fn read_add(alloc: Global, words: &str) -> Result<Header, Unread>
    ensures { Reads header_of result (add_at words.now) }
{
    let (name, file) = cut(words)?;
    let name = read_name(alloc, name)?;
    let file = read_name(alloc, file)?;
    Ok(Header::Lone(Command::Add { name, file }))
}

/// `generate NAME SEED TOKENS`
#[tactic(auto, unfolding(crate::specs::Reading::generate_at))]
pub fn read_generate(alloc: Global, words: &str) -> Result<Header, Unread>
    ensures { Reads header_of result (generate_at words.now) }
{
    let (name, words) = cut(words)?;
    let name = read_name(alloc, name)?;
    let (seed, tokens) = cut(words)?;
    let seed = read_decimal(seed)?;
    let tokens = read_number(0, 1_048_576, tokens)?;
    Ok(Header::Lone(Command::Generate { name, seed, tokens }))
}

/// `grammar FILE`
#[tactic(auto, unfolding(crate::specs::Reading::grammar_at))]
pub fn read_grammar(alloc: Global, words: &str) -> Result<Header, Unread>
    ensures { Reads header_of result (grammar_at words.now) }
{
    let file = read_name(alloc, words)?;
    Ok(Header::Lone(Command::Grammar { file }))
}

/// `rules N`
#[tactic(auto, unfolding(crate::specs::Reading::rules_at))]
pub fn read_rules(words: &str) -> Result<Header, Unread>
    ensures { Reads header_of result (rules_at words.now) }
{
    let lines = read_small(words)?;
    Ok(Header::Rules { lines })
}

/// `I J`
#[tactic(auto, unfolding(crate::specs::Reading::range_at))]
fn read_range(words: &str) -> Result<(u32, u32), Unread>
    ensures { Reads (λ range. range) result (range_at words.now) }
{
    let (from, to) = cut(words)?;
    let from = read_small(from)?;
    let to = read_small(to)?;
    Ok((from, to))
}

/// `merge I J`
#[tactic(auto, unfolding(crate::specs::Reading::merge_at))]
pub fn read_merge(words: &str) -> Result<Header, Unread>
    ensures { Reads header_of result (merge_at words.now) }
{
    let (from, to) = read_range(words)?;
    Ok(Header::Lone(Command::Merge { from, to }))
}

/// `merge I J`, at the end of a batch's line.
#[tactic(auto, unfolding(crate::specs::Reading::merging_at))]
fn read_merging(words: &str) -> Result<(u32, u32), Unread>
    ensures { Reads (λ range. range) result (merging_at words.now) }
{
    let (word, range) = cut(words)?;
    if word == "merge" {
        read_range(range)
    } else {
        Err(Unread::NoCommand)
    }
}

/// `batch N` or `batch N merge I J`
#[tactic(auto, unfolding(crate::specs::Reading::batch_at))]
pub fn read_batch(words: &str) -> Result<Header, Unread>
    ensures { Reads header_of result (batch_at words.now) }
{
    match split(words) {
        Some((lines, words)) => {
            let lines = read_number(1, 32, lines)?;
            let range = read_merging(words)?;
            Ok(Header::Batch {
                lines,
                merge: Some(range),
            })
        }
        None => {
            let lines = read_number(1, 32, words)?;
            Ok(Header::Batch { lines, merge: None })
        }
    }
}

/// `save NAME`
#[tactic(auto, unfolding(crate::specs::Reading::save_at))]
pub fn read_save(alloc: Global, words: &str) -> Result<Header, Unread>
    ensures { Reads header_of result (save_at words.now) }
{
    let name = read_saved_name(alloc, words)?;
    Ok(Header::Lone(Command::Save { name }))
}

/// `open NAME`
#[tactic(auto, unfolding(crate::specs::Reading::load_at))]
pub fn read_open(alloc: Global, words: &str) -> Result<Header, Unread>
    ensures { Reads header_of result (load_at words.now) }
{
    let name = read_saved_name(alloc, words)?;
    Ok(Header::Lone(Command::Load { name }))
}

/// `remove NAME`
#[tactic(auto, unfolding(crate::specs::Reading::remove_at))]
pub fn read_remove(alloc: Global, words: &str) -> Result<Header, Unread>
    ensures { Reads header_of result (remove_at words.now) }
{
    let name = read_name(alloc, words)?;
    Ok(Header::Lone(Command::Remove { name }))
}

/// `subcorpus NAME CQL`
#[tactic(auto, unfolding(crate::specs::Reading::subcorpus_at))]
pub fn read_subcorpus(alloc: Global, words: &str) -> Result<Header, Unread>
    ensures { Reads header_of result (subcorpus_at words.now) }
{
    let (name, cql) = cut(words)?;
    let name = read_name(alloc, name)?;
    let cql = read_rest(alloc, cql)?;
    Ok(Header::Lone(Command::Subcorpus { name, cql }))
}

/// `subcount NAME CQL`
#[tactic(auto, unfolding(crate::specs::Reading::subcount_at))]
pub fn read_subcount(alloc: Global, words: &str) -> Result<Header, Unread>
    ensures { Reads header_of result (subcount_at words.now) }
{
    let (name, cql) = cut(words)?;
    let name = read_name(alloc, name)?;
    let cql = read_rest(alloc, cql)?;
    Ok(Header::Lone(Command::Subcount { name, cql }))
}

/// `keywords NAME ATTR N MAX`
#[tactic(auto, unfolding(crate::specs::Reading::keywords_at))]
pub fn read_keywords(alloc: Global, words: &str) -> Result<Header, Unread>
    ensures { Reads header_of result (keywords_at words.now) }
{
    let (name, words) = cut(words)?;
    let name = read_name(alloc, name)?;
    let (attr, words) = cut(words)?;
    let attr = read_identifier(alloc, attr)?;
    let (n, max) = cut(words)?;
    let n = read_number(1, 1_000_000, n)?;
    let max = read_small(max)?;
    Ok(Header::Lone(Command::Keywords { name, attr, n, max }))
}

/// `partner NAME STRUCT`
#[tactic(auto, using(crate::proofs::Forms::identifier_true, crate::proofs::Forms::identifier_false), unfolding(crate::specs::Reading::partner_at))]
pub fn read_partner(alloc: Global, words: &str) -> Result<Header, Unread>
    ensures { Reads header_of result (partner_at words.now) }
{
    let (name, kind) = cut(words)?;
    if !is_identifier(name.as_bytes()) {
        return Err(Unread::NoCommand);
    }
    let name = read_saved_name(alloc, name)?;
    let kind = read_identifier(alloc, kind)?;
    Ok(Header::Lone(Command::Partner { name, kind }))
}
