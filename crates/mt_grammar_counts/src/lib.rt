//! The counts of a sketch grammar over texts that stand in segments: over the texts of a corpus, and over one text that is added to it or goes from it.
//!
//! The patterns of a grammar are built once and asked for each segment. Each text is evaluated by itself, and a row is told to the collector of instances with the
//! relation that its query stands under.
#![tactic(auto)]

mod asked;
mod counting;
mod error;
mod lines;
mod patterns;
mod prepared;
mod query;
mod ready_queries;
mod segments;
mod text_counts;
mod texts;

pub use counting::{count_added, count_corpus, count_named};
pub use error::CountError;
use mt_instances::Room;
pub use patterns::GrammarPatterns;
use segments::Buffers;
pub use text_counts::TextCounts;

fn shared<T: Send + Sync>() {}

/// That threads may share what an error says, and the memory in which a text is counted, is proved by this function.
pub fn are_shared() {
    shared::<CountError>();
    shared::<Room>();
    shared::<Buffers>();
}
