//! Answers to questions about a corpus, and the lines that refuse a command.
//!
//! A question that has a query is answered in the order of its checks: `read_query` reads the text, `query_rows` finds the rows or says why there are none
//! (`Declined`), and `query` says what is answered of them; for `count`, `query_total` tells how many spans they have. `freq` and `colloc` look up their attribute before. `sketch` and `thes`
//! ask what the grammar that is held counts (`GrammarCounts`).
#![tactic(auto)]

mod asking;
mod collocates;
mod counted;
mod counting;
mod declined;
mod frequencies;
mod grammars;
mod names;
mod querying;
mod reading;
mod refusal;
mod reply;
mod reporting;
mod rows;
mod sketches;
mod thesaurus;
mod told;
mod totals;

pub use asking::answer;
pub use counted::GrammarCounts;
pub use declined::Declined;
pub use grammars::no_grammar;
pub use reading::read_query;
pub use refusal::{BAD_COMMAND, CUT_SHORT, NO_MEMORY, Refusal, RuleCause};
pub use reply::{Reply, count_line, failed, ok_line, pattern_refused, refused};
pub use rows::query_rows;
pub use told::patterns_are_told;
