//! How often each value stands near the spans of a query: frequency lists and collocations over a corpus in segments.
//!
//! Spans are numbered among the live texts of all segments, in order. Beside the segments stand, for each of them, the ascending numbers of its live texts.
//! Values are counted by their numbers. Contracts speak of the texts for which the segments stand (`StandFor` of `mt_report_spec`).
#![tactic(auto)]

mod begins;
mod collocate;
mod collocates;
mod distances;
mod entry;
mod frequencies;
mod joining;
mod lines;
mod numbers;
mod run;
mod seen;
mod spans;
mod tally;
mod tokens;
mod walk;

pub use collocates::collocations;
pub use frequencies::frequency;
