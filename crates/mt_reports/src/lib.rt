//! Reports over spans of a corpus in segments: the lines of a concordance.
//!
//! Spans are numbered among the live texts of all segments, in order. Beside the segments stand, for each of them, the ascending numbers of its live texts.
//! Contracts speak of the texts for which the segments stand (`StandFor` of `mt_report_spec`). Where a live text stands (`cursor`), which number a value has
//! (`numbers`) and how a number is appended (`written`) serve other reports too.
#![tactic(auto)]

pub mod cursor;
mod lines;
pub mod numbers;
pub mod written;

pub use lines::{kwic_line, kwic_lines, text_line};
