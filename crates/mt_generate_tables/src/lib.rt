//! The segment of a generated text, made from its draws.
//!
//! Under the standard registry a generated text has few distinct tokens, each of which is told by a code of what was drawn for it. So the tables are made of the
//! codes: no text is written, and no value is looked up for each token.
#![tactic(auto)]

mod coding;
mod drawing;
mod instances;
mod numbering;
mod segment;

pub use segment::generated_segment;
