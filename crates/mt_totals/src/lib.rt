//! How many spans a query has in a corpus.
//!
//! Where a query is one test of a token and no text was removed, no row is listed: each token of which the test holds is a span, and how many they are is told by the
//! lengths of posting lists, or by the set of their places. Of a query with filters the rows are found, and their spans are counted. For any other query it is one segment
//! after another: where the rows would be found by an automaton and have few shapes, they are counted by these, and none is listed; else they are found and their spans
//! are counted.
#![tactic(auto)]

mod alone;
mod counts;
mod segments;
mod shaped;
mod spans;
mod tallies;
mod totals;
mod whole;

pub use totals::span_total;
