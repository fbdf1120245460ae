//! Queries made ready for segments: their patterns, each built once, tests of tokens by the numbers of values, and tags as lists of spans.
#![tactic(auto)]

mod column_rows;
mod judges;
mod known_pattern;
mod known_rows;
mod known_spans;
mod patterns;
mod prepared;
mod ready_exprs;
mod resolved;
mod shared_spans;
mod sighted;
mod spare;
mod tag_rows;
mod tags;
mod test_rows;
mod tests_resolved;
mod view;

pub use known_rows::KnownRows;
pub use known_spans::KnownSpans;
pub use patterns::{PatternError, Patterns, check};
pub use prepared::{Prepared, PreparedExpr, prepare};
pub use resolved::Resolved;
pub use shared_spans::SharedSpans;
pub use sighted::Sighted;
pub use tag_rows::TagRows;
pub use test_rows::row_of;
pub use view::{TextView, views_are_seen};

fn shared<T: Send + Sync>() {}

/// That threads may share queries that are made ready is proved by this function.
pub fn are_shared() {
    shared::<Resolved>();
    shared::<Prepared>();
}
