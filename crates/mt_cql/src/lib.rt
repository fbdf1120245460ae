//! The query language. `parse` reads a query from its text, or refuses the text with a cause and a place; `print` writes the text that is read as a query.
//!
//! A text is read token by token (`lexer`), and each token takes the `State` that the reading is in to the next (`reader`, `tag_reader`, `test_reader`,
//! `choice_reader`, `cond_reader`), until no query goes on so or the text ends (`ending`). What is read is kept as parts of the query, each with what is at
//! fault in it (`parts`, `conds`).
#![tactic(auto)]

mod choice_reader;
mod cond_reader;
mod conds;
mod copies;
mod each_step;
mod ending;
mod join_reader;
mod laws;
mod lexer;
mod names;
mod parts;
mod printer;
mod query;
mod reader;
mod same;
mod stack;
mod state;
mod tag_reader;
mod tests;
mod text;
mod text_reader;
mod token;

pub use laws::print_then_parse;
pub use printer::print;
pub use query::{Cause, Cond, Expr, Filter, FilterKind, Filters, Query, QueryError, Test};
pub use text_reader::parse;

fn shared<T: Send + Sync>() {}

/// That threads may share queries is proved by this function.
pub fn are_shared() {
    shared::<Query>();
    shared::<QueryError>();
}
