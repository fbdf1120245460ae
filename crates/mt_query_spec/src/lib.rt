//! The query language: its tokens, its productions, what a text is refused for, how a query is written, and how great it is: definitions
//! alone, which the contracts of other crates cite.
#![tactic(auto)]
