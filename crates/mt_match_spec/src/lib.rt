//! What a query matches in texts, which rows and spans it has there, and which of them it keeps: definitions alone, which the contracts of
//! other crates cite.
#![tactic(auto)]
