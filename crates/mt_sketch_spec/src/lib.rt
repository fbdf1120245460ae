//! What the counts of a word sketch mean: definitions that the contracts of the crates above cite. This crate has no code.
#![tactic(auto)]
