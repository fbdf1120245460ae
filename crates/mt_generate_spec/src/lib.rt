//! What a generated text and the script of a demo are: definitions that the contracts of the crates above cite. This crate has no code.
#![tactic(auto)]
