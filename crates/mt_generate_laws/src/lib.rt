//! Laws of generated texts. Each is the contract of a function that does nothing.
#![tactic(auto)]

pub mod laws;
