//! How a sketch grammar is read from the lines of its file: definitions alone, which the contracts of other crates cite.
#![tactic(auto)]
