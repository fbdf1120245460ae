//! How a text is read from its vertical and a registry from its file: definitions alone, which the contracts of other crates cite.
#![tactic(auto)]
