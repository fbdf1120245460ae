//! Definitions: the texts that are held, in groups, and which of them are live.
#![tactic(auto)]
