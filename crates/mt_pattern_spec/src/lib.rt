//! Which texts are patterns, and which values a pattern accepts: definitions alone, which the contracts of other crates cite.
#![tactic(auto)]
