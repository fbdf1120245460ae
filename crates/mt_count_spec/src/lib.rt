//! Which instances a sketch grammar has in a text, and how many over texts: definitions alone, which the contracts of other crates cite.
#![tactic(auto)]
