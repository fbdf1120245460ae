//! What the tables of a segment hold and how they are written: definitions alone, which the contracts of other crates cite.
#![tactic(auto)]
