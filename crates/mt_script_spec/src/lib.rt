//! What a script holds, and the forms of its commands: definitions alone, which the contracts of other crates cite.
#![tactic(auto)]
