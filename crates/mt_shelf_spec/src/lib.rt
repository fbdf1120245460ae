//! What a folder holds, as a map from names to files: definitions alone, which the contracts of other crates cite.
#![tactic(auto)]
