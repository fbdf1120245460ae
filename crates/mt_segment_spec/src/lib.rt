//! What a segment is: the tables of a run of texts. Definitions alone, which the contracts of other crates cite.
#![tactic(auto)]
