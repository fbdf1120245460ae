//! Definitions: the lines of a concordance, and the texts of frequencies and collocations.
#![tactic(auto)]
