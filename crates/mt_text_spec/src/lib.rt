//! What a registry, a text and a query are and what lines are: definitions alone, which the contracts of other crates cite.
#![tactic(auto)]
