//! Definitions: word sketches and the thesaurus, as whole replies, and the order by exact fractions that both list words in.
#![tactic(auto)]
