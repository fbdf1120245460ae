//! Definitions: what a sketch grammar asks of texts: its queries with their patterns, and where one has too many rows.
#![tactic(auto)]
