//! Definitions of what a query finds in a segment: what the tables tell of the texts (`Told`), which rows it has and keeps in some of the texts
//! (`RowsIn`), and the patterns that it asks for, in their order (`Asked`).
#![tactic(auto)]
