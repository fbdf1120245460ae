//! What a row of a relation's query gives.

/// What a row of a query gives of its relation, where label 1 is at a place p and label 2 at a place q.
#[derive(Clone, Copy, Debug, PartialEq, Eq, Drop)]
pub enum RelationKind {
    /// The name at p and q.
    Plain,
    /// The name at p and q, and the second name at q and p.
    Dual,
    /// The name at p and q, and at q and p.
    Symmetric,
    /// The name at p and q, where the value at label 3 stands in place of the first `%s` of the name.
    Trinary,
    /// The name at p alone.
    Unary,
}
