//! There is a list of the rows of each expression over any texts, of what each query keeps and of its spans, and one only.

ghost use Rattle.mt_match_laws.specs.Laws.{HaveKept, HaveRows, HaveSpans, KeptAreOne, ListsAreOne, RowsAreOne, SpansAreOne};

/// There is a list of all rows of an expression.
pub fn have_rows()
    ensures { HaveRows }
{}

/// There is a list of all rows that a query keeps.
pub fn have_kept()
    ensures { HaveKept }
{}

/// There is a list of all spans of a query.
pub fn have_spans()
    ensures { HaveSpans }
{}

/// Two ascending lists of the same rows are equal.
pub fn lists_are_one()
    ensures { ListsAreOne }
{}

/// Two lists of the rows of an expression are equal.
pub fn rows_are_one()
    ensures { RowsAreOne }
{}

/// Two lists of what a query keeps are equal.
pub fn kept_are_one()
    ensures { KeptAreOne }
{}

/// Two lists of the spans of a query are equal.
pub fn spans_are_one()
    ensures { SpansAreOne }
{}
