//! Laws of the rows of queries over texts: each function's contract is a law, and the functions do nothing.
#![tactic(auto)]

ghost use Rattle.mt_corpus_laws.specs.Joined.{GroupsAreTold, KeptAreJoined, OverIsSome, RowsAreJoined, RowsGoOn};
ghost use Rattle.mt_corpus_laws.specs.Laws.{KeptAreLocal, RowsAreLocal};

use mt_decode_laws::{live_texts_are_numbered, texts_are_decoded};
use mt_eval_laws::{kept_are_told, no_more_than_all, rows_are_told};

/// A row of an expression in one text is one in the same text of other texts.
pub fn rows_are_local()
    ensures { RowsAreLocal }
{}

/// A row that a query keeps in one text is one that it keeps in the same text of other texts: what stands in the texts beside it does not matter.
pub fn kept_are_local()
    ensures { KeptAreLocal }
{}

/// Behind the rows of an expression in some texts stand those that the tables of a segment tell, where the live texts of the segment stand behind these texts.
pub fn rows_are_joined()
    ensures { RowsAreJoined }
{
    rows_are_told();
    live_texts_are_numbered();
}

/// Behind the rows that a query keeps in some texts stand those that it keeps by the tables of a segment, where the live texts of the segment stand behind these texts.
pub fn kept_are_joined()
    ensures { KeptAreJoined }
{
    kept_are_told();
    live_texts_are_numbered();
}

/// More texts take no row of an expression away.
pub fn rows_go_on()
    ensures { RowsGoOn }
{
    no_more_than_all();
}

/// A query has too many rows where one of its head and its operands has.
pub fn over_is_some()
    ensures { OverIsSome }
{}

/// The tables of a group of valid texts tell of these texts.
pub fn groups_are_told()
    ensures { GroupsAreTold }
{
    texts_are_decoded();
}
