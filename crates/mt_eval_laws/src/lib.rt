//! Laws of what the tables of a segment tell a query: each function's contract is a law, and the functions do nothing.
#![tactic(auto)]

ghost use Rattle.mt_eval_laws.specs.Laws.{HaveRowsIn, KeptAreTold, LabelsAreInside, NoMoreThanAll, PlacesAreListed, RowsAreTold};

use mt_match_laws::have_rows;
use mt_segment_laws::{instances_lie_in_texts, numbers_stand_for_values, tokens_stand_in_texts};

/// The rows that tables tell of an expression are its rows in the texts.
pub fn rows_are_told()
    ensures { RowsAreTold }
{
    tokens_stand_in_texts();
    numbers_stand_for_values();
    instances_lie_in_texts();
}

/// The rows that a query keeps by what tables tell are those that it keeps in the texts.
pub fn kept_are_told()
    ensures { KeptAreTold }
{
    tokens_stand_in_texts();
    numbers_stand_for_values();
    instances_lie_in_texts();
}

/// There is a list of all rows of an expression in some texts of a segment.
pub fn have_rows_in()
    ensures { HaveRowsIn }
{
    have_rows();
    rows_are_told();
}

/// The labels of a row stand at tokens of its text.
pub fn labels_are_inside()
    ensures { LabelsAreInside }
{}

/// Ascending rows that stand in an ascending list are no more than its rows.
pub fn no_more_than_all()
    ensures { NoMoreThanAll }
{}

/// The posting list of a value has just the places of the segment where its number stands.
pub fn places_are_listed()
    ensures { PlacesAreListed }
{
    numbers_stand_for_values();
}
