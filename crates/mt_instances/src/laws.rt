//! Laws of the counts of a text.

ghost use Rattle.mt_instances.specs.Laws.{LinesGoOn, NoneAreGiven, TextIsCounted};

use mt_triples::{instances_are_counted, sums_are_counts};

/// Before the first line of a grammar there are no instances.
pub fn none_are_given()
    ensures { NoneAreGiven }
{}

/// With the rows of one line more, the instances are those of one line more.
pub fn lines_go_on()
    ensures { LinesGoOn }
{}

/// Where the instances of all lines are given, and each is counted once more, the text is counted.
pub fn text_is_counted()
    ensures { TextIsCounted }
{
    instances_are_counted();
    sums_are_counts();
}
