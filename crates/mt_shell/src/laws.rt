//! Laws of runs.

ghost use Rattle.mt_shell.specs.Ends.{EndsAreAnswers};

use mt_session_laws::{items_are_said, replies_are_answers};

/// A run that is done, in which no call of the shelf failed and no reply wanted memory, has written the one answer of its script: this function proves it, and
/// does nothing.
pub fn ends_are_answers()
    ensures { EndsAreAnswers }
{
    items_are_said();
    replies_are_answers();
}
