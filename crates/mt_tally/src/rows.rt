//! How many rows a table tells of.

ghost use Rattle.std.specs.Prelude.{ℕ, ◌<◌, ◌≤◌, ◌+◌, length, IfOk, IsErrOf};
ghost use Rattle.mt_shapes.specs.Tables.{Fine, IsRowOf};
ghost use Rattle.mt_rows.specs.declared.error.EvalError.TheVariants.{TooManyRows as TooMany};
ghost use Rattle.mt_tally.specs.Counts.{HasCount, HasMore};
ghost use Rattle.mt_tally.specs.Tallies.{IsRowOfEntry};

use super::sets::place_count;
use mt_rows::EvalError;
use mt_shapes::Entry;

/// How many rows the matches of an entry have: none, where they have no token.
fn entry_count(entry: &Entry) -> usize
    requires { length entry.now.begins ≤ 67108864 }
    ensures { (text : ℕ) → HasCount (IsRowOfEntry entry.now text) result }
{
    if entry.shape.length == 0 {
        return 0;
    }
    place_count(&entry.begins)
}

/// How many rows a table tells of in a text, where there is room for so many. It takes no memory.
pub(crate) fn row_count(entries: &[Entry], last: u32, room: u32) -> Result<usize, EvalError>
    requires few { last < 4294967295 }
    requires fine { Fine last entries.now }
    ensures rows { (text : ℕ) → IfOk result (HasCount (IsRowOf entries.now text)) }
    ensures within { IfOk result (λ count. count ≤ room) }
    ensures more { (text : ℕ) → IsErrOf result TooMany → HasMore (IsRowOf entries.now text) room }
{
    let mut count = 0;
    for entry in entries {
        let more = entry_count(entry);
        if more > room as usize - count {
            return Err(EvalError::TooManyRows);
        }
        count += more;
    }
    Ok(count)
}
