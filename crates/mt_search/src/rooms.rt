//! How many rows the head and the operands of a query may have.

ghost use Rattle.std.specs.Prelude.{◌≡◌, ◌++◌, length, replicate, IfOk, OnOk};
ghost use Rattle.mt_cql.specs.Shape.{filters_shape};
ghost use Rattle.mt_match_spec.specs.Kept.{operand_rows_limit};
ghost use Rattle.mt_eval_spec.specs.RowsIn.{heads, operands};

use mt_base::{List, NoMemory};
use mt_cql::{Filters, Query};
use std::alloc::Global;

/// The most rows of a head or of an operand in a corpus.
const OPERAND_ROWS_LIMIT: u32 = 4_194_304;

/// The room of the head, and then one for each operand, from left to right.
pub(crate) fn whole_rooms(alloc: Global, query: &Query) -> Result<List<u32>, NoMemory>
    ensures { IfOk result (λ rooms. rooms ≡ replicate (length (heads query.now)) operand_rows_limit) }
{
    let mut rooms = List::new(alloc);
    rooms.push(OPERAND_ROWS_LIMIT)?;
    add_rooms(&mut rooms, query.filters())?;
    Ok(rooms)
}

/// Adds the rooms of the operands of filters.
fn add_rooms(rooms: &mut List<u32>, filters: &Filters) -> Result<(), NoMemory>
    ensures { OnOk result (rooms.new ≡ rooms.old ++ replicate (length (operands (filters_shape filters.now))) operand_rows_limit) }
{
    match filters {
        Filters::End => Ok(()),
        Filters::More(filter, others) => {
            rooms.push(OPERAND_ROWS_LIMIT)?;
            add_rooms(rooms, &filter.filters)?;
            add_rooms(rooms, others)
        }
    }
}
