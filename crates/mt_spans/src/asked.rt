//! What is asked of a segment, beside the query: texts and rooms.

ghost use Rattle.std.specs.Prelude.{◌≡◌, ◌+◌, length, IfOk, OnOk};
ghost use Rattle.mt_cql.specs.Shape.{filters_shape};
ghost use Rattle.mt_eval_spec.specs.RowsIn.{heads, operands};
ghost use Rattle.mt_eval.specs.Runs.{AreTexts};

use mt_base::{List, NoMemory};
use mt_cql::{Filters, Query};
use mt_segment::Segment;
use std::alloc::Global;

/// The numbers that a text names, between commas. What is no number is left out.
pub fn numbers(alloc: Global, text: &str) -> Result<List<u32>, NoMemory> {
    let mut numbers = List::new(alloc);
    for word in text.split(',') {
        if let Ok(number) = word.parse::<u32>() {
            numbers.push(number)?;
        }
    }
    Ok(numbers)
}

/// The texts of the segment that have one of these numbers.
pub fn texts_of(alloc: Global, segment: &Segment, numbers: &[u32]) -> Result<List<u32>, NoMemory>
    ensures { IfOk result (λ texts. AreTexts segment.now texts) }
{
    let mut texts = List::new(alloc);
    for text in 0..segment.texts() {
        if numbers.contains(&text) {
            texts.push(text)?;
        }
    }
    Ok(texts)
}

/// The rooms of the expressions of a query, by those that are given.
pub fn rooms_of(alloc: Global, query: &Query, given: &[u32]) -> Result<List<u32>, NoMemory>
    ensures { IfOk result (λ rooms. length rooms ≡ length (heads query.now)) }
{
    let mut rooms = List::new(alloc);
    rooms.push(room_of(0, given))?;
    add_rooms(&mut rooms, query.filters(), given)?;
    Ok(rooms)
}

/// Adds the rooms of the operands of filters.
fn add_rooms(rooms: &mut List<u32>, filters: &Filters, given: &[u32]) -> Result<(), NoMemory>
    ensures { OnOk result (length rooms.new ≡ length rooms.old + length (operands (filters_shape filters.now))) }
{
    match filters {
        Filters::End => Ok(()),
        Filters::More(filter, others) => {
            rooms.push(room_of(rooms.len(), given))?;
            add_rooms(rooms, &filter.filters, given)?;
            add_rooms(rooms, others, given)
        }
    }
}

/// The room of the expression with this number.
fn room_of(number: usize, given: &[u32]) -> u32 {
    match given.get(number) {
        None => 99,
        Some(room) => *room,
    }
}
