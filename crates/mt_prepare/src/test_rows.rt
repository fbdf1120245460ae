//! Rows of tests: the places of a segment of which a test holds, as sets.

ghost use Rattle.std.specs.Prelude.{◌≡◌, ℕ, ◌+◌, ◌*◌, ◌/◌, ◌<◌, ◌≤◌, ◌⊎◌, true, length, slice_get, slice_index, Some, None, IfOk, OnOk};
ghost use Rattle.std.specs.List.{All, Contains};
ghost use Rattle.mt_places.specs.Places.{In, HasJust, room};
ghost use Rattle.mt_match_spec.specs.Tests.{Unless};
ghost use Rattle.mt_segment_spec.specs.Tables.{number_at, tables_at, token_count};
ghost use Rattle.mt_prepare.specs.TestRows.{IsRow, SaysAt, HasAttrs, NumberIsIn, AreNumbers, AreSought};
ghost use Rattle.mt_prepare.specs.KnownRows.{AreKnownIn};

use crate::column_rows::{fill, row_width};
use crate::known_rows::KnownRows;
use crate::resolved::Resolved;
use mt_automaton::Pool;
use mt_base::{NoMemory, Steps};
use mt_pattern::IdSet;
use mt_places::{Below, Places};
use mt_postings::Postings;
use mt_segment::{MappedTable, Segment};
use mt_segment_laws::{numbers_stand_for_values, tables_are_whole};
use std::alloc::Global;
use std::sync::ledger::Ledger;

/// The places of a segment of which a test holds. What is read of a column or of a posting list is a step each; a row of values that is known is not found again.
pub fn row_of<L: Ledger>(
    pool: &mut Pool,
    known: &mut KnownRows,
    test: &Resolved,
    segment: &Segment,
    steps: &mut Steps<L>,
) -> Result<Places, NoMemory>
    requires attrs { HasAttrs segment.now test.now }
    requires known { AreKnownIn segment.now known.old }
    ensures known { AreKnownIn segment.now known.new }
    ensures row { IfOk result (IsRow (token_count segment.now) (SaysAt segment.now test.now)) }
    ensures rises { steps.old ≤ steps.new }
{
    match test {
        Resolved::Any => whole_row(pool, segment.tokens()),
        Resolved::One { attr, id, not } => {
            let row = one_row(pool, known, segment, *attr, *id, steps)?;
            unless(pool, *not, row, segment.tokens())
        }
        Resolved::Some { attr, ids, not } => {
            let row = some_row(pool, known, segment, *attr, ids, steps)?;
            unless(pool, *not, row, segment.tokens())
        }
        Resolved::Not(inner) => {
            let row = row_of(pool, known, inner, segment, steps)?;
            complement(pool, row, segment.tokens())
        }
        Resolved::Both(left, right) => {
            let mut row = row_of(pool, known, left, segment, steps)?;
            let other = row_of(pool, known, right, segment, steps)?;
            row.keep(&other);
            pool.give(other);
            Ok(row)
        }
        Resolved::Either(left, right) => {
            let mut row = row_of(pool, known, left, segment, steps)?;
            let other = row_of(pool, known, right, segment, steps)?;
            row.add(&other);
            pool.give(other);
            Ok(row)
        }
    }
}

/// The row of all tokens.
fn whole_row(pool: &mut Pool, tokens: u32) -> Result<Places, NoMemory>
    ensures { IfOk result (IsRow tokens (λ place. Unit {0})) }
{
    let mut row = pool.none(row_width(tokens))?;
    row.put(&Below { end: tokens });
    Ok(row)
}

/// The row of the tokens that are not in this one.
fn complement(pool: &mut Pool, row: Places, tokens: u32) -> Result<Places, NoMemory>
    ensures { IfOk result (IsRow tokens (λ place. ¬ In row place)) }
{
    let mut other = whole_row(pool, tokens)?;
    other.remove(&row);
    pool.give(row);
    Ok(other)
}

/// The row, or, where it is negated, that of the other tokens.
fn unless(pool: &mut Pool, not: bool, row: Places, tokens: u32) -> Result<Places, NoMemory>
    requires width { length row ≡ tokens / 64 + 1 }
    requires below { (place : ℕ) → In row place → place < tokens }
    ensures { IfOk result (IsRow tokens (λ place. Unless not (In row place))) }
{
    if not {
        complement(pool, row, tokens)
    } else {
        Ok(row)
    }
}

/// The row of one value's places, by a set that has its number, or none where there is no such value.
fn one_row<L: Ledger>(
    pool: &mut Pool,
    known: &mut KnownRows,
    segment: &Segment,
    attr: u16,
    id: Option<u32>,
    steps: &mut Steps<L>,
) -> Result<Places, NoMemory>
    requires attr { attr < length segment.now.attrs }
    requires known { AreKnownIn segment.now known.old }
    ensures known { AreKnownIn segment.now known.new }
    ensures row { IfOk result (IsRow (token_count segment.now) (λ place. id ≡ Some (number_at segment.now attr place))) }
    ensures rises { steps.old ≤ steps.new }
{
    tables_are_whole();
    let _tokens = segment.tokens();
    let count = segment.lexicon(attr).len();
    let mut numbers = pool.none(row_width(count))?;
    mark_one(&mut numbers, id, count);
    let row = numbers_row(pool, known, segment, attr, &numbers, steps)?;
    pool.give(numbers);
    Ok(row)
}

/// The row of the places of values whose numbers are in a set.
fn some_row<L: Ledger>(
    pool: &mut Pool,
    known: &mut KnownRows,
    segment: &Segment,
    attr: u16,
    ids: &IdSet,
    steps: &mut Steps<L>,
) -> Result<Places, NoMemory>
    requires attr { attr < length segment.now.attrs }
    requires known { AreKnownIn segment.now known.old }
    ensures known { AreKnownIn segment.now known.new }
    ensures row { IfOk result (IsRow (token_count segment.now) (λ place. slice_get ids.now (number_at segment.now attr place) ≡ Some true)) }
    ensures rises { steps.old ≤ steps.new }
{
    tables_are_whole();
    let _tokens = segment.tokens();
    let count = segment.lexicon(attr).len();
    let mut numbers = pool.none(row_width(count))?;
    mark_some(&mut numbers, ids, count);
    let row = numbers_row(pool, known, segment, attr, &numbers, steps)?;
    pool.give(numbers);
    Ok(row)
}

/// Puts a number into an empty set, where it is there and below the count.
fn mark_one(numbers: &mut Places, id: Option<u32>, count: u32)
    requires room { count ≤ room numbers.old }
    requires none { (number : ℕ) → ¬ In numbers.old number }
    ensures width { length numbers.new ≡ length numbers.old }
    ensures numbers { HasJust (λ number. (number < count) × (id ≡ Some number)) numbers.new }
{
    if let Some(id) = id {
        if id < count {
            numbers.insert(id);
        }
    }
}

/// Puts the numbers of a set that are below the count into an empty one.
fn mark_some(numbers: &mut Places, ids: &IdSet, count: u32)
    requires room { count ≤ room numbers.old }
    requires none { (number : ℕ) → ¬ In numbers.old number }
    ensures width { length numbers.new ≡ length numbers.old }
    ensures numbers { HasJust (λ number. (number < count) × (slice_get ids.now number ≡ Some true)) numbers.new }
{
    for id in 0..count {
        if ids.has(id) {
            numbers.insert(id);
        }
    }
}

/// The row of the places where the number of an attribute's value is in a set. Where it was found before it is copied.
fn numbers_row<L: Ledger>(
    pool: &mut Pool,
    known: &mut KnownRows,
    segment: &Segment,
    attr: u16,
    numbers: &Places,
    steps: &mut Steps<L>,
) -> Result<Places, NoMemory>
    requires attr { attr < length segment.now.attrs }
    requires numbers { AreNumbers segment.now attr numbers.now }
    requires known { AreKnownIn segment.now known.old }
    ensures known { AreKnownIn segment.now known.new }
    ensures row { IfOk result (IsRow (token_count segment.now) (NumberIsIn segment.now attr numbers.now)) }
    ensures rises { steps.old ≤ steps.new }
{
    match known.find(attr, numbers) {
        Some(row) => pool.copy(row),
        None => {
            let row = new_row(pool, known.alloc, segment, attr, numbers, steps)?;
            known.keep(pool, attr, numbers, &row);
            Ok(row)
        }
    }
}

/// The row of the places where the number of an attribute's value is in a set, from the tables of the segment.
fn new_row<L: Ledger>(
    pool: &mut Pool,
    alloc: Global,
    segment: &Segment,
    attr: u16,
    numbers: &Places,
    steps: &mut Steps<L>,
) -> Result<Places, NoMemory>
    requires attr { attr < length segment.now.attrs }
    requires numbers { AreNumbers segment.now attr numbers.now }
    ensures row { IfOk result (IsRow (token_count segment.now) (NumberIsIn segment.now attr numbers.now)) }
    ensures rises { steps.old ≤ steps.new }
{
    let mut row = pool.none(row_width(segment.tokens()))?;
    if are_rare(segment, attr, numbers) {
        add_lists(&mut row, segment, attr, numbers, steps);
    } else {
        pass(alloc, &mut row, segment, attr, numbers, steps)?;
    }
    Ok(row)
}

/// Whether the posting lists of these values are so short that to read them is faster than a pass over the column. A place of a list costs some 5 ns, a token of the
/// column an eighth of that, and what memory a pass takes as much as some 20 places.
fn are_rare(segment: &Segment, attr: u16, numbers: &Places) -> bool
    requires attr { attr < length segment.now.attrs }
    requires numbers { AreNumbers segment.now attr numbers.now }
{
    let _count = segment.lexicon(attr).len();
    let mut left = segment.tokens() / 8 + 20;
    let mut next = 0;
    while let Some(number) = numbers.first_from(next) {
        let len = segment.postings(attr, number).len();
        if len > left {
            return false;
        }
        left -= len;
        next = number + 1;
    }
    true
}

/// Adds the places of these values to an empty row, from their posting lists.
fn add_lists<L: Ledger>(
    row: &mut Places,
    segment: &Segment,
    attr: u16,
    numbers: &Places,
    steps: &mut Steps<L>,
)
    requires attr { attr < length segment.now.attrs }
    requires numbers { AreNumbers segment.now attr numbers.now }
    requires width { length row.old ≡ token_count segment.now / 64 + 1 }
    requires none { (place : ℕ) → ¬ In row.old place }
    ensures row { IsRow (token_count segment.now) (NumberIsIn segment.now attr numbers.now) row.new }
    ensures rises { steps.old ≤ steps.new }
{
    numbers_stand_for_values();
    tables_are_whole();
    let _tokens = segment.tokens();
    let _count = segment.lexicon(attr).len();
    let mut next = 0;
    while let Some(number) = numbers.first_from(next) {
        add_list(row, segment.postings(attr, number), steps);
        next = number + 1;
    }
}

/// Adds the places of a posting list.
fn add_list<L: Ledger>(row: &mut Places, list: &Postings, steps: &mut Steps<L>)
    requires { All (λ place. place < room row.old) list.now }
    ensures width { length row.new ≡ length row.old }
    ensures places { HasJust (λ place. In row.old place ⊎ Contains list.now place) row.new }
    ensures rises { steps.old ≤ steps.new }
{
    let mut left = list.cursor();
    while let Some(place) = left.next(steps) {
        row.insert(place);
    }
}

/// Fills an empty row by a pass over the column of the attribute, or of its base.
fn pass<L: Ledger>(
    alloc: Global,
    row: &mut Places,
    segment: &Segment,
    attr: u16,
    numbers: &Places,
    steps: &mut Steps<L>,
) -> Result<(), NoMemory>
    requires attr { attr < length segment.now.attrs }
    requires width { length row.old ≡ token_count segment.now / 64 + 1 }
    requires none { (place : ℕ) → ¬ In row.old place }
    ensures row { OnOk result (IsRow (token_count segment.now) (NumberIsIn segment.now attr numbers.now) row.new) }
    ensures rises { steps.old ≤ steps.new }
{
    match segment.base(attr) {
        None => pass_base(alloc, row, segment, attr, numbers, steps),
        Some(base) => pass_mapped(alloc, row, segment, attr, base, numbers, steps),
    }
}

/// Fills a row by a pass over the column of a base attribute.
fn pass_base<L: Ledger>(
    alloc: Global,
    row: &mut Places,
    segment: &Segment,
    attr: u16,
    numbers: &Places,
    steps: &mut Steps<L>,
) -> Result<(), NoMemory>
    requires attr { attr < length segment.now.attrs }
    requires base { (tables_at segment.now.attrs attr).base ≡ None }
    requires width { length row.old ≡ token_count segment.now / 64 + 1 }
    ensures row { OnOk result (IsRow (token_count segment.now) (NumberIsIn segment.now attr numbers.now) row.new) }
    ensures rises { steps.old ≤ steps.new }
{
    tables_are_whole();
    let tokens = segment.tokens();
    let count = segment.lexicon(attr).len();
    let sought = sought_numbers(alloc, numbers, count)?;
    fill(alloc, row, segment.column(attr), &sought, tokens, steps)
}

/// Fills a row by a pass over the column of the base of a mapped attribute.
fn pass_mapped<L: Ledger>(
    alloc: Global,
    row: &mut Places,
    segment: &Segment,
    attr: u16,
    base: u16,
    numbers: &Places,
    steps: &mut Steps<L>,
) -> Result<(), NoMemory>
    requires attr { attr < length segment.now.attrs }
    requires mapped { (tables_at segment.now.attrs attr).base ≡ Some base }
    requires width { length row.old ≡ token_count segment.now / 64 + 1 }
    ensures row { OnOk result (IsRow (token_count segment.now) (NumberIsIn segment.now attr numbers.now) row.new) }
    ensures rises { steps.old ≤ steps.new }
{
    tables_are_whole();
    let tokens = segment.tokens();
    let count = segment.lexicon(base).len();
    let sought = sought_bases(alloc, segment.table(attr), numbers, count)?;
    fill(alloc, row, segment.column(base), &sought, tokens, steps)
}

/// Which numbers below the count are in a set.
fn sought_numbers(alloc: Global, numbers: &Places, count: u32) -> Result<Vec<bool>, NoMemory>
    ensures { IfOk result (λ sought. AreSought (In numbers.now) count sought.items) }
{
    let mut sought = vec![in alloc; false; count as usize]?;
    for number in 0..count {
        sought[number as usize] = numbers.contains(number);
    }
    Ok(sought)
}

/// Of which base values, by their numbers, the image has a number of a set.
fn sought_bases(
    alloc: Global,
    table: &MappedTable,
    numbers: &Places,
    count: u32,
) -> Result<Vec<bool>, NoMemory>
    requires { count ≡ length table.now }
    ensures { IfOk result (λ sought. AreSought (λ base. In numbers.now (slice_index table.now base)) count sought.items) }
{
    let mut sought = vec![in alloc; false; count as usize]?;
    for base in 0..count {
        sought[base as usize] = numbers.contains(table.get(base));
    }
    Ok(sought)
}
