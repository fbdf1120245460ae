//! Counts by the numbers of a segment's values, joined into a tally by the values.

ghost use Rattle.std.specs.Prelude.{◌≡◌, ℕ, ◌+◌, ◌^◌, ◌<◌, List as Items, length, slice_get, Some, OnOk};
ghost use Rattle.mt_frequencies.specs.Amounts.{IsRaised, amount_of, raised};
ghost use Rattle.mt_frequencies.specs.Tallies.{counts_in};

use super::tally::Tally;
use mt_base::NoMemory;
use mt_lexicon::Lexicon;
use std::alloc::Global;

/// Adds so many spans for the value with this number in a lexicon.
fn put_count(
    alloc: Global,
    lexicon: &Lexicon,
    number: u32,
    more: u32,
    tally: &mut Tally,
) -> Result<(), NoMemory>
    requires number { number < length lexicon.now }
    requires few { (value : Items ℕ) → slice_get lexicon.now number ≡ Some value → (counts_in tally.old value).last + more < 2 ^ 32 }
    ensures { OnOk result ((value : Items ℕ) → slice_get lexicon.now number ≡ Some value → IsRaised (counts_in tally.old) value more (counts_in tally.new)) }
{
    if more == 0 {
        return Ok(());
    }
    let place = tally.add(alloc, lexicon.value(number))?;
    tally.raise(place, more);
    Ok(())
}

/// Adds spans for the values of a lexicon: for each number so many as its count says.
pub(crate) fn put_counts(
    alloc: Global,
    lexicon: &Lexicon,
    counts: &[u32],
    tally: &mut Tally,
) -> Result<(), NoMemory>
    requires count { length counts.now ≡ length lexicon.now }
    requires few { (value : Items ℕ) → (counts_in tally.old value).last + amount_of lexicon.now counts.now value < 2 ^ 32 }
    ensures { OnOk result ((value : Items ℕ) → counts_in tally.new value ≡ raised (amount_of lexicon.now counts.now value) (counts_in tally.old value)) }
{
    for number in 0..lexicon.len() {
        put_count(alloc, lexicon, number, counts[number as usize], tally)?;
    }
    Ok(())
}
