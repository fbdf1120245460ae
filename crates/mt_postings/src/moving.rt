//! Positions that are moved into another list.

ghost use Rattle.std.specs.Prelude.{◌≡◌, ℕ, ◌<◌, IfOk};
ghost use Rattle.std.specs.List.{All};
ghost use Rattle.mt_store_spec.specs.Positions.{moved};

use super::postings::Postings;
use mt_base::{NoMemory, Steps};
use std::alloc::Global;
use std::marker::Brand;
use std::sync::ledger::{Blank, Ledger};

/// The positions of a part from one on and before another, moved so that the first of this range becomes `place`.
pub(crate) fn moved_positions(
    alloc: Global,
    part: &Postings,
    from: u32,
    to: u32,
    place: u32,
) -> Result<Vec<u32>, NoMemory>
    requires { All (λ p. p < 4294967295) (moved from to place part.now) }
    ensures { IfOk result (λ all. all.items ≡ moved from to place part.now) }
{
    moved_by::<Brand>(alloc, part, from, to, place, Blank::new(1))
}

/// The same, with a ledger for the steps, which nobody counts.
fn moved_by<L: Ledger>(
    alloc: Global,
    part: &Postings,
    from: u32,
    to: u32,
    place: u32,
    blank: Blank,
) -> Result<Vec<u32>, NoMemory>
    requires name { blank.name ≡ L.name }
    requires parts { blank.parts ≡ L.parts }
    requires some { 0 < L.parts }
    requires range { All (λ p. p < 4294967295) (moved from to place part.now) }
    ensures { IfOk result (λ all. all.items ≡ moved from to place part.now) }
{
    let mut steps = Steps::<L>::new(blank);
    let mut all = Vec::new(alloc);
    let mut cursor = part.cursor();
    let mut next = cursor.seek(from, &mut steps);
    while let Some(position) = next {
        if position >= to {
            break;
        }
        all.push(position - from + place)?;
        next = cursor.next(&mut steps);
    }
    Ok(all)
}
