//! How the positions of a list are kept: a few in place, up to 128 as numbers, and more as their code.

ghost use Rattle.std.specs.Prelude.{◌≡◌, ℕ, ◌+◌, ◌<◌, ◌≤◌, List as Items, ◌++◌, length, IfOk, OnOk, OnErr};
ghost use Rattle.mt_store_spec.specs.Positions.{ArePositions};
ghost use Rattle.mt_postings.specs.Forms.{positions_kept, positions_lent, IsFitting, IsShort};

use super::coded::Coded;
use mt_base::NoMemory;
use std::alloc::Global;

/// So many positions are kept in place.
const FEW: usize = 3;

/// So many are kept in one block.
const SOME: usize = 6;

/// So many are kept as numbers.
const SHORT: usize = 128;

/// The positions of a list, in the form that goes by how many they are. Most lists of a lexicon are short ones: up to three positions
/// take no block of their own, up to six one of the smallest size, and no form takes more than three in place do.
#[derive(Debug, Drop)]
pub(crate) enum Kept {
    Zero,
    One([u32; 1]),
    Two([u32; 2]),
    Three([u32; 3]),
    Four(Box<[u32; 4]>),
    Five(Box<[u32; 5]>),
    Six(Box<[u32; 6]>),
    Numbers(Box<Vec<u32>>),
    Code(Box<Coded>),
}

impl Kept {
    /// Up to three positions, kept in place.
    #[inline(always)]
    fn in_place(positions: &[u32]) -> Self
        requires { length positions.now ≤ 3 }
        ensures all { positions_kept result ≡ positions.now }
        ensures fitting { IsFitting result }
    {
        match positions.len() {
            0 => Kept::Zero,
            1 => Kept::One([positions[0]]),
            2 => Kept::Two([positions[0], positions[1]]),
            _ => Kept::Three([positions[0], positions[1], positions[2]]),
        }
    }

    /// Four to six positions, kept in one block.
    fn in_block(alloc: Global, positions: &[u32]) -> Result<Self, NoMemory>
        requires more { 3 < length positions.now }
        requires some { length positions.now ≤ 6 }
        ensures all { IfOk result (λ kept. positions_kept kept ≡ positions.now) }
        ensures fitting { IfOk result (λ kept. IsFitting kept) }
    {
        let [a, b, c, d] = [positions[0], positions[1], positions[2], positions[3]];
        match positions.len() {
            4 => Ok(Kept::Four(Box::new(alloc, [a, b, c, d])?)),
            5 => Ok(Kept::Five(Box::new(alloc, [a, b, c, d, positions[4]])?)),
            _ => Ok(Kept::Six(Box::new(alloc, [a, b, c, d, positions[4], positions[5]])?)),
        }
    }

    /// The positions as they are kept.
    pub(crate) fn lent(&self) -> Lent<'_>
        requires { IsFitting self.now }
        ensures all { positions_lent result ≡ positions_kept self.now }
        ensures short { IsShort result }
    {
        match self {
            Kept::Zero => Lent::Numbers(&[]),
            Kept::One(positions) => Lent::Numbers(positions),
            Kept::Two(positions) => Lent::Numbers(positions),
            Kept::Three(positions) => Lent::Numbers(positions),
            Kept::Four(positions) => Lent::Numbers(&**positions),
            Kept::Five(positions) => Lent::Numbers(&**positions),
            Kept::Six(positions) => Lent::Numbers(&**positions),
            Kept::Numbers(numbers) => Lent::Numbers(numbers.as_slice()),
            Kept::Code(coded) => Lent::Code(&**coded),
        }
    }
}

/// The positions of a list as they are lent.
#[derive(Clone, Copy, Drop)]
pub(crate) enum Lent<'a> {
    Numbers(&'a [u32]),
    Code(&'a Coded),
}

/// Keeps positions in the form that goes by how many they are, at its exact size.
#[inline(always)]
pub(crate) fn keep(alloc: Global, positions: &[u32]) -> Result<Kept, NoMemory>
    requires { ArePositions positions.now }
    ensures all { IfOk result (λ kept. positions_kept kept ≡ positions.now) }
    ensures fitting { IfOk result (λ kept. IsFitting kept) }
{
    if positions.len() <= FEW {
        return Ok(Kept::in_place(positions));
    }
    keep_apart(alloc, positions)
}

/// Keeps more positions than have their place in the list.
fn keep_apart(alloc: Global, positions: &[u32]) -> Result<Kept, NoMemory>
    requires valid { ArePositions positions.now }
    requires more { 3 < length positions.now }
    ensures all { IfOk result (λ kept. positions_kept kept ≡ positions.now) }
    ensures fitting { IfOk result (λ kept. IsFitting kept) }
{
    if positions.len() <= SOME {
        return Kept::in_block(alloc, positions);
    }
    if positions.len() <= SHORT {
        return Ok(Kept::Numbers(Box::new(alloc, Vec::from_slice(alloc, positions)?)?));
    }
    Ok(Kept::Code(Box::new(alloc, Coded::from_slice(alloc, positions)?)?))
}
