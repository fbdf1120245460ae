//! Posting lists read from bytes.

ghost use Rattle.std.specs.Prelude.{◌≡◌, ℕ, ◌+◌, ◌-◌, ◌<◌, ◌≤◌, List as Items, ◌++◌, length, IfOk, IfErr};
ghost use Rattle.mt_store_spec.specs.Codes.{delta, bits};
ghost use Rattle.mt_store_spec.specs.Positions.{BeginsWith, IsCode};
ghost use Rattle.mt_postings.specs.Refused.{IsStopped, IsNoList};

use super::error::{CodeError, DecodeError};
use super::reader::BitReader;
use std::alloc::Global;

/// The next position, which is at least `least`.
#[inline]
fn next_position(reader: &mut BitReader<'_>, least: u32) -> Result<u32, DecodeError>
    ensures range { IfOk result (λ p. (least ≤ p) × (p < 4294967295)) }
    ensures code { IfOk result (λ p. reader.old.left ≡ delta (p + 1 - least) ++ reader.new.left) }
    ensures place { IfOk result (λ p. reader.new.place ≡ reader.old.place + length (delta (p + 1 - least))) }
    ensures err { IfErr result (λ e. IsStopped least reader.old e) }
{
    let place = reader.place();
    match reader.get_delta() {
        Ok(gap) if gap <= u32::MAX - least => Ok(least + (gap - 1)),
        Ok(_) => Err(DecodeError::TooLarge(place)),
        Err(CodeError::Cut(bit)) => Err(DecodeError::Cut(bit)),
        Err(CodeError::TooLarge(bit)) => Err(DecodeError::TooLarge(bit)),
    }
}

/// The first `count` positions.
fn read_positions(
    alloc: Global,
    count: u32,
    reader: &mut BitReader<'_>,
) -> Result<Vec<u32>, DecodeError>
    requires { reader.old.place ≡ 0 }
    ensures ok { IfOk result (λ p. BeginsWith reader.old.left p.items reader.new.place reader.new.left) }
    ensures number { IfOk result (λ p. length p.items ≡ count) }
    ensures err { IfErr result (λ e. IsNoList count reader.old.left e) }
{
    let mut positions = Vec::new(alloc);
    let mut least = 0;
    for _ in 0..count {
        let position = match next_position(reader, least) {
            Ok(position) => position,
            Err(refusal) => return Err(refusal),
        };
        match positions.push(position) {
            Ok(()) => least = position + 1,
            Err(_) => return Err(DecodeError::NoMemory),
        }
    }
    Ok(positions)
}

/// The positions whose code the bytes are.
pub(crate) fn decoded(alloc: Global, count: u32, bytes: &[u8]) -> Result<Vec<u32>, DecodeError>
    requires { length bytes.now < 4294967296 }
    ensures ok { IfOk result (λ p. IsCode bytes.now p.items × (length p.items ≡ count)) }
    ensures err { IfErr result (λ e. IsNoList count (bits bytes.now) e) }
{
    let mut reader = BitReader::new(bytes);
    let positions = match read_positions(alloc, count, &mut reader) {
        Ok(positions) => positions,
        Err(refusal) => return Err(refusal),
    };
    if reader.is_padding() {
        Ok(positions)
    } else {
        Err(DecodeError::Padding(reader.place()))
    }
}
