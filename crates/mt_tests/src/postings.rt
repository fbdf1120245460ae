//! Worked codes and refusals, a long list, and each call once.

ghost use Rattle.std.specs.Prelude.{◌≡◌, ◌<◌};

use mt_base::{NoMemory, Steps};
use mt_postings::{BitReader, BitWriter, CodeError, DecodeError, Postings};
use std::alloc::Global;
use std::marker::Brand;
use std::sync::ledger::{Blank, Ledger};
use std::test::Fail;

/// Whether the numbers 1, 2, 3, 4 and 10 have these codes.
fn are_written(alloc: Global, codes: &[u8]) -> Result<bool, NoMemory> {
    let mut writer = BitWriter::new(alloc);
    for n in [1, 2, 3, 4, 10] {
        if n > 0 {
            writer.put_delta(n)?;
        }
    }
    Ok(writer.finish().as_slice() == codes)
}

/// Whether the numbers are read back, and no further one.
fn are_read(reader: &mut BitReader<'_>) -> bool {
    for n in [1, 2, 3, 4, 10] {
        if reader.get_delta() != Ok(n) {
            return false;
        }
    }
    reader.get_delta() == Err(CodeError::Cut(22))
}

#[test]
fn numbers(rt: HostRuntime) -> Result<(), Fail> {
    assert!(rt; are_written(rt.alloc(), &[0xa2, 0xb0, 0x88])?);
    assert!(rt; are_read(&mut BitReader::new(&[0xa2, 0xb0, 0x88])));
    Ok(())
}

/// Whether 0 and 2, and 9 behind them, have these codes.
fn are_codes(alloc: Global, codes: &[u8]) -> Result<bool, NoMemory> {
    let two = Postings::from_slice(alloc, &[0, 2])?;
    let mut bytes = two.encode(alloc)?;
    Postings::from_slice(alloc, &[9])?.encode_to(&mut bytes)?;
    Ok(two.code_len() == 1 && bytes.as_slice() == codes)
}

#[test]
fn lists(rt: HostRuntime) -> Result<(), Fail> {
    assert!(rt; are_codes(rt.alloc(), &[0xa0, 0x22])?);
    Ok(())
}

/// How many positions are read, which are as many as are told.
fn decoded(alloc: Global, count: u32, bytes: &[u8]) -> Result<u32, DecodeError> {
    if bytes.len() > 3 {
        return Err(DecodeError::NoMemory);
    }
    match Postings::decode(alloc, count, bytes) {
        Ok(list) => Ok(list.len()),
        Err(refusal) => Err(refusal),
    }
}

#[test]
fn refusals(rt: HostRuntime) {
    let table: [(u32, &[u8], Result<u32, DecodeError>); 9] = [
        (2, &[0xa0], Ok(2)),
        (0, &[], Ok(0)),
        (2, &[0xa1], Err(DecodeError::Padding(5))),
        (2, &[0x80], Err(DecodeError::TooLarge(1))),
        (2, &[0x84], Err(DecodeError::Cut(1))),
        (1, &[0x00], Err(DecodeError::TooLarge(0))),
        (1, &[0x81], Err(DecodeError::Padding(1))),
        (1, &[0xc0], Err(DecodeError::Padding(1))),
        (0, &[0x00], Err(DecodeError::Padding(0))),
    ];
    for (count, bytes, answer) in table {
        assert!(rt;
            decoded(rt.alloc(), count, bytes) == answer,
            "{count} positions in {bytes:?}"
        );
    }
}

fn sought<L: Ledger>(list: &Postings, blank: Blank) -> [Option<u32>; 3]
    requires name { blank.name ≡ L.name }
    requires parts { blank.parts ≡ L.parts }
    requires some { 0 < L.parts }
{
    let mut steps = Steps::<L>::new(blank);
    let mut cursor = list.cursor();
    [
        cursor.seek(1501, &mut steps),
        cursor.next(&mut steps),
        cursor.seek(1999, &mut steps),
    ]
}

/// The even numbers below 2,000.
fn thousand(alloc: Global) -> Result<Postings, DecodeError> {
    let mut bytes = [0x22; 500];
    bytes[0] = 0xa2;
    bytes[499] = 0x20;
    Postings::decode(alloc, 1000, &bytes)
}

#[test]
fn a_thousand_positions(rt: HostRuntime) {
    let Ok(list) = thousand(rt.alloc()) else {
        return assert!(rt; false);
    };
    assert!(rt; sought::<Brand>(&list, Blank::new(1)) == [Some(1502), Some(1504), None]);
}
