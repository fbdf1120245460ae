//! A quick hasher for keys of two numbers.

use std::hash::Hasher;

/// Joins the last eight bytes that are written, in which a pair of numbers of 32 bits lies whole, and mixes them at the end.
#[derive(Clone, Copy)]
pub(crate) struct PairHasher {
    last: u64,
}

impl Default for PairHasher {
    ghost use Rattle.std.specs.Prelude.{◌≡◌};

    ghost is_default = { λ h. h ≡ record { last = 0 } };

    fn default() -> PairHasher {
        PairHasher { last: 0 }
    }
}

impl Hasher for PairHasher {
    ghost use Rattle.mt_counts.specs.Hashing.{join, mixed};

    ghost write = { join };

    ghost finish = { mixed };

    fn finish(&self) -> u64 {
        let product = (self.last ^ 0x243f_6a88_85a3_08d3) as u128 * 0x9e37_79b9_7f4a_7c15;
        (product & 0xFFFF_FFFF_FFFF_FFFF) as u64 ^ (product >> 64) as u64
    }

    fn write(&mut self, bytes: &[u8]) {
        let mut last = self.last;
        for byte in bytes {
            last = last / 256 + *byte as u64 * 0x0100_0000_0000_0000;
        }
        self.last = last;
    }

    fn write_u32(&mut self, number: u32) {
        self.last = self.last / 0x0001_0000_0000 + number as u64 * 0x0001_0000_0000;
    }
}
