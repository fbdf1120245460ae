//! A script in memory, in place of a source.

ghost use Rattle.std.specs.Prelude.{◌≡◌, ◌≤◌, length, Some};

use mt_base::List;
use mt_outside::{Failed, Source};
use std::marker::Model;

/// A script in memory, seen as its bytes that were not read yet. No read of it fails.
#[derive(Drop)]
pub struct Script {
    bytes: List<u8>,
    place: usize,
}

impl Model for Script {
    ghost use Rattle.std.specs.Prelude.{◌≤◌, ℕ, List as Items, length, drop};

    ghost Value = { Items ℕ };

    ghost view = { λ s. drop s.place s.bytes };

    ghost invariant = { λ s. s.place ≤ length s.bytes };
}

impl Script {
    /// The script of these bytes, of which none was read.
    pub fn new(bytes: List<u8>) -> Self
        ensures { result ≡ bytes }
    {
        Script { bytes, place: 0 }
    }
}

impl Source for Script {
    ghost faults = { λ _. 0 };

    ghost left = { λ s. Some s };

    fn read(&mut self, buf: &mut [u8]) -> Result<usize, Failed> {
        let rest = &self.bytes.as_slice()[self.place..];
        let n = rest.len().min(buf.len());
        buf[..n].copy_from_slice(&rest[..n]);
        self.place += n;
        Ok(n)
    }
}
