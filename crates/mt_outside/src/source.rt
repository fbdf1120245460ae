//! Where bytes come from.

ghost use Rattle.std.specs.Prelude.{◌≡◌, ℕ, ◌+◌, ◌<◌, ◌≤◌, ◌↔◌, List as Items, ◌++◌, length, take, drop, min, Option, Some, Contains, IsErr, IfOk, OnOk, OnErr};
ghost use Rattle.mt_outside.specs.Faults.{Rose, one_more};
ghost use Rattle.mt_outside.specs.Memory.{next_call};
ghost use Rattle.mt_outside.specs.Told.{Told, Takes};

use super::calls::Calls;
use mt_base::List;
use std::marker::Model;

/// A read that failed.
#[derive(Clone, Copy, Debug, PartialEq, Eq, Drop)]
pub struct Failed;

/// Where bytes come from. A source that does not tell its bytes promises nothing of them.
pub trait Source {
    /// How many calls failed, up to the last count.
    ghost faults: { Self → ℕ };

    /// The bytes that are left, where the object tells them.
    ghost left: { Self → Option (Items ℕ) };

    /// Puts the next bytes at the front of `buf`, and answers how many. It answers 0 for a `buf` that is not empty only at the end.
    fn read(&mut self, buf: &mut [u8]) -> Result<usize, Failed>
        ensures within { IfOk result (λ n. n ≤ length buf.new) }
        ensures told { IfOk result (λ n. Told (left self.old) (λ all.
            Takes all n buf.new (left self.new))) }
        ensures kept { OnErr result (left self.new ≡ left self.old) }
        ensures ok { OnOk result (faults self.new ≡ faults self.old) }
        ensures rises { faults self.old ≤ faults self.new }
        ensures failed { OnErr result (Rose (faults self.old) (faults self.new)) };
}

/// Bytes in memory. A read takes as many as fit, and fails exactly where its number is in the list of those that fail.
#[derive(Debug, Drop)]
pub struct MemorySource {
    bytes: List<u8>,
    place: usize,
    calls: Calls,
}

impl Model for MemorySource {
    ghost use Rattle.std.specs.Prelude.{◌≤◌, length, drop};
    ghost use Rattle.mt_outside.specs.Memory.{Reading};

    ghost Value = { Reading };

    ghost view = { λ s. record {
      left = drop s.place s.bytes;
      calls = s.calls.number;
      fails = s.calls.fails;
      faults = s.calls.faults;
    } };

    ghost invariant = { λ s. s.place ≤ length s.bytes };
}

impl MemorySource {
    /// A source of these bytes, whose reads with these numbers fail. The first read has the number 1; the
    /// number 2^32 - 1 is that of each read from that one on.
    pub fn new(bytes: List<u8>, fails: List<u32>) -> Self
        ensures { result ≡ record { left = bytes; calls = 0; fails = fails; faults = 0 } }
    {
        MemorySource {
            bytes,
            place: 0,
            calls: Calls::new(fails),
        }
    }
}

impl Source for MemorySource {
    ghost faults = { λ s. s.faults };

    ghost left = { λ s. Some s.left };

    fn read(&mut self, buf: &mut [u8]) -> Result<usize, Failed>
        ensures exactly { IsErr result ↔ Contains self.old.fails (next_call self.old.calls) }
        ensures ok { IfOk result (λ n. self.new ≡
            record self.old { left = drop n self.old.left; calls = next_call self.old.calls }) }
        ensures err { OnErr result (self.new ≡
            record self.old { calls = next_call self.old.calls; faults = one_more self.old.faults }) }
        ensures count { IfOk result (λ n. n ≡ min (length self.old.left) (length buf.old)) }
        ensures buffer { IfOk result (λ n. buf.new ≡ take n self.old.left ++ drop n buf.old) }
        ensures untouched { OnErr result (buf.new ≡ buf.old) }
        ensures rises { self.old.faults ≤ self.new.faults }
        ensures failed { OnErr result (Rose self.old.faults self.new.faults) }
    {
        if self.calls.next_fails() {
            return Err(Failed);
        }
        let rest = &self.bytes.as_slice()[self.place..];
        let n = rest.len().min(buf.len());
        buf[..n].copy_from_slice(&rest[..n]);
        self.place += n;
        Ok(n)
    }
}
