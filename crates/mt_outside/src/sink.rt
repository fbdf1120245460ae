//! Where bytes go.

ghost use Rattle.std.specs.Prelude.{◌≡◌, ℕ, ◌+◌, ◌<◌, ◌≤◌, ◌↔◌, List as Items, [], ◌++◌, length, take, Option, Some, Contains, IfOk, OnOk, OnErr, IsErrOf};
ghost use Rattle.mt_outside.specs.Faults.{Rose, one_more};
ghost use Rattle.mt_outside.specs.Memory.{next_call};
ghost use Rattle.mt_outside.specs.Told.{Told};

use super::calls::Calls;
use mt_base::List;
use std::alloc::Global;
use std::marker::Model;

/// Why a write did not happen.
#[derive(Clone, Copy, Debug, PartialEq, Eq, Drop)]
pub enum SinkError {
    /// The write failed.
    Failed,
    /// There was no memory for it.
    NoMemory,
}

/// Where bytes go. A sink that does not tell what it took promises nothing of it.
pub trait Sink {
    /// How many calls failed, up to the last count.
    ghost faults: { Self → ℕ };

    /// The bytes that were taken so far, where the object tells them.
    ghost held: { Self → Option (Items ℕ) };

    /// Takes bytes from the front of `piece`, and answers how many: at least one of a piece that is not empty.
    fn write(&mut self, piece: &[u8]) -> Result<usize, SinkError>
        ensures within { IfOk result (λ n. n ≤ length piece.now) }
        ensures some { 0 < length piece.now → IfOk result (λ n. 0 < n) }
        ensures told { IfOk result (λ n. Told (held self.old) (λ all.
            held self.new ≡ Some (all ++ take n piece.now))) }
        ensures kept { OnErr result (held self.new ≡ held self.old) }
        ensures ok { OnOk result (faults self.new ≡ faults self.old) }
        ensures no_memory { IsErrOf result SinkError.NoMemory → faults self.new ≡ faults self.old }
        ensures rises { faults self.old ≤ faults self.new }
        ensures failed { IsErrOf result SinkError.Failed → Rose (faults self.old) (faults self.new) };
}

/// Keeps what it takes. A write takes the whole piece, and fails exactly where its number is in the list of those that fail.
#[derive(Debug, Drop)]
pub struct MemorySink {
    bytes: List<u8>,
    calls: Calls,
}

impl Model for MemorySink {
    ghost use Rattle.mt_outside.specs.Memory.{Writing};

    ghost Value = { Writing };

    ghost view = { λ s. record {
      held = s.bytes;
      calls = s.calls.number;
      fails = s.calls.fails;
      faults = s.calls.faults;
    } };
}

impl MemorySink {
    /// A sink that took nothing yet, whose writes with these numbers fail. The first write has the number 1; the
    /// number 2^32 - 1 is that of each write from that one on. No memory is taken until something is written.
    pub fn new(alloc: Global, fails: List<u32>) -> Self
        ensures { result ≡ record { held = []; calls = 0; fails = fails; faults = 0 } }
    {
        MemorySink {
            bytes: List::new(alloc),
            calls: Calls::new(fails),
        }
    }

    /// The bytes that were taken so far, in order.
    pub fn written(&self) -> &List<u8>
        ensures { result.now ≡ self.now.held }
    {
        &self.bytes
    }
}

impl Sink for MemorySink {
    ghost faults = { λ s. s.faults };

    ghost held = { λ s. Some s.held };

    fn write(&mut self, piece: &[u8]) -> Result<usize, SinkError>
        ensures exactly { IsErrOf result SinkError.Failed ↔ Contains self.old.fails (next_call self.old.calls) }
        ensures ok { OnOk result (self.new ≡
            record self.old { held = self.old.held ++ piece.now; calls = next_call self.old.calls }) }
        ensures err { IsErrOf result SinkError.Failed → self.new ≡
            record self.old { calls = next_call self.old.calls; faults = one_more self.old.faults } }
        ensures no_memory { IsErrOf result SinkError.NoMemory → self.new ≡
            record self.old { calls = next_call self.old.calls } }
        ensures whole { IfOk result (λ n. n ≡ length piece.now) }
        ensures rises { self.old.faults ≤ self.new.faults }
        ensures failed { IsErrOf result SinkError.Failed → Rose self.old.faults self.new.faults }
    {
        if self.calls.next_fails() {
            return Err(SinkError::Failed);
        }
        match self.bytes.extend(piece) {
            Ok(()) => Ok(piece.len()),
            Err(_) => Err(SinkError::NoMemory),
        }
    }
}
