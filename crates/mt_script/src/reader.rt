//! A script that comes in pieces, read as commands.

ghost use Rattle.std.specs.Prelude.{◌≡◌, [], ◌++◌, true, false, OnOk, OnErr};
ghost use Rattle.mt_script.specs.Scans.{Gives};

use super::Next;
use super::scan::Scan;
use mt_base::NoMemory;
use std::alloc::Global;
use std::marker::Model;

/// Bytes of a script that were fed and not given out as commands, and whether the input has ended.
#[derive(Drop)]
pub struct ScriptReader {
    scan: Scan,
    ended: bool,
}

impl Model for ScriptReader {
    ghost use Rattle.mt_script.specs.Waits.{Waiting};
    ghost use Rattle.mt_script.specs.Scans.{wait, IsSound};

    ghost Value = { Waiting };

    ghost view = { λ r. record { bytes = wait r.scan; ended = r.ended } };

    ghost invariant = { λ r. IsSound r.scan };
}

impl ScriptReader {
    /// Nothing was fed yet.
    pub fn new(alloc: Global) -> Self
        ensures { result ≡ record { bytes = []; ended = false } }
    {
        ScriptReader {
            scan: Scan::new(alloc),
            ended: false,
        }
    }

    /// Adds a piece of the script. Without memory nothing changes.
    pub fn feed(&mut self, piece: &[u8]) -> Result<(), NoMemory>
        requires { self.old.ended ≡ false }
        ensures ok { OnOk result (self.new ≡ record self.old { bytes = self.old.bytes ++ piece.now }) }
        ensures err { OnErr result (self.new ≡ self.old) }
    {
        self.scan.feed(piece)
    }

    /// Says that the input has ended. It takes no memory.
    pub fn end(&mut self)
        ensures { self.new ≡ record self.old { ended = true } }
    {
        self.ended = true;
    }

    /// What comes next. A command is given out with its body, and lines that stand for nothing go with what they stand before.
    pub fn next_command(&mut self, alloc: Global) -> Next
        ensures gives { Gives self.old.ended self.old.bytes result self.new.bytes }
        ensures ended { self.new.ended ≡ self.old.ended }
    {
        self.scan.next(alloc, self.ended)
    }
}
