//! Source, sink and shelf as one value: what is outside.

ghost use Rattle.std.specs.Prelude.{◌≡◌, ◌<◌, ◌≤◌, ◌∷◌, [], ◌++◌, length, take, Ok, Some, IfOk, OnOk, OnErr, IsErrOf};
ghost use Rattle.std.specs.Borrow.{GName};
ghost use Rattle.mt_session_spec.specs.Runs.{Outside};
ghost use Rattle.mt_outside.specs.Faults.{Rose};
ghost use Rattle.mt_outside.specs.Shelves.{Finds};
ghost use Rattle.mt_outside.specs.Told.{Told, Takes};
ghost use Rattle.mt_shell.specs.Outsides.{outside, reads_on, writes_on, loads_on};

use mt_base::List;
use mt_outside::{Failed, Loaded, Shelf, ShelfError, Sink, SinkError, Source};
use std::alloc::Global;

/// What is outside of a session: where the script comes from, where the replies go, and where files are kept.
pub trait Edge {
    /// What is outside, as one value.
    ghost seen: { Self → Outside };

    /// Which objects are outside. They stay the same.
    ghost names: { Self → GName × GName × GName };

    /// Puts the next bytes of the script at the front of `buf`, and answers how many, as a source does.
    fn read(&mut self, buf: &mut [u8]) -> Result<usize, Failed>
        ensures names { names self.new ≡ names self.old }
        ensures only { seen self.new ≡ reads_on (seen self.old) (seen self.new) }
        ensures within { IfOk result (λ n. n ≤ length buf.new) }
        ensures told { IfOk result (λ n. Told ((seen self.old).left) (λ all. Takes all n buf.new ((seen self.new).left))) }
        ensures kept { OnErr result ((seen self.new).left ≡ (seen self.old).left) }
        ensures ok { OnOk result ((seen self.new).source_faults ≡ (seen self.old).source_faults) }
        ensures failed { OnErr result (Rose ((seen self.old).source_faults) ((seen self.new).source_faults)) };

    /// Takes bytes from the front of `piece`, and answers how many, as a sink does.
    fn write(&mut self, piece: &[u8]) -> Result<usize, SinkError>
        ensures names { names self.new ≡ names self.old }
        ensures only { seen self.new ≡ writes_on (seen self.old) (seen self.new) }
        ensures within { IfOk result (λ n. n ≤ length piece.now) }
        ensures some { 0 < length piece.now → IfOk result (λ n. 0 < n) }
        ensures told { IfOk result (λ n. Told ((seen self.old).written) (λ all. (seen self.new).written ≡ Some (all ++ take n piece.now))) }
        ensures kept { OnErr result ((seen self.new).written ≡ (seen self.old).written) }
        ensures ok { OnOk result ((seen self.new).sink_faults ≡ (seen self.old).sink_faults) }
        ensures no_memory { IsErrOf result SinkError.NoMemory → (seen self.new).sink_faults ≡ (seen self.old).sink_faults }
        ensures failed { IsErrOf result SinkError.Failed → Rose ((seen self.old).sink_faults) ((seen self.new).sink_faults) };

    /// Reads the file of this name into `out`, in place of what is there, where it has at most `limit` bytes, as a shelf does.
    fn load(
        &mut self,
        alloc: Global,
        name: &str,
        limit: u32,
        out: &mut List<u8>,
    ) -> Result<Loaded, ShelfError>
        ensures names { names self.new ≡ names self.old }
        ensures only { seen self.new ≡ loads_on (seen self.old) (seen self.new) }
        ensures within { result ≡ Ok Loaded.Whole → length out.new ≤ limit }
        ensures told { IfOk result (λ loaded. Told ((seen self.old).files) (λ all. Finds (all name.now) limit out.new loaded)) }
        ensures ok { OnOk result ((seen self.new).failed ≡ (seen self.old).failed) }
        ensures no_memory { IsErrOf result ShelfError.NoMemory → (seen self.new).failed ≡ (seen self.old).failed }
        ensures failed { IsErrOf result ShelfError.Failed → (seen self.new).failed ≡ (seen self.old).failed ++ name.now ∷ [] };
}

/// A source, a sink and a shelf.
#[derive(Drop)]
pub struct Objects<'s, 'k, 'f, S: Source, K: Sink, F: Shelf> {
    pub source: &'s mut S,
    pub sink: &'k mut K,
    pub shelf: &'f mut F,
}

impl<S: Source, K: Sink, F: Shelf> Edge for Objects<'_, '_, '_, S, K, F> {
    ghost seen = { λ o. outside (S.left o.source.now) (S.faults o.source.now) (K.held o.sink.now) (K.faults o.sink.now) (F.files o.shelf.now) (F.failed o.shelf.now) [] };

    ghost names = { λ o. (o.source.ghost_name, o.sink.ghost_name, o.shelf.ghost_name) };

    fn read(&mut self, buf: &mut [u8]) -> Result<usize, Failed> {
        self.source.read(buf)
    }

    fn write(&mut self, piece: &[u8]) -> Result<usize, SinkError> {
        self.sink.write(piece)
    }

    fn load(
        &mut self,
        alloc: Global,
        name: &str,
        limit: u32,
        out: &mut List<u8>,
    ) -> Result<Loaded, ShelfError> {
        self.shelf.load(alloc, name, limit, out)
    }
}
