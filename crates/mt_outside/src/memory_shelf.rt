//! Files in memory.

ghost use Rattle.std.specs.Prelude.{◌≡◌, ◌≤◌, ◌∷◌, [], ◌++◌, length, Some, Contains, IsErr, IsErrOf, IfOk, OnOk, OnErr, option_copied};
ghost use Rattle.mt_shelf_spec.specs.Files.{with_file};
ghost use Rattle.mt_outside.specs.Memory.{next_call, files_of, put_file};
ghost use Rattle.mt_outside.specs.Shelves.{Finds, LosesOne};
ghost use Rattle.mt_outside.specs.Told.{Told};

use super::calls::Calls;
use super::shelf::{Loaded, Shelf, ShelfError};
use indexmap::IndexMap;
use mt_base::{List, NoMemory, Value};
use std::alloc::Global;
use std::marker::Model;

/// Keeps files in memory. A call fails where its number is in the list of those that fail.
#[derive(Drop)]
pub struct MemoryShelf {
    alloc: Global,
    files: IndexMap<String, List<u8>>,
    calls: Calls,
    failed: List<Value>,
}

impl Model for MemoryShelf {
    ghost use Rattle.std.specs.Prelude.{map, string_bytes};
    ghost use Rattle.mt_outside.specs.Memory.{Shelving};

    ghost Value = { Shelving };

    ghost view = { λ s. record {
      entries = map (λ e. (string_bytes e.0, e.1)) s.files.entries;
      calls = s.calls.number;
      fails = s.calls.fails;
      failed = s.failed;
    } };
}

impl MemoryShelf {
    /// A shelf with no file, whose calls with these numbers fail. The first load or store has the number 1; the
    /// number 2^32 - 1 is that of each call from that one on. No memory is taken until a file is put.
    pub fn new(alloc: Global, fails: List<u32>) -> Self
        ensures { result ≡ record { entries = []; calls = 0; fails = fails; failed = [] } }
    {
        MemoryShelf {
            alloc,
            files: IndexMap::new(alloc),
            calls: Calls::new(fails),
            failed: List::new(alloc),
        }
    }

    /// Sets a file, in place of one of this name. It is no call that has a number. Without memory nothing changes.
    pub fn put(&mut self, name: &str, bytes: &[u8]) -> Result<(), NoMemory>
        ensures ok { OnOk result (self.new ≡
            record self.old { entries = put_file self.old.entries name.now bytes.now }) }
        ensures files { OnOk result (files_of self.new.entries ≡ with_file (files_of self.old.entries) name.now bytes.now) }
        ensures err { OnErr result (self.new ≡ self.old) }
    {
        let key = String::from_str(self.alloc, name)?;
        let mut file = List::new(self.alloc);
        file.extend(bytes)?;
        match self.files.insert(key, file) {
            Ok(_) => Ok(()),
            Err(_) => Err(NoMemory),
        }
    }

    /// The file of this name, or `None` where there is none.
    pub fn file(&self, name: &str) -> Option<&List<u8>>
        ensures { option_copied result ≡ files_of self.now.entries name.now }
    {
        self.files.get(name)
    }

    /// Numbers the next call. One that fails keeps its name, or gives up where there is no memory for that.
    fn begin(&mut self, alloc: Global, name: &str) -> Result<(), ShelfError>
        ensures only { IsErrOf result ShelfError.Failed → Contains self.old.fails (next_call self.old.calls) }
        ensures listed { Contains self.old.fails (next_call self.old.calls) → IsErr result }
        ensures ok { OnOk result (self.new ≡ record self.old { calls = next_call self.old.calls }) }
        ensures no_memory { IsErrOf result ShelfError.NoMemory → self.new ≡
            record self.old { calls = next_call self.old.calls } }
        ensures failed { IsErrOf result ShelfError.Failed → self.new ≡
            record self.old { calls = next_call self.old.calls; failed = self.old.failed ++ name.now ∷ [] } }
    {
        if !self.calls.next_fails() {
            return Ok(());
        }
        let name = Value::new(alloc, name)?;
        self.failed.push(name)?;
        Err(ShelfError::Failed)
    }
}

impl Shelf for MemoryShelf {
    ghost files = { λ s. Some (files_of s.entries) };

    ghost failed = { λ s. s.failed };

    fn load(
        &mut self,
        alloc: Global,
        name: &str,
        limit: u32,
        out: &mut List<u8>,
    ) -> Result<Loaded, ShelfError>
        ensures only { IsErrOf result ShelfError.Failed → Contains self.old.fails (next_call self.old.calls) }
        ensures listed { Contains self.old.fails (next_call self.old.calls) → IsErr result }
        ensures found { IfOk result (λ loaded. Finds (files_of self.old.entries name.now) limit out.new loaded) }
        ensures ok { OnOk result (self.new ≡ record self.old { calls = next_call self.old.calls }) }
        ensures no_memory { IsErrOf result ShelfError.NoMemory → self.new ≡
            record self.old { calls = next_call self.old.calls } }
        ensures failed { IsErrOf result ShelfError.Failed → self.new ≡
            record self.old { calls = next_call self.old.calls; failed = self.old.failed ++ name.now ∷ [] } }
    {
        self.begin(alloc, name)?;
        let Some(file) = self.file(name) else {
            return Ok(Loaded::Absent);
        };
        if file.len() > limit as usize {
            return Ok(Loaded::TooLong);
        }
        out.truncate(0);
        out.extend(file.as_slice())?;
        Ok(Loaded::Whole)
    }

    fn store(&mut self, name: &str, bytes: &[u8]) -> Result<(), ShelfError>
        ensures only { IsErrOf result ShelfError.Failed → Contains self.old.fails (next_call self.old.calls) }
        ensures listed { Contains self.old.fails (next_call self.old.calls) → IsErr result }
        ensures ok { OnOk result (self.new ≡ record self.old {
          entries = put_file self.old.entries name.now bytes.now;
          calls = next_call self.old.calls;
        }) }
        ensures files { OnOk result (files_of self.new.entries ≡ with_file (files_of self.old.entries) name.now bytes.now) }
        ensures no_memory { IsErrOf result ShelfError.NoMemory → self.new ≡
            record self.old { calls = next_call self.old.calls } }
        ensures failed { IsErrOf result ShelfError.Failed → self.new ≡
            record self.old { calls = next_call self.old.calls; failed = self.old.failed ++ name.now ∷ [] } }
    {
        self.begin(self.alloc, name)?;
        self.put(name, bytes)?;
        Ok(())
    }
}
