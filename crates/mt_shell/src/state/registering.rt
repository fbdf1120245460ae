//! `registry`.

ghost use Rattle.std.specs.Prelude.{◌≡◌, ◌↔◌, ℕ, List as Items, map, IsTrue, IfOk, false};
ghost use Rattle.mt_shelf_spec.specs.Files.{Files};
ghost use Rattle.mt_text_spec.specs.Registries.{ValidRegistry};
ghost use Rattle.mt_segment.specs.Mappers.{AreThere, named};
ghost use Rattle.mt_script_spec.specs.Commands as spec;
ghost use Rattle.mt_session_spec.specs.Settings.{Setting};
ghost use Rattle.mt_session_spec.specs.Registering.{IsLate};
ghost use Rattle.mt_shell.specs.Fetches.{Finds, gained_of};
ghost use Rattle.mt_shell.specs.Outsides.{beside};
ghost use Rattle.mt_shell.specs.Serves.{Serves};
ghost use Rattle.mt_shell.specs.Answers.{Answers, Stepped, SetsRegistry, ReadsRegistry, over};

use super::super::edge::Edge;
use super::super::fetch::{Fetched, fetch};
use super::State;
use mt_answer::{Refusal, Reply, failed, ok_line, refused};
use mt_base::{List, NoMemory, Registry, Value};
use mt_corpus::{Corpus, keep_named};
use mt_mapper::Mapper;
use mt_pattern::PatternShop;
use mt_registry::{RegistryError, one_registry_answer, read_registry};
use mt_registry_laws::mappers_are_at_hand;
use mt_rules::hold_none;
use mt_session_laws::held_is_valid;
use std::alloc::Global;

impl<P: PatternShop> State<P> {
    /// `registry`: the registry of the file holds from now on, and of the mappers those that it names are kept.
    pub fn set_registry<M: Mapper, E: Edge>(
        &mut self,
        file: &Value,
        mappers: &mut Vec<M>,
        edge: &mut E,
    ) -> Reply
        ghost setting: { Setting }
        requires { Serves setting (named M.called M.image mappers.old.items) self.old }
        ensures means { (refused : Items (Items ℕ)) → Stepped setting self.old.held (spec.Registry file.now) result self.new.held (beside (E.seen edge.old) refused) (beside (E.seen edge.new) refused) }
        ensures serves { Serves setting (named M.called M.image mappers.new.items) self.new }
        ensures names { E.names edge.new ≡ E.names edge.old }
    {
        if self.is_late() {
            return refused(self.alloc, &Refusal::RegistryLate);
        }
        let fetched = fetch(self.alloc, file.as_str(), edge);
        self.take_registry(file, fetched, mappers)
    }

    /// Whether a registry was accepted before, or a text or a grammar is held.
    fn is_late(&self) -> bool
        ensures { IsTrue result ↔ IsLate self.now.held }
    {
        self.accepted || self.rules.is_some() || !self.corpus.is_empty()
    }

    /// Does with the file what was found of it.
    fn take_registry<M: Mapper>(
        &mut self,
        file: &Value,
        fetched: Fetched,
        mappers: &mut Vec<M>,
    ) -> Reply
        ghost setting: { Setting }
        requires early { IsLate self.old.held → ⊥ }
        requires serves { Serves setting (named M.called M.image mappers.old.items) self.old }
        ensures means { (files : Files) → Finds files file.now fetched →
            Answers setting (over self.old.held files) (spec.Registry file.now) (gained_of file.now fetched) result (over self.new.held files) }
        ensures serves { Serves setting (named M.called M.image mappers.new.items) self.new }
    {
        one_registry_answer();
        let alloc = self.alloc;
        match fetched {
            Fetched::Whole(bytes) => self.read_registry(&bytes, mappers),
            Fetched::Absent => refused(alloc, &Refusal::NoSuchFile(file.as_str())),
            Fetched::TooLong => refused(alloc, &Refusal::FileTooLong(file.as_str())),
            Fetched::Failed => failed(alloc, file),
            Fetched::NoMemory => Reply::NoMemory,
        }
    }

    /// Reads the registry that these bytes are. Its attributes may have the mappers that are at hand.
    fn read_registry<M: Mapper>(&mut self, bytes: &List<u8>, mappers: &mut Vec<M>) -> Reply
        ghost setting: { Setting }
        requires early { self.old.held.accepted ≡ false }
        requires serves { Serves setting (named M.called M.image mappers.old.items) self.old }
        ensures means { ReadsRegistry setting self.old.held bytes.now result self.new.held }
        ensures serves { Serves setting (named M.called M.image mappers.new.items) self.new }
    {
        mappers_are_at_hand();
        let Ok(names) = names_of(self.alloc, mappers) else {
            return Reply::NoMemory;
        };
        match read_registry(self.alloc, bytes.as_slice(), &names) {
            Ok(registry) => self.keep_registry(registry, mappers),
            Err(RegistryError::Bad(line)) => refused(self.alloc, &Refusal::BadRegistry(line)),
            Err(RegistryError::NoAttribute) => refused(self.alloc, &Refusal::NoAttribute),
            Err(RegistryError::NoMemory) => Reply::NoMemory,
        }
    }

    /// Sets the registry, and keeps the mappers that it names. The reply is made first.
    fn keep_registry<M: Mapper>(&mut self, registry: Registry, mappers: &mut Vec<M>) -> Reply
        ghost setting: { Setting }
        requires valid { ValidRegistry registry }
        requires there { AreThere (map M.called mappers.old.items) registry.attrs }
        requires early { self.old.held.accepted ≡ false }
        requires serves { Serves setting (named M.called M.image mappers.old.items) self.old }
        ensures means { SetsRegistry self.old.held registry result self.new.held }
        ensures serves { Serves setting (named M.called M.image mappers.new.items) self.new }
    {
        held_is_valid();
        let Ok(line) = ok_line(self.alloc) else {
            return Reply::NoMemory;
        };
        keep_named(&registry, mappers);
        self.accepted = true;
        hold_none(&mut self.rules);
        self.corpus = Corpus::new(self.alloc, registry);
        Reply::Lines(line)
    }
}

/// The names of mappers.
fn names_of<M: Mapper>(alloc: Global, mappers: &[M]) -> Result<List<Value>, NoMemory>
    ensures { IfOk result (λ names. names ≡ map M.called mappers.now) }
{
    let mut names = List::with_capacity(alloc, mappers.len())?;
    for mapper in mappers {
        names.push(Value::new(alloc, mapper.name())?)?;
    }
    Ok(names)
}
