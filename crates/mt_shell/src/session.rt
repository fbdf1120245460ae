//! The session: what each command does.

ghost use Rattle.std.specs.Prelude.{◌≡◌, IfOk};
ghost use Rattle.mt_segment.specs.Mappers.{named};
ghost use Rattle.mt_session_spec.specs.Settings.{Setting};
ghost use Rattle.mt_session_spec.specs.Steps.{IsSaid};
ghost use Rattle.mt_session_spec.specs.Answers as answers;
ghost use Rattle.mt_session_spec.specs.Refusals.{ok_line as the_ok_line};
ghost use Rattle.mt_script.specs.Seen.{command_of};
ghost use Rattle.mt_answer.specs.Replies.{Given};
ghost use Rattle.mt_shell.specs.Outsides.{beside};
ghost use Rattle.mt_shell.specs.Serves.{Serves, first_kept};
ghost use Rattle.mt_shell.specs.Answers.{Stepped, IsRefusal};

use super::edge::Edge;
use super::state::State;
use mt_answer::{Refusal, Reply, ok_line, refused};
use mt_base::NoMemory;
use mt_mapper::Mapper;
use mt_pattern::PatternShop;
use mt_script::Command;
use mt_session_laws::refused_keep;
use std::alloc::Global;
use std::thread::Threads;

/// The mappers that are at hand, and what the accepted commands have left. Once a registry is accepted, only the mappers that it names are kept.
#[derive(Drop)]
pub struct Session<P: PatternShop, M: Mapper> {
    alloc: Global,
    pub mappers: Vec<M>,
    pub state: State<P>,
}

impl<P: PatternShop, M: Mapper> Session<P, M> {
    /// The standard registry, no texts and no grammar.
    pub fn new(alloc: Global, mappers: Vec<M>) -> Result<Self, NoMemory>
        ensures mappers { IfOk result (λ session. session.mappers ≡ mappers) }
        ensures state { IfOk result (λ session. session.state ≡ first_kept) }
    {
        Ok(Session {
            alloc,
            mappers,
            state: State::new(alloc)?,
        })
    }

    /// Does what the command says, and answers it.
    pub fn step<R: Threads + Sync, E: Edge>(
        &mut self,
        rt: &R,
        command: Command,
        edge: &mut E,
        shop: &mut P,
    ) -> Reply
        ghost setting: { Setting }
        requires said { IsSaid (command_of command) }
        requires serves { Serves setting (named M.called M.image self.old.mappers.items) self.old.state }
        // The reply and the change are those that the command means, for the files that the shelf tells, and for some files where it tells none. Nothing is
        // read or written.
        ensures means { Stepped setting self.old.state.held (command_of command) result self.new.state.held
            (beside (E.seen edge.old) (P.refused shop.old)) (beside (E.seen edge.new) (P.refused shop.new)) }
        // A refused command changes nothing that is held.
        ensures refused { IsRefusal result → self.new.state.held ≡ self.old.state.held }
        ensures serves { Serves setting (named M.called M.image self.new.mappers.items) self.new.state }
        ensures names { E.names edge.new ≡ E.names edge.old }
    {
        refused_keep();
        self.state.valid();
        let reply = self.perform(rt, &command, edge, shop);
        drop(command);
        reply
    }

    /// Does what the command says, and answers it. That a refused command changes nothing follows of what it means.
    fn perform<R: Threads + Sync, E: Edge>(
        &mut self,
        rt: &R,
        command: &Command,
        edge: &mut E,
        shop: &mut P,
    ) -> Reply
        ghost setting: { Setting }
        requires said { IsSaid (command_of command.now) }
        requires serves { Serves setting (named M.called M.image self.old.mappers.items) self.old.state }
        ensures means { Stepped setting self.old.state.held (command_of command.now) result self.new.state.held
            (beside (E.seen edge.old) (P.refused shop.old)) (beside (E.seen edge.new) (P.refused shop.new)) }
        ensures serves { Serves setting (named M.called M.image self.new.mappers.items) self.new.state }
        ensures names { E.names edge.new ≡ E.names edge.old }
    {
        match command {
            Command::Registry { file } => self.state.set_registry(file, &mut self.mappers, edge),
            Command::Text { name, body } => {
                self.state
                    .add_text(rt, name, body.as_slice(), &mut self.mappers, shop)
            }
            Command::Add { name, file } => {
                self.state
                    .add_file(rt, name, file, &mut self.mappers, edge, shop)
            }
            Command::Generate { name, seed, tokens } => {
                self.state
                    .generate(rt, name, *seed, *tokens, &mut self.mappers, shop)
            }
            Command::Ask(ask) => self.state.answer(rt, ask, shop),
            Command::Grammar { file } => self.state.set_grammar(rt, file, edge, shop),
            Command::Rules { body } => self.state.set_rules(rt, body.as_slice(), shop),
            Command::Segments => self.state.segments(),
            Command::Remove { name } => self.state.remove(rt, name, shop),
            Command::Quit => quit(self.alloc),
            _ => refused(self.alloc, &Refusal::BadCommand),
        }
    }
}

/// The reply to `quit`.
fn quit(alloc: Global) -> Reply
    ensures { Given (answers.Last the_ok_line) result }
{
    match ok_line(alloc) {
        Ok(line) => Reply::Last(line),
        Err(NoMemory) => Reply::NoMemory,
    }
}
