//! Answering the commands of a script as they come.

ghost use Rattle.std.specs.Prelude.{◌≡◌, ◌↔◌, ◌++◌, [], Ok, Some, true, false, IsTrue, IfOk, OnErr, MatchOption};
ghost use Rattle.mt_outside.specs.Told.{Told};
ghost use Rattle.mt_script_spec.specs.Script.{Item, Given, IsRest};
ghost use Rattle.mt_segment.specs.Mappers.{named};
ghost use Rattle.mt_session_spec.specs.Settings.{Setting};
ghost use Rattle.mt_session_spec.specs.Gains.{none_gained};
ghost use Rattle.mt_session_spec.specs.Steps.{IsSaid};
ghost use Rattle.mt_session_spec.specs.Runs.{Leaves};
ghost use Rattle.mt_script.specs.Seen.{command_of};
ghost use Rattle.mt_shell.specs.Outsides.{CountsSink, beside, writes_on};
ghost use Rattle.mt_shell.specs.Serves.{Serves, first_kept};
ghost use Rattle.mt_shell.specs.Reads.{Replied, RepliedInPart, Progress, ProgressToQuit, ProgressInPart, item_of, IsLast, IsSaidNext, Flows, WroteFront, reply_bytes};

use super::edge::Edge;
use super::session::Session;
use super::writes::write_all;
use mt_answer::{BAD_COMMAND, CUT_SHORT, NO_MEMORY, Reply};
use mt_base::NoMemory;
use mt_mapper::Mapper;
use mt_outside::SinkError;
use mt_pattern::PatternShop;
use mt_script::{Command, Next, ScriptReader};
use std::alloc::Global;
use std::thread::Threads;

/// Whether the run goes on.
#[derive(Clone, Copy, Drop)]
pub enum Flow {
    /// It does.
    On,
    /// It is over with `quit`.
    Over,
}

/// A script that is read and the session that answers it.
#[derive(Drop)]
pub struct Talk<P: PatternShop, M: Mapper> {
    alloc: Global,
    pub reader: ScriptReader,
    pub session: Session<P, M>,
}

impl<P: PatternShop, M: Mapper> Talk<P, M> {
    /// Nothing was read yet, and no text is held.
    pub fn new(alloc: Global, mappers: Vec<M>) -> Result<Self, NoMemory>
        ensures reader { IfOk result (λ talk. talk.reader ≡ record { bytes = []; ended = false }) }
        ensures mappers { IfOk result (λ talk. talk.session.mappers ≡ mappers) }
        ensures state { IfOk result (λ talk. talk.session.state ≡ first_kept) }
    {
        let session = Session::new(alloc, mappers)?;
        Ok(Talk {
            alloc,
            reader: ScriptReader::new(alloc),
            session,
        })
    }

    /// Takes a piece of the script, and answers the items that are whole.
    pub fn take<R: Threads + Sync, E: Edge>(
        &mut self,
        rt: &R,
        piece: &[u8],
        edge: &mut E,
        shop: &mut P,
    ) -> Result<Flow, SinkError>
        ghost setting: { Setting }
        requires ended { self.old.reader.ended ≡ false }
        requires serves { Serves setting (named M.called M.image self.old.session.mappers.items) self.old.session.state }
        ensures on { result ≡ Ok Flow.On → Told ((E.seen edge.old).written) (λ written.
            Progress setting false (self.old.reader.bytes ++ piece.now) self.new.reader.bytes self.old.session.state.held self.new.session.state.held
            (beside (E.seen edge.old) (P.refused shop.old)) written (beside (E.seen edge.new) (P.refused shop.new))) }
        ensures over { result ≡ Ok Flow.Over → Told ((E.seen edge.old).written) (λ written.
            ProgressToQuit setting false (self.old.reader.bytes ++ piece.now) self.old.session.state.held
            (beside (E.seen edge.old) (P.refused shop.old)) written (beside (E.seen edge.new) (P.refused shop.new))) }
        ensures part { OnErr result (Told ((E.seen edge.old).written) (λ written.
            ProgressInPart setting false (self.old.reader.bytes ++ piece.now) self.old.session.state.held
            (beside (E.seen edge.old) (P.refused shop.old)) written (beside (E.seen edge.new) (P.refused shop.new)))) }
        ensures rest { result ≡ Ok Flow.On → IsRest false self.new.reader.bytes }
        ensures ended { self.new.reader.ended ≡ false }
        ensures serves { Serves setting (named M.called M.image self.new.session.mappers.items) self.new.session.state }
        ensures counts { CountsSink result (E.seen edge.old) (E.seen edge.new) }
        ensures names { E.names edge.new ≡ E.names edge.old }
    {
        match self.reader.feed(piece) {
            Ok(()) => self.answer(rt, edge, shop),
            Err(_) => Err(SinkError::NoMemory),
        }
    }

    /// Answers what is left where the script has ended.
    pub fn finish<R: Threads + Sync, E: Edge>(
        &mut self,
        rt: &R,
        edge: &mut E,
        shop: &mut P,
    ) -> Result<Flow, SinkError>
        ghost setting: { Setting }
        requires { Serves setting (named M.called M.image self.old.session.mappers.items) self.old.session.state }
        ensures on { result ≡ Ok Flow.On → Told ((E.seen edge.old).written) (λ written.
            Progress setting true self.old.reader.bytes self.new.reader.bytes self.old.session.state.held self.new.session.state.held
            (beside (E.seen edge.old) (P.refused shop.old)) written (beside (E.seen edge.new) (P.refused shop.new))) }
        ensures over { result ≡ Ok Flow.Over → Told ((E.seen edge.old).written) (λ written.
            ProgressToQuit setting true self.old.reader.bytes self.old.session.state.held
            (beside (E.seen edge.old) (P.refused shop.old)) written (beside (E.seen edge.new) (P.refused shop.new))) }
        ensures part { OnErr result (Told ((E.seen edge.old).written) (λ written.
            ProgressInPart setting true self.old.reader.bytes self.old.session.state.held
            (beside (E.seen edge.old) (P.refused shop.old)) written (beside (E.seen edge.new) (P.refused shop.new)))) }
        ensures rest { result ≡ Ok Flow.On → IsRest true self.new.reader.bytes }
        ensures serves { Serves setting (named M.called M.image self.new.session.mappers.items) self.new.session.state }
        ensures counts { CountsSink result (E.seen edge.old) (E.seen edge.new) }
        ensures names { E.names edge.new ≡ E.names edge.old }
    {
        self.reader.end();
        self.answer(rt, edge, shop)
    }

    /// Answers each whole item that waits, up to a `quit`.
    fn answer<R: Threads + Sync, E: Edge>(
        &mut self,
        rt: &R,
        edge: &mut E,
        shop: &mut P,
    ) -> Result<Flow, SinkError>
        ghost setting: { Setting }
        requires { Serves setting (named M.called M.image self.old.session.mappers.items) self.old.session.state }
        ensures on { result ≡ Ok Flow.On → Told ((E.seen edge.old).written) (λ written.
            Progress setting self.old.reader.ended self.old.reader.bytes self.new.reader.bytes self.old.session.state.held self.new.session.state.held
            (beside (E.seen edge.old) (P.refused shop.old)) written (beside (E.seen edge.new) (P.refused shop.new))) }
        ensures over { result ≡ Ok Flow.Over → Told ((E.seen edge.old).written) (λ written.
            ProgressToQuit setting self.old.reader.ended self.old.reader.bytes self.old.session.state.held
            (beside (E.seen edge.old) (P.refused shop.old)) written (beside (E.seen edge.new) (P.refused shop.new))) }
        ensures part { OnErr result (Told ((E.seen edge.old).written) (λ written.
            ProgressInPart setting self.old.reader.ended self.old.reader.bytes self.old.session.state.held
            (beside (E.seen edge.old) (P.refused shop.old)) written (beside (E.seen edge.new) (P.refused shop.new)))) }
        ensures rest { result ≡ Ok Flow.On → IsRest self.old.reader.ended self.new.reader.bytes }
        ensures ended { self.new.reader.ended ≡ self.old.reader.ended }
        ensures serves { Serves setting (named M.called M.image self.new.session.mappers.items) self.new.session.state }
        ensures counts { CountsSink result (E.seen edge.old) (E.seen edge.new) }
        ensures names { E.names edge.new ≡ E.names edge.old }
    {
        loop {
            let next = self.reader.next_command(self.alloc);
            if is_last(&next) {
                drop(next);
                return Ok(Flow::On);
            }
            match answer_item(rt, &mut self.session, next, edge, shop)? {
                Flow::On => {}
                Flow::Over => return Ok(Flow::Over),
            }
        }
    }
}

/// Whether no whole item is left.
fn is_last(next: &Next) -> bool
    ensures { IsTrue result ↔ IsLast next.now }
{
    matches!(next, Next::More | Next::End)
}

/// Answers what comes next.
fn answer_item<P: PatternShop, M: Mapper, R: Threads + Sync, E: Edge>(
    rt: &R,
    session: &mut Session<P, M>,
    next: Next,
    edge: &mut E,
    shop: &mut P,
) -> Result<Flow, SinkError>
    ghost setting: { Setting }
    requires one { IsLast next → ⊥ }
    requires said { IsSaidNext next }
    requires serves { Serves setting (named M.called M.image session.old.mappers.items) session.old.state }
    ensures ok { IfOk result (λ flow. (item : Item) × (item_of next ≡ Some item) × Flows flow item × Told ((E.seen edge.old).written) (λ written.
        Replied setting session.old.state.held item session.new.state.held (beside (E.seen edge.old) (P.refused shop.old)) written (beside (E.seen edge.new) (P.refused shop.new)))) }
    ensures part { OnErr result (Told ((E.seen edge.old).written) (λ written.
        MatchOption (item_of next) (Leaves (beside (E.seen edge.old) (P.refused shop.old)) written [] ((E.seen edge.old).files) none_gained (beside (E.seen edge.new) (P.refused shop.new)))
        (λ item. RepliedInPart setting session.old.state.held item (beside (E.seen edge.old) (P.refused shop.old)) written (beside (E.seen edge.new) (P.refused shop.new))))) }
    ensures serves { Serves setting (named M.called M.image session.new.mappers.items) session.new.state }
    ensures counts { CountsSink result (E.seen edge.old) (E.seen edge.new) }
    ensures names { E.names edge.new ≡ E.names edge.old }
{
    match next {
        Next::Command(command) => answer_command(rt, session, command, edge, shop),
        Next::Bad => write_then(edge, BAD_COMMAND.as_bytes(), Flow::On),
        Next::CutShort => write_then(edge, CUT_SHORT.as_bytes(), Flow::On),
        Next::NoMemory => Err(SinkError::NoMemory),
        Next::More | Next::End => unreachable!(),
    }
}

/// Answers a command. Its reply is whole before its first byte is written.
fn answer_command<P: PatternShop, M: Mapper, R: Threads + Sync, E: Edge>(
    rt: &R,
    session: &mut Session<P, M>,
    command: Command,
    edge: &mut E,
    shop: &mut P,
) -> Result<Flow, SinkError>
    ghost setting: { Setting }
    requires said { IsSaid (command_of command) }
    requires serves { Serves setting (named M.called M.image session.old.mappers.items) session.old.state }
    ensures ok { IfOk result (λ flow. Flows flow (Given (command_of command)) × Told ((E.seen edge.old).written) (λ written.
        Replied setting session.old.state.held (Given (command_of command)) session.new.state.held (beside (E.seen edge.old) (P.refused shop.old)) written (beside (E.seen edge.new) (P.refused shop.new)))) }
    ensures part { OnErr result (Told ((E.seen edge.old).written) (λ written.
        RepliedInPart setting session.old.state.held (Given (command_of command)) (beside (E.seen edge.old) (P.refused shop.old)) written (beside (E.seen edge.new) (P.refused shop.new)))) }
    ensures serves { Serves setting (named M.called M.image session.new.mappers.items) session.new.state }
    ensures counts { CountsSink result (E.seen edge.old) (E.seen edge.new) }
    ensures names { E.names edge.new ≡ E.names edge.old }
{
    let flow = flow_behind(&command);
    let reply = session.step(rt, command, edge, shop);
    write_reply(edge, reply, flow)
}

/// Whether the run goes on behind a command, whatever is answered to it.
fn flow_behind(command: &Command) -> Flow
    ensures { Flows result (Given (command_of command.now)) }
{
    match command {
        Command::Quit => Flow::Over,
        _ => Flow::On,
    }
}

/// Writes a reply, behind which the run goes on or not, and lets it go.
fn write_reply<E: Edge>(edge: &mut E, reply: Reply, flow: Flow) -> Result<Flow, SinkError>
    ensures ok { IfOk result (λ f. (f ≡ flow) × Told ((E.seen edge.old).written) (λ all. (E.seen edge.new).written ≡ Some (all ++ reply_bytes reply))) }
    ensures part { OnErr result (Told ((E.seen edge.old).written) (λ all. WroteFront (reply_bytes reply) all ((E.seen edge.new).written))) }
    ensures counts { CountsSink result (E.seen edge.old) (E.seen edge.new) }
    ensures only { E.seen edge.new ≡ writes_on (E.seen edge.old) (E.seen edge.new) }
    ensures names { E.names edge.new ≡ E.names edge.old }
{
    write_then(edge, bytes_of(&reply), flow)
}

/// The bytes of a reply.
fn bytes_of(reply: &Reply) -> &[u8]
    ensures { result.now ≡ reply_bytes reply.now }
{
    match reply {
        Reply::Refused(line) => line.as_slice(),
        Reply::Lines(lines) => lines.as_slice(),
        Reply::Last(line) => line.as_slice(),
        Reply::NoMemory => NO_MEMORY.as_bytes(),
    }
}

/// Writes a piece, behind which the run goes on or not.
fn write_then<E: Edge>(edge: &mut E, piece: &[u8], flow: Flow) -> Result<Flow, SinkError>
    ensures ok { IfOk result (λ f. (f ≡ flow) × Told ((E.seen edge.old).written) (λ all. (E.seen edge.new).written ≡ Some (all ++ piece.now))) }
    ensures part { OnErr result (Told ((E.seen edge.old).written) (λ all. WroteFront piece.now all ((E.seen edge.new).written))) }
    ensures counts { CountsSink result (E.seen edge.old) (E.seen edge.new) }
    ensures only { E.seen edge.new ≡ writes_on (E.seen edge.old) (E.seen edge.new) }
    ensures names { E.names edge.new ≡ E.names edge.old }
{
    write_all(edge, piece)?;
    Ok(flow)
}
