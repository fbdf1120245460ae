//! The run of a whole script.

ghost use Rattle.std.specs.Prelude.{◌≡◌, ◌≢◌, ◌<◌, ◌≤◌, ◌⊎◌, [], length, false, None, Some, IfSome};
ghost use Rattle.mt_outside.specs.Told.{Told};
ghost use Rattle.mt_outside.specs.Faults.{Rose};
ghost use Rattle.mt_session_spec.specs.Runs.{script_bytes_limit};
ghost use Rattle.mt_segment.specs.Mappers.{named};
ghost use Rattle.mt_session_spec.specs.Settings.{Setting};
ghost use Rattle.mt_shell.specs.Outsides.{beside, outside};
ghost use Rattle.mt_shell.specs.Serves.{Serves, first_kept, setting_of};
ghost use Rattle.mt_generate_spec.specs.Demo.{demo_script};
ghost use Rattle.mt_words.specs.Words.{texts, IsGood, AreGood};
ghost use Rattle.mt_shell.specs.Demos.{OverScript, script_of};
ghost use Rattle.mt_shell.specs.Ends.{EndsAs, FaultsAs, IsLong, IsTheAnswer, FinishesAs, FinishCounts};

use super::edge::{Edge, Objects};
use super::laws::ends_are_answers;
use super::script::Script;
use super::talk::{Flow, Talk};
use mt_generate::demo;
use mt_mapper::Mapper;
use mt_outside::{Failed, Shelf, Sink, SinkError, Source};
use mt_pattern::PatternShop;
use mt_words::{Options, WordsError, one_reading, read_words};
use std::alloc::Global;
use std::mem::forget;
use std::thread::Threads;

/// How a run ended.
#[derive(Clone, Copy, Debug, PartialEq, Eq, Drop)]
pub enum Status {
    /// The script was read to its end or to a `quit`, and every reply was written.
    Done,
    /// The words of the command line are not good. Nothing was read or written.
    Usage,
    /// The source failed.
    SourceFault,
    /// The sink failed.
    SinkFault,
    /// The script has more bytes than a script may have.
    ScriptTooLong,
    /// Out of memory.
    NoMemory,
}

/// The most bytes of a script.
pub const SCRIPT_BYTES_LIMIT: usize = 268_435_456;

/// So many bytes are read at once.
const BLOCK: usize = 65_536;

/// Answers the script that the source gives, or with a demo the demo's, and writes each reply before more is read.
///
/// The words are those of the command line behind the program's name. They are good where they say options. What the session holds at the end is not given back, since
/// the program ends with it.
pub fn run<P: PatternShop, M: Mapper, R: Threads + Sync, S: Source, K: Sink, F: Shelf>(
    rt: &R,
    alloc: Global,
    words: &[String],
    source: &mut S,
    sink: &mut K,
    shelf: &mut F,
    shop: &mut P,
    mappers: Vec<M>,
) -> Status
    // What is read and written: the replies to the script, as far as it was read, over the files of the shelf. The first fault of source or sink ends the run.
    ensures ends { (options : Options) → IsGood (texts words.now) options → OverScript options.demo (EndsAs (setting_of (named M.called M.image mappers.items)) result)
        (outside (S.left source.old) (S.faults source.old) (K.held sink.old) (K.faults sink.old) (F.files shelf.old) (F.failed shelf.old) (P.refused shop.old))
        (outside (S.left source.new) (S.faults source.new) (K.held sink.new) (K.faults sink.new) (F.files shelf.new) (F.failed shelf.new) (P.refused shop.new)) }
    ensures faults { (options : Options) → IsGood (texts words.now) options → OverScript options.demo (FaultsAs result)
        (outside (S.left source.old) (S.faults source.old) (K.held sink.old) (K.faults sink.old) (F.files shelf.old) (F.failed shelf.old) (P.refused shop.old))
        (outside (S.left source.new) (S.faults source.new) (K.held sink.new) (K.faults sink.new) (F.files shelf.new) (F.failed shelf.new) (P.refused shop.new)) }
    // Where the run is done, no call of the shelf failed and no reply is out of memory, the bytes written are the one answer of the script.
    ensures one { result ≡ Status.Done → (options : Options) → IsGood (texts words.now) options → OverScript options.demo (IsTheAnswer (setting_of (named M.called M.image mappers.items)))
        (outside (S.left source.old) (S.faults source.old) (K.held sink.old) (K.faults sink.old) (F.files shelf.old) (F.failed shelf.old) (P.refused shop.old))
        (outside (S.left source.new) (S.faults source.new) (K.held sink.new) (K.faults sink.new) (F.files shelf.new) (F.failed shelf.new) (P.refused shop.new)) }
    // With a demo the source is not read, so it is no cause of an end.
    ensures demo { (options : Options) → IsGood (texts words.now) options → IfSome options.demo (λ _. (source.new ≡ source.old) × (result ≢ Status.SourceFault)) }

    // Each other end has its cause.
    ensures usage { result ≡ Status.Usage → AreGood (texts words.now) → ⊥ }
    ensures bad { (AreGood (texts words.now) → ⊥) → (result ≡ Status.Usage) ⊎ (result ≡ Status.NoMemory) }
    ensures untouched { (AreGood (texts words.now) → ⊥) → (source.new ≡ source.old) × (sink.new ≡ sink.old) × (shelf.new ≡ shelf.old) × (shop.new ≡ shop.old) }
    ensures is_long { result ≡ Status.ScriptTooLong → (options : Options) → IsGood (texts words.now) options →
        Told (script_of options.demo (S.left source.old)) (λ input. script_bytes_limit < length input) }
    // With good words, no fault and a script that is not too long the run is done, or memory ran out.
    ensures complete { (options : Options) → IsGood (texts words.now) options → (Rose (S.faults source.old) (S.faults source.new) → ⊥) → (Rose (K.faults sink.old) (K.faults sink.new) → ⊥) →
        Told (script_of options.demo (S.left source.old)) (λ input. length input ≤ script_bytes_limit → (result ≡ Status.Done) ⊎ (result ≡ Status.NoMemory)) }
{
    one_reading();
    match read_words(alloc, words) {
        Ok(options) => answer_by(rt, alloc, options, source, sink, shelf, shop, mappers),
        Err(WordsError::Usage) => Status::Usage,
        Err(WordsError::NoMemory) => Status::NoMemory,
    }
}

/// Answers the script that the options say.
fn answer_by<P: PatternShop, M: Mapper, R: Threads + Sync, S: Source, K: Sink, F: Shelf>(
    rt: &R,
    alloc: Global,
    options: Options,
    source: &mut S,
    sink: &mut K,
    shelf: &mut F,
    shop: &mut P,
    mappers: Vec<M>,
) -> Status
    ensures ends { OverScript options.demo (EndsAs (setting_of (named M.called M.image mappers.items)) result)
        (outside (S.left source.old) (S.faults source.old) (K.held sink.old) (K.faults sink.old) (F.files shelf.old) (F.failed shelf.old) (P.refused shop.old))
        (outside (S.left source.new) (S.faults source.new) (K.held sink.new) (K.faults sink.new) (F.files shelf.new) (F.failed shelf.new) (P.refused shop.new)) }
    ensures faults { OverScript options.demo (FaultsAs result)
        (outside (S.left source.old) (S.faults source.old) (K.held sink.old) (K.faults sink.old) (F.files shelf.old) (F.failed shelf.old) (P.refused shop.old))
        (outside (S.left source.new) (S.faults source.new) (K.held sink.new) (K.faults sink.new) (F.files shelf.new) (F.failed shelf.new) (P.refused shop.new)) }
    ensures one { result ≡ Status.Done → OverScript options.demo (IsTheAnswer (setting_of (named M.called M.image mappers.items)))
        (outside (S.left source.old) (S.faults source.old) (K.held sink.old) (K.faults sink.old) (F.files shelf.old) (F.failed shelf.old) (P.refused shop.old))
        (outside (S.left source.new) (S.faults source.new) (K.held sink.new) (K.faults sink.new) (F.files shelf.new) (F.failed shelf.new) (P.refused shop.new)) }
    ensures demo { IfSome options.demo (λ _. (source.new ≡ source.old) × (result ≢ Status.SourceFault)) }
    ensures is_long { result ≡ Status.ScriptTooLong → Told (script_of options.demo (S.left source.old)) (λ input. script_bytes_limit < length input) }
    ensures complete { (Rose (S.faults source.old) (S.faults source.new) → ⊥) → (Rose (K.faults sink.old) (K.faults sink.new) → ⊥) →
        Told (script_of options.demo (S.left source.old)) (λ input. length input ≤ script_bytes_limit → (result ≡ Status.Done) ⊎ (result ≡ Status.NoMemory)) }
    ensures good { result ≢ Status.Usage }
{
    match options.demo {
        None => answer_script(rt, alloc, source, sink, shelf, shop, mappers),
        Some(number) => answer_demo(rt, alloc, number, sink, shelf, shop, mappers),
    }
}

/// Answers the script of the demo over so many texts.
fn answer_demo<P: PatternShop, M: Mapper, R: Threads + Sync, K: Sink, F: Shelf>(
    rt: &R,
    alloc: Global,
    number: u32,
    sink: &mut K,
    shelf: &mut F,
    shop: &mut P,
    mappers: Vec<M>,
) -> Status
    ensures ends { OverScript (Some number) (EndsAs (setting_of (named M.called M.image mappers.items)) result)
        (outside None 0 (K.held sink.old) (K.faults sink.old) (F.files shelf.old) (F.failed shelf.old) (P.refused shop.old))
        (outside None 0 (K.held sink.new) (K.faults sink.new) (F.files shelf.new) (F.failed shelf.new) (P.refused shop.new)) }
    ensures faults { OverScript (Some number) (FaultsAs result)
        (outside None 0 (K.held sink.old) (K.faults sink.old) (F.files shelf.old) (F.failed shelf.old) (P.refused shop.old))
        (outside None 0 (K.held sink.new) (K.faults sink.new) (F.files shelf.new) (F.failed shelf.new) (P.refused shop.new)) }
    ensures one { result ≡ Status.Done → OverScript (Some number) (IsTheAnswer (setting_of (named M.called M.image mappers.items)))
        (outside None 0 (K.held sink.old) (K.faults sink.old) (F.files shelf.old) (F.failed shelf.old) (P.refused shop.old))
        (outside None 0 (K.held sink.new) (K.faults sink.new) (F.files shelf.new) (F.failed shelf.new) (P.refused shop.new)) }
    ensures is_long { result ≡ Status.ScriptTooLong → script_bytes_limit < length (demo_script number) }
    ensures complete { (Rose (K.faults sink.old) (K.faults sink.new) → ⊥) → length (demo_script number) ≤ script_bytes_limit →
        (result ≡ Status.Done) ⊎ (result ≡ Status.NoMemory) }
    ensures good { (result ≢ Status.Usage) × (result ≢ Status.SourceFault) }
{
    let Ok(bytes) = demo(alloc, number) else {
        return Status::NoMemory;
    };
    let mut script = Script::new(bytes);
    answer_script(rt, alloc, &mut script, sink, shelf, shop, mappers)
}

/// Answers the script that a source gives.
fn answer_script<P: PatternShop, M: Mapper, R: Threads + Sync, S: Source, K: Sink, F: Shelf>(
    rt: &R,
    alloc: Global,
    source: &mut S,
    sink: &mut K,
    shelf: &mut F,
    shop: &mut P,
    mappers: Vec<M>,
) -> Status
    ensures ends { EndsAs (setting_of (named M.called M.image mappers.items)) result
        (outside (S.left source.old) (S.faults source.old) (K.held sink.old) (K.faults sink.old) (F.files shelf.old) (F.failed shelf.old) (P.refused shop.old))
        (outside (S.left source.new) (S.faults source.new) (K.held sink.new) (K.faults sink.new) (F.files shelf.new) (F.failed shelf.new) (P.refused shop.new)) }
    ensures faults { FaultsAs result
        (outside (S.left source.old) (S.faults source.old) (K.held sink.old) (K.faults sink.old) (F.files shelf.old) (F.failed shelf.old) (P.refused shop.old))
        (outside (S.left source.new) (S.faults source.new) (K.held sink.new) (K.faults sink.new) (F.files shelf.new) (F.failed shelf.new) (P.refused shop.new)) }
    ensures one { result ≡ Status.Done → IsTheAnswer (setting_of (named M.called M.image mappers.items))
        (outside (S.left source.old) (S.faults source.old) (K.held sink.old) (K.faults sink.old) (F.files shelf.old) (F.failed shelf.old) (P.refused shop.old))
        (outside (S.left source.new) (S.faults source.new) (K.held sink.new) (K.faults sink.new) (F.files shelf.new) (F.failed shelf.new) (P.refused shop.new)) }
    ensures is_long { result ≡ Status.ScriptTooLong → IsLong
        (outside (S.left source.old) (S.faults source.old) (K.held sink.old) (K.faults sink.old) (F.files shelf.old) (F.failed shelf.old) (P.refused shop.old)) }
    ensures complete { (Rose (S.faults source.old) (S.faults source.new) → ⊥) → (Rose (K.faults sink.old) (K.faults sink.new) → ⊥) →
        Told (S.left source.old) (λ input. length input ≤ script_bytes_limit → (result ≡ Status.Done) ⊎ (result ≡ Status.NoMemory)) }
    ensures good { result ≢ Status.Usage }
{
    let Ok(mut block) = vec![in alloc; 0; BLOCK] else {
        return Status::NoMemory;
    };
    let Ok(mut talk) = Talk::new(alloc, mappers) else {
        return Status::NoMemory;
    };
    ends_are_answers();
    let status = converse_over(rt, &mut talk, &mut block, source, sink, shelf, shop);
    // The blocks of many small segments go with the program in far less time than it takes to give each of them back.
    forget(talk);
    status
}

/// Reads the script from the source and answers it to the sink, over the files of the shelf.
fn converse_over<P: PatternShop, M: Mapper, R: Threads + Sync, S: Source, K: Sink, F: Shelf>(
    rt: &R,
    talk: &mut Talk<P, M>,
    block: &mut [u8],
    source: &mut S,
    sink: &mut K,
    shelf: &mut F,
    shop: &mut P,
) -> Status
    ghost setting: { Setting }
    requires reader { talk.old.reader ≡ record { bytes = []; ended = false } }
    requires state { talk.old.session.state ≡ first_kept }
    requires serves { Serves setting (named M.called M.image talk.old.session.mappers.items) talk.old.session.state }
    requires block { length block.old ≡ BLOCK }
    ensures ends { EndsAs setting result
        (outside (S.left source.old) (S.faults source.old) (K.held sink.old) (K.faults sink.old) (F.files shelf.old) (F.failed shelf.old) (P.refused shop.old))
        (outside (S.left source.new) (S.faults source.new) (K.held sink.new) (K.faults sink.new) (F.files shelf.new) (F.failed shelf.new) (P.refused shop.new)) }
    ensures faults { FaultsAs result
        (outside (S.left source.old) (S.faults source.old) (K.held sink.old) (K.faults sink.old) (F.files shelf.old) (F.failed shelf.old) (P.refused shop.old))
        (outside (S.left source.new) (S.faults source.new) (K.held sink.new) (K.faults sink.new) (F.files shelf.new) (F.failed shelf.new) (P.refused shop.new)) }
    ensures is_long { result ≡ Status.ScriptTooLong → IsLong
        (outside (S.left source.old) (S.faults source.old) (K.held sink.old) (K.faults sink.old) (F.files shelf.old) (F.failed shelf.old) (P.refused shop.old)) }
    ensures good { result ≢ Status.Usage }
{
    let mut objects = Objects {
        source,
        sink,
        shelf,
    };
    converse(rt, talk, block, &mut objects, shop)
}

/// Reads the script and answers it, up to its limit and one byte more.
fn converse<P: PatternShop, M: Mapper, R: Threads + Sync, E: Edge>(
    rt: &R,
    talk: &mut Talk<P, M>,
    block: &mut [u8],
    edge: &mut E,
    shop: &mut P,
) -> Status
    ghost setting: { Setting }
    requires reader { talk.old.reader ≡ record { bytes = []; ended = false } }
    requires state { talk.old.session.state ≡ first_kept }
    requires serves { Serves setting (named M.called M.image talk.old.session.mappers.items) talk.old.session.state }
    requires block { length block.old ≡ BLOCK }
    ensures ends { EndsAs setting result (beside (E.seen edge.old) (P.refused shop.old)) (beside (E.seen edge.new) (P.refused shop.new)) }
    ensures faults { FaultsAs result (beside (E.seen edge.old) (P.refused shop.old)) (beside (E.seen edge.new) (P.refused shop.new)) }
    ensures is_long { result ≡ Status.ScriptTooLong → IsLong (beside (E.seen edge.old) (P.refused shop.old)) }
    ensures good { result ≢ Status.Usage }
    ensures names { E.names edge.new ≡ E.names edge.old }
{
    let mut taken = 0;
    while taken < SCRIPT_BYTES_LIMIT {
        let room = BLOCK.min(SCRIPT_BYTES_LIMIT - taken);
        let Ok(n) = edge.read(&mut block[..room]) else {
            return Status::SourceFault;
        };
        if n == 0 {
            return finish(rt, talk, edge, shop);
        }
        match talk.take(rt, &block[..n], edge, shop) {
            Ok(Flow::On) => taken += n,
            Ok(Flow::Over) => return Status::Done,
            Err(error) => return status_of(error),
        }
    }
    match edge.read(&mut block[..1]) {
        Ok(0) => finish(rt, talk, edge, shop),
        Ok(_) => Status::ScriptTooLong,
        Err(Failed) => Status::SourceFault,
    }
}

/// Answers what is left where the script has ended.
fn finish<P: PatternShop, M: Mapper, R: Threads + Sync, E: Edge>(
    rt: &R,
    talk: &mut Talk<P, M>,
    edge: &mut E,
    shop: &mut P,
) -> Status
    ghost setting: { Setting }
    requires { Serves setting (named M.called M.image talk.old.session.mappers.items) talk.old.session.state }
    ensures ends { Told ((E.seen edge.old).written) (λ written.
        FinishesAs setting result talk.old.reader.bytes talk.old.session.state.held talk.new.session.state.held
        (beside (E.seen edge.old) (P.refused shop.old)) written (beside (E.seen edge.new) (P.refused shop.new))) }
    ensures counts { FinishCounts result (E.seen edge.old) (E.seen edge.new) }
    ensures names { E.names edge.new ≡ E.names edge.old }
{
    match talk.finish(rt, edge, shop) {
        Ok(Flow::On) => Status::Done,
        Ok(Flow::Over) => Status::Done,
        Err(error) => status_of(error),
    }
}

/// How a run ends where the sink took no more.
fn status_of(error: SinkError) -> Status
    ensures failed { error ≡ SinkError.Failed → result ≡ Status.SinkFault }
    ensures starved { error ≡ SinkError.NoMemory → result ≡ Status.NoMemory }
{
    match error {
        SinkError::Failed => Status::SinkFault,
        SinkError::NoMemory => Status::NoMemory,
    }
}
