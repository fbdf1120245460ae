//! The program: answers the script on its standard input.
#![tactic(auto)]

ghost use Rattle.std.specs.Prelude.{◌≡◌, ◌≢◌, ◌⊎◌, IfOk, IfSome};
ghost use Rattle.mt_segment.specs.Mappers.{named};
ghost use Rattle.mt_shell.specs.Ends.{EndsAs, FaultsAs};
ghost use Rattle.mt_shell.specs.Outsides.{outside};
ghost use Rattle.mt_shell.specs.Serves.{setting_of};
ghost use Rattle.mt_words.specs.Words.{texts, IsGood, AreGood};
ghost use Rattle.mt_words.specs.declared.Options.{Options};
ghost use Rattle.mt_shell.specs.Demos.{OverScript};
ghost use Rattle.mt_prog.specs.Exits.{exit_of};

mod standard;

use mt_base::NoMemory;
use mt_mapper::{Fold, Mapper, Prefix, Suffix};
use mt_outside::{Shelf, Sink, Source};
use mt_pattern::{PatternShop, RegexShop};
use mt_shell::{Status, run};
use mt_words::{WordsError, read_words};
use standard::{FolderShelf, StdinSource, StdoutSink};
use std::alloc::Global;
use std::process::ExitCode;
use std::thread::Threads;
use std::{env, io};

const USAGE: &str = "usage: corpus_shell [--workers N] [--demo N]";

fn main(rt: HostRuntime) -> ExitCode {
    let mut source = StdinSource::new(rt.stdin());
    let mut sink = StdoutSink::new(rt.stdout());
    let mut shelf = FolderShelf::new(&rt);
    let status = match words(&rt) {
        Ok(words) => match serve(&rt, rt.alloc(), &words, &mut source, &mut sink, &mut shelf) {
            Ok(status) => status,
            Err(NoMemory) => starved(rt.alloc(), &words),
        },
        Err(error) => status_of(&error),
    };
    if status == Status::Usage {
        let _ = eprintln!(rt; "{USAGE}");
    }
    ExitCode::from(exit_status(status))
}

/// The words of the command line behind the program's name.
fn words(rt: &HostRuntime) -> io::Result<Vec<String>> {
    env::args(rt)?
        .skip(1)
        .collect(rt.alloc())
        .map_err(io::Error::from)
}

/// How many characters the mappers that cut values keep at most.
const MOST_KEPT: u32 = 3;

/// Answers the script with a shop of regular expressions and every mapper of the program.
fn serve<R: Threads + Sync, S: Source, K: Sink, F: Shelf>(
    rt: &R,
    alloc: Global,
    words: &[String],
    source: &mut S,
    sink: &mut K,
    shelf: &mut F,
) -> Result<Status, NoMemory>
    ensures usage { IfOk result (λ status. status ≡ Status.Usage → AreGood (texts words.now) → ⊥) }
    ensures bad { IfOk result (λ status. (AreGood (texts words.now) → ⊥) → (status ≡ Status.Usage) ⊎ (status ≡ Status.NoMemory)) }
{
    let mut mappers: Vec<Box<dyn Mapper>> = Vec::new(alloc);
    mappers.push(Box::new(alloc, Fold::new(alloc)?)?)?;
    for n in 1..=MOST_KEPT {
        mappers.push(Box::new(alloc, Prefix::new(alloc, n)?)?)?;
        mappers.push(Box::new(alloc, Suffix::new(alloc, n)?)?)?;
    }
    let mut shop = RegexShop::new(alloc);
    Ok(answer(rt, alloc, words, source, sink, shelf, &mut shop, mappers))
}

/// How a run ends that finds no memory for the mappers.
fn starved(alloc: Global, words: &[String]) -> Status
    ensures good { AreGood (texts words.now) → result ≡ Status.NoMemory }
    ensures bad { (result ≡ Status.Usage) ⊎ (result ≡ Status.NoMemory) }
{
    match read_words(alloc, words) {
        Err(WordsError::Usage) => Status::Usage,
        _ => Status::NoMemory,
    }
}

/// Answers the script that the source gives, or a demo's, as these words of the command line say, where this shop makes the patterns and these mappers are at hand.
fn answer<P: PatternShop, M: Mapper, R: Threads + Sync, S: Source, K: Sink, F: Shelf>(
    rt: &R,
    alloc: Global,
    words: &[String],
    source: &mut S,
    sink: &mut K,
    shelf: &mut F,
    shop: &mut P,
    mappers: Vec<M>,
) -> Status
    ensures ends { (options : Options) → IsGood (texts words.now) options → OverScript options.demo (EndsAs (setting_of (named M.called M.image mappers.items)) result)
        (outside (S.left source.old) (S.faults source.old) (K.held sink.old) (K.faults sink.old) (F.files shelf.old) (F.failed shelf.old) (P.refused shop.old))
        (outside (S.left source.new) (S.faults source.new) (K.held sink.new) (K.faults sink.new) (F.files shelf.new) (F.failed shelf.new) (P.refused shop.new)) }
    ensures faults { (options : Options) → IsGood (texts words.now) options → OverScript options.demo (FaultsAs result)
        (outside (S.left source.old) (S.faults source.old) (K.held sink.old) (K.faults sink.old) (F.files shelf.old) (F.failed shelf.old) (P.refused shop.old))
        (outside (S.left source.new) (S.faults source.new) (K.held sink.new) (K.faults sink.new) (F.files shelf.new) (F.failed shelf.new) (P.refused shop.new)) }
    ensures demo { (options : Options) → IsGood (texts words.now) options → IfSome options.demo (λ _. (source.new ≡ source.old) × (result ≢ Status.SourceFault)) }
    ensures usage { result ≡ Status.Usage → AreGood (texts words.now) → ⊥ }
    ensures bad { (AreGood (texts words.now) → ⊥) → (result ≡ Status.Usage) ⊎ (result ≡ Status.NoMemory) }
{
    run(rt, alloc, words, source, sink, shelf, shop, mappers)
}

/// The status where the words cannot be had: those that are no text are not good.
fn status_of(error: &io::Error) -> Status {
    if error.kind() == io::ErrorKind::OutOfMemory {
        Status::NoMemory
    } else {
        Status::Usage
    }
}

/// The exit status of the program.
fn exit_status(status: Status) -> u8
    ensures { result ≡ exit_of status }
{
    match status {
        Status::Done => 0,
        Status::Usage => 2,
        Status::SourceFault => 3,
        Status::SinkFault => 4,
        Status::ScriptTooLong => 5,
        Status::NoMemory => 6,
    }
}
