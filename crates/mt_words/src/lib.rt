//! The words of the command line, read by `clap`: how many workers there are, and whether a demo is run in place of a script.
#![tactic(auto)]

ghost use Rattle.std.specs.Prelude.{◌≡◌, ◌↔◌, ◌∷◌, List as Items, [], ◌<◌, ◌≤◌, ℕ, map, option_map, slice_index, IfOk, IfSome, IsErrOf, IsTrue, Option, Some, None};
ghost use Rattle.clap.specs.Words.{Text, fault_of, first_of, matches_of, rows_of, found_of, kind_of, FailsBy};
ghost use Rattle.mt_words.specs.Words.{shell, program, texts, workers_option, demo_option, value_of, AreTaken, IsNumberTo, SaysWorkers, SaysDemo, IsGood, AreGood};

use clap::error::ErrorKind;
use clap::{Arg, ArgAction, ArgMatches, Command, Error};
use std::alloc::{AllocError, Global};

/// What the words of the command line say.
#[derive(Clone, Copy, Debug, PartialEq, Eq, Drop)]
pub struct Options {
    /// How many workers there are.
    pub workers: u32,
    /// Over how many texts the demo runs that stands in place of the script, if one does.
    pub demo: Option<u32>,
}

/// Why words say no options.
#[derive(Clone, Copy, Debug, PartialEq, Eq, Drop)]
pub enum WordsError {
    /// The words are not good.
    Usage,
    /// Out of memory.
    NoMemory,
}

/// The most workers.
pub const MOST_WORKERS: u32 = 64;

/// The most texts of a demo.
pub const MOST_TEXTS: u32 = 50;

/// How many workers there are where the words say nothing of them.
pub const USUAL_WORKERS: u32 = 4;

/// The options that the words behind the program's name say.
pub fn read_words(alloc: Global, words: &[String]) -> Result<Options, WordsError>
    ensures good { IfOk result (λ options. IsGood (texts words.now) options) }
    ensures usage { IsErrOf result WordsError.Usage → AreGood (texts words.now) → ⊥ }
{
    let Ok(words) = with_program(alloc, words) else {
        return Err(WordsError::NoMemory);
    };
    let given = given_by(alloc, &words)?;
    Ok(Options {
        workers: workers_of(given.workers)?,
        demo: demo_of(given.demo)?,
    })
}

/// The words say one thing: this function proves it, and does nothing.
#[tactic(auto, using(crate::proofs::Readings::one_reading))]
pub fn one_reading()
    ensures { (words : Items Text) → (one : Options) → (other : Options) → IsGood words one → IsGood words other → one ≡ other }
{}

/// The words with the program's name before them.
fn with_program<'a>(alloc: Global, words: &'a [String]) -> Result<Vec<&'a str>, AllocError>
    ensures { IfOk result (λ all. map (λ word. word.now) all.items ≡ program ∷ texts words.now) }
{
    let mut all = Vec::new(alloc);
    all.push("corpus_shell")?;
    for word in words {
        all.push(word.as_str())?;
    }
    Ok(all)
}

/// The values of the options, as they were given.
#[derive(Drop)]
struct Given<'a> {
    workers: Option<&'a str>,
    demo: Option<&'a str>,
}

/// What the words give, of which the first is the program's name.
fn given_by<'a>(alloc: Global, words: &'a [&'a str]) -> Result<Given<'a>, WordsError>
    ensures taken { IfOk result (λ _. fault_of shell (map (λ word. word.now) words.now) ≡ []) }
    ensures workers { IfOk result (λ given. option_map (λ text. text.now) given.workers
        ≡ first_of workers_option.id (matches_of shell (map (λ word. word.now) words.now))) }
    ensures demo { IfOk result (λ given. option_map (λ text. text.now) given.demo
        ≡ first_of demo_option.id (matches_of shell (map (λ word. word.now) words.now))) }
    ensures usage { IsErrOf result WordsError.Usage → fault_of shell (map (λ word. word.now) words.now) ≡ [] → ⊥ }
{
    match parse(alloc, words) {
        Ok(matches) => Ok(Given {
            workers: matches.get_str("workers"),
            demo: matches.get_str("demo"),
        }),
        Err(error) => Err(refusal(&error)),
    }
}

/// Parses the words, of which the first is the program's name.
fn parse<'a>(alloc: Global, words: &'a [&'a str]) -> Result<ArgMatches<'a>, Error>
    ensures values { IfOk result (λ found. rows_of (found_of found) ≡ matches_of shell (map (λ word. word.now) words.now)) }
    ensures kinds { FailsBy (fault_of shell (map (λ word. word.now) words.now)) result }
{
    let workers = Arg::new(alloc, "workers")
        .long("workers")
        .action(ArgAction::Set);
    let demo = Arg::new(alloc, "demo").long("demo").action(ArgAction::Set);
    let command = Command::new(alloc, "corpus_shell").arg(workers)?.arg(demo)?;
    command.try_get_matches_from(words)
}

/// What an error of `clap` says of the words.
fn refusal(error: &Error) -> WordsError
    ensures { result ≡ WordsError.Usage → kind_of error.now ≡ ErrorKind.OutOfMemory → ⊥ }
{
    if error.kind() == ErrorKind::OutOfMemory {
        WordsError::NoMemory
    } else {
        WordsError::Usage
    }
}

/// The number of workers that a value says, if one is given.
fn workers_of(given: Option<&str>) -> Result<u32, WordsError>
    ensures said { IfOk result (SaysWorkers (option_map (λ text. text.now) given.entry)) }
    ensures usage { IsErrOf result WordsError.Usage → (workers : ℕ) → SaysWorkers (option_map (λ text. text.now) given.entry) workers → ⊥ }
{
    match given {
        None => Ok(USUAL_WORKERS),
        Some(text) => number_to(MOST_WORKERS, text).ok_or(WordsError::Usage),
    }
}

/// The number of texts of a demo that a value says, if one is given.
fn demo_of(given: Option<&str>) -> Result<Option<u32>, WordsError>
    ensures said { IfOk result (SaysDemo (option_map (λ text. text.now) given.entry)) }
    ensures usage { IsErrOf result WordsError.Usage → (demo : Option ℕ) → SaysDemo (option_map (λ text. text.now) given.entry) demo → ⊥ }
{
    match given {
        None => Ok(None),
        Some(text) => match number_to(MOST_TEXTS, text) {
            Some(number) => Ok(Some(number)),
            None => Err(WordsError::Usage),
        },
    }
}

/// The number from 1 to the greatest that a text writes in decimal.
fn number_to(greatest: u32, text: &str) -> Option<u32>
    ensures some { IfSome result (IsNumberTo greatest text.now) }
    ensures none { result ≡ None → (number : ℕ) → IsNumberTo greatest text.now number → ⊥ }
{
    if !begins_number(text) {
        return None;
    }
    match text.parse::<u32>() {
        Ok(number) if number <= greatest => Some(number),
        _ => None,
    }
}

/// Whether a text begins with neither a sign nor a zero, but with what is greater than a zero.
fn begins_number(text: &str) -> bool
    ensures { IsTrue result ↔ (48 < slice_index text.now 0) }
{
    let bytes = text.as_bytes();
    !bytes.is_empty() && bytes[0] > b'0'
}
