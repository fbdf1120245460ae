//! Lexicons of two values, and what comes of them joined.

ghost use Rattle.std.specs.Prelude.{◌<◌, length};

use mt_base::{List, NoMemory};
use mt_lexicon::{Lexicon, LexiconBuilder, LexiconMerger, Renumbering, is_shortest};
use std::alloc::Global;
use std::test::Fail;

/// The lexicon of two values, and their numbers there.
fn lexicon_of(
    alloc: Global,
    first: &str,
    second: &str,
) -> Result<(Lexicon, Renumbering), NoMemory> {
    let mut builder = LexiconBuilder::new(alloc)?;
    builder.add(first)?;
    builder.add(second)?;
    builder.finish()
}

/// Whether the value with this number is this one.
fn has(lexicon: &Lexicon, number: u32, value: &str) -> bool {
    number < lexicon.len() && lexicon.value(number) == value
}

/// Whether a renumbering has these new numbers for the first two old ones.
fn go_to(numbers: &Renumbering, first: u32, second: u32) -> bool {
    numbers.as_slice() == [first, second].as_slice()
}

#[test]
fn numbers_by_bytes(rt: HostRuntime) -> Result<(), Fail> {
    let (lexicon, numbers) = lexicon_of(rt.alloc(), "élan vital", "élan")?;
    assert!(rt; has(&lexicon, 0, "élan") && has(&lexicon, 1, "élan vital"));
    assert!(rt; go_to(&numbers, 1, 0));
    Ok(())
}

/// Two lexicons joined.
fn merged(
    alloc: Global,
    first: &Lexicon,
    second: &Lexicon,
) -> Result<(Lexicon, List<Renumbering>), NoMemory>
    requires first { length first.now < 3 }
    requires second { length second.now < 3 }
{
    let mut merger = LexiconMerger::new(alloc)?;
    merger.add(first)?;
    merger.add(second)?;
    is_shortest();
    merger.finish()
}

/// The lexicon of `dog` and `the`, and of `ant` and `the`, and their numbers there.
fn three_values(alloc: Global) -> Result<(Lexicon, List<Renumbering>), NoMemory> {
    let first = lexicon_of(alloc, "dog", "the")?.0;
    let second = lexicon_of(alloc, "ant", "the")?.0;
    if first.len() < 3 && second.len() < 3 {
        merged(alloc, &first, &second)
    } else {
        Err(NoMemory)
    }
}

#[test]
fn merges_in_order_of_adding(rt: HostRuntime) -> Result<(), Fail> {
    let (lexicon, numbers) = three_values(rt.alloc())?;
    assert!(rt; has(&lexicon, 0, "ant") && has(&lexicon, 1, "dog") && has(&lexicon, 2, "the"));
    assert!(rt; numbers.len() == 2 && go_to(numbers.get(0), 1, 2) && go_to(numbers.get(1), 0, 2));
    Ok(())
}
