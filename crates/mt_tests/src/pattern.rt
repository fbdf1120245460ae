//! Which values patterns accept, and which texts are no patterns.

use mt_base::NoMemory;
use mt_lexicon::{Lexicon, LexiconBuilder};
use mt_pattern::{IdSet, IdsError, PatternShop, RegexShop, ids};
use std::alloc::Global;
use std::test::Fail;

/// The lexicon of the empty value, `Cat`, `cat`, `category` and `the`, in this order.
fn five_values(alloc: Global) -> Result<Lexicon, NoMemory> {
    let mut builder = LexiconBuilder::new(alloc)?;
    builder.add("the")?;
    builder.add("category")?;
    builder.add("cat")?;
    builder.add("Cat")?;
    builder.add("")?;
    Ok(builder.finish()?.0)
}

/// Whether a set has just the numbers at which a 1 stands.
fn has_just(set: &IdSet, digits: &str) -> bool {
    let mut id = 0u32;
    for digit in digits.as_bytes() {
        if *digit != (if set.has(id) { b'1' } else { b'0' }) {
            return false;
        }
        id = id.saturating_add(1);
    }
    true
}

/// Whether a pattern accepts these values, a 1 for each that it accepts, and one for the number behind the last; or is refused for this cause.
fn is_answered<P: PatternShop>(
    alloc: Global,
    lexicon: &Lexicon,
    text: &str,
    shop: &mut P,
    wanted: &str,
) -> Result<bool, NoMemory> {
    match ids(alloc, lexicon, text, shop) {
        Ok(set) => Ok(has_just(&set, wanted)),
        Err(IdsError::Syntax) => Ok(wanted == "syntax"),
        Err(IdsError::Refused) => Ok(wanted == "refused"),
        Err(IdsError::NoMemory) => Err(NoMemory),
    }
}

/// Whether the patterns of a table are answered as it says.
fn are_answered<P: PatternShop>(
    alloc: Global,
    lexicon: &Lexicon,
    shop: &mut P,
    table: &[(&str, &str)],
) -> Result<bool, NoMemory> {
    for (text, wanted) in table {
        if !is_answered(alloc, lexicon, text, shop, wanted)? {
            return Ok(false);
        }
    }
    Ok(true)
}

#[test]
fn patterns_take_whole_values(rt: HostRuntime) -> Result<(), Fail> {
    let table = [
        ("cat", "001000"),
        ("ca", "000000"),
        ("at", "000000"),
        ("ca.*", "001100"),
        ("c|the|x", "000010"),
        ("the$|^cat", "001010"),
        ("(?i)cat", "011000"),
        ("", "100000"),
        (".*", "111110"),
        ("[a-z]+", "001110"),
        ("(", "syntax"),
        ("cat)|(?:the", "syntax"),
        ("(?x)cat #", "syntax"),
        (r"(?:\w{100}){1000}", "refused"),
    ];
    let lexicon = five_values(rt.alloc())?;
    let mut shop = RegexShop::new(rt.alloc());
    assert!(rt; are_answered(rt.alloc(), &lexicon, &mut shop, &table)?);
    Ok(())
}

/// So many groups within one another.
fn nested(alloc: Global, depth: u32) -> Result<String, NoMemory> {
    let mut text = String::new(alloc);
    for _ in 0..depth {
        text.push('(')?;
    }
    for _ in 0..depth {
        text.push(')')?;
    }
    Ok(text)
}

/// Whether so many groups are built, and what they accept in a lexicon.
fn is_nested(
    alloc: Global,
    lexicon: &Lexicon,
    depth: u32,
    built: bool,
    wanted: &str,
) -> Result<bool, NoMemory> {
    let text = nested(alloc, depth)?;
    let mut shop = RegexShop::new(alloc);
    Ok(
        shop.build(alloc, text.as_str()).is_ok() == built
            && is_answered(alloc, lexicon, text.as_str(), &mut shop, wanted)?,
    )
}

#[test]
fn nesting_is_limited_alone_and_wrapped(rt: HostRuntime) -> Result<(), Fail> {
    let lexicon = five_values(rt.alloc())?;
    assert!(rt; is_nested(rt.alloc(), &lexicon, 248, true, "100000")?);
    assert!(rt; is_nested(rt.alloc(), &lexicon, 250, true, "syntax")?);
    assert!(rt; is_nested(rt.alloc(), &lexicon, 251, false, "syntax")?);
    Ok(())
}
