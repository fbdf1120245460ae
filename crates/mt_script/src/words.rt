//! The words of a command line.

ghost use Rattle.std.specs.Prelude.{◌≡◌, ◌≤◌, ◌↔◌, IsTrue, IfOk, None, Some, MatchOption};
ghost use Rattle.mt_text_spec.specs.Words.{IsName, is_name_byte};
ghost use Rattle.mt_script.specs.Headers.{IsDecimal};
ghost use Rattle.mt_script.specs.Reading.{Reads};
ghost use Rattle.mt_script.specs.Reading as reading;

use mt_base::{NoMemory, Value, is_identifier};
use std::alloc::Global;

/// Why a line was not read as a command.
#[derive(Clone, Copy, Debug, PartialEq, Eq, Drop)]
pub enum Unread {
    /// Its words have no form of a command.
    NoCommand,
    /// Out of memory.
    NoMemory,
}

impl From<NoMemory> for Unread {
    ghost use Rattle.std.specs.Prelude.{◌≡◌};
    ghost use Rattle.mt_script.specs.declared.words.Unread.TheVariants.{NoMemory as OutOfMemory};

    ghost from_gives = { λ _ e. e ≡ OutOfMemory };

    fn from(_: NoMemory) -> Self {
        Unread::NoMemory
    }
}

/// The word before the first space, and what follows that space, if there is one.
pub fn split(words: &str) -> Option<(&str, &str)>
    ensures { MatchOption result (reading.cut words.now ≡ None) (λ parts. reading.cut words.now ≡ Some (parts.0.now, parts.1.now)) }
{
    words.split_once(' ')
}

/// The word before the first space, and what follows that space.
pub fn cut(words: &str) -> Result<(&str, &str), Unread>
    ensures { Reads (λ parts. (parts.0.now, parts.1.now)) result (reading.cut words.now) }
{
    match split(words) {
        Some(parts) => Ok(parts),
        None => Err(Unread::NoCommand),
    }
}

fn is_name(word: &str) -> bool
    ensures { IsTrue result ↔ IsName word.now }
{
    let bytes = word.as_bytes();
    !bytes.is_empty()
        && bytes.len() <= 64
        && bytes[0].is_ascii_alphanumeric()
        && bytes.iter().all(|b| is_in_name(*b))
}

fn is_in_name(b: u8) -> bool
    ensures { result ≡ is_name_byte b }
{
    b.is_ascii_alphanumeric() || b == b'_' || b == b'-' || b == b'.'
}

/// Whether a word is digits with no leading zero.
fn is_decimal(word: &str) -> bool
    ensures { IsTrue result ↔ IsDecimal word.now }
{
    let bytes = word.as_bytes();
    !bytes.is_empty()
        && (bytes[0] != b'0' || bytes.len() == 1)
        && bytes.iter().all(|b| b.is_ascii_digit())
}

/// The name of a text, a file or a subcorpus.
#[tactic(auto, using(crate::proofs::Forms::name_at_yes, crate::proofs::Forms::name_at_no))]
pub fn read_name(alloc: Global, word: &str) -> Result<Value, Unread>
    ensures { Reads (λ name. name) result (reading.name_at word.now) }
{
    if is_name(word) {
        Ok(Value::new(alloc, word)?)
    } else {
        Err(Unread::NoCommand)
    }
}

/// The name of a stored corpus.
#[tactic(auto, unfolding(crate::specs::Reading::saved_name_at))]
pub fn read_saved_name(alloc: Global, word: &str) -> Result<Value, Unread>
    ensures { Reads (λ name. name) result (reading.saved_name_at word.now) }
{
    if word.len() <= 56 {
        read_name(alloc, word)
    } else {
        Err(Unread::NoCommand)
    }
}

/// The name of an attribute or a structure.
#[tactic(auto, using(crate::proofs::Forms::identifier_at_yes, crate::proofs::Forms::identifier_at_no))]
pub fn read_identifier(alloc: Global, word: &str) -> Result<Value, Unread>
    ensures { Reads (λ name. name) result (reading.identifier_at word.now) }
{
    if is_identifier(word.as_bytes()) {
        Ok(Value::new(alloc, word)?)
    } else {
        Err(Unread::NoCommand)
    }
}

/// The number that a word writes, if 64 bits hold it.
pub fn read_decimal(word: &str) -> Result<u64, Unread>
    ensures { Reads (λ n. n) result (reading.decimal_at word.now) }
{
    if is_decimal(word) {
        match word.parse::<u64>() {
            Ok(number) => Ok(number),
            Err(_) => Err(Unread::NoCommand),
        }
    } else {
        Err(Unread::NoCommand)
    }
}

/// A number from one bound to the other.
#[tactic(auto, unfolding(crate::specs::Reading::number_at))]
pub fn read_number(least: u32, most: u32, word: &str) -> Result<u32, Unread>
    ensures read { Reads (λ n. n) result (reading.number_at least most word.now) }
    ensures high { IfOk result (λ n. n ≤ most) }
{
    let number = read_decimal(word)?;
    if least as u64 <= number && number <= most as u64 {
        Ok(number as u32)
    } else {
        Err(Unread::NoCommand)
    }
}

/// A number of at most nine digits.
#[tactic(auto, unfolding(crate::specs::Reading::small_at))]
pub fn read_small(word: &str) -> Result<u32, Unread>
    ensures { Reads (λ n. n) result (reading.small_at word.now) }
{
    read_number(0, 999_999_999, word)
}

/// A number of at most this size, with or without a `-` before it.
#[tactic(auto)]
pub fn read_signed(most: u32, word: &str) -> Result<i32, Unread>
    requires { most ≤ 1000 }
    ensures { Reads (λ n. n) result (reading.signed_at most word.now) }
{
    match word.strip_prefix('-') {
        Some(digits) => read_minus(most, digits),
        None => read_plus(most, word),
    }
}

fn read_minus(most: u32, digits: &str) -> Result<i32, Unread>
    requires { most ≤ 1000 }
    ensures { Reads (λ n. n) result (reading.minus_at most digits.now) }
{
    let size = read_number(0, most, digits)?;
    Ok(-(size as i32))
}

fn read_plus(most: u32, digits: &str) -> Result<i32, Unread>
    requires { most ≤ 1000 }
    ensures { Reads (λ n. n) result (reading.plus_at most digits.now) }
{
    let size = read_number(0, most, digits)?;
    Ok(size as i32)
}

/// The rest of a line, which is not empty.
#[tactic(auto, unfolding(crate::specs::Reading::rest_at))]
pub fn read_rest(alloc: Global, text: &str) -> Result<Value, Unread>
    ensures { Reads (λ rest. rest) result (reading.rest_at text.now) }
{
    if text.is_empty() {
        Err(Unread::NoCommand)
    } else {
        Ok(Value::new(alloc, text)?)
    }
}
