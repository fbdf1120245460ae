//! The lines of a thesaurus.

ghost use Rattle.std.specs.Prelude.{◌≡◌, ◌+◌, ◌%◌, ◌++◌, ◌<◌, length, map, IfOk, OnOk};
ghost use Rattle.std.specs.List.{All, flat_map};
ghost use Rattle.mt_text_spec.specs.Lines.{closed};
ghost use Rattle.mt_word_sketch_spec.specs.Order.{ranked_of};
ghost use Rattle.mt_word_sketch_spec.specs.Ranks.{number_line};
ghost use Rattle.mt_word_sketch_spec.specs.Thesaurus.{alike_line, thousandths_text};
ghost use Rattle.mt_thesaurus.specs.Told.{IsSmall};

use itoa::Buffer;
use mt_base::{List, NoMemory};
use mt_ranks::RankedWord;
use std::alloc::Global;

/// The first line, which tells how many follow.
pub(crate) fn number_line(alloc: Global, count: usize) -> Result<List<u8>, NoMemory>
    ensures { IfOk result (λ line. line ≡ closed (number_line count)) }
{
    let mut line = List::new(alloc);
    line.extend(b"= ")?;
    line.extend(Buffer::new().format(count).as_bytes())?;
    line.push(b'\n')?;
    Ok(line)
}

/// The last digit of a number.
fn digit(n: u32) -> u8
    ensures { result ≡ 48 + n % 10 }
{
    b'0' + (n % 10) as u8
}

/// Appends so many thousandths with three decimals.
fn put_thousandths(count: u128, out: &mut List<u8>) -> Result<(), NoMemory>
    ensures { OnOk result (out.new ≡ out.old ++ thousandths_text count) }
{
    out.extend(Buffer::new().format(count / 1000).as_bytes())?;
    let rest = (count % 1000) as u32;
    out.extend(&[b'.', digit(rest / 10 / 10), digit(rest / 10), digit(rest)])
}

/// Appends the line of a word.
fn put_word(word: &RankedWord, out: &mut List<u8>) -> Result<(), NoMemory>
    requires { IsSmall word.now }
    ensures { OnOk result (out.new ≡ out.old ++ closed (alike_line (ranked_of word.now))) }
{
    out.extend(word.word().as_bytes())?;
    out.push(b'\t')?;
    put_thousandths(word.part() * 1000 / word.whole(), out)?;
    out.push(b'\n')
}

/// Appends a line for each word.
pub(crate) fn put_words(words: &[RankedWord], out: &mut List<u8>) -> Result<(), NoMemory>
    requires { All IsSmall words.now }
    ensures { OnOk result (out.new ≡ out.old ++ flat_map closed (map (λ word. alike_line (ranked_of word)) words.now)) }
{
    for word in words {
        put_word(word, out)?;
    }
    Ok(())
}
