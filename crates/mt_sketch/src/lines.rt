//! The lines of a sketch.

ghost use Rattle.std.specs.Prelude.{◌≡◌, ◌∷◌, ◌++◌, OnOk};
ghost use Rattle.std.specs.Fmt.{decimal};
ghost use Rattle.std.specs.List.{All};
ghost use Rattle.mt_sketch.specs.Told.{AppendsEach, AppendsLine, IsLineOf, IsScored, heading_text};

use itoa::Buffer;
use mt_base::{List, NoMemory};
use mt_counts::Head;
use mt_ranks::RankedWord;
use mt_score::{score, write_sixteenths};

/// Appends a byte and a number.
pub(crate) fn put_number(mark: u8, number: u64, out: &mut List<u8>) -> Result<(), NoMemory>
    ensures { OnOk result (out.new ≡ out.old ++ mark ∷ decimal number) }
{
    out.push(mark)?;
    out.extend(Buffer::new().format(number).as_bytes())
}

/// Appends the name of a relation, and how often the lemma stands in it.
pub(crate) fn put_heading(heading: &Head, out: &mut List<u8>) -> Result<(), NoMemory>
    ensures { OnOk result (out.new ≡ out.old ++ heading_text heading.now) }
{
    out.extend(heading.name.as_str().as_bytes())?;
    put_number(b'\t', heading.count, out)
}

/// Appends the line of a word.
fn put_word(word: &RankedWord, out: &mut List<u8>) -> Result<(), NoMemory>
    requires { IsScored word.now }
    ensures { OnOk result (AppendsLine (IsLineOf word.now) out.old out.new) }
{
    let score = score(word.part(), word.whole());
    out.push(b'\t')?;
    out.extend(word.word().as_bytes())?;
    put_number(b'\t', (word.part() / 2) as u64, out)?;
    out.push(b'\t')?;
    write_sixteenths(score, out)?;
    out.push(b'\n')
}

/// Appends a line for each word.
pub(crate) fn put_words(words: &List<RankedWord>, out: &mut List<u8>) -> Result<(), NoMemory>
    requires { All IsScored words.now }
    ensures { OnOk result (AppendsEach IsLineOf words.now out.old out.new) }
{
    for word in words.as_slice() {
        put_word(word, out)?;
    }
    Ok(())
}
