//! The lines of a reply.

ghost use Rattle.std.specs.Prelude.{◌≡◌, ◌^◌, ◌<◌, ◌∷◌, ◌++◌, ℕ, List as Items, length, map, take, OnOk, OnErr};
ghost use Rattle.std.specs.Fmt.{decimal};
ghost use Rattle.std.specs.List.{flat_map};
ghost use Rattle.mt_text_spec.specs.Lines.{closed};
ghost use Rattle.mt_sketch_spec.specs.Score.{sixteenths_text};
ghost use Rattle.mt_report_spec.specs.Counts.{collocate_line, frequency_line, number_line};

use super::collocate::Collocate;
use super::entry::Frequency;
use itoa::Buffer;
use mt_base::{List, NoMemory};
use mt_reports::written::put_number;
use mt_score::write_sixteenths;

/// What a line of a list tells.
pub(crate) trait Listed {
    /// The line.
    ghost line: { Self → Items ℕ };

    /// Appends the line. Without memory a part of it may be there.
    fn put(&self, out: &mut List<u8>) -> Result<(), NoMemory>
        ensures ok { OnOk result (out.new ≡ out.old ++ closed (line self.now)) }
        ensures err { OnErr result (take (length out.old) out.new ≡ out.old) };
}

impl<'a> Listed for Frequency<'a> {
    ghost line = { frequency_line };

    fn put(&self, out: &mut List<u8>) -> Result<(), NoMemory> {
        out.extend(self.value.as_bytes())?;
        put_number(b'\t', self.spans, out)?;
        out.push(b'\n')
    }
}

impl<'a> Listed for Collocate<'a> {
    ghost line = { collocate_line };

    fn put(&self, out: &mut List<u8>) -> Result<(), NoMemory> {
        out.extend(self.value.as_bytes())?;
        put_number(b'\t', self.both, out)?;
        put_tokens(self.tokens, out)?;
        put_score(self.score, out)?;
        out.push(b'\n')
    }
}

/// Appends a tab and a number of tokens. Without memory the tab may be there.
fn put_tokens(tokens: u64, out: &mut List<u8>) -> Result<(), NoMemory>
    ensures ok { OnOk result (out.new ≡ out.old ++ 9 ∷ decimal tokens) }
    ensures err { OnErr result (take (length out.old) out.new ≡ out.old) }
{
    out.push(b'\t')?;
    out.extend(Buffer::new().format(tokens).as_bytes())
}

/// Appends a tab and a score in sixteenths. Without memory the tab may be there.
fn put_score(score: i32, out: &mut List<u8>) -> Result<(), NoMemory>
    ensures ok { OnOk result (out.new ≡ out.old ++ 9 ∷ sixteenths_text score) }
    ensures err { OnErr result (take (length out.old) out.new ≡ out.old) }
{
    out.push(b'\t')?;
    write_sixteenths(score, out)
}

/// Appends the first line of a list, which says how many lines follow. Without memory a part of it may be there.
fn put_count(count: u32, out: &mut List<u8>) -> Result<(), NoMemory>
    ensures ok { OnOk result (out.new ≡ out.old ++ closed (number_line count)) }
    ensures err { OnErr result (take (length out.old) out.new ≡ out.old) }
{
    out.push(b'=')?;
    put_number(b' ', count, out)?;
    out.push(b'\n')
}

/// Appends the lines of a list. Without memory a part of them may be there.
fn put_all<L: Listed>(all: &[L], out: &mut List<u8>) -> Result<(), NoMemory>
    requires { length all.now < 2 ^ 32 }
    ensures ok { OnOk result (out.new ≡ out.old ++ flat_map closed (number_line (length all.now) ∷ map L.line all.now)) }
    ensures err { OnErr result (take (length out.old) out.new ≡ out.old) }
{
    put_count(all.len() as u32, out)?;
    for one in all {
        one.put(out)?;
    }
    Ok(())
}

/// Appends the lines of a list: how many there are, and each. Without memory nothing changes.
pub(crate) fn put_list<L: Listed>(all: &[L], out: &mut List<u8>) -> Result<(), NoMemory>
    requires { length all.now < 2 ^ 32 }
    ensures ok { OnOk result (out.new ≡ out.old ++ flat_map closed (number_line (length all.now) ∷ map L.line all.now)) }
    ensures err { OnErr result (out.new ≡ out.old) }
{
    let kept = out.len();
    match put_all(all, out) {
        Ok(()) => Ok(()),
        Err(NoMemory) => {
            out.truncate(kept);
            Err(NoMemory)
        }
    }
}
