//! The script of a demo.

ghost use Rattle.std.specs.Prelude.{◌≡◌, ◌+◌, ◌<◌, ◌++◌, map, IfOk, OnOk};
ghost use Rattle.std.specs.List.{flat_map, range_with_len};
ghost use Rattle.mt_text_spec.specs.Lines.{closed};
ghost use Rattle.mt_generate_spec.specs.Demo.{demo_script, generate_line, grammar_lines, word_lines, merge_lines};

use itoa::Buffer;
use mt_base::{List, NoMemory};
use std::alloc::Global;

/// What is asked once the texts are there.
const QUESTIONS: &[u8] =
    b"rules 3\n*DUAL\n=modifier/modifies\n2:[tag=\"J\"] 1:[tag=\"N\"]\nsegments\ncount [tag=\"J\"] [tag=\"N\"]\n";

/// What is asked of one lemma.
const WORD_QUESTIONS: &[u8] = b"sketch 2 5 l0\nthes 5 l0\n";

/// The script of a demo over so many texts.
pub fn demo(alloc: Global, texts: u32) -> Result<List<u8>, NoMemory>
    ensures { IfOk result (λ bytes. bytes ≡ demo_script texts) }
{
    let mut out = List::new(alloc);
    push_texts(&mut out, texts)?;
    out.extend(QUESTIONS)?;
    out.extend(WORD_QUESTIONS)?;
    push_merge(&mut out, texts)?;
    out.extend(WORD_QUESTIONS)?;
    out.extend(b"segments\nquit\n")?;
    Ok(out)
}

/// Adds a line for each text.
fn push_texts(out: &mut List<u8>, texts: u32) -> Result<(), NoMemory>
    ensures { OnOk result (out.new ≡ out.old ++ flat_map closed (map generate_line (range_with_len 1 texts))) }
{
    for text in 0..texts {
        push_text(out, text + 1)?;
    }
    Ok(())
}

/// Adds the line of the text with this number.
fn push_text(out: &mut List<u8>, number: u32) -> Result<(), NoMemory>
    ensures { OnOk result (out.new ≡ out.old ++ closed (generate_line number)) }
{
    let mut buffer = Buffer::new();
    let digits = buffer.format(number).as_bytes();
    out.extend(b"generate d")?;
    out.extend(digits)?;
    out.push(b' ')?;
    out.extend(digits)?;
    out.extend(b" 20000\n")
}

/// Adds the line that merges so many texts, where there are two or more.
fn push_merge(out: &mut List<u8>, texts: u32) -> Result<(), NoMemory>
    ensures { OnOk result (out.new ≡ out.old ++ flat_map closed (merge_lines texts)) }
{
    if texts <= 1 {
        return Ok(());
    }
    let mut buffer = Buffer::new();
    out.extend(b"merge 0 ")?;
    out.extend(buffer.format(texts - 1).as_bytes())?;
    out.push(b'\n')
}
