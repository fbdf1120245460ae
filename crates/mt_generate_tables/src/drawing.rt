//! The tokens of a generated text, drawn.

ghost use Rattle.std.specs.Prelude.{false, ◌≡◌, ◌+◌, ◌^◌, ◌<◌, ◌≤◌, [], ◌++◌, length, replicate, IfOk, OnOk};
ghost use Rattle.std.specs.List.{All};
ghost use Rattle.std.specs.Thread.{IsSync};
ghost use Rattle.std.specs.Vec.{vec_capacity, vec_len};
ghost use Rattle.mt_lexicon.specs.Joins.{renumbered};
ghost use Rattle.mt_store_spec.specs.Lexicons.{IsLexiconOf, Renumbers};
ghost use Rattle.mt_generate_spec.specs.Generated.{tokens_from};
ghost use Rattle.mt_generate_tables.specs.Coded.{AreDrawn, AreMarked, AreMarksOfBoth, all_codes, tokens_of, values_of};

use super::coding::{ALL, code_of};
use super::numbering::{number_values, push_renumbered};
use mt_base::{List, NoMemory};
use mt_generate::Source;
use mt_inverting::joined;
use mt_lexicon::Lexicon;
use rayon::{current_num_threads, join};
use std::alloc::Global;
use std::marker::Model;
use std::thread::Threads;

/// The codes of tokens that follow each other, seen as their list.
#[derive(Drop)]
pub(crate) struct Part {
    codes: Vec<u16>,
}

impl Model for Part {
    ghost use Rattle.std.specs.Prelude.{ℕ, List};

    ghost Value = { List ℕ };

    ghost view = { λ p. p.codes.items };
}

impl Part {
    /// The codes.
    pub(crate) fn as_slice(&self) -> &[u16]
        ensures { result.now ≡ self.now }
    {
        self.codes.as_slice()
    }
}

/// The tokens of a text, by the code of each, in parts that were drawn side by side. The distinct codes among them are kept in ascending order.
#[derive(Drop)]
pub(crate) struct Draws {
    tokens: u32,
    parts: List<Part>,
    seen: Vec<u16>,
}

impl Model for Draws {
    ghost use Rattle.std.specs.Prelude.{List as Items};
    ghost use Rattle.mt_text_spec.specs.Texts.{Token};
    ghost use Rattle.mt_generate_tables.specs.Coded.{AreSeen, all_codes, tokens_of};

    ghost Value = { Items Token };

    ghost view = { λ d. tokens_of (all_codes d.parts) };

    ghost invariant = { λ d. AreSeen d.seen.items (all_codes d.parts) };
}

impl Draws {
    /// The tokens of the seed, so many. Threads draw a part each, where they are many.
    pub(crate) fn new<R: Threads + Sync>(
        rt: &R,
        alloc: Global,
        seed: u64,
        tokens: u32,
    ) -> Result<Self, NoMemory>
        ensures { IfOk result (λ draws. draws ≡ tokens_from seed 0 tokens) }
    {
        let halvings = halvings(rt, tokens);
        let drawing = draw_beside(rt, alloc, seed, 0, tokens, halvings)?;
        let seen = marked(alloc, drawing.marks.as_slice())?;
        Ok(Draws {
            tokens,
            parts: drawing.parts,
            seen,
        })
    }

    /// The lexicon of the values that the tokens have in a column, and the number there of each token's value.
    pub(crate) fn number(
        &self,
        alloc: Global,
        column: usize,
    ) -> Result<(Lexicon, Vec<u32>), NoMemory>
        requires { column < 3 }
        ensures lexicon { IfOk result (λ r. IsLexiconOf (values_of column self.now) r.0) }
        ensures numbers { IfOk result (λ r. Renumbers r.1.items (values_of column self.now) r.0) }
    {
        let (lexicon, table) = number_values(alloc, self.seen.as_slice(), column)?;
        let mut numbers = Vec::with_capacity(alloc, self.tokens as usize)?;
        push_parts(&mut numbers, &self.parts, table.as_slice())?;
        Ok((lexicon, numbers))
    }
}

/// Adds for each code of some parts what a table has in its place.
fn push_parts(numbers: &mut Vec<u32>, parts: &List<Part>, table: &[u32]) -> Result<(), NoMemory>
    requires { All (λ code. code < length table.now) (all_codes parts.now) }
    ensures { OnOk result (numbers.new.items ≡ numbers.old.items ++ renumbered table.now (all_codes parts.now)) }
{
    for k in 0..parts.len() {
        push_renumbered(numbers, parts.get(k).as_slice(), table)?;
    }
    Ok(())
}

/// The codes of some tokens, in parts, and for each of all codes whether it is among them.
#[derive(Drop)]
struct Drawing {
    parts: List<Part>,
    marks: Vec<bool>,
}

/// Threads pay where they draw so many tokens: one thread takes two milliseconds for that. Fewer are drawn as soon by one.
const MANY: u32 = 1 << 19;

/// How many times to halve so many tokens: for four threads at most, since others draw faster than their parts are put together.
fn halvings<R: Threads>(rt: &R, tokens: u32) -> usize {
    if tokens < MANY {
        return 0;
    }
    match current_num_threads(rt) {
        0 | 1 => 0,
        2 | 3 => 1,
        _ => 2,
    }
}

/// The tokens of the seed from one on, so many. They are halved so many times, and the halves are drawn side by side.
#[cycle(drawing)]
fn draw_beside<R: Threads + Sync>(
    rt: &R,
    alloc: Global,
    seed: u64,
    from: u32,
    tokens: u32,
    halvings: usize,
) -> Result<Drawing, NoMemory>
    requires { from + tokens < 2 ^ 32 }
    ensures { IfOk result (λ drawing. AreDrawn seed from tokens (all_codes drawing.parts) drawing.marks.items) }
{
    if halvings == 0 {
        return draw_part(alloc, seed, from, tokens);
    }
    let half = tokens / 2;
    let one = move || -> Result<Drawing, NoMemory>
        requires { IsSync R.row × (0 < halvings) × (from + half < 2 ^ 32) }
        ensures { IfOk result (λ drawing. AreDrawn seed from half (all_codes drawing.parts) drawing.marks.items) }
    { draw_beside(rt, alloc, seed, from, half, halvings - 1) };
    let (begin, count) = (from + half, tokens - half);
    let other = move || -> Result<Drawing, NoMemory>
        requires { IsSync R.row × (0 < halvings) × (begin + count < 2 ^ 32) }
        ensures { IfOk result (λ drawing. AreDrawn seed begin count (all_codes drawing.parts) drawing.marks.items) }
    { draw_beside(rt, alloc, seed, begin, count, halvings - 1) };
    let (one, other) = join(rt, one, other);
    put_together(one?, other?)
}

/// Tokens, and others behind them.
fn put_together(first: Drawing, others: Drawing) -> Result<Drawing, NoMemory>
    requires { length others.marks.items ≡ length first.marks.items }
    ensures { IfOk result (λ both. (both.parts ≡ first.parts ++ others.parts) × AreMarksOfBoth first.marks.items others.marks.items both.marks.items) }
{
    let mut marks = first.marks;
    mark_all(marks.as_mut_slice(), others.marks.as_slice());
    let parts = joined(first.parts, others.parts)?;
    Ok(Drawing { parts, marks })
}

/// Sets the marks that are set on another list.
fn mark_all(marks: &mut [bool], others: &[bool])
    requires { length others.now ≡ length marks.old }
    ensures { AreMarksOfBoth marks.old others.now marks.new }
{
    for place in 0..others.len() {
        if others[place] {
            marks[place] = true;
        }
    }
}

/// The tokens of the seed from one on, so many, in one part.
fn draw_part(alloc: Global, seed: u64, from: u32, tokens: u32) -> Result<Drawing, NoMemory>
    requires { from + tokens < 2 ^ 32 }
    ensures { IfOk result (λ drawing. AreDrawn seed from tokens (all_codes drawing.parts) drawing.marks.items) }
{
    let mut marks = vec![in alloc; false; ALL]?;
    let mut codes = Vec::with_capacity(alloc, tokens as usize)?;
    draw(seed, from, tokens, &mut codes, marks.as_mut_slice());
    let mut parts = List::with_capacity(alloc, 1)?;
    parts.push(Part { codes })?;
    Ok(Drawing { parts, marks })
}

/// Adds the codes of the tokens of the seed from one on, so many, for which there is room. The mark of each of them is set.
fn draw(seed: u64, from: u32, tokens: u32, codes: &mut Vec<u16>, marks: &mut [bool])
    requires fits { from + tokens < 2 ^ 32 }
    requires none { codes.old.items ≡ [] }
    requires empty { vec_len codes.old ≡ 0 }
    requires room { tokens ≤ vec_capacity codes.old }
    requires marks { marks.old ≡ replicate 2000 false }
    ensures tokens { tokens_of codes.new.items ≡ tokens_from seed from tokens }
    ensures marks { AreMarked 2000 codes.new.items marks.new }
    ensures long { length marks.new ≡ 2000 }
{
    let mut source = Source::at(seed, from);
    for _ in 0..tokens {
        let code = code_of(source.draw());
        marks[code as usize] = true;
        codes.push_reserved(code);
    }
}

/// The codes whose marks are set, in ascending order.
fn marked(alloc: Global, marks: &[bool]) -> Result<Vec<u16>, NoMemory>
    requires { length marks.now ≡ 2000 }
    ensures marks { IfOk result (λ codes. AreMarked 2000 codes.items marks.now) }
    ensures few { IfOk result (λ codes. length codes.items ≤ 2000) }
{
    let mut codes = Vec::new(alloc);
    for (code, mark) in marks.iter().enumerate() {
        if *mark {
            codes.push(code as u16)?;
        }
    }
    Ok(codes)
}
