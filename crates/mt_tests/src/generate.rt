//! Verticals, texts and scripts against what the rules give, which was found by other means.

use mt_base::{NoMemory, Text, Value};
use mt_generate::{demo, generated, generated_text};
use std::alloc::Global;

const SEVEN: &str =
    "<doc id=\"g\">\n<s>\nl64s\tN\tl64\nl366s\tV\tl366\nl660s\tN\tl660\nl133s\tJ\tl133\nl176s\tN\tl176\nl389s\tJ\tl389\nl756\tN\tl756\nl518\tV\tl518\nl459\tD\tl459\nl843\tD\tl843\n</s>\n<s>\nl388\tN\tl388\n</s>\n</doc>\n";

const DEMO: &str =
    "generate d1 1 20000\ngenerate d2 2 20000\nrules 3\n*DUAL\n=modifier/modifies\n2:[tag=\"J\"] 1:[tag=\"N\"]\nsegments\ncount [tag=\"J\"] [tag=\"N\"]\nsketch 2 5 l0\nthes 5 l0\nmerge 0 1\nsketch 2 5 l0\nthes 5 l0\nsegments\nquit\n";

/// Whether the vertical is this.
fn is_vertical(alloc: Global, name: &str, seed: u64, tokens: u32, wanted: &str) -> bool {
    match generated(alloc, name, seed, tokens) {
        Ok(bytes) => bytes.as_slice() == wanted.as_bytes(),
        Err(NoMemory) => false,
    }
}

/// The text that is made.
fn made(alloc: Global, name: &str, seed: u64, tokens: u32) -> Result<Text, NoMemory> {
    generated_text(alloc, Value::new(alloc, name)?, seed, tokens)
}

/// Whether the text has so many sentences, and its last token has this word and lemma.
fn ends_so(text: &Text, sentences: usize, word: &str, lemma: &str) -> bool {
    let tokens = text.tokens();
    let Some(last) = tokens.len().checked_sub(1) else {
        return false;
    };
    sentences < 1000
        && text.structs().len() == sentences + 1
        && tokens.value(last, 0) == word
        && tokens.value(last, 2) == lemma
}

/// Whether the text that is made ends so.
fn is_text(
    alloc: Global,
    seed: u64,
    tokens: u32,
    sentences: usize,
    word: &str,
    lemma: &str,
) -> bool {
    match made(alloc, "g", seed, tokens) {
        Ok(text) => ends_so(&text, sentences, word, lemma),
        Err(NoMemory) => false,
    }
}

/// Whether the script is this.
fn is_script(alloc: Global, texts: u32, wanted: &str) -> bool {
    match demo(alloc, texts) {
        Ok(bytes) => bytes.as_slice() == wanted.as_bytes(),
        Err(NoMemory) => false,
    }
}

#[test]
fn gives_what_the_rules_give(rt: HostRuntime) {
    let alloc = rt.alloc();
    assert!(rt; is_vertical(alloc, "g", 7, 11, SEVEN));
    assert!(rt; is_vertical(alloc, "e", 7, 0, "<doc id=\"e\">\n</doc>\n"));
    assert!(rt; is_text(alloc, 7, 11, 2, "l388", "l388"));
    assert!(rt; is_text(alloc, 1, 4000, 400, "l78", "l78"));
    assert!(rt; is_script(alloc, 2, DEMO));
}
