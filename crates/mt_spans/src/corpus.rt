//! Corpora of at most four texts.

ghost use Rattle.std.specs.Prelude.{◌≡◌, ◌≢◌, ◌<◌, length, false, IfOk};
ghost use Rattle.std.specs.List.{All};
ghost use Rattle.mt_text_spec.specs.Words.{IsName};
ghost use Rattle.mt_text_spec.specs.Registries.{ValidRegistry};
ghost use Rattle.mt_text_spec.specs.Registries as registries;
ghost use Rattle.mt_text_spec.specs.Texts.{ValidCorpus, ValidText};

use mt_base::{NoMemory, Registry, Text, Value};
use mt_vertical::{TextError, read_text};
use std::alloc::Global;

/// The texts of these verticals that are read, named by the first letters. They are valid together.
pub fn read_texts(
    alloc: Global,
    verticals: &[String],
    registry: &Registry,
) -> Result<Vec<Text>, NoMemory>
    requires { ValidRegistry registry.now }
    ensures { IfOk result (λ texts. ValidCorpus registry.now texts.items) }
{
    let mut texts = Vec::new(alloc);
    for vertical in verticals {
        let name = Value::new(alloc, name_of(texts.len()))?;
        add_read(
            &mut texts,
            read_text(alloc, name, vertical.as_bytes(), registry),
        )?;
    }
    Ok(texts)
}

/// The name of the text with this number.
fn name_of(number: usize) -> &'static str
    ensures { IsName result.now }
{
    match number {
        0 => "a",
        1 => "b",
        2 => "c",
        _ => "d",
    }
}

/// Adds what was read, if it is a text.
fn add_read(texts: &mut Vec<Text>, read: Result<Text, TextError>) -> Result<(), NoMemory>
    ensures { (registry : registries.Registry) → ValidCorpus registry texts.old.items → IfOk read (ValidText registry) → ValidCorpus registry texts.new.items }
{
    match read {
        Ok(text) => add(texts, text),
        Err(TextError::NoMemory) => Err(NoMemory),
        Err(_) => Ok(()),
    }
}

/// Adds a text, if there are fewer than four and none of its name.
fn add(texts: &mut Vec<Text>, text: Text) -> Result<(), NoMemory>
    ensures { (registry : registries.Registry) → ValidCorpus registry texts.old.items → ValidText registry text → ValidCorpus registry texts.new.items }
{
    if texts.len() < 4 && !is_held(texts.as_slice(), text.name().as_str()) {
        texts.push(text)?;
    }
    Ok(())
}

/// Whether a text has this name.
fn is_held(texts: &[Text], name: &str) -> bool
    ensures { result ≡ false → All (λ text. text.name ≢ name.now) texts.now }
{
    for text in texts {
        if name == text.name().as_str() {
            return true;
        }
    }
    false
}
