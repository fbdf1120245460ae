//! How texts are read from their verticals, the files that have one token a line.
#![tactic(auto)]

ghost use Rattle.std.specs.Prelude.{◌≡◌, ℕ, IfOk};
ghost use Rattle.mt_text_spec.specs.Registries.{ValidRegistry};
ghost use Rattle.mt_text_spec.specs.Texts.{ValidText};
ghost use Rattle.mt_text_spec.specs.Words.{IsName};
ghost use Rattle.mt_file_spec.specs.Vertical as spec;
ghost use Rattle.mt_file_spec.specs.Vertical.{Vertical, FirstTextFault};
ghost use Rattle.mt_vertical.specs.Causes.{text_cause_of};

mod attrs;
mod borrowed;
mod error;
mod instances;
mod laws;
mod lines;
mod outline;
mod reader;
mod rows;
mod structs;
mod tags;
mod values;

pub use borrowed::{BorrowedText, read_borrowed};
pub use error::{BadLine, TextCause, TextError};
pub use laws::{no_text_with_fault, one_fault, one_role, one_text, valid_texts};
pub use lines::token_value;
use mt_base::{Lines, Registry, Text, Value};
pub use outline::{TextOutline, read_outline};
use reader::Reader;
pub use rows::Rows;
use std::alloc::Global;

/// The text of this name that the bytes are read as, or the first line that has a cause to refuse them.
///
/// It goes over the bytes once. Beside the lists that grow it takes memory for each instance that has values; a token takes none of its own.
pub fn read_text(
    alloc: Global,
    name: Value,
    bytes: &[u8],
    registry: &Registry,
) -> Result<Text, TextError>
    requires registry { ValidRegistry registry.now }
    requires name { IsName name }
    ensures ok { IfOk result (λ text. Vertical registry.now name bytes.now text) }
    ensures valid { IfOk result (λ text. ValidText registry.now text) }
    ensures bad { (bad : BadLine) → result ≡ Err (TextError.Bad bad) → FirstTextFault registry.now bytes.now bad.line (text_cause_of bad.cause) }
{
    let mut reader = Reader::new(alloc, registry)?;
    let mut number = 0;
    for line in Lines::new(without_mark(bytes)) {
        number += 1;
        if let Some(cause) = reader.read_line(alloc, registry, line)? {
            return Err(TextError::Bad(BadLine {
                line: number,
                cause,
            }));
        }
    }
    Ok(reader.finish(alloc, name)?)
}

/// The bytes without a byte order mark in front.
pub fn without_mark(bytes: &[u8]) -> &[u8]
    ensures { result.now ≡ spec.without_mark bytes.now }
{
    match bytes.strip_prefix(b"\xEF\xBB\xBF") {
        Some(rest) => rest,
        None => bytes,
    }
}
