//! The first fault of a registry file.

ghost use Rattle.std.specs.Prelude.{◌≡◌, option_map};
ghost use Rattle.mt_file_spec.specs.RegistryFile as spec;
ghost use Rattle.mt_registry.specs.Misstated.{IsFirstBlamed, IsFirstOf, syntax_of, first_of};
ghost use Rattle.mt_registry.specs.RegistryErrors.{bad_seen};

use super::causes::cause_of;
use super::error::{BadLine, RegistryCause};
use super::lines::{Reader, Statement};
use mt_base::{List, Value};

/// The first line that is refused, of all that were read, and the first of its causes.
pub fn first_fault(mappers: &List<Value>, reader: &Reader) -> Option<BadLine>
    ensures { IsFirstOf mappers.now reader.now.statements.items reader.now.refused (spec.unclosed_at reader.now.nesting reader.now.number) (option_map bad_seen result) }
{
    let all = reader.statements.as_slice();
    earlier(
        first_blamed(mappers, all, reader.unclosed()),
        first_syntax(reader),
    )
}

/// The first line that is refused by its form and place, or as the last where a block is left open.
fn first_syntax(reader: &Reader) -> Option<usize>
    ensures { result ≡ syntax_of reader.now.refused (spec.unclosed_at reader.now.nesting reader.now.number) }
{
    match reader.refused {
        Some(line) => Some(line),
        None => match reader.unclosed() {
            0 => None,
            line => Some(line),
        },
    }
}

/// Which comes first. In one line it is the syntax.
fn earlier(blamed: Option<BadLine>, syntax: Option<usize>) -> Option<BadLine>
    ensures { option_map bad_seen result ≡ first_of (option_map bad_seen blamed) syntax }
{
    match (blamed, syntax) {
        (None, None) => None,
        (Some(bad), None) => Some(bad),
        (None, Some(line)) => Some(BadLine {
            line,
            cause: RegistryCause::Syntax,
        }),
        (Some(bad), Some(line)) => {
            if bad.line < line {
                Some(bad)
            } else {
                Some(BadLine {
                    line,
                    cause: RegistryCause::Syntax,
                })
            }
        }
    }
}

/// The first statement that has a cause.
fn first_blamed(mappers: &List<Value>, all: &[Statement], unclosed: usize) -> Option<BadLine>
    ensures { IsFirstBlamed mappers.now all.now unclosed (option_map bad_seen result) }
{
    for at in 0..all.len() {
        let statement = &all[at];
        if let Some(cause) = cause_of(mappers, all, unclosed, &all[..at], statement) {
            return Some(BadLine {
                line: statement.line(),
                cause,
            });
        }
    }
    None
}
