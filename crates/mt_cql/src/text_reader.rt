//! Reading a query from its text.

ghost use Rattle.std.specs.Prelude.{◌≡◌, ◌+◌, ◌≤◌, ◌<◌, Bool, true, false, Err, IfOk, length, drop, slice_index};
ghost use Rattle.mt_text_spec.specs.Registries.{ValidRegistry};
ghost use Rattle.mt_query_spec.specs.Tokens as tokens;
ghost use Rattle.mt_query_spec.specs.Verdicts as verdicts;
ghost use Rattle.mt_query_spec.specs.Valid.{ValidQuery};
ghost use Rattle.mt_query_laws.specs.Exprs as exprs;
ghost use Rattle.mt_query_laws.specs.Reading.{read};
ghost use Rattle.mt_cql.specs.Answered.{Answered};
ghost use Rattle.mt_cql.specs.Read.{Said};
ghost use Rattle.mt_cql.specs.StateSeen.{ways, state_seen};
ghost use Rattle.mt_cql.specs.Seen.{unlexed_seen};
ghost use Rattle.mt_cql.specs.TextSeen.{NextSeen, IsBehind, nesting_seen};

use super::conds::no_conds;
use super::lexer::{byte_at, is_blank, lexeme, text_behind};
use super::parts::{FiltersPart, Part};
use super::query::{Cause, Query, QueryError};
use super::reader::Reader;
use super::stack::Stack;
use super::state::{Group, Phase, State};
use super::tests::Tests;
use super::token::{Token, Unlexed};
use mt_base::Registry;
use mt_query_laws::{answer_is_meant, read_is_valid};
use std::alloc::Global;

/// How deep a text nests up to a place: how many `(` are open there, how many were at most, whether a string stands there, and in it a backslash before.
#[derive(Clone, Copy, Drop)]
pub struct Nesting {
    opened: u32,
    most: u32,
    in_string: bool,
    taken: bool,
}

/// The nesting behind one byte more.
fn nested(before: Nesting, b: u8) -> Nesting
    requires { before.opened < 4096 }
    ensures behind { nesting_seen result ≡ tokens.nested (nesting_seen before) b }
    ensures few { result.opened ≤ before.opened + 1 }
{
    if before.in_string {
        if before.taken {
            return Nesting {
                taken: false,
                ..before
            };
        }
        return Nesting {
            in_string: b != b'"',
            taken: b == b'\\',
            ..before
        };
    }
    match b {
        b'"' => Nesting {
            in_string: true,
            taken: false,
            ..before
        },
        b'(' => Nesting {
            opened: before.opened + 1,
            most: before.most.max(before.opened + 1),
            ..before
        },
        b')' => Nesting {
            opened: before.opened.saturating_sub(1),
            ..before
        },
        _ => before,
    }
}

/// How many `(` are open at once, at most.
fn deepest(bytes: &[u8]) -> u32
    requires { length bytes.now ≤ 4096 }
    ensures { result ≡ tokens.deepest bytes.now }
{
    let mut nesting = Nesting {
        opened: 0,
        most: 0,
        in_string: false,
        taken: false,
    };
    for b in bytes {
        nesting = nested(nesting, *b);
    }
    nesting.most
}

/// Whether a text is too long or nests too deep.
fn is_too_long(text: &str) -> bool
    ensures { result ≡ verdicts.is_too_long text.now }
{
    text.len() > 4096 || deepest(text.as_bytes()) > 32
}

/// What comes next in a text.
#[derive(Drop)]
pub enum Next<'a> {
    End,
    /// A token at a place, where it ends, and the text behind it.
    Token {
        at: u32,
        token: Token<'a>,
        end: u32,
        rest: &'a str,
    },
    /// No token begins at this place.
    Bad {
        at: u32,
        why: Unlexed,
    },
}

/// What begins at the front of a text that no blank begins.
#[tactic(auto, unfolding(mt_query_spec::specs::Tokens::tokens_from))]
fn token_at<'a>(at: u32, text: &'a str) -> Next<'a>
    requires short { at + length text.now ≤ 4096 }
    requires front { tokens.is_blank (slice_index text.now 0) ≡ false }
    ensures next { NextSeen result (tokens.tokens_from at 0 text.now) }
    ensures place { IsBehind (at + length text.now) (length text.now) result }
{
    if text.is_empty() {
        return Next::End;
    }
    match lexeme(at, text) {
        Err(why) => Next::Bad { at, why },
        Ok((token, more)) => Next::Token {
            at,
            token,
            end: at + 1 + more as u32,
            rest: &text[more + 1..],
        },
    }
}

/// What comes next in a text, behind blanks.
fn next_token<'a>(at: u32, text: &'a str) -> Next<'a>
    requires short { at + length text.now ≤ 4096 }
    ensures next { NextSeen result (tokens.tokens_from at 0 text.now) }
    ensures place { IsBehind (at + length text.now) (length text.now) result }
{
    let mut at = at;
    let mut rest = text;
    while is_blank(byte_at(rest.as_bytes(), 0)) {
        rest = text_behind(rest);
        at += 1;
    }
    token_at(at, rest)
}

/// The refusal at a place where no token begins.
fn unlexed(at: u32, why: Unlexed) -> QueryError
    ensures { Said (Err result) (Err (verdicts.Syntax at (verdicts.unlexed_cause (unlexed_seen why)))) }
{
    let cause = match why {
        Unlexed::NoToken => Cause::Char,
        Unlexed::NoEnd => Cause::String,
    };
    QueryError::Syntax { at, cause }
}

impl<'a> Reader<'a> {
    /// Where the reading of a query begins.
    fn start(&self) -> State<'a>
        ensures { state_seen result ≡ exprs.start (ways self.now) }
    {
        State {
            phase: Phase::Wanted,
            tests: Tests::new(self.alloc),
            part: Part::none(),
            before: Group::none(),
            groups: Stack::new(self.alloc),
            heads: Stack::new(self.alloc),
            has_filters: false,
            filters: FiltersPart::none(self.alloc),
            conds: no_conds(self.alloc),
        }
    }

    /// What the tokens of a text are.
    fn read(&self, text: &'a str) -> Result<Query, QueryError>
        requires valid { ValidRegistry self.now.registry.now }
        requires short { length text.now ≤ 4096 }
        ensures { Said result (read self.now.registry.now self.now.default (tokens.tokens_of text.now) (length text.now)) }
    {
        let mut state = self.start();
        let mut at = 0;
        let mut rest = text;
        loop {
            match next_token(at, rest) {
                Next::End => return self.finish(state, text.len() as u32),
                Next::Bad { at, why } => return Err(unlexed(at, why)),
                Next::Token {
                    at: place,
                    token,
                    end,
                    rest: behind,
                } => match self.step(&mut state, token) {
                    Err(_) => return Err(QueryError::NoMemory),
                    Ok(goes) => {
                        if !goes {
                            return Err(QueryError::Syntax {
                                at: place,
                                cause: Cause::Token,
                            });
                        }
                        at = end;
                        rest = behind;
                    }
                },
            }
        }
    }
}

/// Reads a query under a registry, in which a bare string is a pattern for the attribute of the number `default`.
#[tactic(auto, unfolding(mt_query_laws::specs::Reading::answer))]
pub fn parse(
    alloc: Global,
    text: &str,
    registry: &Registry,
    default: u16,
) -> Result<Query, QueryError>
    requires { ValidRegistry registry.now }
    ensures means { Answered registry.now default text.now result }
    ensures valid { default < length registry.now.attrs → IfOk result (λ query. ValidQuery registry.now query) }
{
    if is_too_long(text) {
        return Err(QueryError::TooLarge);
    }
    let reader = Reader {
        alloc,
        registry,
        default,
    };
    answer_is_meant();
    read_is_valid();
    reader.read(text)
}
