//! The rows of a test alone that holds of every token and has no label: each token is one.

ghost use Rattle.std.specs.Prelude.{◌≡◌, ◌++◌, ◌<◌, IsTrue, length, OnOk, IsErrOf};
ghost use Rattle.mt_cql.specs.Shape.{shape};
ghost use Rattle.mt_eval_spec.specs.Told.{told};
ghost use Rattle.mt_automaton.specs.RowsFrom.{IsRowOfText, HasLonger};
ghost use Rattle.mt_rows.specs.Appends.{Appends};
ghost use Rattle.mt_eval.specs.Sequences.{AreTestsOf};
ghost use Rattle.mt_eval.specs.Every.{IsAny, IsAnyAlone, IsUnlabelled, tokens_of};

use super::sequence::Sequence;
use mt_base::{NoMemory, Span};
use mt_cql::Expr;
use mt_prepare::Resolved;
use mt_rows::{EvalError, Rows};
use mt_segment::Segment;

/// Whether an expression is a test of a token with no label, and nothing else.
pub(crate) fn is_unlabelled(expr: &Expr) -> bool
    ensures { IsTrue result → IsUnlabelled (shape expr.now) }
{
    match expr {
        Expr::Token { label, test: _ } => *label == 0,
        Expr::Begin { kind: _, test: _ } => false,
        Expr::End { kind: _ } => false,
        Expr::Whole { kind: _, test: _ } => false,
        Expr::Seq(_, _) => false,
        Expr::Choice(_, _) => false,
        Expr::Repeat {
            inner: _,
            least: _,
            most: _,
        } => false,
    }
}

/// Whether a test holds of every token.
fn is_any(test: &Resolved) -> bool
    ensures { IsTrue result → IsAny test.now }
{
    match test {
        Resolved::Any => true,
        Resolved::One {
            attr: _,
            id: _,
            not: _,
        } => false,
        Resolved::Some {
            attr: _,
            ids: _,
            not: _,
        } => false,
        Resolved::Not(_) => false,
        Resolved::Both(_, _) => false,
        Resolved::Either(_, _) => false,
    }
}

/// Whether there is one test alone, and it holds of every token.
pub(crate) fn is_any_alone(tests: &[Resolved]) -> bool
    ensures { IsTrue result → IsAnyAlone tests.now }
{
    tests.len() == 1 && is_any(&tests[0])
}

/// Adds the rows of the first tokens of a text, each of them one.
fn push_tokens(text: u32, many: u32, out: &mut Rows) -> Result<(), NoMemory>
    ensures { OnOk result (out.new ≡ out.old ++ tokens_of text many) }
{
    for begin in 0..many {
        out.push_unlabelled(Span::new(text, begin, begin + 1))?;
    }
    Ok(())
}

/// Adds the rows of a text for a test with no label that holds of every token.
pub(crate) fn add_tokens(
    sequence: &Sequence<'_>,
    segment: &Segment,
    text: u32,
    room: u32,
    out: &mut Rows,
) -> Result<(), EvalError>
    requires text { text < length segment.now.texts }
    requires tests { AreTestsOf segment.now (shape sequence.now.expr.now) sequence.now.tests.now }
    requires unlabelled { IsUnlabelled (shape sequence.now.expr.now) }
    requires any { IsAnyAlone sequence.now.tests.now }
    ensures ok { OnOk result (Appends (IsRowOfText (told segment.now text) (shape sequence.now.expr.now) text) room out.old out.new) }
    ensures more { IsErrOf result EvalError.TooManyRows → HasLonger (IsRowOfText (told segment.now text) (shape sequence.now.expr.now) text) room }
{
    let (first, end) = segment.text_bounds(text);
    if end - first > room {
        return Err(EvalError::TooManyRows);
    }
    push_tokens(text, end - first, out)?;
    Ok(())
}
