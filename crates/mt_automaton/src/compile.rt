//! From expressions to automata.

ghost use Rattle.std.specs.Prelude.{◌≡◌, ℕ, ◌+◌, ◌<◌, ◌≤◌, IfOk, OnOk};
ghost use Rattle.mt_text_spec.specs.Registries.{Registry};
ghost use Rattle.mt_text_spec.specs.Queries.{Expr as QueryExpr, TokenTest as TokenOf, Seq as SeqOf, Choice as ChoiceOf, Repeat as RepeatOf, Test as QueryTest};
ghost use Rattle.mt_query_spec.specs.Valid.{ValidExpr};
ghost use Rattle.mt_query_spec.specs.Contents.{IsInOrder};
ghost use Rattle.mt_cql.specs.Shape.{shape};
ghost use Rattle.mt_automaton.specs.Parts.{Tag};
ghost use Rattle.mt_automaton.specs.LabelledParts.{labelled_meant};
ghost use Rattle.mt_automaton.specs.Compiled.{IsSeenFor, LabelsStand, WritesOut, by_numbers, IsOf, MatchSame};
ghost use Rattle.mt_automaton.specs.Compiling.{IsPlain, Compiles, Counts};

use crate::labelled::Labelled;
use crate::part::Part;
use crate::view::View;
use mt_base::NoMemory;
use mt_cql::Expr;
use std::alloc::Global;

/// An expression, made ready to be matched. Its tests and its tags are told by number, from left to right.
#[derive(Drop)]
pub struct Automaton {
    pub(crate) part: Labelled,
}

/// How many tests and tags have numbers.
#[derive(Drop)]
struct Numbered {
    tests: u32,
    tags: u32,
}

impl Numbered {
    /// The number of the next test. No memory holds so many tests that the numbers run out.
    fn test(&mut self) -> Result<u32, NoMemory>
        ensures result { IfOk result (λ number. number ≡ self.old.tests) }
        ensures tests { OnOk result (self.new.tests ≡ self.old.tests + 1) }
        ensures tags { OnOk result (self.new.tags ≡ self.old.tags) }
    {
        let number = self.tests;
        self.tests = number.checked_add(1).ok_or(NoMemory)?;
        Ok(number)
    }

    /// The number of the next tag.
    fn tag(&mut self) -> Result<u32, NoMemory>
        ensures result { IfOk result (λ number. number ≡ self.old.tags) }
        ensures tests { OnOk result (self.new.tests ≡ self.old.tests) }
        ensures tags { OnOk result (self.new.tags ≡ self.old.tags + 1) }
    {
        let number = self.tags;
        self.tags = number.checked_add(1).ok_or(NoMemory)?;
        Ok(number)
    }
}

/// A token under a label, or under none, which is 0.
fn token(label: u8, test: u32) -> Labelled
    ensures is { (tests : ℕ → QueryTest) (tags : ℕ → Tag) → labelled_meant (by_numbers tests tags) result ≡ TokenOf label (tests test) }
    ensures plain { label ≡ 0 → IsPlain result }
{
    if label == 0 {
        Labelled::Plain(Part::Token(test))
    } else {
        Labelled::Token(label, test)
    }
}

/// One part after another.
fn joined(alloc: Global, left: Labelled, right: Labelled) -> Result<Labelled, NoMemory>
    ensures is { IfOk result (λ part. (tests : ℕ → QueryTest) (tags : ℕ → Tag)
        → labelled_meant (by_numbers tests tags) part ≡ SeqOf (labelled_meant (by_numbers tests tags) left) (labelled_meant (by_numbers tests tags) right)) }
    ensures plain { IfOk result (λ part. IsPlain left → IsPlain right → IsPlain part) }
{
    match (left, right) {
        (Labelled::Plain(left), Labelled::Plain(right)) => Ok(Labelled::Plain(Part::Seq(
            Box::new(alloc, left)?,
            Box::new(alloc, right)?,
        ))),
        (left, right) => Ok(Labelled::Seq(Box::new(alloc, left)?, Box::new(alloc, right)?)),
    }
}

/// Either of two parts.
fn either(alloc: Global, left: Labelled, right: Labelled) -> Result<Labelled, NoMemory>
    ensures is { IfOk result (λ part. (tests : ℕ → QueryTest) (tags : ℕ → Tag)
        → labelled_meant (by_numbers tests tags) part ≡ ChoiceOf (labelled_meant (by_numbers tests tags) left) (labelled_meant (by_numbers tests tags) right)) }
    ensures plain { IfOk result (λ part. IsPlain left → IsPlain right → IsPlain part) }
{
    match (left, right) {
        (Labelled::Plain(left), Labelled::Plain(right)) => Ok(Labelled::Plain(Part::Choice(
            Box::new(alloc, left)?,
            Box::new(alloc, right)?,
        ))),
        (left, right) => Ok(Labelled::Choice(Box::new(alloc, left)?, Box::new(alloc, right)?)),
    }
}

/// A part that turns once at most, written out.
fn at_most_once(alloc: Global, inner: Labelled, least: u32, most: u32) -> Result<Labelled, NoMemory>
    requires { most ≤ 1 }
    ensures { IfOk result (λ part. (tests : ℕ → QueryTest) (tags : ℕ → Tag) (expr : QueryExpr) → WritesOut (labelled_meant (by_numbers tests tags) inner) expr
        → WritesOut (labelled_meant (by_numbers tests tags) part) (RepeatOf expr least most)) }
{
    if least == 1 && most == 1 {
        return Ok(inner);
    }
    let none = Part::Repeat(Box::new(alloc, Part::Token(0))?, least, 0);
    let none = Labelled::Plain(none);
    if least == 0 && most == 1 {
        return Ok(Labelled::Choice(Box::new(alloc, none)?, Box::new(alloc, inner)?));
    }
    Ok(none)
}

/// A part, so many times.
fn repeated(alloc: Global, inner: Labelled, least: u32, most: u32) -> Result<Labelled, NoMemory>
    requires { 1 < most → IsPlain inner }
    ensures is { IfOk result (λ part. (tests : ℕ → QueryTest) (tags : ℕ → Tag) (expr : QueryExpr) → WritesOut (labelled_meant (by_numbers tests tags) inner) expr
        → WritesOut (labelled_meant (by_numbers tests tags) part) (RepeatOf expr least most)) }
    ensures plain { IfOk result (λ part. IsPlain inner → IsPlain part) }
{
    match inner {
        Labelled::Plain(part) => Ok(Labelled::Plain(Part::Repeat(
            Box::new(alloc, part)?,
            least,
            most,
        ))),
        labels => at_most_once(alloc, labels, least, most),
    }
}

/// The part of an expression, whose tests and tags get the next numbers.
fn compiled(alloc: Global, expr: &Expr, numbered: &mut Numbered) -> Result<Labelled, NoMemory>
    requires { LabelsStand (shape expr.now) }
    ensures part { IfOk result (λ part. Compiles numbered.old.tests numbered.old.tags (shape expr.now) part) }
    ensures counts { OnOk result (Counts (shape expr.now) numbered.old.tests numbered.old.tags numbered.new.tests numbered.new.tags) }
{
    match expr {
        Expr::Token { label, test: _ } => Ok(token(*label, numbered.test()?)),
        Expr::Begin { kind: _, test: _ } => Ok(Labelled::Plain(Part::Begin(numbered.tag()?))),
        Expr::End { kind: _ } => Ok(Labelled::Plain(Part::End(numbered.tag()?))),
        Expr::Whole { kind: _, test: _ } => Ok(Labelled::Plain(Part::Whole(numbered.tag()?))),
        Expr::Seq(left, right) => {
            let first = compiled(alloc, left, numbered)?;
            let second = compiled(alloc, right, numbered)?;
            joined(alloc, first, second)
        }
        Expr::Choice(left, right) => {
            let first = compiled(alloc, left, numbered)?;
            let second = compiled(alloc, right, numbered)?;
            either(alloc, first, second)
        }
        Expr::Repeat { inner, least, most } => {
            let turn = compiled(alloc, inner, numbered)?;
            repeated(alloc, turn, *least, *most)
        }
    }
}

impl Automaton {
    /// The automaton of an expression. Its tests and its tags get numbers from left to right, from 0 on; a repetition with labels, which turns once at most, is
    /// written out.
    pub fn compile(alloc: Global, expr: &Expr) -> Result<Automaton, NoMemory>
        requires { LabelsStand (shape expr.now) }
        ensures { IfOk result (λ automaton. IsOf (shape expr.now) automaton) }
    {
        let mut numbered = Numbered { tests: 0, tags: 0 };
        let part = compiled(alloc, expr, &mut numbered)?;
        Ok(Automaton { part })
    }

    /// The part of the expression. What it matches is what the expression matches (`automaton_matches`).
    pub fn part(&self) -> &Labelled
        ensures { result.now ≡ self.now.part }
    {
        &self.part
    }
}

/// The part of an automaton matches what its expression matches, in each text that is seen for the expression.
pub fn automaton_matches<V: View>(automaton: &Automaton, view: &V)
    ensures { (expr : QueryExpr) → IsOf expr automaton.now → IsSeenFor expr (V.seen view.now)
        → MatchSame (V.seen view.now).text (labelled_meant (V.seen view.now) automaton.now.part) expr }
{}

/// The labels of a valid expression stand so that it can be compiled; so do those of one that is in order.
pub fn labels_stand()
    ensures valid { (registry : Registry) (expr : QueryExpr) → ValidExpr registry expr → LabelsStand expr }
    ensures in_order { (expr : QueryExpr) → IsInOrder expr → LabelsStand expr }
{}
