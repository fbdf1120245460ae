//! Filters of spans by the spans of an operand. Both lists are in order, and one sweep goes over both.

ghost use Rattle.std.specs.Prelude.{◌≡◌, ℕ, ◌+◌, ◌<◌, ◌≤◌, ◌⊎◌, true, false, not, Some, Decides, List as Items, length, slice_get, IfSome, IfNone, OnOk};
ghost use Rattle.std.specs.List.{Contains};
ghost use Rattle.mt_text_spec.specs.Texts as spec;
ghost use Rattle.mt_match_spec.specs.Kept.{Passes};
ghost use Rattle.mt_rows.specs.Marks.{Tell};
ghost use Rattle.mt_rows.specs.Filters as f;
ghost use Rattle.mt_rows.specs.Filters.{BeginsBy, InOrder, Farthest, Nearest, Reaches, EndsBy, within_kind, containing_kind};

use mt_base::{NoMemory, Span};

/// How far a sweep has come from the front of an operand.
#[derive(Drop)]
struct Front {
    /// How many spans it has taken.
    taken: usize,
    /// The one that ends last of those in the last text.
    best: Option<Span>,
}

/// How far a sweep has come from the back of an operand.
#[derive(Drop)]
struct Back {
    /// How many spans are left before those that it has taken.
    left: usize,
    /// The one that ends first of those in the first text.
    best: Option<Span>,
}

/// Marks the spans that lie in some span of the operand, or those that do not.
pub(crate) fn mark_within(
    spans: &[Span],
    operand: &[Span],
    negated: bool,
    marks: &mut Vec<bool>,
) -> Result<(), NoMemory>
    requires spans { InOrder spans.now }
    requires operand { InOrder operand.now }
    ensures { OnOk result (Tell (Passes (within_kind negated) (Contains operand.now)) spans.now marks.new.items) }
{
    marks.clear();
    marks.resize(spans.len(), false)?;
    let mut front = Front {
        taken: 0,
        best: None,
    };
    for i in 0..spans.len() {
        let span = spans[i];
        advance(&mut front, operand, span);
        marks[i] = flipped(reaches(front.best, span), negated);
    }
    Ok(())
}

/// Marks the spans in which some span of the operand lies, or those in which none does.
pub(crate) fn mark_containing(
    spans: &[Span],
    operand: &[Span],
    negated: bool,
    marks: &mut Vec<bool>,
) -> Result<(), NoMemory>
    requires spans { InOrder spans.now }
    requires operand { InOrder operand.now }
    ensures { OnOk result (Tell (Passes (containing_kind negated) (Contains operand.now)) spans.now marks.new.items) }
{
    marks.clear();
    marks.resize(spans.len(), false)?;
    let mut back = Back {
        left: operand.len(),
        best: None,
    };
    let mut i = spans.len();
    while i > 0 {
        i -= 1;
        let span = spans[i];
        retreat(&mut back, operand, span);
        marks[i] = flipped(ends_by(back.best, span), negated);
    }
    Ok(())
}

/// Takes the spans that begin by the begin of `to`.
fn advance(front: &mut Front, operand: &[Span], to: Span)
    requires operand { InOrder operand.now }
    requires front { f.Front operand.now front.old.taken front.old.best to }
    ensures front { f.Front operand.now front.new.taken front.new.best to }
    ensures rest { (k : ℕ) (s : spec.Span) → front.new.taken ≤ k → slice_get operand.now k ≡ Some s → ¬ BeginsBy s to }
{
    while let Some(span) = next_early(operand, front.taken, to) {
        farther(&mut front.best, span);
        front.taken += 1;
    }
}

/// Takes the spans by whose begins `to` begins.
fn retreat(back: &mut Back, operand: &[Span], to: Span)
    requires operand { InOrder operand.now }
    requires back { f.Back operand.now back.old.left back.old.best to }
    ensures back { f.Back operand.now back.new.left back.new.best to }
    ensures rest { (k : ℕ) (s : spec.Span) → k < back.new.left → slice_get operand.now k ≡ Some s → ¬ BeginsBy to s }
{
    while let Some(span) = next_late(operand, back.left, to) {
        nearer(&mut back.best, span);
        back.left -= 1;
    }
}

/// The span with this number, where it begins by the begin of `to`.
fn next_early(operand: &[Span], at: usize, to: Span) -> Option<Span>
    ensures some { IfSome result (λ span. (slice_get operand.now at ≡ Some span) × BeginsBy span to) }
    ensures none { IfNone result ((span : spec.Span) → slice_get operand.now at ≡ Some span → ¬ BeginsBy span to) }
{
    if at >= operand.len() {
        return None;
    }
    let span = operand[at];
    if !begins_by(span, to) {
        return None;
    }
    Some(span)
}

/// The span before the one with this number, where `to` begins by its begin.
fn next_late(operand: &[Span], end: usize, to: Span) -> Option<Span>
    requires { end ≤ length operand.now }
    ensures some { IfSome result (λ span. (before : ℕ) × (end ≡ before + 1) × (slice_get operand.now before ≡ Some span) × BeginsBy to span) }
    ensures none { IfNone result ((before : ℕ) (span : spec.Span) → end ≡ before + 1 → slice_get operand.now before ≡ Some span → ¬ BeginsBy to span) }
{
    if end == 0 {
        return None;
    }
    let span = operand[end - 1];
    if !begins_by(to, span) {
        return None;
    }
    Some(span)
}

/// Whether a span begins in an earlier text, or in the same text no later.
fn begins_by(span: Span, other: Span) -> bool
    ensures { Decides result (BeginsBy span other) }
{
    span.text() < other.text() || span.text() == other.text() && span.begin() <= other.begin()
}

/// Whether the best one is in the text of a span and ends no earlier.
fn reaches(best: Option<Span>, span: Span) -> bool
    ensures { Decides result (Reaches best span) }
{
    match best {
        Some(best) => best.text() == span.text() && span.end() <= best.end(),
        None => false,
    }
}

/// Whether the best one is in the text of a span and ends no later.
fn ends_by(best: Option<Span>, span: Span) -> bool
    ensures { Decides result (EndsBy best span) }
{
    match best {
        Some(best) => best.text() == span.text() && best.end() <= span.end(),
        None => false,
    }
}

/// Makes the best one the one that ends last of those in the last text, with one more span behind them.
fn farther(best: &mut Option<Span>, span: Span)
    ensures { (operand : Items spec.Span) (n : ℕ) → InOrder operand → slice_get operand n ≡ Some span → Farthest operand n best.old → Farthest operand (n + 1) best.new }
{
    if reaches(*best, span) {
        return;
    }
    *best = Some(span);
}

/// Makes the best one the one that ends first of those in the first text, with one more span before them.
fn nearer(best: &mut Option<Span>, span: Span)
    ensures { (operand : Items spec.Span) (n : ℕ) → InOrder operand → slice_get operand n ≡ Some span → Nearest operand (n + 1) best.old → Nearest operand n best.new }
{
    if ends_by(*best, span) {
        return;
    }
    *best = Some(span);
}

/// The fact, or its contrary where it is negated.
fn flipped(fact: bool, negated: bool) -> bool
    ensures plain { negated ≡ false → result ≡ fact }
    ensures turned { negated ≡ true → result ≡ not fact }
{
    fact != negated
}
