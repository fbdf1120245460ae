//! A line of a list of collocates.

ghost use Rattle.std.specs.Prelude.{◌≡◌, ◌+◌, ◌*◌, ◌<◌, ℕ, ℤ};
ghost use Rattle.mt_report_spec.specs.Counts.{collocate_cmp};
ghost use Rattle.mt_frequencies.specs.Collocates.{AreScores, collocate_of};

use super::entry::Frequency;
use mt_score::score;
use std::cmp::Ordering;
use std::marker::Model;

/// A value, how many spans have it in their windows, how many tokens have it, and the score of both in sixteenths.
#[derive(Debug, Drop)]
pub(crate) struct Collocate<'a> {
    pub(crate) value: &'a str,
    pub(crate) both: u32,
    pub(crate) tokens: u64,
    pub(crate) score: i32,
}

impl<'a> Model for Collocate<'a> {
    ghost use Rattle.std.proofs.Common.{SFits, w32};
    ghost use Rattle.mt_report_spec.specs.Counts as spec;

    ghost Value = { spec.Collocate };

    ghost view = { λ c. record { value = c.value.now; both = c.both; tokens = c.tokens; score = c.score } };

    ghost invariant = { λ c. SFits w32 c.score };
}

impl<'a> Collocate<'a> {
    /// The collocate of so many spans that a value is which so many tokens have. It takes no memory.
    pub(crate) fn new(spans: u32, one: &Frequency<'a>, tokens: u64) -> Self
        requires some { 0 < one.now.spans }
        requires fewer { one.now.spans < spans + tokens }
        ensures { (scores : ℕ → ℕ → ℤ) → AreScores scores → result ≡ collocate_of scores spans (λ value. tokens) one.now }
    {
        let sum = u128::from(spans) + u128::from(tokens);
        Collocate {
            value: one.value,
            both: one.spans,
            tokens,
            score: score(2 * u128::from(one.spans), sum),
        }
    }
}

/// Which of two collocates of so many spans is listed first: the one with the greater fraction of spans and tokens, or of the same the one with the lesser bytes.
/// It takes no memory.
pub(crate) fn compare(spans: u32, one: &Collocate, other: &Collocate) -> Ordering
    ensures { result ≡ collocate_cmp spans one.now other.now }
{
    let one_sum = u128::from(spans) + u128::from(one.tokens);
    let other_sum = u128::from(spans) + u128::from(other.tokens);
    let left = u128::from(other.both) * one_sum;
    let right = u128::from(one.both) * other_sum;
    match left.cmp(&right) {
        Ordering::Equal => one.value.cmp(other.value),
        order => order,
    }
}
