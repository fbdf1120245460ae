//! Laws of the score. Each is the contract of a function that does nothing.

ghost use Rattle.std.specs.Prelude.{ℕ, ℤ, ◌*◌, ◌<◌, slice_index};
ghost use Rattle.mt_sketch_spec.specs.Score.{IsConstant, IsScore, ScoreIsWithinASixteenth, ScoreIsUnique, ScoreIsMonotone, ScoreIsLogDice};

use super::CONSTANTS;

/// The table of constants is by their rule.
pub fn constants_are_rounded_up()
    ensures { (j : ℕ) → j < 16 → IsConstant j (slice_index CONSTANTS j) }
{}

/// A fraction comes up to its score, and not a sixteenth higher.
pub fn score_is_within_a_sixteenth()
    ensures { ScoreIsWithinASixteenth }
{}

/// A fraction above 0 and below 2 has a score.
pub fn there_is_a_score()
    ensures { (two_f sum : ℕ) → 0 < two_f → two_f < 2 * sum → (score : ℤ) × IsScore two_f sum score }
{}

/// A fraction has one score at most.
pub fn score_is_unique()
    ensures { ScoreIsUnique }
{}

/// A fraction that is not less has a score that is not less.
pub fn score_is_monotone()
    ensures { ScoreIsMonotone }
{}

/// The score is logDice rounded down to a sixteenth, but for a billionth of the fraction.
pub fn score_is_log_dice()
    ensures { ScoreIsLogDice }
{}
