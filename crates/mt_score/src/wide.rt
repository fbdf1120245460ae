//! Scores of counts of any size.

ghost use Rattle.std.specs.Prelude.{◌*◌, ◌^◌, ◌<◌, ◌≤◌};
ghost use Rattle.mt_sketch_spec.specs.Score.{IsScore};

use super::dice::{last_within, log_dice};

/// Up to here `log_dice` takes the sum of two counts.
const MOST_COMMON_SUM: u128 = 1 << 40;

/// The score in sixteenths, as `log_dice` gives it, of counts of 64 bits: `two_f` is twice how often two words occur together, and `sum` is how often the one occurs and
/// how often the other, added up. It takes no memory.
pub fn score(two_f: u128, sum: u128) -> i32
    requires positive { 1 ≤ two_f }
    requires below_two { two_f < 2 * sum }
    requires small { sum < 2 ^ 65 }
    ensures { IsScore two_f sum result }
{
    if sum <= MOST_COMMON_SUM {
        log_dice(two_f as u64, sum as u64)
    } else {
        great_score(two_f, sum)
    }
}

/// The same, by doubling step by step.
fn great_score(two_f: u128, sum: u128) -> i32
    requires positive { 1 ≤ two_f }
    requires below_two { two_f < 2 * sum }
    requires small { sum < 2 ^ 65 }
    ensures { IsScore two_f sum result }
{
    let mut doubled = two_f;
    let mut doublings: u32 = 0;
    while doubled < sum {
        doubled *= 2;
        doublings += 1;
    }
    let billionths = doubled * 1_000_000_000 / sum;
    16 * 14 + last_within(billionths, 1) as i32 - 16 * doublings as i32
}
