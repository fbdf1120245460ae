//! logDice, rounded down to a sixteenth.

ghost use Rattle.std.specs.Prelude.{◌≡◌, ℕ, ◌+◌, ◌*◌, ◌^◌, ◌<◌, ◌≤◌, slice_index};
ghost use Rattle.mt_sketch_spec.specs.Score.{IsConstant, IsScore};

/// `10^9 * 2^(j / 16)` for each j, rounded up.
pub const CONSTANTS: [u64; 16] = [
    1_000_000_000,
    1_044_273_783,
    1_090_507_733,
    1_138_788_635,
    1_189_207_116,
    1_241_857_813,
    1_296_839_555,
    1_354_255_547,
    1_414_213_563,
    1_476_826_146,
    1_542_210_826,
    1_610_490_332,
    1_681_792_831,
    1_756_252_161,
    1_834_008_087,
    1_915_206_562,
];

/// How often `two_f` is to be doubled until it is at least `sum`.
fn doublings(two_f: u64, sum: u64) -> u32
    requires positive { 1 ≤ two_f }
    requires below_two { two_f < 2 * sum }
    requires small { sum ≤ 2 ^ 40 }
    ensures enough { sum ≤ two_f * 2 ^ result }
    ensures least { two_f * 2 ^ result < 2 * sum }
    ensures few { result ≤ 40 }
{
    let shift = two_f.leading_zeros().saturating_sub(sum.leading_zeros());
    if two_f << shift < sum {
        shift + 1
    } else {
        shift
    }
}

/// The last constant that `sum` can be multiplied by without passing `limit`.
pub(crate) fn last_within(limit: u128, sum: u64) -> usize
    requires one { sum * 10 ^ 9 ≤ limit }
    requires small { sum ≤ 2 ^ 40 }
    ensures index { result < 16 }
    ensures within { sum * slice_index CONSTANTS result ≤ limit }
    ensures last { result < 15 → limit < sum * slice_index CONSTANTS (result + 1) }
{
    let sum = u128::from(sum);
    CONSTANTS.partition_point(|constant| sum * u128::from(*constant) <= limit) - 1
}

/// The score in sixteenths: logDice, `14 + log2(two_f / sum)`, rounded down. It takes no memory.
///
/// `two_f` is twice how often two words occur together, and `sum` is how often the one occurs and how often the other,
/// added up. logDice is from P. Rychlý, "A lexicographer-friendly association score" (RASLAN 2008), and from
/// Lexical Computing, "Statistics used in Sketch Engine".
pub fn log_dice(two_f: u64, sum: u64) -> i32
    requires positive { 1 ≤ two_f }
    requires below_two { two_f < 2 * sum }
    requires small { sum ≤ 2 ^ 40 }
    ensures { IsScore two_f sum result }
{
    let doublings = doublings(two_f, sum);
    let limit = u128::from(two_f << doublings) * 1_000_000_000;
    16 * 14 + last_within(limit, sum) as i32 - 16 * doublings as i32
}
