//! Scores with their texts, and fractions of more than 64 bits.

use mt_base::{List, NoMemory};
use mt_score::{compare_fractions, log_dice, write_sixteenths};
use std::alloc::Global;
use std::cmp::Ordering;
use std::test::Fail;

/// Whether a score is written so, behind what stands there.
fn is_written(alloc: Global, score: i32, text: &str) -> Result<bool, NoMemory> {
    let mut out = List::new(alloc);
    out.push(b'=')?;
    write_sixteenths(score, &mut out)?;
    Ok(out.as_slice() == text.as_bytes())
}

/// Whether the frequencies have this score.
fn is_scored(two_f: u64, sum: u64, score: i32) -> bool {
    1 <= two_f && sum <= 1 << 40 && two_f < 2 * sum && log_dice(two_f, sum) == score
}

#[test]
fn scores(rt: HostRuntime) -> Result<(), Fail> {
    for (two_f, sum, score, text) in [
        (2, 2, 224, "=14.0000"),
        (4, 5, 218, "=13.6250"),
        (2, 40_000, -5, "=-0.3125"),
        (1, 1 << 14, 0, "=0.0000"),
        (1, (1 << 14) + 1, -1, "=-0.0625"),
        (1, 1 << 40, -416, "=-26.0000"),
        ((1 << 41) - 1, 1 << 40, 239, "=14.9375"),
        (3, 2, 233, "=14.5625"),
    ] {
        assert!(rt; is_scored(two_f, sum, score), "{two_f} of {sum}");
        assert!(rt; is_written(rt.alloc(), score, text)?, "{score}");
    }
    Ok(())
}

#[test]
fn fractions(rt: HostRuntime) {
    let most = u128::MAX;
    for (a, b, c, d, order) in [
        (1, 3, 2, 6, Ordering::Equal),
        (most - 1, most, most - 2, most - 1, Ordering::Greater),
        (0, most, 0, 1, Ordering::Equal),
        (most / 3, most - 1, 1, 3, Ordering::Greater),
    ] {
        if b > 0 && d > 0 {
            assert!(rt; compare_fractions(a, b, c, d) == order, "{a} {b} {c} {d}");
        }
    }
}
