//! Sets of places moved up and down.

ghost use Rattle.std.specs.Prelude.{◌≡◌, ℕ, ◌+◌, ◌-◌, ◌<◌, ◌≤◌, length, slice_index};
ghost use Rattle.std.specs.Int.{bit_at};
ghost use Rattle.mt_places.specs.Places.{In, IsAbove, HasJust};

/// Each place so many higher; what has no room is lost.
pub(crate) fn up(set: &mut [u64], by: u32)
    ensures { HasJust (IsAbove set.old by) set.new }
{
    let skip = (by / 64) as usize;
    let mut at = set.len();
    while at > 0 {
        at -= 1;
        let high = word_before(set, at, skip);
        let low = word_before(set, at, skip + 1);
        set[at] = raised(high, low, by % 64);
    }
}

/// Each place so many lower; what would come below 0 is lost.
pub(crate) fn down(set: &mut [u64], by: u32)
    ensures { HasJust (λ place. In set.old (place + by)) set.new }
{
    let skip = (by / 64) as usize;
    for at in 0..set.len() {
        let low = word_behind(set, at, skip);
        let high = word_behind(set, at, skip + 1);
        set[at] = lowered(low, high, by % 64);
    }
}

/// The word so many before the one at `at`; where there is none, 0.
fn word_before(set: &[u64], at: usize, skip: usize) -> u64
    requires { at < length set.now }
    ensures none { at < skip → result ≡ 0 }
    ensures some { skip ≤ at → result ≡ slice_index set.now (at - skip) }
{
    if skip <= at { set[at - skip] } else { 0 }
}

/// The word so many behind the one at `at`; where there is none, 0.
fn word_behind(set: &[u64], at: usize, skip: usize) -> u64
    requires { at < length set.now }
    ensures { result ≡ slice_index set.now (at + skip) }
{
    if skip < set.len() - at {
        set[at + skip]
    } else {
        0
    }
}

/// The 64 bits that begin `by` bits below `high`, where `low` is below it.
fn raised(high: u64, low: u64, by: u32) -> u64
    requires { by < 64 }
    ensures first { (j : ℕ) → j < by → bit_at result j ≡ bit_at low (64 - by + j) }
    ensures others { (j : ℕ) → by ≤ j → j < 64 → bit_at result j ≡ bit_at high (j - by) }
{
    high << by | low >> 1 >> (63 - by)
}

/// The 64 bits that begin with bit `by` of `low`, where `high` is above it.
fn lowered(low: u64, high: u64, by: u32) -> u64
    requires { by < 64 }
    ensures first { (j : ℕ) → j + by < 64 → bit_at result j ≡ bit_at low (j + by) }
    ensures others { (j : ℕ) → 64 ≤ j + by → j < 64 → bit_at result j ≡ bit_at high (j + by - 64) }
{
    low >> by | high << 1 << (63 - by)
}
