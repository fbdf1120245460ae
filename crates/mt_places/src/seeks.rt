//! Single places of a set.

ghost use Rattle.std.specs.Prelude.{◌≡◌, ℕ, ◌*◌, ◌<◌, ◌≤◌, ◌⊎◌, true, false, length, IfSome, IfNone};
ghost use Rattle.mt_places.specs.Places.{In, HasJust, FirstFrom};

/// Whether no place is in the set.
pub(crate) fn is_empty(set: &[u64]) -> bool
    ensures none { result ≡ true → (place : ℕ) → ¬ In set.now place }
    ensures some { result ≡ false → (place : ℕ) × In set.now place }
{
    for word in set {
        if *word != 0 {
            return false;
        }
    }
    true
}

/// Whether a place is in the set.
pub(crate) fn contains(set: &[u64], place: u32) -> bool
    ensures yes { result ≡ true → In set.now place }
    ensures no { result ≡ false → ¬ In set.now place }
{
    let at = (place / 64) as usize;
    if at >= set.len() {
        return false;
    }
    set[at] >> (place % 64) & 1 == 1
}

/// Adds a place.
pub(crate) fn insert(set: &mut [u64], place: u32)
    requires { place < 64 * length set.old }
    ensures { HasJust (λ other. In set.old other ⊎ (other ≡ place)) set.new }
{
    let at = (place / 64) as usize;
    set[at] |= 1 << (place % 64);
}

/// The first place of the set from the one given on.
pub(crate) fn first_from(set: &[u64], place: u32) -> Option<u32>
    requires { 64 * length set.now ≤ 4294967296 }
    ensures found { IfSome result (λ found. FirstFrom set.now place found) }
    ensures none { IfNone result ((k : ℕ) → place ≤ k → ¬ In set.now k) }
{
    let mut at = (place / 64) as usize;
    if at >= set.len() {
        return None;
    }
    let mut word = set[at] & u64::MAX << (place % 64);
    while word == 0 {
        at += 1;
        if at == set.len() {
            return None;
        }
        word = set[at];
    }
    Some(64 * at as u32 + word.trailing_zeros())
}
