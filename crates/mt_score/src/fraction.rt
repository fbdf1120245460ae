//! Fractions compared exactly.

ghost use Rattle.std.specs.Prelude.{◌≡◌, ◌*◌, ◌<◌};
ghost use Rattle.std.specs.Ordering.{nat_cmp};

use std::cmp::Ordering;

/// `a / b` against `c / d`, exactly, also where a product of two of them does not fit. It takes no memory.
///
/// Where both products fit, they decide. Else the whole parts do, and where these are equal, the rests, compared by
/// their reciprocals. So the numbers shrink as in Euclid's algorithm, and there are fewer than 190 turns.
pub fn compare_fractions(a: u128, b: u128, c: u128, d: u128) -> Ordering
    requires left { 0 < b }
    requires right { 0 < d }
    ensures { result ≡ nat_cmp (a * d) (c * b) }
{
    if let (Some(left), Some(right)) = (a.checked_mul(d), c.checked_mul(b)) {
        return left.cmp(&right);
    }
    let (left, right) = (a / b, c / d);
    if left != right {
        return left.cmp(&right);
    }
    let (left_rest, right_rest) = (a % b, c % d);
    if left_rest == 0 || right_rest == 0 {
        return left_rest.cmp(&right_rest);
    }
    compare_fractions(d, right_rest, b, left_rest)
}
