//! The code that a word begins with.

ghost use Rattle.std.specs.Prelude.{ℕ, ◌^◌, ◌<◌, ◌≤◌, IfSome, IfNone};
ghost use Rattle.mt_postings.specs.Words.{Begins};

/// Below this number the first seven bits of a word do not tell how long its code is.
const FIRST_SHORT: usize = 8;

/// How long the code is that a word begins with, by the first seven bits of the word.
static LENGTHS: [u8; 128] = [
    0, 0, 0, 0, 0, 0, 0, 0, 14, 15, 16, 17, 18, 19, 20, 21, 8, 8, 8, 8, 9, 9, 9, 9, 10, 10, 10, 10,
    11, 11, 11, 11, 4, 4, 4, 4, 4, 4, 4, 4, 4, 4, 4, 4, 4, 4, 4, 4, 5, 5, 5, 5, 5, 5, 5, 5, 5, 5,
    5, 5, 5, 5, 5, 5, 1, 1, 1, 1, 1, 1, 1, 1, 1, 1, 1, 1, 1, 1, 1, 1, 1, 1, 1, 1, 1, 1, 1, 1, 1, 1,
    1, 1, 1, 1, 1, 1, 1, 1, 1, 1, 1, 1, 1, 1, 1, 1, 1, 1, 1, 1, 1, 1, 1, 1, 1, 1, 1, 1, 1, 1, 1, 1,
    1, 1, 1, 1, 1, 1,
];

/// How much the number that is written by the code's digits exceeds the number that is coded, by the first seven bits of the word.
static EXCESSES: [u32; 128] = [
    0, 0, 0, 0, 0, 0, 0, 0, 896, 2048, 4608, 10240, 22528, 49152, 106496, 229376, 24, 24, 24, 24,
    64, 64, 64, 64, 160, 160, 160, 160, 384, 384, 384, 384, 2, 2, 2, 2, 2, 2, 2, 2, 2, 2, 2, 2, 2,
    2, 2, 2, 8, 8, 8, 8, 8, 8, 8, 8, 8, 8, 8, 8, 8, 8, 8, 8, 0, 0, 0, 0, 0, 0, 0, 0, 0, 0, 0, 0, 0,
    0, 0, 0, 0, 0, 0, 0, 0, 0, 0, 0, 0, 0, 0, 0, 0, 0, 0, 0, 0, 0, 0, 0, 0, 0, 0, 0, 0, 0, 0, 0, 0,
    0, 0, 0, 0, 0, 0, 0, 0, 0, 0, 0, 0, 0, 0, 0, 0, 0, 0, 0,
];

/// The number whose code begins at the highest place of a word, and how many bits the code has. None where these are
/// more than `held`, or where the word begins with four zeros.
#[inline(always)]
pub(crate) fn short_code_in(word: u64, held: u32) -> Option<(u32, u32)>
    requires { held ≤ 57 }
    ensures code { IfSome result (λ code. Begins word code.0 code.1) }
    ensures within { IfSome result (λ code. code.1 ≤ held) }
    ensures none { IfNone result ((n k : ℕ) → Begins word n k → k ≤ held → word < 2 ^ 60) }
{
    let front = (word >> 57) as usize;
    if front < FIRST_SHORT {
        return None;
    }
    let length = u32::from(LENGTHS[front]);
    if length > held {
        return None;
    }
    let n = (word >> (64 - length)) - u64::from(EXCESSES[front]);
    Some((n as u32, length))
}

/// The number whose code begins at the highest place of a word, and how many bits the code has. None where these are
/// more than `held`, or it is no code.
#[inline(always)]
pub(crate) fn code_in(word: u64, held: u32) -> Option<(u32, u32)>
    requires { held ≤ 57 }
    ensures code { IfSome result (λ code. Begins word code.0 code.1) }
    ensures within { IfSome result (λ code. code.1 ≤ held) }
    ensures none { IfNone result ((n k : ℕ) → Begins word n k → k ≤ held → ⊥) }
{
    match short_code_in(word, held) {
        Some(code) => Some(code),
        None => long_code_in(word, held),
    }
}

/// The same, for words that mostly begin with four zeros.
#[inline(never)]
fn long_code_in(word: u64, held: u32) -> Option<(u32, u32)>
    requires { held ≤ 57 }
    ensures code { IfSome result (λ code. Begins word code.0 code.1) }
    ensures within { IfSome result (λ code. code.1 ≤ held) }
    ensures none { IfNone result ((n k : ℕ) → Begins word n k → k ≤ held → ⊥) }
{
    if word >> 58 == 0 {
        return None;
    }
    let zeros = word.leading_zeros();
    let digits = word >> (63 - 2 * zeros);
    if digits > 32 {
        return None;
    }
    let length = 2 * zeros + digits as u32;
    if length > held {
        return None;
    }
    let low = digits as u32 - 1;
    let n = (word >> (64 - length)) - ((low as u64) << low);
    Some((n as u32, length))
}
