//! Where the tokens of a generated text come from.

ghost use Rattle.std.specs.Prelude.{◌≡◌, ◌+◌, ◌*◌, ◌%◌, ◌<◌, ◌^◌};
ghost use Rattle.mt_generate_spec.specs.Draws.{behind_draws, drawn, upper_bits};
ghost use Rattle.mt_generate_spec.specs.Generated.{token_at, token_of, rank_of};
ghost use Rattle.mt_generate.specs.Sources as spec;

use std::marker::Model;

/// A token that was drawn: the rank of its lemma, and whether its word is in the plural.
#[derive(Clone, Copy, Debug, Drop)]
pub struct Drawn {
    pub rank: u32,
    pub plural: bool,
}

/// The tokens of a seed, from a place on.
#[derive(Debug, Drop)]
pub struct Source {
    seed: u64,
    place: u64,
    number: u64,
}

impl Model for Source {
    ghost use Rattle.std.specs.Prelude.{◌≡◌, ◌*◌};
    ghost use Rattle.mt_generate_spec.specs.Draws.{behind_draws};
    ghost use Rattle.mt_generate.specs.Sources as spec;

    ghost Value = { spec.Source };

    ghost view = { λ s. record { seed = s.seed; place = s.place } };

    ghost invariant = { λ s. s.number ≡ behind_draws s.seed (3 * s.place) };
}

impl Source {
    /// All tokens of this seed.
    pub fn new(seed: u64) -> Self
        ensures { result ≡ record { seed = seed; place = 0 } }
    {
        Source {
            seed,
            place: 0,
            number: seed,
        }
    }

    /// The tokens of this seed from a place on. The draws before it are not made one by one.
    pub fn at(seed: u64, place: u32) -> Self
        ensures { result ≡ record { seed = seed; place = place } }
    {
        let place = u64::from(place);
        Source {
            seed,
            place,
            number: behind_draws(seed, 3 * place),
        }
    }

    /// The next token. Its draws are made beside each other, each from the number before them, so that none waits for another.
    pub fn draw(&mut self) -> Drawn
        requires { self.old.place < 2 ^ 32 }
        ensures next { self.new ≡ record { seed = self.old.seed; place = self.old.place + 1 } }
        ensures token { token_of result.rank result.plural ≡ token_at self.old.seed self.old.place }
        ensures low { result.rank < 1000 }
    {
        let first = behind_draw(self.number);
        let second = behind_two(self.number);
        let third = behind_three(self.number);
        self.number = third;
        self.place += 1;
        Drawn {
            rank: rank(upper_bits(first), upper_bits(second)),
            plural: upper_bits(third) % 2 == 1,
        }
    }
}

/// What a step of the generator multiplies by.
const TIMES: u64 = 6_364_136_223_846_793_005;

/// What a step of the generator adds.
const PLUS: u64 = 1_442_695_040_888_963_407;

/// The generator's number behind so many draws. Of the steps that are made at once, each is twice as long as the one before it, as the bits of the count ask
/// (Brown 1994, *Random Number Generation with Arbitrary Strides*).
fn behind_draws(seed: u64, draws: u64) -> u64
    ensures { result ≡ behind_draws seed draws }
{
    let mut number = seed;
    let mut times = TIMES;
    let mut plus = PLUS;
    let mut left = draws;
    while left > 0 {
        if left % 2 == 1 {
            number = step(number, times, plus);
        }
        plus = step(plus, times, plus);
        times = times.wrapping_mul(times);
        left /= 2;
    }
    number
}

/// The generator's number behind one more draw.
fn behind_draw(number: u64) -> u64
    ensures { result ≡ drawn number }
{
    let product = u128::from(number) * 6_364_136_223_846_793_005;
    ((product + 1_442_695_040_888_963_407) % (1 << 64)) as u64
}

/// The generator's number behind two more draws: two steps of the generator are one step of another.
fn behind_two(number: u64) -> u64
    ensures { result ≡ drawn (drawn number) }
{
    step(number, 7_520_897_724_310_334_953, 1_876_011_003_808_476_466)
}

/// The generator's number behind three more draws.
fn behind_three(number: u64) -> u64
    ensures { result ≡ drawn (drawn (drawn number)) }
{
    step(number, 793_875_393_913_628_917, 11_166_244_414_315_200_793)
}

/// A step of a linear congruential generator.
fn step(number: u64, times: u64, plus: u64) -> u64
    ensures { result ≡ (number * times + plus) % 2 ^ 64 }
{
    number.wrapping_mul(times).wrapping_add(plus)
}

/// What is drawn where the generator has this number.
fn upper_bits(number: u64) -> u32
    ensures { result ≡ upper_bits number }
{
    (number >> 33) as u32
}

/// The rank of a lemma by two draws.
fn rank(first: u32, second: u32) -> u32
    ensures rank { result ≡ rank_of first second }
    ensures low { result < 1000 }
{
    first % 1000 * (second % 1000) / 1000
}
