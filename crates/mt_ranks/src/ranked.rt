//! Words and their order.

ghost use Rattle.std.specs.Prelude.{◌≡◌, ℕ, ◌<◌, List as Items, Some};
ghost use Rattle.std.specs.Ordering.{is_eq};
ghost use Rattle.std.specs.Cmp.{eq_by_cmp_equiv, partial_order_from_total, partial_equiv_from_equiv};
ghost use Rattle.std.specs.Cmp.Rules.{comparing};
ghost use Rattle.std.proofs.Common.{rules};
ghost use Rattle.mt_word_sketch_spec.specs.Order.{ranked_of, weighed_cmp, weighed_total};

use mt_base::Value;
use mt_score::compare_fractions;
use std::cmp::Ordering;
use std::marker::Model;

/// What is a word: its own text, or a borrowed one.
pub trait Word: Drop {
    /// Its bytes.
    ghost bytes: { Self → Items ℕ };

    /// Its text.
    fn text(&self) -> &str
        ensures { result.now ≡ bytes self.now };
}

impl Word for Value {
    ghost bytes = { λ v. v };

    fn text(&self) -> &str {
        self.as_str()
    }
}

impl<'a> Word for &'a str {
    ghost bytes = { λ s. s.now };

    fn text(&self) -> &str {
        self
    }
}

/// A word, and the fraction by which it is ranked: a part of a whole.
#[derive(Drop)]
pub struct RankedWord<W: Word = Value> {
    word: W,
    part: u128,
    whole: u128,
}

impl<W: Word> Model for RankedWord<W> {
    ghost use Rattle.std.specs.Prelude.{◌<◌, ◌-◌};
    ghost use Rattle.mt_word_sketch_spec.specs.Order.{Weighed};

    ghost Value = { Weighed };

    ghost view = { λ r. record { word = W.bytes r.word; part = r.part; less_one = r.whole - 1 } };

    ghost invariant = { λ r. 0 < r.whole };
}

impl RankedWord {
    /// A word with its fraction.
    pub fn new(word: Value, part: u128, whole: u128) -> Self
        requires { 0 < whole }
        ensures { ranked_of result ≡ record { word = word; part = part; whole = whole } }
    {
        RankedWord { word, part, whole }
    }
}

impl<'a> RankedWord<&'a str> {
    /// A borrowed word with its fraction.
    pub fn borrowed(word: &'a str, part: u128, whole: u128) -> Self
        requires { 0 < whole }
        ensures { ranked_of result ≡ record { word = word.now; part = part; whole = whole } }
    {
        RankedWord { word, part, whole }
    }
}

impl<W: Word> RankedWord<W> {
    /// The word.
    pub fn word(&self) -> &str
        ensures { result.now ≡ self.now.word }
    {
        self.word.text()
    }

    /// The upper number of the fraction.
    pub fn part(&self) -> u128
        ensures { result ≡ self.now.part }
    {
        self.part
    }

    /// The lower number of the fraction.
    pub fn whole(&self) -> u128
        ensures some { 0 < result }
        ensures is { ranked_of self.now ≡ record { word = self.now.word; part = self.now.part; whole = result } }
    {
        self.whole
    }
}

/// The one that ranks first is the less: it has the greater fraction, or the same and the lesser word.
impl<W: Word> Ord for RankedWord<W> {
    ghost cmp = { weighed_cmp };

    ghost total = { weighed_total };

    ghost matches_partial_cmp = { Prim.search (comparing, rules) };

    ghost matches_eq = { Prim.search (comparing, rules) };

    fn cmp(&self, other: &Self) -> Ordering {
        compare(self, other)
    }
}

impl<W: Word> PartialOrd for RankedWord<W> {
    ghost partial_cmp = { λ a b. Some (weighed_cmp a b) };

    ghost laws = { partial_order_from_total weighed_total };

    fn partial_cmp(&self, other: &Self) -> Option<Ordering> {
        Some(compare(self, other))
    }
}

impl<W: Word> Eq for RankedWord<W> {
    ghost laws = { eq_by_cmp_equiv weighed_total };
}

impl<W: Word> PartialEq for RankedWord<W> {
    ghost eq = { λ a b. is_eq (weighed_cmp a b) };

    ghost laws = { partial_equiv_from_equiv (eq_by_cmp_equiv weighed_total) };

    fn eq(&self, other: &Self) -> bool {
        compare(self, other).is_eq()
    }
}

/// Which of two ranks first. It takes no memory.
fn compare<W: Word>(one: &RankedWord<W>, other: &RankedWord<W>) -> Ordering
    ensures { result ≡ weighed_cmp one.now other.now }
{
    match compare_fractions(other.part, other.whole, one.part, one.whole) {
        Ordering::Equal => one.word().cmp(other.word()),
        order => order,
    }
}
