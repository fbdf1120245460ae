//! How many shapes parts may have.

use mt_automaton::{Labelled, Part};

/// How many tokens the matches of a part may have at least and at most, and how many different lengths.
#[derive(Clone, Copy, Drop)]
struct Lengths {
    least: u32,
    most: u32,
    count: u32,
}

impl Lengths {
    /// No match is longer than the text, and there are no more lengths than lie between the least and the most.
    fn within(last: u32, least: u32, most: u32, count: u32) -> Self {
        let most = most.min(last);
        let between = most.saturating_sub(least).saturating_add(1);
        Lengths {
            least,
            most,
            count: count.min(between),
        }
    }
}

/// How long the matches of a part may be in a text of so many tokens, where all whole instances are equally long.
fn lengths_of(part: &Part, last: u32) -> Lengths {
    match part {
        Part::Token(_) => Lengths::within(last, 1, 1, 1),
        Part::Begin(_) => Lengths::within(last, 0, 0, 1),
        Part::End(_) => Lengths::within(last, 0, 0, 1),
        Part::Whole(_) => Lengths::within(last, 1, 1, 1),
        Part::Gap(least, most) => Lengths::within(last, *least, *most, u32::MAX),
        Part::Seq(left, right) => {
            let first = lengths_of(left, last);
            let second = lengths_of(right, last);
            let least = first.least.saturating_add(second.least);
            let most = first.most.saturating_add(second.most);
            Lengths::within(last, least, most, first.count.saturating_mul(second.count))
        }
        Part::Choice(left, right) => {
            let one = lengths_of(left, last);
            let other = lengths_of(right, last);
            let least = one.least.min(other.least);
            let most = one.most.max(other.most);
            Lengths::within(last, least, most, one.count.saturating_add(other.count))
        }
        Part::Repeat(inner, least, most) => {
            let turn = lengths_of(inner, last);
            let count = if turn.count == 1 {
                most.saturating_sub(*least).saturating_add(1)
            } else {
                u32::MAX
            };
            let least = turn.least.saturating_mul(*least);
            Lengths::within(last, least, turn.most.saturating_mul(*most), count)
        }
    }
}

/// How many shapes the matches of a part may have in a text of so many tokens, where all whole instances are equally long. It says only which way to rows is worth
/// a try, and each way finds the same.
pub(crate) fn most_shapes(part: &Labelled, last: u32) -> u32 {
    match part {
        Labelled::Plain(plain) => lengths_of(plain, last).count,
        Labelled::Token(_, _) => 1,
        Labelled::Seq(left, right) => {
            most_shapes(left, last).saturating_mul(most_shapes(right, last))
        }
        Labelled::Choice(left, right) => {
            most_shapes(left, last).saturating_add(most_shapes(right, last))
        }
    }
}
