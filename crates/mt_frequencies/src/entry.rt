//! A line of a frequency list.

ghost use Rattle.std.specs.Prelude.{◌≡◌, Some};
ghost use Rattle.std.specs.Ordering.{is_eq};
ghost use Rattle.std.specs.Cmp.{eq_by_cmp_equiv, partial_order_from_total, partial_equiv_from_equiv};
ghost use Rattle.std.specs.Cmp.Rules.{comparing};
ghost use Rattle.std.proofs.Common.{rules};
ghost use Rattle.mt_report_spec.specs.Counts.{frequency_cmp};
ghost use Rattle.mt_report_laws.specs.Orders.{frequency_total};

use std::cmp::Ordering;
use std::marker::Model;

/// A value, and how many spans have it. The one that more spans have is the less, and of two that as many have the one with the lesser bytes.
#[derive(Debug, Drop)]
pub(crate) struct Frequency<'a> {
    pub(crate) value: &'a str,
    pub(crate) spans: u32,
}

impl<'a> Model for Frequency<'a> {
    ghost use Rattle.mt_report_spec.specs.Counts as spec;

    ghost Value = { spec.Frequency };

    ghost view = { λ f. record { value = f.value.now; spans = f.spans } };
}

impl<'a> Ord for Frequency<'a> {
    ghost cmp = { frequency_cmp };

    ghost total = { frequency_total };

    ghost matches_partial_cmp = { Prim.search (comparing, rules) };

    ghost matches_eq = { Prim.search (comparing, rules) };

    fn cmp(&self, other: &Self) -> Ordering {
        compare(self, other)
    }
}

impl<'a> PartialOrd for Frequency<'a> {
    ghost partial_cmp = { λ a b. Some (frequency_cmp a b) };

    ghost laws = { partial_order_from_total frequency_total };

    fn partial_cmp(&self, other: &Self) -> Option<Ordering> {
        Some(compare(self, other))
    }
}

impl<'a> Eq for Frequency<'a> {
    ghost laws = { eq_by_cmp_equiv frequency_total };
}

impl<'a> PartialEq for Frequency<'a> {
    ghost eq = { λ a b. is_eq (frequency_cmp a b) };

    ghost laws = { partial_equiv_from_equiv (eq_by_cmp_equiv frequency_total) };

    fn eq(&self, other: &Self) -> bool {
        compare(self, other).is_eq()
    }
}

/// Which of two comes first. It takes no memory.
fn compare(one: &Frequency, other: &Frequency) -> Ordering
    ensures { result ≡ frequency_cmp one.now other.now }
{
    match other.spans.cmp(&one.spans) {
        Ordering::Equal => one.value.cmp(other.value),
        order => order,
    }
}
