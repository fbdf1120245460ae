//! What a sketch grammar counts in texts, as tables of counts.
#![tactic(auto)]

ghost use Rattle.mt_triples.specs.CountsOf.{DifferencesAreCounts, PartsAreWithin, RestIsLeft, SameCountSame, SumsAreCounts};
ghost use Rattle.mt_triples.specs.Tallied.{HaveCounts, HaveInstances, InstancesAreCounted};

mod triples;

use mt_count_laws::{one_count, one_unary_count};
use mt_match_laws::have_kept;
pub use triples::Triples;

/// Counts that are added up are those of both lists of texts together.
pub fn sums_are_counts()
    ensures { SumsAreCounts }
{}

/// Counts that are left when those of some texts are taken away are those of the other texts.
pub fn differences_are_counts()
    ensures { DifferencesAreCounts }
{
    one_count();
    one_unary_count();
}

/// Tables with the same counts count the same texts.
pub fn same_count_same()
    ensures { SameCountSame }
{}

/// No count over some of the texts is above that over all.
pub fn parts_are_within()
    ensures { PartsAreWithin }
{
    one_count();
    one_unary_count();
}

/// What is left when the counts over some of the texts are taken away are those over the others.
pub fn rest_is_left()
    ensures { RestIsLeft }
{
    one_count();
    one_unary_count();
}

/// Tables that count each instance of a text once have the counts of this text.
pub fn instances_are_counted()
    ensures { InstancesAreCounted }
{}

/// Every text has a list of its instances.
pub fn have_instances()
    ensures { HaveInstances }
{
    have_kept();
}

/// Every list of texts has counts.
pub fn have_counts()
    ensures { HaveCounts }
{
    have_kept();
    sums_are_counts();
    instances_are_counted();
}

fn shared<T: Send + Sync>() {}

/// That threads may share counts is proved by this function.
pub fn are_shared() {
    shared::<Triples>();
}
