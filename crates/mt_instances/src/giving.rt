//! What a row gives.

ghost use Rattle.std.specs.Prelude.{◌≡◌, ℕ, suc, ◌<◌, ◌⊎◌, length, IfSome, IfNone, OnOk};
ghost use Rattle.std.specs.List.{All};
ghost use Rattle.mt_match_spec.specs.Labels.{IsSetTo};
ghost use Rattle.mt_count_spec.specs.Instances.{IsPair};
ghost use Rattle.mt_counts.specs.Tables.{text_at};
ghost use Rattle.mt_instances.specs.Gains.{Gains, HasLabels, LiesIn};
ghost use Rattle.mt_instances.specs.Given.{OfOne, OfPair, OfTurned};

use crate::entry::Entry;
use crate::instances::Instances;
use mt_base::{NoMemory, Row};

/// The place of the label with this number less one, where it is set.
pub(crate) fn place_of(row: &Row, before: usize) -> Option<u32>
    requires { before < 9 }
    ensures set { IfSome result (λ place. IsSetTo row.now.labels (suc before) place) }
    ensures unset { IfNone result ((place : ℕ) → ¬ IsSetTo row.now.labels (suc before) place) }
{
    let place = row.labels()[before];
    if place == Row::UNSET {
        None
    } else {
        Some(place)
    }
}

/// The places of the labels 1 and 2, where both are set.
pub(crate) fn pair_of(row: &Row) -> Option<(u32, u32)>
    ensures set { IfSome result (λ pair. IsPair row.now pair.0 pair.1) }
    ensures unset { IfNone result ((p q : ℕ) → ¬ IsPair row.now p q) }
{
    match place_of(row, 0) {
        Some(p) => match place_of(row, 1) {
            Some(q) => Some((p, q)),
            None => None,
        },
        None => None,
    }
}

/// Adds the instance that a row gives a unary relation of the name with this number.
pub(crate) fn add_one(instances: &mut Instances, name: u32, row: &Row) -> Result<(), NoMemory>
    requires { name < length instances.old.names }
    ensures names { instances.new.names ≡ instances.old.names }
    ensures lies { (places : ℕ) → HasLabels row.now places → All (LiesIn places) instances.old.given → All (LiesIn places) instances.new.given }
    ensures given { OnOk result (Gains instances.old.given instances.new.given (OfOne (text_at instances.old.names name) row.now)) }
{
    match place_of(row, 0) {
        Some(first) => instances.push(Entry {
            name,
            first,
            second: None,
        }),
        None => Ok(()),
    }
}

/// Adds the instance that a row gives at the places of labels 1 and 2.
pub(crate) fn add_pair(instances: &mut Instances, name: u32, row: &Row) -> Result<(), NoMemory>
    requires { name < length instances.old.names }
    ensures names { instances.new.names ≡ instances.old.names }
    ensures lies { (places : ℕ) → HasLabels row.now places → All (LiesIn places) instances.old.given → All (LiesIn places) instances.new.given }
    ensures given { OnOk result (Gains instances.old.given instances.new.given (OfPair (text_at instances.old.names name) row.now)) }
{
    match pair_of(row) {
        Some((p, q)) => instances.push(Entry {
            name,
            first: p,
            second: Some(q),
        }),
        None => Ok(()),
    }
}

/// Adds the instance that a row gives at the places of labels 2 and 1.
pub(crate) fn add_turned(instances: &mut Instances, name: u32, row: &Row) -> Result<(), NoMemory>
    requires { name < length instances.old.names }
    ensures names { instances.new.names ≡ instances.old.names }
    ensures lies { (places : ℕ) → HasLabels row.now places → All (LiesIn places) instances.old.given → All (LiesIn places) instances.new.given }
    ensures given { OnOk result (Gains instances.old.given instances.new.given (OfTurned (text_at instances.old.names name) row.now)) }
{
    match pair_of(row) {
        Some((p, q)) => instances.push(Entry {
            name,
            first: q,
            second: Some(p),
        }),
        None => Ok(()),
    }
}

/// Adds the instances that a row gives in both directions, under a name for each.
pub(crate) fn add_both(
    instances: &mut Instances,
    name: u32,
    second: u32,
    row: &Row,
) -> Result<(), NoMemory>
    requires name { name < length instances.old.names }
    requires second { second < length instances.old.names }
    ensures names { instances.new.names ≡ instances.old.names }
    ensures lies { (places : ℕ) → HasLabels row.now places → All (LiesIn places) instances.old.given → All (LiesIn places) instances.new.given }
    ensures given { OnOk result (Gains instances.old.given instances.new.given (λ instance. OfPair (text_at instances.old.names name) row.now instance ⊎ OfTurned (text_at instances.old.names second) row.now instance)) }
{
    add_pair(instances, name, row)?;
    add_turned(instances, second, row)
}
