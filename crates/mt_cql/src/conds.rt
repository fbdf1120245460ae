//! Conditions that were read, and what of them is at fault.

ghost use Rattle.std.specs.Prelude.{◌≡◌, ◌+◌, ◌≤◌, [], None, length, OnOk};
ghost use Rattle.mt_text_spec.specs.Registries.{ValidRegistry, attr_names};
ghost use Rattle.mt_query_spec.specs.Meaning as meaning;
ghost use Rattle.mt_query_laws.specs.Parts as spec;
ghost use Rattle.mt_cql.specs.Read.{part_seen, conds_seen};
ghost use Rattle.mt_cql.specs.StateSeen.{cond_tree_seen};

use super::names::{find_attr, or_first, undeclared};
use super::parts::{CondsPart, Part, first_of, kept_label, least_of, more};
use super::query::Cond;
use super::state::Side;
use mt_base::{List, NoMemory, Registry};
use std::alloc::Global;

/// A condition as it is written: whether the values at two labels are equal, or differ.
#[derive(Clone, Copy, Drop)]
pub struct Written<'a> {
    pub left: Side<'a>,
    pub equal: bool,
    pub right: Side<'a>,
}

/// The condition under a registry.
fn cond_of(registry: &Registry, written: &Written<'_>) -> Cond
    requires { ValidRegistry registry.now }
    ensures { result ≡ meaning.cond_of registry.now (cond_tree_seen written.now) }
{
    Cond {
        left: kept_label(written.left.number),
        left_attr: or_first(find_attr(registry, written.left.name)),
        equal: written.equal,
        right: kept_label(written.right.number),
        right_attr: or_first(find_attr(registry, written.right.name)),
    }
}

/// The place of a side's name, where it is not declared.
fn side_unknown(registry: &Registry, side: &Side<'_>) -> Option<u32>
    requires { ValidRegistry registry.now }
    ensures { result ≡ meaning.undeclared side.now.name_at (meaning.number_of (attr_names registry.now.attrs) side.now.name.now) }
{
    undeclared(side.name_at, find_attr(registry, side.name))
}

/// The place of the first name in a condition that is not declared.
fn cond_unknown(registry: &Registry, written: &Written<'_>) -> Option<u32>
    requires { ValidRegistry registry.now }
    ensures { result ≡ meaning.cond_unknown registry.now (cond_tree_seen written.now) }
{
    first_of(
        side_unknown(registry, &written.left),
        side_unknown(registry, &written.right),
    )
}

/// Whether a label of this number has a place, where `places` are those of the labels from `n` on.
fn has_label(n: u32, places: &[Option<u32>], number: u32) -> bool
    requires { n + length places.now ≤ 10 }
    ensures { result ≡ meaning.has_label n places.now number }
{
    match places.split_first() {
        None => false,
        Some((place, others)) => {
            number == n && place.is_some() || has_label(n + 1, others, number)
        }
    }
}

/// The place of a number for which there is no label.
fn missing_label(places: &[Option<u32>], at: u32, number: u32) -> Option<u32>
    requires { length places.now ≤ 9 }
    ensures { result ≡ meaning.missing_label places.now at number }
{
    if has_label(1, places, number) {
        None
    } else {
        Some(at)
    }
}

/// The least place of a label in a condition that the head does not have.
fn cond_label_fault(places: &[Option<u32>], written: &Written<'_>) -> Option<u32>
    requires { length places.now ≤ 9 }
    ensures { result ≡ meaning.cond_label_fault places.now (cond_tree_seen written.now) }
{
    least_of(
        missing_label(places, written.left.at, written.left.number),
        missing_label(places, written.right.at, written.right.number),
    )
}

/// No conditions.
pub fn no_conds(alloc: Global) -> CondsPart
    ensures { conds_seen result ≡ record { conds = []; label = None; unknown = None; nodes = 0 } }
{
    CondsPart {
        conds: List::new(alloc),
        label: None,
        unknown: None,
        nodes: 0,
    }
}

/// One condition more on the labels of a head.
pub fn one_more(
    registry: &Registry,
    head: &Part,
    conds: &mut CondsPart,
    written: &Written<'_>,
) -> Result<(), NoMemory>
    requires { ValidRegistry registry.now }
    ensures { OnOk result (conds_seen conds.new ≡ spec.cond_part registry.now (part_seen head.now) (conds_seen conds.old) (cond_tree_seen written.now)) }
{
    conds.conds.push(cond_of(registry, written))?;
    conds.label = least_of(conds.label, cond_label_fault(&head.labels, written));
    conds.unknown = first_of(conds.unknown, cond_unknown(registry, written));
    conds.nodes = more(conds.nodes);
    Ok(())
}
