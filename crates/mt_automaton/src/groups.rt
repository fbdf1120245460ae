//! Matches with labels, in groups that share their labels.

ghost use Rattle.std.specs.Prelude.{◌≡◌, ℕ, ◌<◌, ◌*◌, length, OnOk, IfOk, IfErr};
ghost use Rattle.mt_match_spec.specs.Labels.{labelled, united};
ghost use Rattle.mt_places.specs.Places.{In};
ghost use Rattle.mt_automaton.specs.declared.labelled.Labelled.TheVariants.{Plain as PlainOf, Token as TokenOf};
ghost use Rattle.mt_automaton.specs.Parts.{width};
ghost use Rattle.mt_automaton.specs.Groups.{group, IsAscending, StandsBetween, Fine, AddsRows, Leads, TokenBelow};

use crate::labelled::{Labelled, labelled_starts};
use crate::part::Part;
use crate::pool::Pool;
use crate::reach::ends;
use crate::view::{Mark, Standing, View};
use mt_base::NoMemory;
use mt_places::Places;
use std::cmp::Ordering;

/// The place that a label has which is not set.
pub const UNSET: u32 = u32::MAX;

/// The rows that share their labels: a place for each of the labels 1 to 9, and the set of their ends.
#[derive(Drop)]
pub struct Group {
    pub labels: [u32; 9],
    pub ends: Places,
}

/// Where a group with these labels stands, or where it would.
fn find(groups: &[Group], labels: [u32; 9]) -> Result<usize, usize>
    requires { IsAscending groups.now }
    ensures found { IfOk result (λ at. (at < length groups.now) × ((group groups.now at).labels ≡ labels)) }
    ensures none { IfErr result (λ at. StandsBetween groups.now labels at) }
{
    let mut low = 0;
    let mut high = groups.len();
    while low < high {
        let middle = low + (high - low) / 2;
        match groups[middle].labels.cmp(&labels) {
            Ordering::Equal => return Ok(middle),
            Ordering::Less => low = middle + 1,
            Ordering::Greater => high = middle,
        }
    }
    Err(low)
}

/// The same, and where the labels come behind those of the last group, by one comparison.
fn find_or_last(groups: &[Group], labels: [u32; 9]) -> Result<usize, usize>
    requires { IsAscending groups.now }
    ensures found { IfOk result (λ at. (at < length groups.now) × ((group groups.now at).labels ≡ labels)) }
    ensures none { IfErr result (λ at. StandsBetween groups.now labels at) }
{
    let count = groups.len();
    if count > 0 && groups[count - 1].labels.cmp(&labels).is_lt() {
        return Err(count);
    }
    find(groups, labels)
}

/// Adds ends under some labels.
fn merge(
    pool: &mut Pool,
    groups: &mut Vec<Group>,
    labels: [u32; 9],
    set: Places,
) -> Result<(), NoMemory>
    requires fine { Fine (length set) groups.old.items }
    requires some { (f : ℕ) × In set f }
    ensures { OnOk result (AddsRows (length set) (λ l f. (l ≡ labels) × In set f) groups.old.items groups.new.items) }
{
    match find_or_last(groups, labels) {
        Ok(at) => {
            groups[at].ends.add(&set);
            pool.give(set);
            Ok(())
        }
        Err(at) => {
            groups.insert(at, Group { labels, ends: set })?;
            Ok(())
        }
    }
}

/// The rows of a part without labels.
fn add_plain<V: View>(
    pool: &mut Pool,
    view: &V,
    part: &Part,
    from: &Places,
    allowed: &Places,
    labels: [u32; 9],
    out: &mut Vec<Group>,
) -> Result<(), NoMemory>
    requires from { length from.now ≡ width (V.seen view.now) }
    requires allowed { length allowed.now ≡ width (V.seen view.now) }
    requires fine { Fine (width (V.seen view.now)) out.old.items }
    ensures { OnOk result (AddsRows (width (V.seen view.now)) (λ l f. Leads (V.seen view.now) (PlainOf part.now) from.now allowed.now labels l f)
        out.old.items out.new.items) }
{
    let begins = pool.copy(from)?;
    let mut found = ends(pool, view, part, begins)?;
    found.keep(allowed);
    if found.is_empty() {
        pool.give(found);
        return Ok(());
    }
    merge(pool, out, labels, found)
}

/// The labels with one of them set, if it is not set yet; 0 is none.
fn with_label(labels: [u32; 9], label: u8, place: u32) -> [u32; 9]
    ensures { result ≡ united labels (labelled label place) }
{
    let mut more = labels;
    let at = label as usize;
    if at > 0 && at <= 9 && more[at - 1] == UNSET {
        more[at - 1] = place;
    }
    more
}

/// The rows of tokens with a label, from their places.
fn add_each(
    pool: &mut Pool,
    label: u8,
    places: &Places,
    last: u32,
    labels: [u32; 9],
    out: &mut Vec<Group>,
) -> Result<(), NoMemory>
    requires within { (place : ℕ) → In places.now place → place < last }
    requires room { last < 64 * length places.now }
    requires fine { Fine (length places.now) out.old.items }
    ensures { OnOk result (AddsRows (length places.now) (λ l f. TokenBelow label places.now labels last l f) out.old.items out.new.items) }
{
    let mut from = 0;
    while let Some(at) = places.first_from(from) {
        let mut end = pool.copy(places)?;
        end.clear();
        end.insert(at + 1);
        merge(pool, out, with_label(labels, label, at), end)?;
        from = at + 1;
    }
    Ok(())
}

/// The rows of a token with a label.
fn add_token<V: View>(
    pool: &mut Pool,
    view: &V,
    label: u8,
    test: u32,
    from: &Places,
    allowed: &Places,
    labels: [u32; 9],
    out: &mut Vec<Group>,
) -> Result<(), NoMemory>
    requires from { length from.now ≡ width (V.seen view.now) }
    requires allowed { length allowed.now ≡ width (V.seen view.now) }
    requires fine { Fine (width (V.seen view.now)) out.old.items }
    ensures { OnOk result (AddsRows (width (V.seen view.now)) (λ l f. Leads (V.seen view.now) (TokenOf label test) from.now allowed.now labels l f)
        out.old.items out.new.items) }
{
    let last = view.tokens();
    let mut places = pool.copy(allowed)?;
    places.down(1);
    places.keep(from);
    places.keep(&Standing {
        view,
        mark: Mark::Holds(test),
    });
    add_each(pool, label, &places, last, labels, out)?;
    pool.give(places);
    Ok(())
}

/// Adds the rows of the matches that begin in one set and end in the other, where some labels are given before.
pub fn labelled_rows<V: View>(
    pool: &mut Pool,
    view: &V,
    part: &Labelled,
    from: &Places,
    allowed: &Places,
    labels: [u32; 9],
    out: &mut Vec<Group>,
) -> Result<(), NoMemory>
    requires from { length from.now ≡ width (V.seen view.now) }
    requires allowed { length allowed.now ≡ width (V.seen view.now) }
    requires fine { Fine (width (V.seen view.now)) out.old.items }
    ensures { OnOk result (AddsRows (width (V.seen view.now)) (λ l f. Leads (V.seen view.now) part.now from.now allowed.now labels l f)
        out.old.items out.new.items) }
{
    match part {
        Labelled::Plain(plain) => add_plain(pool, view, plain, from, allowed, labels, out),
        Labelled::Token(label, test) => {
            add_token(pool, view, *label, *test, from, allowed, labels, out)
        }
        Labelled::Seq(left, right) => {
            let again = pool.copy(allowed)?;
            let cut = labelled_starts(pool, view, right, again)?;
            let mut first = pool.groups();
            labelled_rows(pool, view, left, from, &cut, labels, &mut first)?;
            pool.give(cut);
            for group in &first {
                labelled_rows(pool, view, right, &group.ends, allowed, group.labels, out)?;
            }
            pool.give_groups(first);
            Ok(())
        }
        Labelled::Choice(left, right) => {
            labelled_rows(pool, view, left, from, allowed, labels, out)?;
            labelled_rows(pool, view, right, from, allowed, labels, out)
        }
    }
}
