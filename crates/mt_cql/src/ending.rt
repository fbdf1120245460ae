//! The end of a text: what is said of the query that was read.

ghost use Rattle.std.specs.Prelude.{◌≡◌, None, Some, map, nat_lt, ◌||◌, IfOk};
ghost use Rattle.mt_query_spec.specs.Verdicts as verdicts;
ghost use Rattle.mt_query_laws.specs.Exprs as exprs;
ghost use Rattle.mt_query_laws.specs.Parts as spec;
ghost use Rattle.mt_query_laws.specs.Reading.{or_refused};
ghost use Rattle.mt_cql.specs.Read.{Said, part_seen, filters_seen, conds_seen};
ghost use Rattle.mt_cql.specs.StateSeen.{ways, maybe_part_seen, head_seen, around_of, asked_of, asked_now, place_of, state_seen, fault_seen};

use super::conds::no_conds;
use super::parts::{CondsPart, FiltersPart, MOST_NODES, Part, chained, first_of, least_of, sum};
use super::query::{Cause, Filters, Query, QueryError};
use super::reader::Reader;
use super::state::{Phase, State};
use std::alloc::Global;

/// The least place of a range or a label at fault.
fn worst(range: Option<u32>, label: Option<u32>) -> Option<(u32, Cause)>
    ensures { fault_seen result ≡ verdicts.worst range label }
{
    match (range, label) {
        (None, None) => None,
        (Some(range), None) => Some((range, Cause::Range)),
        (None, Some(label)) => Some((label, Cause::Label)),
        (Some(range), Some(label)) => {
            if range < label {
                Some((range, Cause::Range))
            } else {
                Some((label, Cause::Label))
            }
        }
    }
}

/// Whether a query is too great.
fn is_great(nodes: u32, size: u32) -> bool
    ensures { result ≡ spec.great nodes size }
{
    nodes > MOST_NODES || size > 4096
}

/// What is said of a query: a range or a label at fault first, then a name that is not declared, then that it is too great.
fn judged(
    fault: Option<(u32, Cause)>,
    unknown: Option<u32>,
    is_great: bool,
    query: Query,
) -> Result<Query, QueryError>
    ensures { Said result (verdicts.judged (fault_seen fault) unknown is_great query) }
{
    let error = match fault {
        Some((at, cause)) => QueryError::Syntax { at, cause },
        None => match unknown {
            Some(at) => QueryError::Unknown { at },
            None => {
                if !is_great {
                    return Ok(query);
                }
                QueryError::TooLarge
            }
        },
    };
    drop(query);
    Err(error)
}

/// A query without filters.
fn asks(head: Part, conds: CondsPart) -> Result<Query, QueryError>
    ensures { Said result (spec.asks_part (part_seen head) (conds_seen conds)) }
{
    let fault = worst(head.faults.range, least_of(head.faults.label, conds.label));
    let unknown = first_of(head.faults.unknown, conds.unknown);
    let is_great = is_great(sum(head.faults.nodes, conds.nodes), head.faults.size);
    let query = Query::new(head.expr, Filters::End, conds.conds);
    judged(fault, unknown, is_great, query)
}

/// A query with filters.
fn asks_filtered(
    alloc: Global,
    head: Part,
    filters: FiltersPart,
    conds: CondsPart,
) -> Result<Query, QueryError>
    ensures { Said result (spec.asks_filtered_part (part_seen head) (filters_seen filters) (conds_seen conds)) }
{
    let label = least_of(
        least_of(head.faults.label, filters.faults.label),
        conds.label,
    );
    let fault = worst(least_of(head.faults.range, filters.faults.range), label);
    let unknown = first_of(
        first_of(head.faults.unknown, filters.faults.unknown),
        conds.unknown,
    );
    let nodes = sum(head.faults.nodes, sum(filters.faults.nodes, conds.nodes));
    let is_great = is_great(nodes, sum(head.faults.size, filters.faults.size));
    match chained(alloc, filters.filters) {
        Err(_) => Err(QueryError::NoMemory),
        Ok(filters) => {
            let query = Query::new(head.expr, filters, conds.conds);
            judged(fault, unknown, is_great, query)
        }
    }
}

/// The text ends too early.
fn too_early(end: u32) -> Result<Query, QueryError>
    ensures { Said result (or_refused None end) }
{
    Err(QueryError::Syntax {
        at: end,
        cause: Cause::Token,
    })
}

impl<'a> Reader<'a> {
    /// The query of a head with its filters and its conditions.
    fn query_of(&self, state: State<'a>) -> Result<Query, QueryError>
        ensures { Said result (exprs.query_of (ways self.now) (asked_of state.entry) (conds_seen state.entry.conds)) }
    {
        let State {
            part,
            has_filters,
            filters,
            conds,
            ..
        } = state;
        if has_filters {
            asks_filtered(self.alloc, part, filters, conds)
        } else {
            asks(part, conds)
        }
    }

    /// A query without conditions, where the head of one ends.
    #[tactic(auto, unfolding(mt_query_laws::specs::Exprs::ends))]
    fn ends(&self, state: State<'a>, asked: bool, end: u32) -> Result<Query, QueryError>
        ensures { Said result (or_refused (exprs.ends (ways self.now) (asked_now asked state.entry) (ways self.now).no_conds) end) }
    {
        if !asked {
            return too_early(end);
        }
        let mut state = state;
        state.conds = no_conds(self.alloc);
        self.query_of(state)
    }

    /// The text ends behind an item.
    fn end_choice(&self, state: State<'a>, end: u32) -> Result<Query, QueryError>
        ensures { Said result (or_refused (exprs.ends (ways self.now)
            (exprs.asked_of (ways self.now) (exprs.choice_of (ways self.now) (maybe_part_seen state.entry.before.branches) (part_seen state.entry.part))
            (around_of state.entry).groups (around_of state.entry).heads) (ways self.now).no_conds) end) }
    {
        let mut state = state;
        self.choice_read(&mut state)?;
        let asked = self.asked_of(&mut state)?;
        self.ends(state, asked, end)
    }

    /// The text ends behind an atom.
    #[tactic(auto, unfolding(mt_query_laws::specs::Exprs::finish))]
    fn end_item(&self, state: State<'a>, end: u32) -> Result<Query, QueryError>
        ensures { Said result (or_refused (exprs.finish (ways self.now) (exprs.AtomRead (part_seen state.entry.part) (place_of state.entry))) end) }
    {
        let mut state = state;
        self.atom_alone(&mut state)?;
        self.end_choice(state, end)
    }

    /// The text ends behind filters.
    fn end_filters(&self, state: State<'a>, end: u32) -> Result<Query, QueryError>
        ensures { Said result (or_refused (exprs.ends (ways self.now)
            (exprs.asked_filters (ways self.now) (part_seen state.entry.part) (filters_seen state.entry.filters) (map head_seen state.entry.heads)) (ways self.now).no_conds) end) }
    {
        let mut state = state;
        let asked = self.asked_filters(&mut state);
        self.ends(state, asked, end)
    }

    /// What is said where the tokens end: the query that they are, or that the end comes too early.
    #[tactic(auto, unfolding(mt_query_laws::specs::Exprs::finish))]
    pub fn finish(&self, state: State<'a>, end: u32) -> Result<Query, QueryError>
        ensures { Said result (or_refused (exprs.finish (ways self.now) (state_seen state.entry)) end) }
    {
        match state.phase {
            Phase::AtomRead => self.end_item(state, end),
            Phase::ItemRead => self.end_choice(state, end),
            Phase::FiltersRead => self.end_filters(state, end),
            Phase::CondRead => self.query_of(state),
            _ => too_early(end),
        }
    }
}
