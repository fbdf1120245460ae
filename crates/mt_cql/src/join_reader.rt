//! Reading a query, token by token: choices, parentheses and filters, where they end.

ghost use Rattle.std.specs.Prelude.{◌≡◌, [], true, map, IfOk, OnOk};
ghost use Rattle.mt_query_laws.specs.Exprs as exprs;
ghost use Rattle.mt_query_laws.specs.Parts as spec;
ghost use Rattle.mt_cql.specs.Read.{part_seen, filters_seen, operand_seen};
ghost use Rattle.mt_cql.specs.StateSeen.{ways, opens, maybe_part_seen, maybe_filters_seen, whole_op_seen, maybe_op_seen, head_seen, group_seen, asked_of, filtered_now, asked_now, next};

use super::parts::{FiltersPart, OperandPart, Part};
use super::query::FilterKind;
use super::reader::Reader;
use super::stack::Stack;
use super::state::{Group, Head, Op, Phase, State};
use mt_base::NoMemory;
use std::mem;

/// The op that a word begins.
pub fn op_of(at: u32, name: &str) -> Option<Op>
    ensures { maybe_op_seen result ≡ exprs.op_of at name.now }
{
    if name == "within" {
        Some(Op {
            at,
            kind: FilterKind::Within,
        })
    } else if name == "containing" {
        Some(Op {
            at,
            kind: FilterKind::Containing,
        })
    } else {
        None
    }
}

/// The op that a word begins behind `!`.
pub fn not_op_of(at: u32, name: &str) -> Option<Op>
    ensures { maybe_op_seen result ≡ exprs.not_op_of at name.now }
{
    if name == "within" {
        Some(Op {
            at,
            kind: FilterKind::NotWithin,
        })
    } else if name == "containing" {
        Some(Op {
            at,
            kind: FilterKind::NotContaining,
        })
    } else {
        None
    }
}

/// Whether a `(` behind an op, with this before it and these outside, opens an operand with filters.
fn opens_operand(group: &Group, groups: &Stack<Group>, heads: &Stack<Head>) -> bool
    ensures { result ≡ opens group.now groups.now heads.now }
{
    groups.is_empty() && !heads.is_empty() && group.sequence.is_none() && group.branches.is_none()
}

impl<'a> Reader<'a> {
    /// A sequence behind others of its choice.
    fn choice_of(&self, left: Option<Part>, sequence: Part) -> Result<Part, NoMemory>
        ensures { IfOk result (λ p. part_seen p ≡ exprs.choice_of (ways self.now) (maybe_part_seen left) (part_seen sequence)) }
    {
        match left {
            None => Ok(sequence),
            Some(left) => Part::or(self.alloc, left, sequence),
        }
    }

    /// The choice ends that the sequence which was read belongs to.
    pub fn choice_read(&self, state: &mut State<'a>) -> Result<(), NoMemory>
        ensures part { OnOk result (part_seen state.new.part
            ≡ exprs.choice_of (ways self.now) (maybe_part_seen state.old.before.branches) (part_seen state.old.part)) }
        ensures groups { state.new.groups ≡ state.old.groups }
        ensures heads { state.new.heads ≡ state.old.heads }
    {
        let sequence = mem::replace(&mut state.part, Part::none());
        let branches = state.before.branches.take();
        state.part = self.choice_of(branches, sequence)?;
        Ok(())
    }

    /// A filter behind others.
    fn filters_of(
        &self,
        left: Option<FiltersPart>,
        op: Op,
        operand: OperandPart,
    ) -> Result<FiltersPart, NoMemory>
        ensures { IfOk result (λ f. filters_seen f ≡ exprs.filters_of (ways self.now) (maybe_filters_seen left) (whole_op_seen op) (operand_seen operand)) }
    {
        match left {
            None => FiltersPart::one(self.alloc, op.kind, operand),
            Some(left) => FiltersPart::more(left, op.kind, operand),
        }
    }

    /// The choice that was read is the operand of an op, and stands behind a head.
    fn end_operand(&self, state: &mut State<'a>, head: Head) -> Result<(), NoMemory>
        ensures choice { OnOk result (part_seen state.new.part ≡ (head_seen head).choice) }
        ensures filters { OnOk result (filters_seen state.new.filters ≡ exprs.with_operand (ways self.now) (head_seen head) (part_seen state.old.part)) }
        ensures has_filters { OnOk result (state.new.has_filters ≡ true) }
        ensures groups { state.new.groups ≡ state.old.groups }
        ensures heads { state.new.heads ≡ state.old.heads }
    {
        let choice = mem::replace(&mut state.part, head.choice);
        state.filters = self.filters_of(head.filters, head.op, OperandPart::plain(choice))?;
        state.has_filters = true;
        Ok(())
    }

    /// The filters of an operand end before a `)`.
    #[tactic(auto, unfolding(mt_query_laws::specs::Exprs::close_filters))]
    pub fn close_filters(&self, state: &mut State<'a>) -> Result<bool, NoMemory>
        ensures { IfOk result (λ goes. next goes state.new
            ≡ exprs.close_filters (ways self.now) (part_seen state.old.part) (filters_seen state.old.filters) (map head_seen state.old.heads)) }
    {
        match state.heads.pop() {
            None => Ok(false),
            Some(head) => {
                let choice = mem::replace(&mut state.part, head.choice);
                let filters = mem::replace(&mut state.filters, FiltersPart::none(self.alloc));
                let operand = OperandPart::filtered(self.alloc, choice, filters)?;
                state.filters = self.filters_of(head.filters, head.op, operand)?;
                state.phase = Phase::FiltersRead;
                Ok(true)
            }
        }
    }

    /// A choice ends before a `)`.
    #[tactic(auto, unfolding(mt_query_laws::specs::Exprs::close_choice))]
    pub fn close_choice(&self, state: &mut State<'a>) -> Result<bool, NoMemory>
        ensures { IfOk result (λ goes. next goes state.new
            ≡ exprs.close_choice (ways self.now) (part_seen state.old.part) (map group_seen state.old.groups) (map head_seen state.old.heads)) }
    {
        match state.groups.pop() {
            Some(before) => {
                state.before = before;
                state.phase = Phase::AtomRead;
                Ok(true)
            }
            None => match state.heads.pop() {
                None => Ok(false),
                Some(head) => {
                    self.end_operand(state, head)?;
                    self.close_filters(state)
                }
            },
        }
    }

    /// A choice that stands in no parentheses ends before an op.
    #[tactic(auto, unfolding(mt_query_laws::specs::Exprs::before_op))]
    fn filtered_by(&self, state: &mut State<'a>) -> Result<bool, NoMemory>
        ensures { IfOk result (λ goes. filtered_now goes state.new ≡ exprs.before_op (ways self.now) (part_seen state.old.part) [] (map head_seen state.old.heads)) }
    {
        match state.heads.pop() {
            None => {
                state.has_filters = false;
                Ok(true)
            }
            Some(head) => {
                self.end_operand(state, head)?;
                Ok(true)
            }
        }
    }

    /// A choice ends before an op: whether one may stand there.
    #[tactic(auto, unfolding(mt_query_laws::specs::Exprs::before_op))]
    pub fn before_op(&self, state: &mut State<'a>) -> Result<bool, NoMemory>
        ensures { IfOk result (λ goes. filtered_now goes state.new
            ≡ exprs.before_op (ways self.now) (part_seen state.old.part) (map group_seen state.old.groups) (map head_seen state.old.heads)) }
    {
        match state.groups.pop() {
            None => self.filtered_by(state),
            Some(group) => {
                let opens = opens_operand(&group, &state.groups, &state.heads);
                drop(group);
                state.has_filters = false;
                Ok(opens)
            }
        }
    }

    /// A choice ends before a condition or the end of the text: whether the head of a query may end there.
    #[tactic(auto, unfolding(mt_query_laws::specs::Exprs::asked_of))]
    pub fn asked_of(&self, state: &mut State<'a>) -> Result<bool, NoMemory>
        ensures { IfOk result (λ goes. asked_now goes state.new
            ≡ exprs.asked_of (ways self.now) (part_seen state.old.part) (map group_seen state.old.groups) (map head_seen state.old.heads)) }
    {
        if !state.groups.is_empty() {
            return Ok(false);
        }
        match state.heads.pop() {
            None => {
                state.has_filters = false;
                Ok(true)
            }
            Some(head) => {
                if !state.heads.is_empty() {
                    drop(head);
                    return Ok(false);
                }
                self.end_operand(state, head)?;
                Ok(true)
            }
        }
    }

    /// Filters end before a condition or the end of the text: whether the head of a query may end there.
    #[tactic(auto, unfolding(mt_query_laws::specs::Exprs::asked_filters))]
    pub fn asked_filters(&self, state: &mut State<'a>) -> bool
        ensures { asked_now result state.new
            ≡ exprs.asked_filters (ways self.now) (part_seen state.old.part) (filters_seen state.old.filters) (map head_seen state.old.heads) }
    {
        state.has_filters = true;
        state.heads.is_empty()
    }
}
