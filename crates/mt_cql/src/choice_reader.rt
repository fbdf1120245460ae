//! Reading a query, token by token: what follows an item, a filter or the `!` of one.

ghost use Rattle.std.specs.Prelude.{◌≡◌, [], ◌∷◌, None, Some, map, IfOk};
ghost use Rattle.mt_query_laws.specs.Exprs as exprs;
ghost use Rattle.mt_cql.specs.Seen.{token_seen};
ghost use Rattle.mt_cql.specs.Read.{part_seen, filters_seen};
ghost use Rattle.mt_cql.specs.StateSeen.{ways, maybe_part_seen, maybe_op_seen, whole_op_seen, group_seen, head_seen, around_of, place_of, asked_of, asked_now, next};

use super::conds::no_conds;
use super::join_reader::{not_op_of, op_of};
use super::parts::Part;
use super::reader::Reader;
use super::stack::Stack;
use super::state::{Condition, Counting, Group, Head, Op, Phase, SideState, State};
use super::token::{Sign, Token};
use mt_base::NoMemory;
use std::mem;

impl<'a> Reader<'a> {
    /// A branch of a choice ends before a `|`.
    fn branch(&self, state: &mut State<'a>) -> Result<bool, NoMemory>
        ensures { IfOk result (λ goes. next goes state.new ≡ Some (exprs.Wanted (record {
          before = record { sequence = None; branches = Some (exprs.choice_of (ways self.now) (maybe_part_seen state.old.before.branches) (part_seen state.old.part)) };
          around = around_of state.old;
        }))) }
    {
        self.choice_read(state)?;
        let choice = mem::replace(&mut state.part, Part::none());
        state.before = Group {
            sequence: None,
            branches: Some(choice),
        };
        state.phase = Phase::Wanted;
        Ok(true)
    }

    /// An op, behind which an operand is wanted.
    fn operand_wanted(&self, state: &mut State<'a>, op: Op) -> Result<bool, NoMemory>
        ensures { IfOk result (λ goes. next goes state.new ≡ Some (exprs.Wanted (exprs.choice_place (ways self.now) (record {
          groups = [];
          heads = record { choice = (asked_of state.old).choice; filters = (asked_of state.old).filters; op = whole_op_seen op } ∷ map head_seen state.old.heads;
        })))) }
    {
        let choice = mem::replace(&mut state.part, Part::none());
        let filters = state.take_filters(self.alloc);
        state.heads.push(Head {
            choice,
            filters,
            op,
        })?;
        state.before = Group::none();
        state.groups = Stack::new(self.alloc);
        state.phase = Phase::Wanted;
        Ok(true)
    }

    /// An op behind a choice.
    #[tactic(auto, unfolding(mt_query_laws::specs::Exprs::filtered))]
    fn op_behind(&self, state: &mut State<'a>, op: Option<Op>) -> Result<bool, NoMemory>
        ensures { IfOk result (λ goes. next goes state.new ≡ exprs.filtered (ways self.now) (maybe_op_seen op)
            (exprs.before_op (ways self.now) (part_seen state.old.part) (map group_seen state.old.groups) (map head_seen state.old.heads))) }
    {
        match op {
            None => Ok(false),
            Some(op) => {
                if self.before_op(state)? {
                    self.operand_wanted(state, op)
                } else {
                    Ok(false)
                }
            }
        }
    }

    /// A `!` behind a choice begins an op.
    #[tactic(auto, unfolding(mt_query_laws::specs::Exprs::bang))]
    fn bang(&self, state: &mut State<'a>) -> Result<bool, NoMemory>
        ensures { IfOk result (λ goes. next goes state.new ≡ exprs.bang (ways self.now)
            (exprs.before_op (ways self.now) (part_seen state.old.part) (map group_seen state.old.groups) (map head_seen state.old.heads))) }
    {
        if self.before_op(state)? {
            state.phase = Phase::BangRead;
            Ok(true)
        } else {
            Ok(false)
        }
    }

    /// A `&` begins the first condition, where the head of a query ends.
    #[tactic(auto, unfolding(mt_query_laws::specs::Exprs::cond_begins))]
    fn cond_begins(&self, state: &mut State<'a>, asked: bool) -> bool
        ensures { next result state.new ≡ exprs.cond_begins (ways self.now) (asked_now asked state.old) (ways self.now).no_conds }
    {
        state.conds = no_conds(self.alloc);
        state.phase = Phase::InCond {
            cond: Condition::Left(SideState::Started),
        };
        if asked { true } else { false }
    }

    /// The next token behind an item.
    #[tactic(auto, unfolding(mt_query_laws::specs::Exprs::read_step))]
    pub fn read_step(&self, state: &mut State<'a>, token: Token<'a>) -> Result<bool, NoMemory>
        ensures { IfOk result (λ goes. next goes state.new
            ≡ exprs.read_step (ways self.now) (part_seen state.old.part) (maybe_part_seen state.old.before.branches) (around_of state.old) (token_seen token.entry)) }
    {
        match token {
            Token::Mark(Sign::Bar) => self.branch(state),
            Token::Mark(Sign::CloseRound) => {
                self.choice_read(state)?;
                self.close_choice(state)
            }
            Token::Mark(Sign::Bang) => {
                self.choice_read(state)?;
                self.bang(state)
            }
            Token::Mark(Sign::And) => {
                self.choice_read(state)?;
                let asked = self.asked_of(state)?;
                Ok(self.cond_begins(state, asked))
            }
            Token::Word { at, name } => {
                self.choice_read(state)?;
                self.op_behind(state, op_of(at, name))
            }
            token => {
                let sequence = mem::replace(&mut state.part, Part::none());
                state.before.sequence = Some(sequence);
                self.begin_step(state, token)
            }
        }
    }

    /// The next token behind an atom.
    #[tactic(auto, unfolding(mt_query_laws::specs::Exprs::atom_step))]
    pub fn atom_step(&self, state: &mut State<'a>, token: Token<'a>) -> Result<bool, NoMemory>
        ensures { IfOk result (λ goes. next goes state.new ≡ exprs.atom_step (ways self.now) (part_seen state.old.part) (place_of state.old) (token_seen token.entry)) }
    {
        match token {
            Token::Mark(Sign::Star) => self.repeated(state, 0, 100, None),
            Token::Mark(Sign::Plus) => self.repeated(state, 1, 100, None),
            Token::Mark(Sign::Question) => self.repeated(state, 0, 1, None),
            Token::OpenCurly { at } => {
                state.phase = Phase::InRepeat {
                    at,
                    counting: Counting::Opened,
                };
                Ok(true)
            }
            token => {
                self.atom_alone(state)?;
                self.read_step(state, token)
            }
        }
    }

    /// The next token behind filters.
    #[tactic(auto, unfolding(mt_query_laws::specs::Exprs::filters_step, mt_query_laws::specs::Exprs::filtered))]
    pub fn filters_step(&self, state: &mut State<'a>, token: Token<'a>) -> Result<bool, NoMemory>
        ensures { IfOk result (λ goes. next goes state.new
            ≡ exprs.filters_step (ways self.now) (part_seen state.old.part) (filters_seen state.old.filters) (map head_seen state.old.heads) (token_seen token.entry)) }
    {
        match token {
            Token::Mark(Sign::CloseRound) => self.close_filters(state),
            Token::Mark(Sign::Bang) => {
                state.has_filters = true;
                state.phase = Phase::BangRead;
                Ok(true)
            }
            Token::Mark(Sign::And) => {
                let asked = self.asked_filters(state);
                Ok(self.cond_begins(state, asked))
            }
            Token::Word { at, name } => match op_of(at, name) {
                None => Ok(false),
                Some(op) => {
                    state.has_filters = true;
                    self.operand_wanted(state, op)
                }
            },
            _ => Ok(false),
        }
    }

    /// The next token behind the `!` of an op.
    #[tactic(auto, unfolding(mt_query_laws::specs::Exprs::bang_step, mt_query_laws::specs::Exprs::filtered))]
    pub fn bang_step(&self, state: &mut State<'a>, token: Token<'a>) -> Result<bool, NoMemory>
        ensures { IfOk result (λ goes. next goes state.new ≡ exprs.bang_step (ways self.now) (asked_of state.old) (map head_seen state.old.heads) (token_seen token.entry)) }
    {
        match token {
            Token::Word { at, name } => match not_op_of(at, name) {
                None => Ok(false),
                Some(op) => self.operand_wanted(state, op),
            },
            _ => Ok(false),
        }
    }
}
