//! Reading a query, token by token: conditions.

ghost use Rattle.std.specs.Prelude.{◌≡◌, Some, IfOk};
ghost use Rattle.mt_text_spec.specs.Registries.{ValidRegistry};
ghost use Rattle.mt_query_laws.specs.Exprs as exprs;
ghost use Rattle.mt_cql.specs.Seen.{token_seen};
ghost use Rattle.mt_cql.specs.Read.{conds_seen};
ghost use Rattle.mt_cql.specs.StateSeen.{ways, asked_of, side_seen, side_state_seen, condition_seen, maybe_condition_seen, cond_tree_seen, next};

use super::conds::{Written, one_more};
use super::reader::Reader;
use super::state::{Condition, Phase, Side, SideState, State};
use super::token::{Sign, Token};
use mt_base::NoMemory;

/// The next token of the left side of a condition.
#[tactic(auto, unfolding(mt_query_laws::specs::Exprs::left_step))]
fn left_step<'a>(side: SideState, token: Token<'a>) -> Option<Condition<'a>>
    ensures { maybe_condition_seen result ≡ exprs.left_step (side_state_seen side) (token_seen token.entry) }
{
    match (side, token) {
        (SideState::Started, Token::Number { at, value }) => {
            Some(Condition::Left(SideState::Numbered { at, number: value }))
        }
        (SideState::Numbered { at, number }, Token::Mark(Sign::Dot)) => {
            Some(Condition::Left(SideState::Dotted { at, number }))
        }
        (SideState::Dotted { at, number }, Token::Word { at: name_at, name }) => {
            Some(Condition::LeftRead(Side {
                at,
                number,
                name_at,
                name,
            }))
        }
        _ => None,
    }
}

/// The sign between the sides of a condition.
#[tactic(auto, unfolding(mt_query_laws::specs::Exprs::sign_step))]
fn sign_step<'a>(left: Side<'a>, token: Token<'a>) -> Option<Condition<'a>>
    ensures { maybe_condition_seen result ≡ exprs.sign_step (side_seen left.entry) (token_seen token.entry) }
{
    let equal = match token {
        Token::Mark(Sign::Is) => true,
        Token::Mark(Sign::IsNot) => false,
        _ => return None,
    };
    Some(Condition::Right {
        left,
        equal,
        right: SideState::Started,
    })
}

/// The next token of the right side of a condition, before its name.
#[tactic(auto, unfolding(mt_query_laws::specs::Exprs::right_step))]
fn right_step<'a>(
    left: Side<'a>,
    equal: bool,
    right: SideState,
    token: Token<'a>,
) -> Option<Condition<'a>>
    ensures { maybe_condition_seen result ≡ exprs.right_step (side_seen left.entry) equal (side_state_seen right) (token_seen token.entry) }
{
    let right = match (right, token) {
        (SideState::Started, Token::Number { at, value }) => {
            SideState::Numbered { at, number: value }
        }
        (SideState::Numbered { at, number }, Token::Mark(Sign::Dot)) => {
            SideState::Dotted { at, number }
        }
        _ => return None,
    };
    Some(Condition::Right { left, equal, right })
}

impl<'a> Reader<'a> {
    /// A condition is read.
    fn cond_read(&self, state: &mut State<'a>, written: Written<'a>) -> Result<bool, NoMemory>
        requires { ValidRegistry self.now.registry.now }
        ensures { IfOk result (λ goes. next goes state.new
            ≡ Some (exprs.CondRead (asked_of state.old) ((ways self.now).cond (asked_of state.old).choice (conds_seen state.old.conds) (cond_tree_seen written.entry)))) }
    {
        one_more(self.registry, &state.part, &mut state.conds, &written)?;
        state.phase = Phase::CondRead;
        Ok(true)
    }

    /// What of a condition is read then, where it goes on.
    #[tactic(auto, unfolding(mt_query_laws::specs::Exprs::in_cond))]
    fn in_cond(&self, state: &mut State<'a>, cond: Option<Condition<'a>>) -> bool
        ensures { next result state.new ≡ exprs.in_cond (ways self.now) (asked_of state.old) (conds_seen state.old.conds) (maybe_condition_seen cond.entry) }
    {
        match cond {
            None => false,
            Some(cond) => {
                state.phase = Phase::InCond { cond };
                true
            }
        }
    }

    /// The next token of a condition.
    #[tactic(auto, unfolding(mt_query_laws::specs::Exprs::cond_step))]
    pub fn cond_step(
        &self,
        state: &mut State<'a>,
        cond: Condition<'a>,
        token: Token<'a>,
    ) -> Result<bool, NoMemory>
        requires { ValidRegistry self.now.registry.now }
        ensures { IfOk result (λ goes. next goes state.new
            ≡ exprs.cond_step (ways self.now) (asked_of state.old) (conds_seen state.old.conds) (condition_seen cond.entry) (token_seen token.entry)) }
    {
        match cond {
            Condition::Left(side) => Ok(self.in_cond(state, left_step(side, token))),
            Condition::LeftRead(left) => Ok(self.in_cond(state, sign_step(left, token))),
            Condition::Right { left, equal, right } => match (right, token) {
                (SideState::Dotted { at, number }, Token::Word { at: name_at, name }) => {
                    let right = Side {
                        at,
                        number,
                        name_at,
                        name,
                    };
                    self.cond_read(state, Written { left, equal, right })
                }
                (right, token) => { Ok(self.in_cond(state, right_step(left, equal, right, token))) }
            },
        }
    }

    /// The next token behind a condition.
    #[tactic(auto, unfolding(mt_query_laws::specs::Exprs::conds_step))]
    pub fn conds_step(&self, state: &mut State<'a>, token: Token<'a>) -> bool
        ensures { next result state.new ≡ exprs.conds_step (ways self.now) (asked_of state.old) (conds_seen state.old.conds) (token_seen token.entry) }
    {
        match token {
            Token::Mark(Sign::And) => {
                state.phase = Phase::InCond {
                    cond: Condition::Left(SideState::Started),
                };
                true
            }
            _ => false,
        }
    }
}
