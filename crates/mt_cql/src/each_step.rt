//! Reading a query, token by token: each token in each phase.

ghost use Rattle.std.specs.Prelude.{◌≡◌, IfOk};
ghost use Rattle.mt_text_spec.specs.Registries.{ValidRegistry};
ghost use Rattle.mt_query_laws.specs.Exprs as exprs;
ghost use Rattle.mt_cql.specs.Seen.{token_seen};
ghost use Rattle.mt_cql.specs.StateSeen.{ways, state_seen, next};

use super::reader::Reader;
use super::state::{Phase, State};
use super::token::Token;
use mt_base::NoMemory;

impl<'a> Reader<'a> {
    /// The next token of a query, and whether a query goes on so.
    #[tactic(auto, unfolding(mt_query_laws::specs::Exprs::step))]
    pub fn step(&self, state: &mut State<'a>, token: Token<'a>) -> Result<bool, NoMemory>
        requires { ValidRegistry self.now.registry.now }
        ensures { IfOk result (λ goes. next goes state.new ≡ exprs.step (ways self.now) (state_seen state.old) (token_seen token.entry)) }
    {
        match state.phase {
            Phase::Wanted => self.begin_step(state, token),
            Phase::LabelRead { at, number } => Ok(self.label_step(state, at, number, token)),
            Phase::LabelDone { at, number } => self.labelled_step(state, at, number, token),
            Phase::TokenOpened { label } => self.opened_step(state, label, token),
            Phase::InToken { label } => self.token_step(state, label, token),
            Phase::TagOpened => Ok(self.tag_opened_step(state, token)),
            Phase::TagNamed { tag } => self.named_step(state, tag, token),
            Phase::InTag { tag } => self.tag_step(state, tag, token),
            Phase::ClosingOpened => Ok(self.closing_opened_step(state, token)),
            Phase::ClosingNamed { tag } => Ok(self.closing_named_step(state, tag, token)),
            Phase::AtomRead => self.atom_step(state, token),
            Phase::InRepeat { at, counting } => self.repeat_step(state, at, counting, token),
            Phase::ItemRead => self.read_step(state, token),
            Phase::FiltersRead => self.filters_step(state, token),
            Phase::BangRead => self.bang_step(state, token),
            Phase::InCond { cond } => self.cond_step(state, cond, token),
            Phase::CondRead => Ok(self.conds_step(state, token)),
        }
    }
}
