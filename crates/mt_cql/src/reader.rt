//! Reading a query, token by token: its items.

ghost use Rattle.std.specs.Prelude.{◌≡◌, ◌∷◌, None, Some, IfOk, OnOk};
ghost use Rattle.mt_text_spec.specs.Registries.{ValidRegistry};
ghost use Rattle.mt_query_laws.specs.Machine as machine;
ghost use Rattle.mt_query_laws.specs.Exprs as exprs;
ghost use Rattle.mt_cql.specs.Seen.{token_seen};
ghost use Rattle.mt_cql.specs.Read.{part_seen, label_seen};
ghost use Rattle.mt_cql.specs.TestSeen.{tests_seen, next_test};
ghost use Rattle.mt_cql.specs.StateSeen.{ways, maybe_part_seen, place_of, next};

use super::parts::{Label, Part, TestPart};
use super::state::{Group, Phase, State};
use super::tests::{Names, Tests, bare};
use super::token::{Sign, Token};
use mt_base::{NoMemory, Registry};
use std::alloc::Global;
use std::mem;

/// What a query is read under: the registry, and the attribute of bare strings.
#[derive(Drop)]
pub struct Reader<'a> {
    pub alloc: Global,
    pub registry: &'a Registry,
    pub default: u16,
}

impl<'a> Reader<'a> {
    /// What the test of a token may name.
    fn token_names(&self) -> Names<'a>
        ensures registry { result.registry.now ≡ self.now.registry.now }
        ensures tag { result.tag ≡ None }
        ensures bare { result.bare ≡ Some self.now.default }
    {
        Names {
            registry: self.registry,
            tag: None,
            bare: Some(self.default),
        }
    }

    /// An item behind others of its sequence.
    fn sequence_of(&self, left: Option<Part>, item: Part) -> Result<Part, NoMemory>
        ensures { IfOk result (λ p. part_seen p ≡ exprs.sequence_of (ways self.now) (maybe_part_seen left) (part_seen item)) }
    {
        match left {
            None => Ok(item),
            Some(left) => Part::then(self.alloc, left, item),
        }
    }

    /// An item is read.
    pub fn item_read(&self, state: &mut State<'a>, item: Part) -> Result<bool, NoMemory>
        ensures { IfOk result (λ goes. next goes state.new ≡ Some (exprs.item_read (ways self.now) (part_seen item) (place_of state.old))) }
    {
        let left = state.before.sequence.take();
        state.part = self.sequence_of(left, item)?;
        state.phase = Phase::ItemRead;
        Ok(true)
    }

    /// The atom that was read stands once.
    pub fn atom_alone(&self, state: &mut State<'a>) -> Result<(), NoMemory>
        ensures part { OnOk result (part_seen state.new.part ≡ exprs.sequence_of (ways self.now) (maybe_part_seen state.old.before.sequence) (part_seen state.old.part)) }
        ensures branches { state.new.before.branches ≡ state.old.before.branches }
        ensures groups { state.new.groups ≡ state.old.groups }
        ensures heads { state.new.heads ≡ state.old.heads }
    {
        let atom = mem::replace(&mut state.part, Part::none());
        let left = state.before.sequence.take();
        state.part = self.sequence_of(left, atom)?;
        Ok(())
    }

    /// An atom is read.
    pub fn atom_read(&self, state: &mut State<'a>, atom: Part) -> bool
        ensures { next result state.new ≡ Some (exprs.AtomRead (part_seen atom) (place_of state.old)) }
    {
        state.part = atom;
        state.phase = Phase::AtomRead;
        true
    }

    /// A string is read that stands for a token test.
    fn string_read(
        &self,
        state: &mut State<'a>,
        label: Label,
        content: &str,
    ) -> Result<bool, NoMemory>
        ensures { IfOk result (λ goes. next goes state.new ≡ Some (exprs.AtomRead ((ways self.now).string (label_seen label) content.now) (place_of state.old))) }
    {
        let test = bare(self.alloc, self.default, content)?;
        Ok(self.atom_read(state, Part::token(label, test)))
    }

    /// A parenthesis opens.
    fn open(&self, state: &mut State<'a>) -> Result<bool, NoMemory>
        ensures { IfOk result (λ goes. next goes state.new ≡ Some (exprs.Wanted (exprs.choice_place (ways self.now)
            (record { groups = (place_of state.old).before ∷ (place_of state.old).around.groups; heads = (place_of state.old).around.heads })))) }
    {
        let before = mem::replace(&mut state.before, Group::none());
        state.groups.push(before)?;
        state.phase = Phase::Wanted;
        Ok(true)
    }

    /// The next token where an item is wanted.
    #[tactic(auto, unfolding(mt_query_laws::specs::Exprs::begin_step))]
    pub fn begin_step(&self, state: &mut State<'a>, token: Token<'a>) -> Result<bool, NoMemory>
        ensures { IfOk result (λ goes. next goes state.new ≡ exprs.begin_step (ways self.now) (place_of state.old) (token_seen token.entry)) }
    {
        let label = Label::NoLabel;
        let phase = match token {
            Token::Number { at, value } => Phase::LabelRead { at, number: value },
            Token::Quoted(content) => return self.string_read(state, label, content),
            Token::Mark(Sign::OpenSquare) => Phase::TokenOpened { label },
            Token::Mark(Sign::TagBegin) => Phase::TagOpened,
            Token::Mark(Sign::ClosingTag) => Phase::ClosingOpened,
            Token::Mark(Sign::OpenRound) => return self.open(state),
            _ => return Ok(false),
        };
        state.phase = phase;
        Ok(true)
    }

    /// The next token behind a label's number.
    #[tactic(auto, unfolding(mt_query_laws::specs::Exprs::label_step))]
    pub fn label_step(&self, state: &mut State<'a>, at: u32, number: u32, token: Token<'a>) -> bool
        ensures { next result state.new ≡ exprs.label_step (ways self.now) at number (place_of state.old) (token_seen token.entry) }
    {
        match token {
            Token::Mark(Sign::Colon) => {
                state.phase = Phase::LabelDone { at, number };
                true
            }
            _ => false,
        }
    }

    /// The next token behind a label's colon.
    #[tactic(auto, unfolding(mt_query_laws::specs::Exprs::labelled_step))]
    pub fn labelled_step(
        &self,
        state: &mut State<'a>,
        at: u32,
        number: u32,
        token: Token<'a>,
    ) -> Result<bool, NoMemory>
        ensures { IfOk result (λ goes. next goes state.new ≡ exprs.labelled_step (ways self.now) at number (place_of state.old) (token_seen token.entry)) }
    {
        let label = Label::Labelled { at, number };
        match token {
            Token::Quoted(content) => self.string_read(state, label, content),
            Token::Mark(Sign::OpenSquare) => {
                state.phase = Phase::TokenOpened { label };
                Ok(true)
            }
            _ => Ok(false),
        }
    }

    /// The next token of a token's test.
    #[tactic(auto, unfolding(mt_query_laws::specs::Exprs::in_token))]
    fn in_token(
        &self,
        state: &mut State<'a>,
        label: Label,
        token: Token<'a>,
    ) -> Result<bool, NoMemory>
        requires { ValidRegistry self.now.registry.now }
        ensures { IfOk result (λ goes. next goes state.new ≡ exprs.in_token (ways self.now) (label_seen label) (place_of state.old)
            (machine.test_step (ways self.now).token_tests (tests_seen state.old.tests) (token_seen token.entry))) }
    {
        let names = self.token_names();
        state.phase = Phase::InToken { label };
        if state.tests.step(self.alloc, &names, token)? {
            Ok(true)
        } else {
            Ok(false)
        }
    }

    /// A token's test ends.
    #[tactic(auto, unfolding(mt_query_laws::specs::Exprs::token_read))]
    fn token_read(&self, state: &mut State<'a>, label: Label) -> Result<bool, NoMemory>
        ensures { IfOk result (λ goes. next goes state.new ≡ exprs.token_read (ways self.now) (label_seen label) (place_of state.old)
            (machine.whole_test (ways self.now).token_tests (tests_seen state.old.tests))) }
    {
        let names = self.token_names();
        match state.tests.whole(self.alloc, &names)? {
            None => Ok(false),
            Some(test) => Ok(self.atom_read(state, Part::token(label, test))),
        }
    }

    /// The next token inside `[` and `]`.
    #[tactic(auto, unfolding(mt_query_laws::specs::Exprs::token_step))]
    pub fn token_step(
        &self,
        state: &mut State<'a>,
        label: Label,
        token: Token<'a>,
    ) -> Result<bool, NoMemory>
        requires { ValidRegistry self.now.registry.now }
        ensures { IfOk result (λ goes. next goes state.new ≡ exprs.token_step (ways self.now) (label_seen label) (tests_seen state.old.tests) (place_of state.old) (token_seen token.entry)) }
    {
        match token {
            Token::Mark(Sign::CloseSquare) => self.token_read(state, label),
            token => self.in_token(state, label, token),
        }
    }

    /// The next token behind `[`.
    #[tactic(auto, unfolding(mt_query_laws::specs::Exprs::opened_step))]
    pub fn opened_step(
        &self,
        state: &mut State<'a>,
        label: Label,
        token: Token<'a>,
    ) -> Result<bool, NoMemory>
        requires { ValidRegistry self.now.registry.now }
        ensures { IfOk result (λ goes. next goes state.new ≡ exprs.opened_step (ways self.now) (label_seen label) (place_of state.old) (token_seen token.entry)) }
    {
        match token {
            Token::Mark(Sign::CloseSquare) => {
                Ok(self.atom_read(state, Part::token(label, TestPart::none())))
            }
            token => {
                state.tests = Tests::new(self.alloc);
                self.in_token(state, label, token)
            }
        }
    }
}
