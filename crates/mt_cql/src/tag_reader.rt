//! Reading a query, token by token: tags and repetitions.

ghost use Rattle.std.specs.Prelude.{◌≡◌, Some, None, IfOk};
ghost use Rattle.mt_text_spec.specs.Registries.{ValidRegistry, kind_names};
ghost use Rattle.mt_query_laws.specs.Machine as machine;
ghost use Rattle.mt_query_laws.specs.Exprs as exprs;
ghost use Rattle.mt_query_laws.specs.Parts as spec;
ghost use Rattle.mt_cql.specs.Seen.{token_seen};
ghost use Rattle.mt_cql.specs.Read.{test_part_seen, part_seen};
ghost use Rattle.mt_cql.specs.TestSeen.{tests_seen, maybe_test_part_seen};
ghost use Rattle.mt_cql.specs.StateSeen.{ways, place_of, counting_seen, next};

use super::names::{find_kind, or_first, undeclared};
use super::parts::{Part, TestPart, first_of, more};
use super::query::Expr;
use super::reader::Reader;
use super::state::{Counting, Phase, State, TagName};
use super::tests::{Names, Tests};
use super::token::{Sign, Token};
use mt_base::NoMemory;
use std::mem;

impl<'a> Reader<'a> {
    /// What the test of a tag of this name may name.
    fn tag_names(&self, tag: TagName<'a>) -> Names<'a>
        ensures registry { result.registry.now ≡ self.now.registry.now }
        ensures tag { result.tag ≡ Some tag.entry.name }
        ensures bare { result.bare ≡ None }
    {
        Names {
            registry: self.registry,
            tag: Some(tag.name),
            bare: None,
        }
    }

    /// A tag at which an instance begins.
    fn begin_tag(&self, tag: TagName<'_>, test: TestPart) -> Part
        requires { ValidRegistry self.now.registry.now }
        ensures { part_seen result ≡ spec.begin_part (kind_names self.now.registry.now.kinds) tag.entry.at tag.entry.name.now (test_part_seen test) }
    {
        let found = find_kind(self.registry, tag.name);
        let unknown = first_of(undeclared(tag.at, found), test.unknown);
        let nodes = more(test.nodes);
        let expr = Expr::Begin {
            kind: or_first(found),
            test: test.test,
        };
        Part::tag(expr, unknown, nodes)
    }

    /// A tag of a whole instance.
    fn whole_tag(&self, tag: TagName<'_>, test: TestPart) -> Part
        requires { ValidRegistry self.now.registry.now }
        ensures { part_seen result ≡ spec.whole_part (kind_names self.now.registry.now.kinds) tag.entry.at tag.entry.name.now (test_part_seen test) }
    {
        let found = find_kind(self.registry, tag.name);
        let unknown = first_of(undeclared(tag.at, found), test.unknown);
        let nodes = more(test.nodes);
        let expr = Expr::Whole {
            kind: or_first(found),
            test: test.test,
        };
        Part::tag(expr, unknown, nodes)
    }

    /// A tag at which an instance ends.
    #[tactic(auto, unfolding(mt_query_laws::specs::Parts::kept))]
    fn end_tag(&self, tag: TagName<'_>) -> Part
        requires { ValidRegistry self.now.registry.now }
        ensures { part_seen result ≡ spec.end_part (kind_names self.now.registry.now.kinds) tag.entry.at tag.entry.name.now }
    {
        let found = find_kind(self.registry, tag.name);
        let expr = Expr::End {
            kind: or_first(found),
        };
        Part::tag(expr, undeclared(tag.at, found), 1)
    }

    /// The next token of a tag's test.
    #[tactic(auto, unfolding(mt_query_laws::specs::Exprs::in_tag))]
    fn in_tag(
        &self,
        state: &mut State<'a>,
        tag: TagName<'a>,
        token: Token<'a>,
    ) -> Result<bool, NoMemory>
        requires { ValidRegistry self.now.registry.now }
        ensures { IfOk result (λ goes. next goes state.new ≡ exprs.in_tag (ways self.now) tag.entry.at tag.entry.name.now (place_of state.old)
            (machine.test_step ((ways self.now).tag_tests tag.entry.name.now) (tests_seen state.old.tests) (token_seen token.entry))) }
    {
        let names = self.tag_names(tag);
        state.phase = Phase::InTag { tag };
        if state.tests.step(self.alloc, &names, token)? {
            Ok(true)
        } else {
            Ok(false)
        }
    }

    /// The test of a tag where it may end.
    fn tag_test(
        &self,
        state: &mut State<'a>,
        tag: TagName<'a>,
    ) -> Result<Option<TestPart>, NoMemory>
        ensures test { IfOk result (λ test. maybe_test_part_seen test ≡ machine.whole_test ((ways self.now).tag_tests tag.entry.name.now) (tests_seen state.old.tests)) }
        ensures place { place_of state.new ≡ place_of state.old }
    {
        let names = self.tag_names(tag);
        state.tests.whole(self.alloc, &names)
    }

    /// The next token of a tag behind its name and some of its test.
    #[tactic(auto, unfolding(mt_query_laws::specs::Exprs::tag_step, mt_query_laws::specs::Exprs::begin_read, mt_query_laws::specs::Exprs::whole_read))]
    pub fn tag_step(
        &self,
        state: &mut State<'a>,
        tag: TagName<'a>,
        token: Token<'a>,
    ) -> Result<bool, NoMemory>
        requires { ValidRegistry self.now.registry.now }
        ensures { IfOk result (λ goes. next goes state.new
            ≡ exprs.tag_step (ways self.now) tag.entry.at tag.entry.name.now (tests_seen state.old.tests) (place_of state.old) (token_seen token.entry)) }
    {
        match token {
            Token::Mark(Sign::TagEnd) => match self.tag_test(state, tag)? {
                None => Ok(false),
                Some(test) => Ok(self.atom_read(state, self.begin_tag(tag, test))),
            },
            Token::Mark(Sign::WholeEnd) => match self.tag_test(state, tag)? {
                None => Ok(false),
                Some(test) => Ok(self.atom_read(state, self.whole_tag(tag, test))),
            },
            token => self.in_tag(state, tag, token),
        }
    }

    /// The next token behind the name of a tag.
    #[tactic(auto, unfolding(mt_query_laws::specs::Exprs::named_step))]
    pub fn named_step(
        &self,
        state: &mut State<'a>,
        tag: TagName<'a>,
        token: Token<'a>,
    ) -> Result<bool, NoMemory>
        requires { ValidRegistry self.now.registry.now }
        ensures { IfOk result (λ goes. next goes state.new
            ≡ exprs.named_step (ways self.now) tag.entry.at tag.entry.name.now (place_of state.old) (token_seen token.entry)) }
    {
        match token {
            Token::Mark(Sign::TagEnd) => {
                Ok(self.atom_read(state, self.begin_tag(tag, TestPart::none())))
            }
            Token::Mark(Sign::WholeEnd) => {
                Ok(self.atom_read(state, self.whole_tag(tag, TestPart::none())))
            }
            token => {
                state.tests = Tests::new(self.alloc);
                self.in_tag(state, tag, token)
            }
        }
    }

    /// The next token behind `<`.
    #[tactic(auto, unfolding(mt_query_laws::specs::Exprs::tag_opened_step))]
    pub fn tag_opened_step(&self, state: &mut State<'a>, token: Token<'a>) -> bool
        ensures { next result state.new ≡ exprs.tag_opened_step (ways self.now) (place_of state.old) (token_seen token.entry) }
    {
        match token {
            Token::Word { at, name } => {
                state.phase = Phase::TagNamed {
                    tag: TagName { at, name },
                };
                true
            }
            _ => false,
        }
    }

    /// The next token behind `</`.
    #[tactic(auto, unfolding(mt_query_laws::specs::Exprs::closing_opened_step))]
    pub fn closing_opened_step(&self, state: &mut State<'a>, token: Token<'a>) -> bool
        ensures { next result state.new ≡ exprs.closing_opened_step (ways self.now) (place_of state.old) (token_seen token.entry) }
    {
        match token {
            Token::Word { at, name } => {
                state.phase = Phase::ClosingNamed {
                    tag: TagName { at, name },
                };
                true
            }
            _ => false,
        }
    }

    /// The next token behind the name of a closing tag.
    #[tactic(auto, unfolding(mt_query_laws::specs::Exprs::closing_named_step))]
    pub fn closing_named_step(
        &self,
        state: &mut State<'a>,
        tag: TagName<'a>,
        token: Token<'a>,
    ) -> bool
        requires { ValidRegistry self.now.registry.now }
        ensures { next result state.new ≡ exprs.closing_named_step (ways self.now) tag.entry.at tag.entry.name.now (place_of state.old) (token_seen token.entry) }
    {
        match token {
            Token::Mark(Sign::TagEnd) => self.atom_read(state, self.end_tag(tag)),
            _ => false,
        }
    }

    /// An item is read that stands so many times.
    pub fn repeated(
        &self,
        state: &mut State<'a>,
        least: u32,
        most: u32,
        turned: Option<u32>,
    ) -> Result<bool, NoMemory>
        ensures { IfOk result (λ goes. next goes state.new
            ≡ Some (exprs.item_read (ways self.now) (spec.repeats_part (part_seen state.old.part) least most turned) (place_of state.old))) }
    {
        let atom = mem::replace(&mut state.part, Part::none());
        let item = Part::repeated(self.alloc, atom, least, most, turned)?;
        self.item_read(state, item)
    }

    /// The next token inside `{` and `}`.
    #[tactic(auto, unfolding(mt_query_laws::specs::Exprs::repeat_step))]
    pub fn repeat_step(
        &self,
        state: &mut State<'a>,
        at: u32,
        counting: Counting,
        token: Token<'a>,
    ) -> Result<bool, NoMemory>
        ensures { IfOk result (λ goes. next goes state.new
            ≡ exprs.repeat_step (ways self.now) (part_seen state.old.part) at (counting_seen counting) (place_of state.old) (token_seen token.entry)) }
    {
        let counting = match (counting, token) {
            (Counting::Opened, Token::Number { at: n_at, value: n }) => Counting::Least { n_at, n },
            (Counting::Least { n_at: _, n }, Token::Mark(Sign::CloseCurly)) => {
                return self.repeated(state, n, n, None);
            }
            (Counting::Least { n_at, n }, Token::Mark(Sign::Comma)) => Counting::LeastComma {
                n_at,
                n,
            },
            (Counting::LeastComma { n_at: _, n }, Token::Mark(Sign::CloseCurly)) => {
                return self.repeated(state, n, n.max(100), None);
            }
            (Counting::LeastComma { n_at, n }, Token::Number { at: m_at, value: m }) =>
                Counting::Most { n_at, n, m_at, m },
            (
                Counting::Most {
                    n_at: _,
                    n,
                    m_at: _,
                    m,
                },
                Token::Mark(Sign::CloseCurly),
            ) => {
                let turned = if m < n { Some(at) } else { None };
                return self.repeated(state, n, m, turned);
            }
            _ => return Ok(false),
        };
        state.phase = Phase::InRepeat { at, counting };
        Ok(true)
    }
}
