//! Reading a test, token by token.

ghost use Rattle.std.specs.Prelude.{◌≡◌, [], ◌∷◌, None, Some, map, IfOk};
ghost use Rattle.mt_text_spec.specs.Registries.{ValidRegistry};
ghost use Rattle.mt_query_spec.specs.Meaning as meaning;
ghost use Rattle.mt_query_laws.specs.Machine as machine;
ghost use Rattle.mt_query_laws.specs.Parts as spec;
ghost use Rattle.mt_cql.specs.Named.{names_in};
ghost use Rattle.mt_cql.specs.Seen.{token_seen, sign_seen};
ghost use Rattle.mt_cql.specs.Shape.{test_shape};
ghost use Rattle.mt_cql.specs.Read.{test_part_seen};
ghost use Rattle.mt_cql.specs.TestSeen.{ways_of, comparison_seen, maybe_comparison_seen, maybe_test_part_seen, level_seen, tests_seen, next_test};

use super::names::{find, or_first, undeclared};
use super::parts::TestPart;
use super::query::Test;
use super::stack::Stack;
use super::text::{literal_text, pattern_text};
use super::token::{Sign, Token};
use mt_base::{NoMemory, Registry};
use std::alloc::Global;
use std::mem;

/// How a value is compared: `=`, `!=`, `==` and `!==`.
#[derive(Clone, Copy, Drop)]
pub enum Comparison {
    Accepts,
    Refuses,
    Equals,
    Differs,
}

/// What stands before a wanted test inside one pair of parentheses: tests up to the last `|`, tests from there to the last `&`, and signs `!`.
#[derive(Drop)]
pub struct Level {
    pub either: Option<TestPart>,
    pub both: Option<TestPart>,
    pub nots: u32,
}

/// What tests may name: attributes of tokens, or of the kind that `tag` names; and the attribute of a bare string, where it may stand.
#[derive(Drop)]
pub struct Names<'a> {
    pub registry: &'a Registry,
    pub tag: Option<&'a str>,
    pub bare: Option<u16>,
}

/// What of a test was read last.
#[derive(Clone, Copy, Drop)]
pub enum TestPhase<'a> {
    /// A test is wanted.
    Wanted,
    /// The name of an attribute is read.
    Named {
        at: u32,
        name: &'a str,
    },
    /// A name and a comparison are read.
    Compares {
        at: u32,
        name: &'a str,
        comparison: Comparison,
    },
    /// Tests are read, and may end here.
    Read,
}

/// Where the reading of a test stands.
#[derive(Drop)]
pub struct Tests<'a> {
    pub phase: TestPhase<'a>,
    /// The tests from the last `|` on, where they are read.
    pub test: TestPart,
    pub level: Level,
    /// The levels outside.
    pub outer: Stack<Level>,
}

/// The comparison that a sign writes.
fn comparison_of(sign: Sign) -> Option<Comparison>
    ensures { maybe_comparison_seen result ≡ machine.comparison_of (sign_seen sign) }
{
    match sign {
        Sign::Is => Some(Comparison::Accepts),
        Sign::IsNot => Some(Comparison::Refuses),
        Sign::Same => Some(Comparison::Equals),
        Sign::Differs => Some(Comparison::Differs),
        _ => None,
    }
}

/// The level inside a parenthesis that opens.
fn empty_level() -> Level
    ensures { level_seen result ≡ machine.empty_level }
{
    Level {
        either: None,
        both: None,
        nots: 0,
    }
}

/// A test under so many signs `!`.
fn negated(alloc: Global, nots: u32, test: TestPart) -> Result<TestPart, NoMemory>
    ensures { IfOk result (λ p. test_part_seen p ≡ machine.nots_of spec.not_part nots (test_part_seen test)) }
{
    let mut test = test;
    let mut nots = nots;
    while nots > 0 {
        test = TestPart::not(alloc, test)?;
        nots -= 1;
    }
    Ok(test)
}

/// A test behind others with `&` between them.
fn both(alloc: Global, left: Option<TestPart>, test: TestPart) -> Result<TestPart, NoMemory>
    ensures { IfOk result (λ p. test_part_seen p ≡ machine.joined_of (λ x. x) spec.both_part (maybe_test_part_seen left) (test_part_seen test)) }
{
    match left {
        None => Ok(test),
        Some(left) => TestPart::both(alloc, left, test),
    }
}

/// Tests behind others with `|` between them.
fn either(alloc: Global, left: Option<TestPart>, test: TestPart) -> Result<TestPart, NoMemory>
    ensures { IfOk result (λ p. test_part_seen p ≡ machine.joined_of (λ x. x) spec.either_part (maybe_test_part_seen left) (test_part_seen test)) }
{
    match left {
        None => Ok(test),
        Some(left) => TestPart::either(alloc, left, test),
    }
}

/// The test by a comparison.
fn compared(
    alloc: Global,
    attr: u16,
    comparison: Comparison,
    content: &str,
) -> Result<Test, NoMemory>
    ensures { IfOk result (λ t. test_shape t ≡ meaning.compared attr (comparison_seen comparison) content.now) }
{
    match comparison {
        Comparison::Accepts => Ok(Test::Pattern {
            attr,
            text: pattern_text(alloc, content)?,
            not: false,
        }),
        Comparison::Refuses => Ok(Test::Pattern {
            attr,
            text: pattern_text(alloc, content)?,
            not: true,
        }),
        Comparison::Equals => Ok(Test::Literal {
            attr,
            text: literal_text(alloc, content)?,
            not: false,
        }),
        Comparison::Differs => Ok(Test::Literal {
            attr,
            text: literal_text(alloc, content)?,
            not: true,
        }),
    }
}

/// The test that a string alone is: a pattern for an attribute.
pub fn bare(alloc: Global, attr: u16, content: &str) -> Result<TestPart, NoMemory>
    ensures { IfOk result (λ p. test_part_seen p ≡ spec.pattern_part attr content.now) }
{
    let test = Test::Pattern {
        attr,
        text: pattern_text(alloc, content)?,
        not: false,
    };
    Ok(TestPart::one(test, None))
}

/// The test by a name, a comparison and a string.
fn compared_part(
    alloc: Global,
    names: &Names<'_>,
    at: u32,
    name: &str,
    comparison: Comparison,
    content: &str,
) -> Result<TestPart, NoMemory>
    requires { ValidRegistry names.now.registry.now }
    ensures { IfOk result (λ p. test_part_seen p ≡ (ways_of names.now).compared at name.now (comparison_seen comparison) content.now) }
{
    let found = find(names.registry, names.tag, name);
    let test = compared(alloc, or_first(found), comparison, content)?;
    Ok(TestPart::one(test, undeclared(at, found)))
}

impl<'a> Tests<'a> {
    /// No test is read yet.
    pub fn new(alloc: Global) -> Tests<'a>
        ensures { tests_seen result ≡ machine.test_start }
    {
        Tests {
            phase: TestPhase::Wanted,
            test: TestPart::none(),
            level: empty_level(),
            outer: Stack::new(alloc),
        }
    }

    /// A test without its signs `!` is read.
    fn have_test(&mut self, alloc: Global, test: TestPart) -> Result<bool, NoMemory>
        ensures { IfOk result (λ goes. next_test goes self.new
            ≡ Some (machine.have_test (spec.tag_part_ways []) (test_part_seen test) (level_seen self.old.level) (map level_seen self.old.outer))) }
    {
        let test = negated(alloc, self.level.nots, test)?;
        let left = self.level.both.take();
        self.test = both(alloc, left, test)?;
        self.phase = TestPhase::Read;
        Ok(true)
    }

    /// The next token where a test is wanted.
    #[tactic(auto, unfolding(mt_query_laws::specs::Machine::want_step))]
    fn want_step(
        &mut self,
        alloc: Global,
        names: &Names<'_>,
        token: Token<'a>,
    ) -> Result<bool, NoMemory>
        ensures { IfOk result (λ goes. next_test goes self.new
            ≡ machine.want_step (ways_of names.now) (level_seen self.old.level) (map level_seen self.old.outer) (token_seen token.entry)) }
    {
        match token {
            Token::Word { at, name } => {
                self.phase = TestPhase::Named { at, name };
                Ok(true)
            }
            Token::Quoted(content) => match names.bare {
                None => Ok(false),
                Some(attr) => {
                    let test = bare(alloc, attr, content)?;
                    self.have_test(alloc, test)
                }
            },
            Token::Mark(Sign::Bang) => match self.level.nots.checked_add(1) {
                None => Err(NoMemory),
                Some(nots) => {
                    self.level.nots = nots;
                    self.phase = TestPhase::Wanted;
                    Ok(true)
                }
            },
            Token::Mark(Sign::OpenRound) => {
                let level = mem::replace(&mut self.level, empty_level());
                self.outer.push(level)?;
                self.phase = TestPhase::Wanted;
                Ok(true)
            }
            _ => Ok(false),
        }
    }

    /// The next token behind the name of an attribute.
    #[tactic(auto, unfolding(mt_query_laws::specs::Machine::named_step))]
    fn named_step(&mut self, at: u32, name: &'a str, token: Token<'a>) -> bool
        ensures { next_test result self.new ≡ machine.named_step at name.now (level_seen self.old.level) (map level_seen self.old.outer) (token_seen token.entry) }
    {
        match token {
            Token::Mark(sign) => match comparison_of(sign) {
                Some(comparison) => {
                    self.phase = TestPhase::Compares {
                        at,
                        name,
                        comparison,
                    };
                    true
                }
                None => false,
            },
            _ => false,
        }
    }

    /// The next token behind a comparison.
    #[tactic(auto, unfolding(mt_query_laws::specs::Machine::compares_step))]
    fn compares_step(
        &mut self,
        alloc: Global,
        names: &Names<'_>,
        at: u32,
        name: &str,
        comparison: Comparison,
        token: Token<'_>,
    ) -> Result<bool, NoMemory>
        requires { ValidRegistry names.now.registry.now }
        ensures { IfOk result (λ goes. next_test goes self.new
            ≡ machine.compares_step (ways_of names.now) at name.now (comparison_seen comparison) (level_seen self.old.level) (map level_seen self.old.outer) (token_seen token.entry)) }
    {
        match token {
            Token::Quoted(content) => {
                let test = compared_part(alloc, names, at, name, comparison, content)?;
                self.have_test(alloc, test)
            }
            _ => Ok(false),
        }
    }

    /// The tests that are read inside these parentheses.
    fn choice(&mut self, alloc: Global) -> Result<TestPart, NoMemory>
        ensures read { IfOk result (λ p. test_part_seen p
            ≡ machine.joined_of (λ x. x) spec.either_part (maybe_test_part_seen self.old.level.either) (test_part_seen self.old.test)) }
        ensures outer { self.new.outer ≡ self.old.outer }
    {
        let test = mem::replace(&mut self.test, TestPart::none());
        let left = self.level.either.take();
        either(alloc, left, test)
    }

    /// The next token behind a test.
    #[tactic(auto, unfolding(mt_query_laws::specs::Machine::have_step, mt_query_laws::specs::Machine::close_test))]
    fn read_step(
        &mut self,
        alloc: Global,
        names: &Names<'_>,
        token: Token<'_>,
    ) -> Result<bool, NoMemory>
        ensures { IfOk result (λ goes. next_test goes self.new ≡ machine.have_step (ways_of names.now) (test_part_seen self.old.test)
            (maybe_test_part_seen self.old.level.either) (map level_seen self.old.outer) (token_seen token.entry)) }
    {
        match token {
            Token::Mark(Sign::And) => {
                let test = mem::replace(&mut self.test, TestPart::none());
                self.level.both = Some(test);
                self.level.nots = 0;
                self.phase = TestPhase::Wanted;
                Ok(true)
            }
            Token::Mark(Sign::Bar) => {
                let test = self.choice(alloc)?;
                self.level = Level {
                    either: Some(test),
                    ..empty_level()
                };
                self.phase = TestPhase::Wanted;
                Ok(true)
            }
            Token::Mark(Sign::CloseRound) => {
                let test = self.choice(alloc)?;
                match self.outer.pop() {
                    None => Ok(false),
                    Some(level) => {
                        self.level = level;
                        self.have_test(alloc, test)
                    }
                }
            }
            _ => Ok(false),
        }
    }

    /// The next token of a test, and whether a test goes on so.
    #[tactic(auto, unfolding(mt_query_laws::specs::Machine::test_step))]
    pub fn step(
        &mut self,
        alloc: Global,
        names: &Names<'_>,
        token: Token<'a>,
    ) -> Result<bool, NoMemory>
        requires { ValidRegistry names.now.registry.now }
        ensures { IfOk result (λ goes. next_test goes self.new ≡ machine.test_step (ways_of names.now) (tests_seen self.old) (token_seen token.entry)) }
    {
        match self.phase {
            TestPhase::Wanted => self.want_step(alloc, names, token),
            TestPhase::Named { at, name } => Ok(self.named_step(at, name, token)),
            TestPhase::Compares {
                at,
                name,
                comparison,
            } => self.compares_step(alloc, names, at, name, comparison, token),
            TestPhase::Read => self.read_step(alloc, names, token),
        }
    }

    /// The test that was read, where it may end here.
    #[tactic(auto, unfolding(mt_query_laws::specs::Machine::whole_test))]
    pub fn whole(&mut self, alloc: Global, names: &Names<'_>) -> Result<Option<TestPart>, NoMemory>
        ensures { IfOk result (λ test. maybe_test_part_seen test ≡ machine.whole_test (ways_of names.now) (tests_seen self.old)) }
    {
        match self.phase {
            TestPhase::Read => {
                if self.outer.is_empty() {
                    Ok(Some(self.choice(alloc)?))
                } else {
                    Ok(None)
                }
            }
            _ => Ok(None),
        }
    }
}
