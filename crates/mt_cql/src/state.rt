//! Where the reading of a query stands: a phase, and beside it the parts that were read, which each step changes in place.

ghost use Rattle.std.specs.Prelude.{◌≡◌, None};
ghost use Rattle.mt_cql.specs.StateSeen.{maybe_filters_seen, filters_where};

use super::parts::{CondsPart, FiltersPart, Label, Part};
use super::query::FilterKind;
use super::stack::Stack;
use super::tests::Tests;
use std::alloc::Global;
use std::mem;

/// What stands before a choice inside parentheses: items before it in one sequence, sequences before that.
#[derive(Drop)]
pub struct Group {
    pub sequence: Option<Part>,
    pub branches: Option<Part>,
}

impl Group {
    /// Nothing stands before.
    pub fn none() -> Group
        ensures sequence { result.sequence ≡ None }
        ensures branches { result.branches ≡ None }
    {
        Group {
            sequence: None,
            branches: None,
        }
    }
}

/// The word of a filter, at its place.
#[derive(Clone, Copy, Drop)]
pub struct Op {
    pub at: u32,
    pub kind: FilterKind,
}

/// An op whose operand is being read, with what stands before it.
#[derive(Drop)]
pub struct Head {
    pub choice: Part,
    pub filters: Option<FiltersPart>,
    pub op: Op,
}

/// The name in a tag, at its place.
#[derive(Clone, Copy, Drop)]
pub struct TagName<'a> {
    pub at: u32,
    pub name: &'a str,
}

/// What of a repetition is read behind its `{`.
#[derive(Clone, Copy, Drop)]
pub enum Counting {
    Opened,
    Least {
        n_at: u32,
        n: u32,
    },
    LeastComma {
        n_at: u32,
        n: u32,
    },
    Most {
        n_at: u32,
        n: u32,
        m_at: u32,
        m: u32,
    },
}

/// A label in a condition, with the name of an attribute.
#[derive(Clone, Copy, Drop)]
pub struct Side<'a> {
    pub at: u32,
    pub number: u32,
    pub name_at: u32,
    pub name: &'a str,
}

/// What of a side of a condition is read.
#[derive(Clone, Copy, Drop)]
pub enum SideState {
    Started,
    /// The number of a label is read.
    Numbered { at: u32, number: u32 },
    /// A label and its dot are read.
    Dotted { at: u32, number: u32 },
}

/// What of a condition is read behind its `&`.
#[derive(Clone, Copy, Drop)]
pub enum Condition<'a> {
    /// No more than some of its left side.
    Left(SideState),
    LeftRead(Side<'a>),
    /// Its left side, its sign, and some of its right side.
    Right {
        left: Side<'a>,
        equal: bool,
        right: SideState,
    },
}

/// What was read last.
#[derive(Clone, Copy, Drop)]
pub enum Phase<'a> {
    /// An item is wanted.
    Wanted,
    LabelRead { at: u32, number: u32 },
    /// A label and its colon are read.
    LabelDone { at: u32, number: u32 },
    /// A `[` is read.
    TokenOpened { label: Label },
    /// Some of a token's test is read.
    InToken { label: Label },
    /// A `<` is read.
    TagOpened,
    TagNamed { tag: TagName<'a> },
    /// Some of a tag's test is read.
    InTag { tag: TagName<'a> },
    /// A `</` is read.
    ClosingOpened,
    ClosingNamed { tag: TagName<'a> },
    /// An atom is read, which may be repeated.
    AtomRead,
    InRepeat { at: u32, counting: Counting },
    /// An item is read.
    ItemRead,
    /// An operand in parentheses is read, the last of some filters.
    FiltersRead,
    /// The `!` of an op is read.
    BangRead,
    InCond { cond: Condition<'a> },
    CondRead,
}

/// Where the reading of a query stands.
#[derive(Drop)]
pub struct State<'a> {
    pub phase: Phase<'a>,
    /// The test that is being read.
    pub tests: Tests<'a>,
    /// What was read last: an atom, a sequence, or a choice with filters and conditions behind it.
    pub part: Part,
    /// What stands before it in its parentheses.
    pub before: Group,
    /// The parentheses round it, and outside of them ops, of which each but the last stands in parentheses.
    pub groups: Stack<Group>,
    pub heads: Stack<Head>,
    /// The filters behind a choice, where there are any.
    pub has_filters: bool,
    pub filters: FiltersPart,
    pub conds: CondsPart,
}

impl<'a> State<'a> {
    /// The filters behind a choice, where there are any.
    pub fn take_filters(&mut self, alloc: Global) -> Option<FiltersPart>
        ensures taken { maybe_filters_seen result ≡ filters_where self.old.has_filters self.old.filters }
        ensures part { self.new.part ≡ self.old.part }
        ensures heads { self.new.heads ≡ self.old.heads }
    {
        if !self.has_filters {
            return None;
        }
        Some(mem::replace(&mut self.filters, FiltersPart::none(alloc)))
    }
}
