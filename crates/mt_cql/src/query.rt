//! Queries. A query and its conditions are seen as the records of `mt_text_spec`; an enum is seen as what `shape` and its kin say that it stands for.

ghost use Rattle.std.specs.Prelude.{◌≡◌};
ghost use Rattle.mt_cql.specs.Shape.{shape, filters_shape};

use mt_base::{List, NoMemory, Value};
use std::marker::Model;

/// A test of a token, or of an instance of a structure, whose attributes `attr` then numbers.
#[derive(Drop)]
pub enum Test {
    /// It holds of everything.
    Any,
    /// The value is one that the pattern accepts, or, under `not`, is none.
    Pattern { attr: u16, text: Value, not: bool },
    /// The value is this text, or, under `not`, is another.
    Literal { attr: u16, text: Value, not: bool },
    Not(Box<Test>),
    Both(Box<Test>, Box<Test>),
    Either(Box<Test>, Box<Test>),
}

/// What a part of a query matches.
#[derive(Drop)]
pub enum Expr {
    /// A token, under a label from 1 to 9, or under none, which is 0.
    Token {
        label: u8,
        test: Test,
    },
    /// Where an instance of a structure begins.
    Begin {
        kind: u16,
        test: Test,
    },
    /// Where one ends.
    End {
        kind: u16,
    },
    /// A whole instance.
    Whole {
        kind: u16,
        test: Test,
    },
    /// One part after another.
    Seq(Box<Expr>, Box<Expr>),
    /// Either of two parts.
    Choice(Box<Expr>, Box<Expr>),
    /// A part, so many times.
    Repeat {
        inner: Box<Expr>,
        least: u32,
        most: u32,
    },
}

/// What a filter asks of a match and its operand's matches.
#[derive(Clone, Copy, Debug, PartialEq, Eq, Drop)]
pub enum FilterKind {
    Within,
    NotWithin,
    Containing,
    NotContaining,
}

/// A filter with its operand, which may have filters of its own.
#[cycle(filters)]
#[derive(Drop)]
pub struct Filter {
    pub kind: FilterKind,
    pub head: Expr,
    pub filters: Filters,
}

/// Filters from left to right.
#[cycle(filters)]
#[derive(Drop)]
pub enum Filters {
    End,
    More(Box<Filter>, Box<Filters>),
}

/// A condition on the values at two labels: that they are equal, or that they differ.
#[derive(Clone, Copy, Drop)]
pub struct Cond {
    pub left: u8,
    pub left_attr: u16,
    pub equal: bool,
    pub right: u8,
    pub right_attr: u16,
}

impl Model for Cond {
    ghost use Rattle.mt_text_spec.specs.Queries as spec;

    ghost Value = { spec.Cond };

    ghost view = { λ c. record { left = c.left; left_attr = c.left_attr; equal = c.equal; right = c.right; right_attr = c.right_attr } };

    ghost inverse = { λ c. record { left = c.left; left_attr = c.left_attr; equal = c.equal; right = c.right; right_attr = c.right_attr } };
}

/// A query: a head, filters on its matches and conditions on its labels.
#[derive(Drop)]
pub struct Query {
    head: Expr,
    filters: Filters,
    conds: List<Cond>,
}

impl Model for Query {
    ghost use Rattle.mt_text_spec.specs.Queries as spec;
    ghost use Rattle.mt_cql.specs.Codes.{query_code};
    ghost use Rattle.mt_cql.specs.Shape.{shape, filters_shape};

    ghost Value = { spec.Query };

    ghost coded = { query_code };

    ghost view = { λ query. record { head = shape query.head; filters = filters_shape query.filters; conds = query.conds } };
}

impl Query {
    /// The query of these parts. It takes no memory.
    pub fn new(head: Expr, filters: Filters, conds: List<Cond>) -> Self
        ensures { result ≡ record { head = shape head; filters = filters_shape filters; conds = conds } }
    {
        Query {
            head,
            filters,
            conds,
        }
    }

    /// What its matches match.
    pub fn head(&self) -> &Expr
        ensures { shape result.now ≡ self.now.head }
    {
        &self.head
    }

    /// The filters on the matches of its head.
    pub fn filters(&self) -> &Filters
        ensures { filters_shape result.now ≡ self.now.filters }
    {
        &self.filters
    }

    /// The conditions on the labels of its head.
    pub fn conds(&self) -> &List<Cond>
        ensures { result.now ≡ self.now.conds }
    {
        &self.conds
    }
}

/// Why a place is at fault.
#[derive(Clone, Copy, Debug, PartialEq, Eq, Drop)]
pub enum Cause {
    /// No query goes on with this token, or the text ends too early.
    Token,
    /// A string has no end.
    String,
    /// No token begins here.
    Char,
    /// A repetition from more to fewer.
    Range,
    /// A label at fault.
    Label,
}

/// Why a text is refused.
#[derive(Clone, Copy, Debug, PartialEq, Eq, Drop)]
pub enum QueryError {
    Syntax { at: u32, cause: Cause },
    /// A name that is not declared.
    Unknown { at: u32 },
    /// The text is too long or nests too deep, or the query is too great.
    TooLarge,
    NoMemory,
}

impl From<NoMemory> for QueryError {
    ghost use Rattle.std.specs.Prelude.{◌≡◌};
    ghost use Rattle.mt_cql.specs.declared.query.QueryError.TheVariants.{NoMemory as OutOfMemory};

    ghost from_gives = { λ _ e. e ≡ OutOfMemory };

    fn from(_: NoMemory) -> Self {
        QueryError::NoMemory
    }
}
