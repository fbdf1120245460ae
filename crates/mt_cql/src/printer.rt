//! Printing a query.

ghost use Rattle.std.specs.Prelude.{◌≡◌, ◌==◌, ◌∷◌, ◌++◌, codes, decimal, cond, drop, take, length, map, slice_index, slice_index_or, IfOk, OnOk, MatchOption, ◌<◌, string_bytes, option_copied};
ghost use Rattle.std.specs.List.{prefix_len};
ghost use Rattle.mt_text_spec.specs.Registries.{attr_names, kind_names, kind_attrs};
ghost use Rattle.mt_text_spec.specs.Queries.{TokenTest};
ghost use Rattle.mt_query_spec.specs.Trees as tree;
ghost use Rattle.mt_query_spec.specs.Printed as spec;
ghost use Rattle.mt_cql.specs.Shape.{test_shape, shape, kind_shape, filters_shape};
ghost use Rattle.mt_cql.specs.Texts.{falls, stays};
ghost use Rattle.mt_cql.specs.Ranks.{names_of, test_rank_seen, rank_seen};

use super::lexer::{byte_at, text_behind};
use super::query::{Cond, Expr, FilterKind, Filters, Query, Test};
use super::text::{add, falls};
use mt_base::{NoMemory, Registry, Value};
use std::alloc::Global;

/// What a test is a part of: `!` takes one alone, the first part of `&` takes some joined by `&`, and all else takes any test.
#[derive(Clone, Copy, Drop)]
enum TestRank {
    Unary,
    Conjunction,
    Whole,
}

/// What an expression is a part of: a repetition takes an atom, the second part of a sequence takes an item, and so on up to a choice.
#[derive(Clone, Copy, Drop)]
enum Rank {
    Atom,
    Item,
    Sequence,
    Choice,
}

impl TestRank {
    /// Whether a test joined by `&` has parentheses here.
    fn brackets_both(self) -> bool
        ensures { result ≡ spec.brackets_both (test_rank_seen self) }
    {
        matches!(self, TestRank::Unary)
    }

    /// Whether a test joined by `|` has parentheses here.
    fn brackets_either(self) -> bool
        ensures { result ≡ spec.brackets_either (test_rank_seen self) }
    {
        !matches!(self, TestRank::Whole)
    }
}

impl Rank {
    /// Whether a repetition has parentheses here.
    fn brackets_repeat(self) -> bool
        ensures { result ≡ spec.brackets_repeat (rank_seen self) }
    {
        matches!(self, Rank::Atom)
    }

    /// Whether a sequence has parentheses here.
    fn brackets_seq(self) -> bool
        ensures { result ≡ spec.brackets_seq (rank_seen self) }
    {
        matches!(self, Rank::Atom | Rank::Item)
    }

    /// Whether a choice has parentheses here.
    fn brackets_choice(self) -> bool
        ensures { result ≡ spec.brackets_choice (rank_seen self) }
    {
        !matches!(self, Rank::Choice)
    }
}

/// The name of the attribute of tokens with this number.
fn attr_name(registry: &Registry, attr: u16) -> &str
    ensures { result.now ≡ spec.name_at (attr_names registry.now.attrs) attr }
{
    match registry.attrs().as_slice().get(attr as usize) {
        Some(attr) => attr.name().as_str(),
        None => "",
    }
}

/// The name of the kind with this number.
fn kind_name(registry: &Registry, kind: u16) -> &str
    ensures { result.now ≡ spec.name_at (kind_names registry.now.kinds) kind }
{
    match registry.kinds().as_slice().get(kind as usize) {
        Some(kind) => kind.name().as_str(),
        None => "",
    }
}

/// The name of the attribute with this number, of tokens or of the kind that `tag` numbers.
fn name_at(registry: &Registry, tag: Option<u16>, attr: u16) -> &str
    ensures { result.now ≡ spec.name_at (names_of registry.now tag) attr }
{
    let Some(kind) = tag else {
        return attr_name(registry, attr);
    };
    let Some(kind) = registry.kinds().as_slice().get(kind as usize) else {
        return "";
    };
    match kind.attrs().as_slice().get(attr as usize) {
        Some(name) => name.as_str(),
        None => "",
    }
}

/// Adds a number.
fn add_number(alloc: Global, out: &mut String, n: u32) -> Result<(), NoMemory>
    ensures { OnOk result (string_bytes out.new ≡ string_bytes out.old ++ decimal n) }
{
    let digits = format!(in alloc; "{n}")?;
    add(out, digits.as_str())
}

/// Adds `(` where `round` says so.
fn open(out: &mut String, round: bool) -> Result<(), NoMemory>
    ensures { OnOk result (string_bytes out.new ≡ string_bytes out.old ++ cond round (codes "(") (codes "")) }
{
    add(out, if round { "(" } else { "" })
}

/// Adds `)` where `round` says so.
fn close(out: &mut String, round: bool) -> Result<(), NoMemory>
    ensures { OnOk result (string_bytes out.new ≡ string_bytes out.old ++ cond round (codes ")") (codes "")) }
{
    add(out, if round { ")" } else { "" })
}

/// How many bytes stand before the first that takes a backslash.
fn kept_length(bytes: &[u8], literal: bool) -> usize
    ensures { result ≡ prefix_len (stays literal) bytes.now }
{
    bytes.iter().take_while(|b| !falls(literal, **b)).count()
}

/// The text before the first byte that takes a backslash, and what begins with that byte, if there is one.
fn cut_kept(rest: &str, literal: bool) -> (&str, &str)
    ensures front { result.0.now ≡ take (prefix_len (stays literal) rest.now) rest.now }
    ensures back { result.1.now ≡ drop (prefix_len (stays literal) rest.now) rest.now }
{
    let n = kept_length(rest.as_bytes(), literal);
    (&rest[..n], &rest[n..])
}

/// A byte that takes a backslash, with it.
fn mark(b: u8) -> &'static str
    ensures { result.now ≡ cond (b == 34) (codes "\\\"") (codes "\\\\") }
{
    if b == b'"' { "\\\"" } else { "\\\\" }
}

/// Adds a text with a backslash before each `"`, and in a literal before each backslash.
fn add_escaped(out: &mut String, text: &str, literal: bool) -> Result<(), NoMemory>
    ensures { OnOk result (string_bytes out.new ≡ string_bytes out.old ++ spec.escaped (falls literal) text.now) }
{
    let mut rest = text;
    loop {
        let (front, back) = cut_kept(rest, literal);
        add(out, front)?;
        if back.is_empty() {
            return Ok(());
        }
        add(out, mark(byte_at(back.as_bytes(), 0)))?;
        rest = text_behind(back);
    }
}

/// Adds the name of an attribute, a comparison and a string.
fn add_comparison(
    out: &mut String,
    name: &str,
    sign: &str,
    text: &str,
    literal: bool,
) -> Result<(), NoMemory>
    ensures { OnOk result (string_bytes out.new ≡ string_bytes out.old ++ (name.now ++ (sign.now ++ spec.quoted (falls literal) text.now))) }
{
    add(out, name)?;
    add(out, sign)?;
    add(out, "\"")?;
    add_escaped(out, text, literal)?;
    add(out, "\"")
}

/// Adds a test where one of this rank is wanted.
fn add_test(
    out: &mut String,
    registry: &Registry,
    tag: Option<u16>,
    rank: TestRank,
    test: &Test,
) -> Result<(), NoMemory>
    ensures { OnOk result (string_bytes out.new ≡ string_bytes out.old ++ spec.printed_test (names_of registry.now tag) (test_rank_seen rank) (test_shape test.now)) }
{
    match test {
        Test::Any => Ok(()),
        Test::Pattern { attr, text, not } => {
            let name = name_at(registry, tag, *attr);
            let sign = if *not { "!=" } else { "=" };
            add_comparison(out, name, sign, text.as_str(), false)
        }
        Test::Literal { attr, text, not } => {
            let name = name_at(registry, tag, *attr);
            let sign = if *not { "!==" } else { "==" };
            add_comparison(out, name, sign, text.as_str(), true)
        }
        Test::Not(inner) => {
            add(out, "!")?;
            add_test(out, registry, tag, TestRank::Unary, inner)
        }
        Test::Both(left, right) => {
            open(out, rank.brackets_both())?;
            add_test(out, registry, tag, TestRank::Conjunction, left)?;
            add(out, " & ")?;
            add_test(out, registry, tag, TestRank::Unary, right)?;
            close(out, rank.brackets_both())
        }
        Test::Either(left, right) => {
            open(out, rank.brackets_either())?;
            add_test(out, registry, tag, TestRank::Whole, left)?;
            add(out, " | ")?;
            add_test(out, registry, tag, TestRank::Conjunction, right)?;
            close(out, rank.brackets_either())
        }
    }
}

/// Adds a label with its colon, or nothing for none.
fn add_label(alloc: Global, out: &mut String, label: u8) -> Result<(), NoMemory>
    ensures { OnOk result (string_bytes out.new ≡ string_bytes out.old ++ spec.printed_label label) }
{
    if label == 0 {
        return Ok(());
    }
    add_number(alloc, out, u32::from(label))?;
    add(out, ":")
}

fn has_test(test: &Test) -> bool
    ensures { result ≡ spec.has_test (test_shape test.now) }
{
    !matches!(test, Test::Any)
}

/// Adds a tag up to the sign that ends it.
fn add_tag(out: &mut String, registry: &Registry, kind: u16, test: &Test) -> Result<(), NoMemory>
    ensures { OnOk result (string_bytes out.new ≡ string_bytes out.old
        ++ spec.printed_tag (spec.name_at (kind_names registry.now.kinds) kind) (kind_attrs registry.now.kinds kind) (test_shape test.now)) }
{
    add(out, "<")?;
    add(out, kind_name(registry, kind))?;
    add(out, if has_test(test) { " " } else { "" })?;
    add_test(out, registry, Some(kind), TestRank::Whole, test)
}

/// Adds `{n,m}`.
fn add_turns(alloc: Global, out: &mut String, least: u32, most: u32) -> Result<(), NoMemory>
    ensures { OnOk result (string_bytes out.new ≡ string_bytes out.old ++ spec.printed_turns least most) }
{
    add(out, "{")?;
    add_number(alloc, out, least)?;
    add(out, ",")?;
    add_number(alloc, out, most)?;
    add(out, "}")
}

/// Adds a token's label and test.
fn add_token(
    alloc: Global,
    out: &mut String,
    registry: &Registry,
    label: u8,
    test: &Test,
) -> Result<(), NoMemory>
    ensures { OnOk result (string_bytes out.new ≡ string_bytes out.old ++ spec.printed_expr registry.now tree.Atom (TokenTest label (test_shape test.now))) }
{
    add_label(alloc, out, label)?;
    add(out, "[")?;
    add_test(out, registry, None, TestRank::Whole, test)?;
    add(out, "]")
}

/// Adds an expression where one of this rank is wanted.
fn add_expr(
    alloc: Global,
    out: &mut String,
    registry: &Registry,
    rank: Rank,
    expr: &Expr,
) -> Result<(), NoMemory>
    ensures { OnOk result (string_bytes out.new ≡ string_bytes out.old ++ spec.printed_expr registry.now (rank_seen rank) (shape expr.now)) }
{
    match expr {
        Expr::Token { label, test } => add_token(alloc, out, registry, *label, test),
        Expr::Begin { kind, test } => {
            add_tag(out, registry, *kind, test)?;
            add(out, ">")
        }
        Expr::End { kind } => {
            add(out, "</")?;
            add(out, kind_name(registry, *kind))?;
            add(out, ">")
        }
        Expr::Whole { kind, test } => {
            add_tag(out, registry, *kind, test)?;
            add(out, "/>")
        }
        Expr::Seq(left, right) => {
            open(out, rank.brackets_seq())?;
            add_expr(alloc, out, registry, Rank::Sequence, left)?;
            add(out, " ")?;
            add_expr(alloc, out, registry, Rank::Item, right)?;
            close(out, rank.brackets_seq())
        }
        Expr::Choice(left, right) => {
            open(out, rank.brackets_choice())?;
            add_expr(alloc, out, registry, Rank::Choice, left)?;
            add(out, " | ")?;
            add_expr(alloc, out, registry, Rank::Sequence, right)?;
            close(out, rank.brackets_choice())
        }
        Expr::Repeat { inner, least, most } => {
            open(out, rank.brackets_repeat())?;
            add_expr(alloc, out, registry, Rank::Atom, inner)?;
            add_turns(alloc, out, *least, *most)?;
            close(out, rank.brackets_repeat())
        }
    }
}

/// The op of a filter, between blanks.
fn kind_text(kind: FilterKind) -> &'static str
    ensures { result.now ≡ spec.printed_kind (kind_shape kind) }
{
    match kind {
        FilterKind::Within => " within ",
        FilterKind::NotWithin => " !within ",
        FilterKind::Containing => " containing ",
        FilterKind::NotContaining => " !containing ",
    }
}

fn has_filters(filters: &Filters) -> bool
    ensures { result ≡ spec.has_filters (filters_shape filters.now) }
{
    matches!(filters, Filters::More(_, _))
}

/// Adds filters from left to right.
fn add_filters(
    alloc: Global,
    out: &mut String,
    registry: &Registry,
    filters: &Filters,
) -> Result<(), NoMemory>
    ensures { OnOk result (string_bytes out.new ≡ string_bytes out.old ++ spec.printed_filters registry.now (filters_shape filters.now)) }
{
    match filters {
        Filters::End => Ok(()),
        Filters::More(filter, others) => {
            add(out, kind_text(filter.kind))?;
            open(out, has_filters(&filter.filters))?;
            add_expr(alloc, out, registry, Rank::Choice, &filter.head)?;
            add_filters(alloc, out, registry, &filter.filters)?;
            close(out, has_filters(&filter.filters))?;
            add_filters(alloc, out, registry, others)
        }
    }
}

/// Adds one side of a condition.
fn add_side(
    alloc: Global,
    out: &mut String,
    registry: &Registry,
    label: u8,
    attr: u16,
) -> Result<(), NoMemory>
    ensures { OnOk result (string_bytes out.new ≡ string_bytes out.old ++ spec.printed_side (attr_names registry.now.attrs) label attr) }
{
    add_number(alloc, out, u32::from(label))?;
    add(out, ".")?;
    add(out, attr_name(registry, attr))
}

/// Adds a condition.
fn add_cond(
    alloc: Global,
    out: &mut String,
    registry: &Registry,
    cond: &Cond,
) -> Result<(), NoMemory>
    ensures { OnOk result (string_bytes out.new ≡ string_bytes out.old ++ spec.printed_cond (attr_names registry.now.attrs) cond.now) }
{
    add(out, " & ")?;
    add_side(alloc, out, registry, cond.left, cond.left_attr)?;
    add(out, if cond.equal { " = " } else { " != " })?;
    add_side(alloc, out, registry, cond.right, cond.right_attr)
}

/// Adds conditions from left to right.
fn add_conds(
    alloc: Global,
    out: &mut String,
    registry: &Registry,
    conds: &[Cond],
) -> Result<(), NoMemory>
    ensures { OnOk result (string_bytes out.new ≡ string_bytes out.old ++ spec.printed_conds (attr_names registry.now.attrs) conds.now) }
{
    for cond in conds {
        add_cond(alloc, out, registry, cond)?;
    }
    Ok(())
}

/// The text that a query is printed as, with the names that the registry declares: one blank where blanks stand, and parentheses only where the query needs
/// them. A query that was read from a text is read from its printed text again, under any default attribute, where that has at most 4,096 bytes.
pub fn print(alloc: Global, query: &Query, registry: &Registry) -> Result<Value, NoMemory>
    ensures { IfOk result (λ text. text ≡ spec.printed registry.now query.now) }
{
    let mut out = String::new(alloc);
    add_expr(alloc, &mut out, registry, Rank::Choice, query.head())?;
    add_filters(alloc, &mut out, registry, query.filters())?;
    add_conds(alloc, &mut out, registry, query.conds().as_slice())?;
    Ok(Value::from_string(out))
}
