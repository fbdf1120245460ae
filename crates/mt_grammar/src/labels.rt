//! Which labels stand in a query.

ghost use Rattle.std.specs.Prelude.{◌≡◌, ◌↔◌, ◌&&◌, IsTrue};
ghost use Rattle.mt_query_spec.specs.Valid as valid;
ghost use Rattle.mt_cql.specs.Shape.{shape};
ghost use Rattle.mt_grammar_spec.specs.GrammarFile.{LacksLabel};
ghost use Rattle.mt_grammar.specs.Seen.{kind_seen};

use super::kind::RelationKind;
use mt_cql::{Expr, Query};

/// Whether a label that a relation of this kind needs stands nowhere in a query of it.
pub fn lacks_label(kind: RelationKind, query: &Query) -> bool
    ensures { IsTrue result ↔ LacksLabel (kind_seen kind) query.now }
{
    let head = query.head();
    match kind {
        RelationKind::Plain => !has_pair(head),
        RelationKind::Dual => !has_pair(head),
        RelationKind::Symmetric => !has_pair(head),
        RelationKind::Trinary => !(has_pair(head) && has_label(3, head)),
        RelationKind::Unary => !has_label(1, head),
    }
}

/// Whether the labels 1 and 2 stand in an expression.
fn has_pair(expr: &Expr) -> bool
    ensures { result ≡ (valid.has_label 1 (shape expr.now) && valid.has_label 2 (shape expr.now)) }
{
    has_label(1, expr) && has_label(2, expr)
}

/// Whether a label stands in an expression.
fn has_label(label: u8, expr: &Expr) -> bool
    ensures { result ≡ valid.has_label label (shape expr.now) }
{
    match expr {
        Expr::Token { label: own, .. } => 0 < *own && *own == label,
        Expr::Begin { .. } => false,
        Expr::End { .. } => false,
        Expr::Whole { .. } => false,
        Expr::Seq(left, right) => has_label(label, left) || has_label(label, right),
        Expr::Choice(left, right) => has_label(label, left) || has_label(label, right),
        Expr::Repeat { inner, .. } => has_label(label, inner),
    }
}
