//! Laws of the definitions of counts over sketch grammars. Each function proves its law, and does nothing.
#![tactic(auto)]

ghost use Rattle.mt_count_laws.specs.Laws.{OneCount, OneUnaryCount};

/// There is at most one number of instances of a relation with given values.
pub fn one_count()
    ensures { OneCount }
{}

/// The same of unary relations.
pub fn one_unary_count()
    ensures { OneUnaryCount }
{}
