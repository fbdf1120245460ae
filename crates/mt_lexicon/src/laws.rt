//! Laws of lexicons, each the contract of a function that does nothing.

ghost use Rattle.mt_lexicon.specs.Joins.{RenumberInTurn};
ghost use Rattle.mt_store_spec.specs.Lexicons.{HaveALexicon, HaveOneLexicon, IsToldByMembers, IsShortest};

/// Values have a lexicon.
pub fn have_a_lexicon()
    ensures { HaveALexicon }
{}

/// Two lexicons of the same values are equal.
pub fn have_one_lexicon()
    ensures { HaveOneLexicon }
{}

/// Values that come in another order, or more often, have the same lexicon.
pub fn is_told_by_members()
    ensures { IsToldByMembers }
{}

/// A lexicon is no longer than any list that holds all of its values.
pub fn is_shortest()
    ensures { IsShortest }
{}

/// Values that are renumbered twice are renumbered by the second renumbering after the first.
pub fn renumber_in_turn()
    ensures { RenumberInTurn }
{}
