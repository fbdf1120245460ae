//! Laws of the tables of texts, each the contract of a function that does nothing.
#![tactic(auto)]

ghost use Rattle.mt_segment_laws.specs.Laws.{BothHaveTables, HaveOneTables, HaveTables, InstancesLieInTexts, NumbersStandForValues, TablesAreWhole, TokensStandInTexts};

use mt_lexicon::{have_a_lexicon, have_one_lexicon};
use mt_postings::told_by_members;

/// Texts have tables under each valid registry, whatever the images are, so that what is said of the tables of texts is said of some.
pub fn have_tables()
    ensures { HaveTables }
{
    have_a_lexicon();
}

/// Texts have one list of tables at most, under a registry and images, so that a segment is determined by its texts.
pub fn have_one_tables()
    ensures { HaveOneTables }
{
    have_one_lexicon();
    told_by_members();
}

/// The number at a place is that of the token's value.
pub fn numbers_stand_for_values()
    ensures { NumbersStandForValues }
{}

/// The tables of valid texts are whole: no number leads out of them.
pub fn tables_are_whole()
    ensures { TablesAreWhole }
{}

/// A token of a text stands behind the text's first place as far as in its text.
pub fn tokens_stand_in_texts()
    ensures { TokensStandInTexts }
{}

/// The instances in a text are the text's own, and lie in it.
pub fn instances_lie_in_texts()
    ensures { InstancesLieInTexts }
{}

/// The tables of the texts of two corpora are made of the tables of either.
pub fn both_have_tables()
    ensures { BothHaveTables }
{}
