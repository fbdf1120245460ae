//! Laws of the definitions of commands, scripts and replies. Each function proves its law, and does nothing.
#![tactic(auto)]

ghost use Rattle.mt_session_spec.specs.Laws.{
  SomeMeaning,
  OneMeaning,
  StepsKeepValid,
  RefusedKeep,
  HeldIsValid,
  QuestionsSeeTheCorpus,
  ItemsAreSaid,
  SomeAnswers,
  OneAnswers,
  RepliesAreAnswers,
  FailuresAreGained,
  RefusalsAreGained,
};

use mt_grammar_laws::{
    one_grammar, one_grammar_answer, one_grammar_fault, read_grammar_is_valid, some_grammar_answer,
};
use mt_match_laws::{have_spans, spans_are_one};
use mt_query_laws::{contents_are_few, one_meaning as one_query, some_meaning as some_query};
use mt_registry::{one_registry, one_registry_answer, one_registry_fault, valid_registries};
use mt_report_laws::{collocates_are_one, frequencies_are_one, have_collocates, have_frequencies};
use mt_vertical::{no_text_with_fault, one_fault, one_text, valid_texts};
use mt_word_sketch_laws::{have_sketches, have_thesauri, one_sketch, one_thesaurus};

/// No command that can be said is without a meaning in a valid world.
pub fn some_meaning()
    ensures { SomeMeaning }
{
    some_query();
    have_spans();
    have_frequencies();
    have_collocates();
    some_grammar_answer();
    have_sketches();
    have_thesauri();
}

/// No command has two meanings.
pub fn one_meaning()
    ensures { OneMeaning }
{
    one_text();
    no_text_with_fault();
    one_fault();
    one_registry();
    one_registry_fault();
    one_registry_answer();
    one_query();
    spans_are_one();
    frequencies_are_one();
    collocates_are_one();
    one_grammar();
    one_grammar_fault();
    one_grammar_answer();
    one_sketch();
    one_thesaurus();
}

/// A command leaves a valid world.
pub fn steps_keep_valid()
    ensures { StepsKeepValid }
{
    valid_texts();
    valid_registries();
    read_grammar_is_valid();
}

/// A refused command changes nothing that is held.
pub fn refused_keep()
    ensures { RefusedKeep }
{}

/// What is held is valid at first, with another text, without one, with another registry and with another grammar.
pub fn held_is_valid()
    ensures { HeldIsValid }
{}

/// No question sees more of the texts that are held than the corpus.
pub fn questions_see_the_corpus()
    ensures { QuestionsSeeTheCorpus }
{}

/// The commands of a script are those that can be said.
pub fn items_are_said()
    ensures { ItemsAreSaid }
{}

/// No items that can be said are without answers in a valid world.
pub fn some_answers()
    ensures { SomeAnswers }
{
    some_meaning();
    steps_keep_valid();
}

/// No items have two lists of answers.
pub fn one_answers()
    ensures { OneAnswers }
{
    one_meaning();
    steps_keep_valid();
}

/// Over files that are known, replies in which no call failed and memory lasted are the one answer.
pub fn replies_are_answers()
    ensures { RepliesAreAnswers }
{
    one_answers();
}

/// No failure of the shelf licenses two lines that tell of one.
pub fn failures_are_gained()
    ensures { FailuresAreGained }
{}

/// No refusal of the shop licenses two answers that tell of one.
pub fn refusals_are_gained()
    ensures { RefusalsAreGained }
{
    one_query();
    one_grammar();
    contents_are_few();
}
