//! Rules that come to be held, and that are let go.

ghost use Rattle.std.specs.Prelude.{◌≡◌, Some, None};

use super::rules::Rules;
use mt_answer::GrammarCounts;
use mt_grammar::Grammar;
use mt_grammar_counts::{GrammarPatterns, TextCounts};
use mt_pattern::PatternShop;
use std::mem::{forget, replace};

/// Holds rules, in the place of those before.
pub fn hold<P: PatternShop>(held: &mut Option<Rules<P>>, rules: Rules<P>)
    ensures { held.new ≡ Some rules }
{
    let_go_held(replace(held, Some(rules)));
}

/// Holds no rules from now on.
pub fn hold_none<P: PatternShop>(held: &mut Option<Rules<P>>)
    ensures { held.new ≡ None }
{
    let_go_held(replace(held, None));
}

/// Gives back the memory of rules that were held.
fn let_go_held<P: PatternShop>(held: Option<Rules<P>>) {
    match held {
        Some(rules) => let_go(rules),
        none => forget(none),
    }
}

/// Gives back the memory of rules that are not held. Each part is let go by a function of its own, since a proof of all at once takes far longer than those of the parts.
pub fn let_go<P: PatternShop>(rules: Rules<P>) {
    let Rules {
        grammar,
        patterns,
        counts,
        text_counts,
    } = rules;
    let_grammar_go(grammar);
    let_patterns_go(patterns);
    let_counts_go(counts);
    let_text_counts_go(text_counts);
}

/// Gives back the memory of a grammar.
fn let_grammar_go(grammar: Grammar) {
    drop(grammar);
}

/// Gives back the memory of the patterns of a grammar.
fn let_patterns_go<P: PatternShop>(patterns: GrammarPatterns<P>) {
    drop(patterns);
}

/// Gives back the memory of counts over a corpus.
fn let_counts_go(counts: GrammarCounts) {
    drop(counts);
}

/// Gives back the memory of counts of a text.
fn let_text_counts_go(counts: TextCounts) {
    drop(counts);
}
