//! Laws of frequency lists and collocations: there is one of each over any texts and spans, and one only. Each function's contract is a law, and the functions do
//! nothing.
#![tactic(auto)]

ghost use Rattle.mt_report_laws.specs.Laws.{CollocatesAreOne, FrequenciesAreOne, HaveCollocates, HaveFrequencies};

/// There is a frequency list of any spans.
pub fn have_frequencies()
    ensures { HaveFrequencies }
{}

/// Two frequency lists of the same spans are equal.
pub fn frequencies_are_one()
    ensures { FrequenciesAreOne }
{}

/// There is a list of the collocates of any spans.
pub fn have_collocates()
    ensures { HaveCollocates }
{}

/// Two lists of the collocates of the same spans are equal.
pub fn collocates_are_one()
    ensures { CollocatesAreOne }
{}
