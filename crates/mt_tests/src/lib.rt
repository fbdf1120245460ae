//! Tests of the libraries, each by its public calls. They stand apart from the libraries, so that these are proved once and not once more with their tests.
#![tactic(auto)]

#[cfg(test)]
mod generate;
#[cfg(test)]
mod lexicon;
#[cfg(test)]
mod mapper;
#[cfg(test)]
mod outside;
#[cfg(test)]
mod pattern;
#[cfg(test)]
mod postings;
#[cfg(test)]
mod registry;
#[cfg(test)]
mod score;
#[cfg(test)]
mod vertical;
#[cfg(test)]
mod words;
