//! The texts that are held, as segments with marks on those that were removed. No text is kept beside the tables of its segment.
//!
//! Contracts see a `Corpus` as the record of `mt_corpus_spec`: its registry, its groups of texts, to which the tables are decoded, and the images of values
//! that were taken from mappers. The mappers stand beside it.
#![tactic(auto)]

mod adding;
mod corpus;
mod error;
mod keeping;
mod removing;

pub use corpus::Corpus;
pub use error::{AddError, NoSuchText};
pub use keeping::keep_named;
