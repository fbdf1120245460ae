//! The thesaurus: the words that stand in the contexts of a lemma, ranked by how alike their scores there are.
#![tactic(auto)]

mod alike;
mod contexts;
mod fresh;
mod grouped;
mod lines;
mod placed;
mod sums;

pub use contexts::Contexts;

fn shared<T: Send + Sync>() {}

/// That threads may share contexts is proved by this function.
pub fn are_shared() {
    shared::<Contexts>();
}
