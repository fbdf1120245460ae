//! Patterns over a lexicon: shops that build them, and the numbers of the values that a pattern accepts.
//!
//! A `PatternShop` builds patterns and searches for them in values; `RegexShop` is the one over `regex`, and `FussyShop` one that refuses
//! chosen texts. A shop keeps the texts that it refused. `ids` marks the values of a lexicon that a pattern accepts as wholes, and
//! contracts see its `IdSet` as a mark for each value.
#![tactic(auto)]

mod build;
mod fussy;
mod id_set;
mod known;
mod plain;
mod regexes;
mod shop;
mod words;

pub use build::{IdsError, WholePattern, ids};
pub use fussy::FussyShop;
pub use id_set::IdSet;
pub use regexes::{Built, RegexShop};
pub use shop::{PatternShop, ShopError};

fn shared<T: Send + Sync>() {}

/// That threads may share sets of numbers and shops is proved by this function.
pub fn are_shared() {
    shared::<IdSet>();
    shared::<RegexShop>();
    shared::<FussyShop>();
}
