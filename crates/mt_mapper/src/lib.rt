//! Mappers: what makes the values of a mapped attribute from those of its base attribute.
//!
//! A `Mapper` has a name and an image for each value, neither of which ever changes, and counts its calls. `Fold` folds the case of a
//! value, `Prefix` and `Suffix` keep its first or last characters. A boxed mapper is a mapper too, so what is written for any mapper
//! serves a list of boxes.
#![tactic(auto)]

mod cut;
mod fold;
mod mapper;
mod mapping;

pub use cut::{Prefix, Suffix};
pub use fold::Fold;
pub use mapper::Mapper;
pub use mapping::images;

fn handed_over<T: Send>() {}

/// That mappers may be handed from thread to thread is proved by this function.
pub fn are_handed_over<M: Mapper>() {
    handed_over::<M>();
    handed_over::<Fold>();
    handed_over::<Prefix>();
    handed_over::<Suffix>();
}
