//! Texts that are made from a number, and the script of a demo over them.
//!
//! A generated text is given in two forms: `generated` writes its vertical, which is read under whatever registry holds, and `generated_text` makes the text
//! that it is under the standard registry. A `Source` draws its tokens one by one, and `make_row` gives the values of each.
#![tactic(auto)]

mod script;
mod source;
mod standard;
mod text;
mod vertical;

pub use script::demo;
pub use source::{Drawn, Source};
pub use standard::is_standard;
pub use text::{generated_text, make_row};
pub use vertical::generated;
