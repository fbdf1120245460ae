//! Scores of words that occur together: logDice in sixteenths, fractions compared exactly, and how a score is written.
#![tactic(auto)]

mod dice;
mod fraction;
pub mod laws;
mod sixteenths;
mod wide;

pub use dice::{CONSTANTS, log_dice};
pub use fraction::compare_fractions;
pub use sixteenths::write_sixteenths;
pub use wide::score;
