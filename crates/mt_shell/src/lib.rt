//! The session, and the run of a whole script: what the program does.
#![tactic(auto)]

mod edge;
mod fetch;
mod laws;
mod script;
mod session;
mod state;
mod talk;
mod top;
mod writes;

pub use edge::{Edge, Objects};
pub use laws::ends_are_answers;
pub use mt_answer::Reply;
pub use session::Session;
pub use state::State;
pub use top::{Status, run};
