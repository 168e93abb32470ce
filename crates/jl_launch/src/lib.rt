//! The top call: from the words of a command line to an end and a text.
#![tactic(auto)]

mod base;
mod end;
mod fault_text;
mod launching;
mod law;
mod text;
mod words;
mod writing;

pub use end::{LaunchEnd, Refusal, status_of};
pub use launching::launch;
pub use law::{launches_always, launches_once};
