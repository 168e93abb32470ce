//! The words of the command line.
#![tactic(auto)]

mod command;
mod fault;
mod given;
mod law;
mod operands;
mod options;
mod reading;
mod setting;
mod targets;
mod texts;

pub use command::{Added, Command, RunWords};
pub use fault::WordFault;
pub use law::{first_fault, line_begins, no_line, no_line_begins};
pub use reading::read_words;
