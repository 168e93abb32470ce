//! The instructions of code (JVMS 4.7.3, 6.5).
#![tactic(auto)]

mod branches;
mod code;
mod decoding;
mod fault;
mod handlers;
mod locals;
mod members;
mod operands;
mod place_table;
mod places;
mod reading;
mod references;
mod stubs;
mod switches;
mod types;
mod walking;

pub use code::{Arg, Code, Instr};
pub use decoding::decode;
pub use fault::CodeFault;
pub use locals::local_of;
pub use members::{class_text, member_class, member_desc, member_name, member_tag};
pub use place_table::{PlaceTable, TableEnd};
