//! The rows of instructions that ask for classes: constants, fields, new objects, arrays of references, and casts
//! (JVMS 6.5). Calls and arrays of arrays are not here yet.
#![tactic(auto)]

mod arrays;
mod caller;
mod casts;
mod constants;
mod decoding;
mod executing;
mod fields;
mod halt;
mod members;
mod objects;
mod referring;
mod row;
mod slots;
mod standing;
mod texts;
mod types;

pub use caller::Caller;
pub use constants::{literal, mirror};
pub use decoding::row_of;
pub use executing::exec_row;
pub use halt::Halt;
pub use objects::kinds_of;
pub use row::{CastOp, FieldOp, ObjectRow};
pub use standing::exec_object;
pub use types::{Fit, ObjectType};
