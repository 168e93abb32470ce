//! Making classes, and writing them as class files (JVMS 4): what is written is read as the same class.
#![tactic(auto)]

mod builder;
mod conditions;
mod constants;
mod contents;
mod entering;
mod entries;
mod entry;
mod fault;
mod member_table;
mod members;
mod needs;
mod nests;
mod places;
mod writing;

pub use builder::ClassBuilder;
pub use conditions::{
    describes_a_field, describes_method, is_short, is_small, is_superclass, may_extend,
};
pub use constants::may_have;
pub use entry::{Constant, NewEntry};
pub use fault::WriteFault;
pub use jl_class::{are_class_flags, are_field_flags, are_method_flags, has_code, names_method};
pub use writing::write_class;
