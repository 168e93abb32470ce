//! Class files (JVMS 4): the class that the bytes declare, or the first fault from the left.
#![tactic(auto)]

mod attribute;
mod class;
mod code;
mod fault;
mod field;
mod flags;
mod front;
mod law;
mod member;
mod method;
mod names;
mod nests;
mod reading;
mod source;
mod table;

pub use class::ClassDecl;
pub use fault::ClassFault;
pub use field::may_be_constant;
pub use flags::{
    are_class_flags, are_field_flags, are_method_flags, has_code, is_abstract, is_final,
    is_interface, is_native, is_private, is_protected, is_public, is_static,
};
pub use law::{reads_longer, tables_are_read, tables_stand};
pub use member::{CodeBytes, FieldDecl, MemberKey, MethodDecl};
pub use names::names_method;
pub use nests::Nests;
pub use reading::read_class;
