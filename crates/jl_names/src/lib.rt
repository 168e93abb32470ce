//! Texts of class files: modified UTF-8 (JVMS 4.4.7) and its units, names (JVMS 4.2) and descriptors (JVMS 4.3).
#![tactic(auto)]

mod dots;
mod fault;
mod name;
mod reading;
mod text;
mod types;
mod units;
mod utf16;

pub use dots::{dotted, slashed};
pub use fault::{CopyEnd, TextFault};
pub use name::{is_class_name, is_field_name, is_method_name, package_of};
pub use reading::{brackets, descriptor};
pub use text::{bytes_of, is_paired, plain_of, plain_text, units_of};
pub use types::{BaseType, Descriptor, FieldType, Params};
pub use units::Units;
pub use utf16::utf16_of;
