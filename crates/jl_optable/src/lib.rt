//! The table of instructions (JVMS 6.5).
#![tactic(auto)]

mod attributes;
mod form;
mod macros;
pub mod ops;
mod table;

pub use attributes::{AttrForm, AttrRow, AttrTable, Site, attr_table};
pub use form::{Form, Operands};
pub use table::{OpTable, op_table};

#[cfg(test)]
mod tests;
