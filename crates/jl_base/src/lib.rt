//! The built-in `java.base`: its declaration and its classes, as one table says them.
#![tactic(auto)]

mod building;
mod declaration;
mod fault;
mod image;
mod law;
mod row;
mod table;

pub use fault::BaseFault;
pub use image::{BaseImage, base_image};
pub use law::{
    a_machine_begins, boxed_rows_are_distinct, flags_are_right, members_are_apart, rows_are_ready,
};
pub use row::{ClassRow, MemberKind, MemberRow};
pub use table::base_rows;
