//! Module declarations in `module-info.class` files (JVMS 4.1, 4.7.25 to 4.7.27).
#![tactic(auto)]

mod attribute;
mod entering;
mod front;
mod law;
mod limits;
mod meaning;
mod module;
mod named;
mod reading;
mod rules;
mod writable;
mod writing;

pub use jl_tables::{InfoFault, InfoWriteFault};
pub use law::{files_keep_rules, reads_longer};
pub use reading::read_info;
pub use writable::is_writable;
pub use writing::write_info;
