//! The names and tables of a module's declaration, as they are read from a `module-info.class` file and
//! written into one (JVMS 4.7.25).
#![tactic(auto)]

mod fault;
mod grants;
mod kind;
mod meaning;
mod names;
mod provides;
mod required;
mod table;
mod writing;

pub use fault::{InfoFault, InfoWriteFault, not_module, repetition};
pub use grants::grants_at;
pub use kind::Kind;
pub use meaning::is_open;
pub use names::{copied_all, name_at, names_at, version_at};
pub use provides::provides_table_at;
pub use required::requires_table_at;
pub use writing::{
    push_class, push_classes, push_grants, push_index, push_module, push_packages, push_required,
    push_services,
};
