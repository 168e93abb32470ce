//! The framing that class files and module declarations share (JVMS 4.1, 4.7): places in their bytes, magic
//! and version, and attributes, of which each that is read may stand once.
#![tactic(auto)]

mod attributes;
mod place;
mod version;

pub use attributes::{AttributeReader, attributes_at, content, first};
pub use place::Place;
pub use version::{FileFault, front, is_version};
