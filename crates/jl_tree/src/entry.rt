//! What stands in a folder.

use jl_prim::Name;

/// A file or a folder, by its own name in the folder that holds it.
#[derive(Debug, Drop)]
pub struct Entry {
    pub name: Name,
    pub is_dir: bool,
}
