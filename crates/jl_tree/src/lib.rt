//! The outside: a tree of files that is read, and a sink that is written to. Each counts its faults.
#![tactic(auto)]

mod entry;
mod fails;
mod folder_tree;
mod listing;
mod mem_sink;
mod mem_tree;
mod sink;
mod stdout_sink;
mod tree;

pub use entry::Entry;
pub use folder_tree::FolderTree;
pub use mem_sink::{MemEnd, MemSink};
pub use mem_tree::{MemTree, are_of_one_tree};
pub use sink::{Sink, SinkFault};
pub use stdout_sink::StdoutSink;
pub use tree::{Tree, TreeFault};
