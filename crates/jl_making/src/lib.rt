//! What tests are made of: names, files by their parts, and trees.
#![tactic(auto)]

mod bytes;
mod declarations;
mod names;
mod trees;

pub use bytes::{bytes_in, bytes_of_lines, case_of, edited, edited_in};
pub use declarations::{declaration, file_of, module_file};
pub use names::{names_in, words_in};
pub use trees::{comes, files_in, info_file, numbers, plain_file, same, tree_in, tree_of};
