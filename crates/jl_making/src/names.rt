//! Names and lists of them.

use jl_prim::{Items, Name};
use std::alloc::Global;
use std::test::Fail;

/// The words of a line, as names.
pub fn names_in(alloc: Global, line: &str) -> Result<Items<Name>, Fail> {
    let mut names = Items::new(alloc);
    for word in line.split_whitespace() {
        names.push(Name::from_text(alloc, word)?)?;
    }
    Ok(names)
}

/// The words of a line, as names in a vector.
pub fn words_in(alloc: Global, line: &str) -> Result<Vec<Name>, Fail> {
    Ok(names_in(alloc, line)?.into_vec())
}
