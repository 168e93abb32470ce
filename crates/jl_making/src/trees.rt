//! Trees in memory.

use crate::bytes::bytes_of_lines;
use crate::declarations::module_file;
use jl_prim::{Items, Name};
use jl_tree::{MemTree, are_of_one_tree};
use std::alloc::Global;
use std::test::Fail;

/// The files that stand between `|` in a text. A path alone is an empty file. `FOLDER = NAME; STATEMENTS` is the
/// declaration file of a folder: module NAME requires `java.base` and says what the statements say. `FOLDER : NAME` is
/// one without a table of packages.
pub fn files_in(alloc: Global, text: &str) -> Result<Items<(Name, Items<u8>)>, Fail> {
    let mut files = Items::new(alloc);
    for entry in text.split('|') {
        match entry.trim() {
            "" => {}
            entry => files.push(file_in(alloc, entry)?)?,
        }
    }
    Ok(files)
}

fn file_in(alloc: Global, entry: &str) -> Result<(Name, Items<u8>), Fail> {
    if let Some((folder, name)) = entry.split_once(" : ") {
        return info_file(alloc, folder, plain_file(alloc, name)?);
    }
    let Some((folder, statements)) = entry.split_once(" = ") else {
        return Ok((Name::from_text(alloc, entry)?, Items::new(alloc)));
    };
    let all = format!(in alloc; "requires java.base; module {statements}")?;
    info_file(alloc, folder, module_file(alloc, all.as_str())?)
}

/// A declaration file without a table of packages, as `javac` writes it for a module that has none: the module
/// requires `java.base`, mandated.
pub fn plain_file(alloc: Global, name: &str) -> Result<Vec<u8>, Fail> {
    let front = "cafebabe 00000035 0008 =module-info 070001 =Module";
    let pool = format!(in alloc; "{front} ={name} 130004 =java.base 130006")?;
    let body =
        "8000 0002 00000000 00000000 0001 0003 00000016 0005 00000000 0001 0007 80000000 0000000000000000";
    bytes_of_lines(alloc, &[pool.as_str(), body])
}

/// The declaration file of a folder, with these bytes.
pub fn info_file(alloc: Global, folder: &str, bytes: Vec<u8>) -> Result<(Name, Items<u8>), Fail> {
    let path = format!(in alloc; "{folder}/module-info.class")?;
    Ok((Name::from_string(path), Items::from_vec(bytes)))
}

/// The tree of these files, of which the calls with these numbers fail.
pub fn tree_of(
    alloc: Global,
    files: Items<(Name, Items<u8>)>,
    fails: &[u64],
) -> Result<MemTree, Fail> {
    if !are_of_one_tree(files.as_slice()) {
        return Err(Fail::new("no tree"));
    }
    Ok(MemTree::new(alloc, files, numbers(alloc, fails)?))
}

/// The tree of the files in a text, of which the calls with these numbers fail.
pub fn tree_in(alloc: Global, text: &str, fails: &[u64]) -> Result<MemTree, Fail> {
    tree_of(alloc, files_in(alloc, text)?, fails)
}

/// A list of these numbers.
pub fn numbers(alloc: Global, list: &[u64]) -> Result<Items<u64>, Fail> {
    Ok(Items::from_vec(Vec::from_slice(alloc, list)?))
}

/// That a text is the wanted one.
pub fn same(got: &str, want: &str) -> Result<(), Fail> {
    if got == want {
        return Ok(());
    }
    Err(Fail::new(format_args!("{got:?} in place of {want:?}")))
}

/// That what comes of a row is what it wants.
pub fn comes(row: &str, got: &str, want: &str) -> Result<(), Fail> {
    if got == want {
        return Ok(());
    }
    Err(Fail::new(format_args!("{got} and not {row}")))
}
