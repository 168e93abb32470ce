//! What the names of files and folders say, and paths.

ghost use Rattle.std.specs.Prelude.{◌≡◌, ◌++◌, IfOk};
ghost use Rattle.jl_finder.specs.Paths as paths;

use jl_prim::{CopyEnd, Name, is_module_name};
use std::alloc::Global;

/// Whether this is the name of an archive.
pub fn is_archive(name: &[u8]) -> bool
    ensures { result ≡ paths.is_archive name.now }
{
    name.ends_with(b".jar") || name.ends_with(b".jmod") || name.ends_with(b".zip")
}

/// Whether this is the name of a class file.
pub fn is_class_file(name: &[u8]) -> bool
    ensures { result ≡ paths.is_class_file name.now }
{
    name.ends_with(b".class")
}

/// Whether a folder with this name may be a package or lead to one.
pub fn is_walked(name: &[u8]) -> bool
    ensures { result ≡ paths.is_walked name.now }
{
    is_module_name(name) && !name.contains(&b'.')
}

/// The path of what has this name in a folder.
pub fn path_in(alloc: Global, dir: &Name, name: &str) -> Result<Name, CopyEnd>
    ensures { IfOk result (λ path. path ≡ paths.path_in dir.now name.now) }
{
    let mut text = String::from_str(alloc, dir.as_str())?;
    text.push_str("/")?;
    text.push_str(name)?;
    Ok(Name::from_string(text))
}

/// A name behind a text.
pub fn behind(alloc: Global, front: &str, name: &str) -> Result<Name, CopyEnd>
    ensures { IfOk result (λ both. both ≡ front.now ++ name.now) }
{
    let mut text = String::from_str(alloc, front)?;
    text.push_str(name)?;
    Ok(Name::from_string(text))
}
