//! Folders of the file system as a tree.

ghost use Rattle.std.specs.Prelude.{◌≡◌, ◌≤◌};
ghost use Rattle.jl_logic.specs.Counts.{Rose};
ghost use Rattle.jl_tree.specs.Files.{IsNotLong, faults_with};
ghost use Rattle.jl_tree.specs.declared.tree.TreeFault.TheVariants as fault;

use crate::entry::Entry;
use crate::fails::one_more;
use crate::tree::{Tree, TreeFault};
use jl_prim::Name;
use std::alloc::Global;
use std::fs::{self, Metadata};
use std::io::{self, ErrorKind, Read};
use std::rt::Files;

/// The files of the file system, by their paths as they are written. It follows links, and tells no content.
#[derive(Drop)]
pub struct FolderTree<R> {
    rt: R,
    faults: u64,
}

/// What stands at a path.
enum Content {
    Absent,
    Long(u64),
    Whole(Vec<u8>),
}

impl<R> FolderTree<R> {
    /// A tree with no fault so far.
    pub fn new(rt: R) -> FolderTree<R>
        ensures { result.faults ≡ 0 }
    {
        FolderTree { rt, faults: 0 }
    }

    /// Counts an error of the outside. Want of memory is none.
    fn end(&mut self, error: &io::Error) -> TreeFault
        ensures kept { self.old.faults ≤ self.new.faults }
        ensures not_long { IsNotLong result }
        ensures exact { self.new.faults ≡ faults_with result self.old.faults }
        ensures rose { result ≡ fault.Failed → Rose self.old.faults self.new.faults }
    {
        if error.kind() == ErrorKind::OutOfMemory {
            return TreeFault::NoMemory;
        }
        self.faults = one_more(self.faults);
        TreeFault::Failed
    }
}

impl<R: Files + Alloc + Clone + Drop> Tree for FolderTree<R> {
    ghost use Rattle.std.specs.Prelude.{None, true};

    ghost files = { λ _. None };

    ghost asked = { λ _. None };

    ghost faults = { λ s. s.faults };

    ghost counts_exactly = { true };

    /// An entry whose name is not UTF-8 is a fault. A link that leads nowhere is left out.
    fn list(&mut self, alloc: Global, dir: &Name) -> Result<Option<Vec<Entry>>, TreeFault> {
        match entries_of(&self.rt, alloc, dir.as_str()) {
            Ok(entries) => Ok(entries),
            Err(error) => Err(self.end(&error)),
        }
    }

    /// It never reads more than one byte past `most`.
    fn read(
        &mut self,
        alloc: Global,
        path: &Name,
        most: usize,
    ) -> Result<Option<Vec<u8>>, TreeFault> {
        match content_of(&self.rt, alloc, path.as_str(), most) {
            Ok(Content::Absent) => Ok(None),
            Ok(Content::Long(length)) => Err(TreeFault::TooLong(length)),
            Ok(Content::Whole(bytes)) => Ok(Some(bytes)),
            Err(error) => Err(self.end(&error)),
        }
    }
}

/// What the links at a path lead to, and None where nothing is there.
fn seen_at(rt: &impl Files, path: &str) -> io::Result<Option<Metadata>> {
    match fs::metadata(rt, path) {
        Ok(seen) => Ok(Some(seen)),
        Err(error) => match error.kind() {
            ErrorKind::NotFound | ErrorKind::NotADirectory => Ok(None),
            _ => Err(error),
        },
    }
}

fn entries_of<R: Files + Alloc + Clone + Drop>(
    rt: &R,
    alloc: Global,
    dir: &str,
) -> io::Result<Option<Vec<Entry>>> {
    match seen_at(rt, dir)? {
        Some(seen) if seen.is_dir() => {}
        _ => return Ok(None),
    }
    let mut entries = Vec::new(alloc);
    for found in fs::read_dir(rt, dir)? {
        let found = found?;
        if let Some(seen) = seen_at(rt, found.path().as_str())? {
            entries.push(Entry {
                name: Name::from_string(String::from_str(alloc, found.file_name())?),
                is_dir: seen.is_dir(),
            })?;
        }
    }
    Ok(Some(entries))
}

fn content_of(rt: &impl Files, alloc: Global, path: &str, most: usize) -> io::Result<Content> {
    match seen_at(rt, path)? {
        Some(seen) if seen.is_file() && seen.len() > most as u64 => {
            return Ok(Content::Long(seen.len()));
        }
        Some(seen) if seen.is_file() => {}
        _ => return Ok(Content::Absent),
    }
    let one_past = (most as u64).saturating_add(1);
    let mut bytes = Vec::new(alloc);
    fs::open(rt, path)?.take(one_past).read_to_end(&mut bytes)?;
    if bytes.len() > most {
        return Ok(Content::Long(bytes.len() as u64));
    }
    Ok(Content::Whole(bytes))
}
