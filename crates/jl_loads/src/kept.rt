//! What paths gave that were read, each path once (JVMS 5.3.5).

ghost use Rattle.std.specs.Prelude.{◌≡◌, ◌≤◌, ◌<◌, ◌++◌, ◌∷◌, [], List, None, Some, IfErr, IfOk, IsErrOf, IsSome, OnOk};
ghost use Rattle.indexmap.specs.IndexMap.{spare};
ghost use Rattle.jl_logic.specs.Answers.{Gives};
ghost use Rattle.jl_logic.specs.Counts.{Rose};
ghost use Rattle.jl_tree.specs.Files.{File};
ghost use Rattle.jl_loads.specs.Ends.{told, IsNotRead};
ghost use Rattle.jl_loads.specs.Loading as loading;
ghost use Rattle.jl_loads.specs.Steps.{kept_in, with_entry, Reads};

use crate::end::{FileEnd, LinkEnd};
use crate::errors::{of_class, wrong_file};
use crate::file::read_file;
use crate::text::format_error;
use indexmap::IndexMap;
use jl_class::{ClassDecl, ClassFault};
use jl_prim::{Copied, ErrorKind, Name};
use jl_tree::Tree;
use std::alloc::Global;
use std::marker::Model;
use std::rc::Rc;

/// What a path gave: no file, a file that is too long, a class, or a fault. Of a path that could not be read nothing
/// is known.
#[derive(Drop)]
pub enum Given {
    Absent,
    TooLong,
    Declares(Rc<ClassDecl>),
    Broken(ClassFault),
    Lost,
}

/// What is kept of a path.
#[derive(Drop)]
pub struct Kept {
    pub(crate) given: Given,
}

impl Model for Kept {
    ghost use Rattle.jl_loads.specs.Worlds.{Content};
    ghost use Rattle.jl_loads.specs.Views.{content};

    ghost Value = { Content };

    ghost view = { λ k. content k.given };
}

impl Kept {
    /// The class that should have this name, or why there is none. Of what could not be read that is not known.
    pub fn declared(&self, alloc: Global, name: &Name) -> Result<Rc<ClassDecl>, LinkEnd>
        ensures gives { Gives told (λ c. c.value) result (loading.declared_by name.now self.now) }
        ensures named { IfOk result (λ c. c.value.name ≡ name.now) }
        ensures not_read { IfErr result IsNotRead }
    {
        match &self.given {
            Given::Absent => Err(of_class(alloc, ErrorKind::NoClassDefFoundError, name)),
            Given::TooLong => Err(wrong_file(alloc, ErrorKind::ClassFormatError, name, "TooLarge")),
            Given::Declares(class) => of_name(alloc, class, name),
            Given::Broken(fault) => Err(format_error(alloc, name, fault)),
            Given::Lost => Err(LinkEnd::NoMemory),
        }
    }

    /// Whether there is a file. Of what could not be read that is not known.
    pub fn is_there(&self) -> Result<bool, FileEnd>
        ensures there { IfOk result (λ there. there ≡ loading.is_there self.now) }
        ensures not_read { IsErrOf result FileEnd.ReadFault → ⊥ }
    {
        match &self.given {
            Given::Absent => Ok(false),
            Given::TooLong | Given::Declares(_) | Given::Broken(_) => Ok(true),
            Given::Lost => Err(FileEnd::NoMemory),
        }
    }
}

/// The class, if it has this name.
fn of_name(alloc: Global, class: &Rc<ClassDecl>, name: &Name) -> Result<Rc<ClassDecl>, LinkEnd>
    ensures gives { Gives told (λ c. c.value) result (loading.of_name name.now class.now.value) }
    ensures named { IfOk result (λ c. c.value.name ≡ name.now) }
    ensures not_read { IfErr result IsNotRead }
{
    if class.name() == name {
        Ok(class.clone()?)
    } else {
        Err(of_class(alloc, ErrorKind::NoClassDefFoundError, name))
    }
}

/// Keeps what a path gives, if nothing is kept of it. There is room for it before it is read, so that it is not read
/// again, however the call ends.
pub fn keep_file<T: Tree>(
    kept: &mut IndexMap<Name, Kept>,
    alloc: Global,
    tree: &mut T,
    path: &Name,
) -> Result<(), FileEnd>
    ensures keeps { (files : List File) → T.files tree.old ≡ Some files → OnOk result (kept.new.entries ≡ with_entry files path.now kept.old.entries) }
    ensures there { OnOk result (IsSome (kept_in path.now kept.new.entries)) }
    ensures reads { Reads kept.old.entries kept.new.entries path.now (T.asked tree.old) (T.asked tree.new) }
    ensures same_files { T.files tree.new ≡ T.files tree.old }
    ensures counts { T.faults tree.old ≤ T.faults tree.new }
    ensures read_fault { IsErrOf result FileEnd.ReadFault → Rose (T.faults tree.old) (T.faults tree.new) }
{
    if kept.contains_key(path) {
        return Ok(());
    }
    let key = path.copy()?;
    kept.reserve(1)?;
    match read_file(alloc, tree, path) {
        Ok(what) => {
            place(kept, key, what);
            Ok(())
        }
        Err(end) => {
            place(kept, key, Kept { given: Given::Lost });
            Err(end)
        }
    }
}

/// Places what a path gave behind the others, where there is room for it.
fn place(kept: &mut IndexMap<Name, Kept>, path: Name, what: Kept)
    requires room { 0 < spare kept.old }
    requires fresh { kept_in path kept.old.entries ≡ None }
    ensures { kept.new.entries ≡ kept.old.entries ++ (path, what) ∷ [] }
{
    let _ = kept.insert(path, what);
}
