//! The file of a class (JVMS 5.3.1, 5.3.5).

ghost use Rattle.std.specs.Prelude.{◌≡◌, ◌≤◌, ◌⊎◌, List, Some, IfOk, IsErrOf};
ghost use Rattle.jl_logic.specs.Counts.{Rose};
ghost use Rattle.jl_prim.specs.Limits.{most_file_bytes};
ghost use Rattle.jl_tree.specs.Files.{File, read_of, asked_for};
ghost use Rattle.jl_class.specs.Reading.{class_of};
ghost use Rattle.jl_loads.specs.Loading as loading;
ghost use Rattle.jl_loads.specs.Loading.{content_of};
ghost use Rattle.jl_loads.specs.Steps.{HasTables};

use crate::end::FileEnd;
use crate::kept::{Given, Kept};
use jl_class::{ClassFault, read_class, tables_stand};
use jl_prim::{CopyEnd, MOST_FILE_BYTES, Name};
use jl_tree::{Tree, TreeFault};
use std::alloc::Global;
use std::rc::Rc;

/// The path of the file of a class, below the place of its module.
pub fn path_of(alloc: Global, place: &Name, name: &Name) -> Result<Name, CopyEnd>
    ensures { IfOk result (λ path. path ≡ loading.path_of place.now name.now) }
{
    let mut text = String::from_str(alloc, place.as_str())?;
    text.push_str("/")?;
    text.push_str(name.as_str())?;
    text.push_str(".class")?;
    Ok(Name::from_string(text))
}

/// What a path gives.
pub fn read_file<T: Tree>(alloc: Global, tree: &mut T, path: &Name) -> Result<Kept, FileEnd>
    ensures gives { (files : List File) → T.files tree.old ≡ Some files → IfOk result (λ what. what ≡ content_of (read_of files path.now most_file_bytes)) }
    ensures tables { IfOk result HasTables }
    ensures asks { (T.asked tree.new ≡ T.asked tree.old) ⊎ (T.asked tree.new ≡ asked_for (T.asked tree.old) path.now) }
    ensures same_files { T.files tree.new ≡ T.files tree.old }
    ensures counts { T.faults tree.old ≤ T.faults tree.new }
    ensures read_fault { IsErrOf result FileEnd.ReadFault → Rose (T.faults tree.old) (T.faults tree.new) }
{
    match tree.read(alloc, path, MOST_FILE_BYTES) {
        Ok(None) => Ok(Kept {
            given: Given::Absent,
        }),
        Ok(Some(bytes)) => parsed(alloc, bytes.as_slice()),
        Err(TreeFault::TooLong(_)) => Ok(Kept {
            given: Given::TooLong,
        }),
        Err(TreeFault::Failed) => Err(FileEnd::ReadFault),
        Err(TreeFault::NoMemory) => Err(FileEnd::NoMemory),
    }
}

/// What a file with these bytes gives.
fn parsed(alloc: Global, bytes: &[u8]) -> Result<Kept, FileEnd>
    ensures gives { IfOk result (λ what. what ≡ loading.parsed (class_of bytes.now)) }
    ensures tables { IfOk result HasTables }
    ensures not_read { IsErrOf result FileEnd.ReadFault → ⊥ }
{
    match read_class(alloc, bytes) {
        Ok(class) => {
            tables_stand(&class);
            Ok(Kept {
                given: Given::Declares(Rc::new(alloc, class)?),
            })
        }
        Err(ClassFault::NoMemory) => Err(FileEnd::NoMemory),
        Err(fault) => Ok(Kept {
            given: Given::Broken(fault),
        }),
    }
}
