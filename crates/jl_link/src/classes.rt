//! The class of a name, for the class that names it (JVMS 5.4.3.1).

ghost use Rattle.std.specs.Prelude.{◌≡◌, ◌≤◌, List, Some, IfOk, IsErrOf};
ghost use Rattle.std.specs.Str.{IsUtf8};
ghost use Rattle.jl_logic.specs.Counts.{Rose};
ghost use Rattle.jl_tree.specs.Files.{File};
ghost use Rattle.jl_loads.specs.Ends.{Asks, Leaves};
ghost use Rattle.jl_loads.specs.Worlds.{IsClass, Keeps, Loaded, class_at};
ghost use Rattle.jl_link.specs.References as references;
ghost use Rattle.jl_link.specs.Standing.{Reaches};

use jl_loads::{LinkEnd, Loads, read_once};
use jl_prim::ClassId;
use jl_tree::Tree;

/// The loader of a class loads the class of a name, and the one accesses the other.
pub fn class_by_name<T: Tree>(
    loads: &mut Loads,
    tree: &mut T,
    d: ClassId,
    name: &[u8],
    at: u64,
) -> Result<ClassId, LinkEnd>
    requires text { IsUtf8 name.now }
    requires caller { IsClass loads.old d }
    ensures finds { (files : List File) (from : Loaded) → T.files tree.old ≡ Some files → class_at loads.old d ≡ Some from → Leaves (references.class_by_name files at loads.old from name.now) result loads.new }
    ensures reaches { (from : Loaded) → class_at loads.old d ≡ Some from → IfOk result (Reaches loads.new from name.now) }
    ensures there { IfOk result (IsClass loads.new) }
    ensures keeps { Keeps loads.old loads.new }
    ensures asks { Asks loads.old loads.new (T.asked tree.old) (T.asked tree.new) }
    ensures same_files { T.files tree.new ≡ T.files tree.old }
    ensures counts { T.faults tree.old ≤ T.faults tree.new }
    ensures read_fault { IsErrOf result LinkEnd.ReadFault → Rose (T.faults tree.old) (T.faults tree.new) }
{
    read_once();
    let loader = loads.loader_of(d);
    let c = loads.load(tree, loader, name, at)?;
    loads.access(d, c, at)?;
    Ok(c)
}
