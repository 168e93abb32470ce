//! Resolving the reference that a row names (JVMS 5.4.3).

ghost use Rattle.std.specs.Prelude.{◌≡◌, ◌≤◌, List, Some, IfOk, IsErrOf};
ghost use Rattle.jl_logic.specs.Counts.{Rose};
ghost use Rattle.jl_tree.specs.Files.{File};
ghost use Rattle.jl_loads.specs.Ends.{Asks};
ghost use Rattle.jl_loads.specs.Worlds.{IsClass};
ghost use Rattle.jl_link.specs.Laws.{Onward};
ghost use Rattle.jl_link.specs.There.{IsTargetThere};
ghost use Rattle.jl_objops.specs.Outcomes as words;
ghost use Rattle.jl_objops.specs.Outcomes.{Refers};

use jl_heap::{Kind, RowEnd};
use jl_link::{LinkEnd, Target, World, decided_stays, targets_are_there};
use jl_loads::read_once;
use jl_prim::ClassId;
use jl_tree::Tree;

/// What the reference of a class at an index refers to, at a step; or how the call ends by its error.
#[tactic(auto, using(crate::proofs::Refusing::beyond, crate::proofs::Refusing::thrown))]
pub fn refer<T: Tree>(
    world: &mut World,
    tree: &mut T,
    d: ClassId,
    index: u16,
    at: u64,
) -> Result<Target, RowEnd>
    requires { IsClass world.old d }
    ensures refers { (files : List File) → T.files tree.old ≡ Some files → Refers (words.refer files at world.old d index) result world.new }
    ensures there { IfOk result (IsTargetThere world.new) }
    ensures onward { Onward world.old world.new }
    ensures asks { Asks world.old world.new (T.asked tree.old) (T.asked tree.new) }
    ensures same_files { T.files tree.new ≡ T.files tree.old }
    ensures counts { T.faults tree.old ≤ T.faults tree.new }
    ensures read_fault { IsErrOf result RowEnd.ReadFault → Rose (T.faults tree.old) (T.faults tree.new) }
{
    read_once();
    decided_stays();
    if index as usize >= world.pool_of(d).len() {
        return Err(RowEnd::Stuck(Kind::Top, Kind::Top));
    }
    match world.resolve_ref(tree, d, index, at) {
        Ok(target) => {
            targets_are_there(world);
            Ok(target)
        }
        Err(LinkEnd::Throws(kind, message)) => Err(RowEnd::Throws(kind, message)),
        Err(LinkEnd::ReadFault) => Err(RowEnd::ReadFault),
        Err(LinkEnd::NoMemory) => Err(RowEnd::NoMemory),
    }
}
