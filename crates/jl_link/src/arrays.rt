//! What the text of a class entry names: a class, or an array class by its descriptor (JVMS 5.4.3.1, 5.3.3).

ghost use Rattle.std.specs.Prelude.{◌≡◌, ◌≤◌, List, Some, IfOk, IsErrOf};
ghost use Rattle.std.specs.Str.{IsUtf8};
ghost use Rattle.jl_logic.specs.Counts.{Rose};
ghost use Rattle.jl_names.specs.Descriptors.{descriptor_read};
ghost use Rattle.jl_tree.specs.Files.{File};
ghost use Rattle.jl_loads.specs.declared.slot.Target.TheVariants as targets;
ghost use Rattle.jl_loads.specs.Ends.{Asks, Leaves};
ghost use Rattle.jl_loads.specs.Worlds.{IsClass, Keeps, Loaded, class_at};
ghost use Rattle.jl_link.specs.References as references;
ghost use Rattle.jl_link.specs.Standing.{IsArrayOf, NamesTarget, ReachesElements};

use crate::classes::class_by_name;
use jl_loads::{LinkEnd, Loads, Target, of_class};
use jl_names::{Descriptor, TextFault, descriptor};
use jl_prim::{ClassId, Copied, ErrorKind, Name};
use jl_tree::Tree;

/// What the text of a class entry refers to.
pub fn class_by_text<T: Tree>(
    loads: &mut Loads,
    tree: &mut T,
    d: ClassId,
    text: &Name,
    at: u64,
) -> Result<Target, LinkEnd>
    requires { IsClass loads.old d }
    ensures finds { (files : List File) (from : Loaded) → T.files tree.old ≡ Some files → class_at loads.old d ≡ Some from → Leaves (references.class_by_text files at loads.old from text.now) result loads.new }
    ensures names { (from : Loaded) → class_at loads.old d ≡ Some from → IfOk result (NamesTarget loads.new from text.now) }
    ensures keeps { Keeps loads.old loads.new }
    ensures asks { Asks loads.old loads.new (T.asked tree.old) (T.asked tree.new) }
    ensures same_files { T.files tree.new ≡ T.files tree.old }
    ensures counts { T.faults tree.old ≤ T.faults tree.new }
    ensures read_fault { IsErrOf result LinkEnd.ReadFault → Rose (T.faults tree.old) (T.faults tree.new) }
{
    if is_array(text.as_str().as_bytes()) {
        array_by_text(loads, tree, d, text, at)
    } else {
        match class_by_name(loads, tree, d, text.as_str().as_bytes(), at) {
            Ok(c) => Ok(Target::Class(c)),
            Err(end) => Err(end),
        }
    }
}

/// An array class by its descriptor. Another text names no class.
fn array_by_text<T: Tree>(
    loads: &mut Loads,
    tree: &mut T,
    d: ClassId,
    text: &Name,
    at: u64,
) -> Result<Target, LinkEnd>
    requires { IsClass loads.old d }
    ensures finds { (files : List File) (from : Loaded) → T.files tree.old ≡ Some files → class_at loads.old d ≡ Some from → Leaves (references.array_by files at loads.old from text.now (descriptor_read text.now)) result loads.new }
    ensures names { (from : Loaded) → class_at loads.old d ≡ Some from → IfOk result (λ t. (t ≡ targets.Array text.now) × IsArrayOf loads.new from text.now (descriptor_read text.now)) }
    ensures keeps { Keeps loads.old loads.new }
    ensures asks { Asks loads.old loads.new (T.asked tree.old) (T.asked tree.new) }
    ensures same_files { T.files tree.new ≡ T.files tree.old }
    ensures counts { T.faults tree.old ≤ T.faults tree.new }
    ensures read_fault { IsErrOf result LinkEnd.ReadFault → Rose (T.faults tree.old) (T.faults tree.new) }
{
    let alloc = loads.allocator();
    match descriptor(alloc, text.as_str().as_bytes()) {
        Ok(Descriptor::Field(t)) => match t.class_in(text.as_str().as_bytes()) {
            Some(name) => array_of(loads, tree, d, text, name, at),
            None => Ok(Target::Array(text.copy()?)),
        },
        Err(TextFault::NoMemory) => Err(LinkEnd::NoMemory),
        _ => Err(of_class(alloc, ErrorKind::NoClassDefFoundError, text)),
    }
}

/// An array class, whose elements' class is loaded and accessed, by its name.
fn array_of<T: Tree>(
    loads: &mut Loads,
    tree: &mut T,
    d: ClassId,
    text: &Name,
    name: &[u8],
    at: u64,
) -> Result<Target, LinkEnd>
    requires class { IsClass loads.old d }
    requires text { IsUtf8 name.now }
    ensures finds { (files : List File) (from : Loaded) → T.files tree.old ≡ Some files → class_at loads.old d ≡ Some from → Leaves (references.array_of files at loads.old from text.now (Some name.now)) result loads.new }
    ensures names { (from : Loaded) → class_at loads.old d ≡ Some from → IfOk result (λ t. (t ≡ targets.Array text.now) × ReachesElements loads.new from (Some name.now)) }
    ensures keeps { Keeps loads.old loads.new }
    ensures asks { Asks loads.old loads.new (T.asked tree.old) (T.asked tree.new) }
    ensures same_files { T.files tree.new ≡ T.files tree.old }
    ensures counts { T.faults tree.old ≤ T.faults tree.new }
    ensures read_fault { IsErrOf result LinkEnd.ReadFault → Rose (T.faults tree.old) (T.faults tree.new) }
{
    let array = text.copy()?;
    match class_by_name(loads, tree, d, name, at) {
        Ok(_) => Ok(Target::Array(array)),
        Err(end) => Err(end),
    }
}

/// Whether a text names an array.
fn is_array(text: &[u8]) -> bool
    ensures { result ≡ references.is_array text.now }
{
    match text {
        [first, ..] => *first == b'[',
        [] => false,
    }
}
