//! Hosts of nests (JVMS 4.7.28, 4.7.29, 5.4.4).

ghost use Rattle.std.specs.Prelude.{◌≡◌, ◌≤◌, List, ℕ, Some, IfErr, IfOk, IsErrOf};
ghost use Rattle.jl_logic.specs.Counts.{Rose};
ghost use Rattle.jl_tree.specs.Files.{File};
ghost use Rattle.jl_loads.specs.Ends.{Asks, Leaves};
ghost use Rattle.jl_loads.specs.Laws.{IsLoadedAs};
ghost use Rattle.jl_loads.specs.Outcomes.{Outcome};
ghost use Rattle.jl_loads.specs.Worlds.{IsClass, Keeps, Loaded, class_at};
ghost use Rattle.jl_link.specs.Nests as nests;
ghost use Rattle.jl_link.specs.Nests.{IsSilent};
ghost use Rattle.jl_link.specs.Standing.{IsHost};

use jl_class::ClassDecl;
use jl_loads::{LinkEnd, Loads};
use jl_names::package_of;
use jl_prim::{ClassId, Name};
use jl_tree::Tree;

/// The host of a class's nest: the class that it names, which its own loader loads at a step, or the class itself.
/// No error of that load is thrown. `ReadFault` comes only where the count of the tree's faults rose.
pub fn host_of<T: Tree>(
    loads: &mut Loads,
    tree: &mut T,
    c: ClassId,
    at: u64,
) -> Result<ClassId, LinkEnd>
    requires { IsClass loads.old c }
    ensures hosts { (files : List File) → T.files tree.old ≡ Some files → IfOk result (λ h. (loads.new, h) ≡ nests.host_of files at loads.old c) }
    ensures found { IfOk result (IsHost loads.new c) }
    ensures there { IfOk result (IsClass loads.new) }
    ensures silent { IfErr result IsSilent }
    ensures keeps { Keeps loads.old loads.new }
    ensures asks { Asks loads.old loads.new (T.asked tree.old) (T.asked tree.new) }
    ensures same_files { T.files tree.new ≡ T.files tree.old }
    ensures counts { T.faults tree.old ≤ T.faults tree.new }
    ensures read_fault { IsErrOf result LinkEnd.ReadFault → Rose (T.faults tree.old) (T.faults tree.new) }
{
    let class = loads.class(c).clone()?;
    match class.nest_host() {
        None => Ok(c),
        Some(name) => host_named(loads, tree, c, &class, name, at),
    }
}

/// The host of a class that names one.
fn host_named<T: Tree>(
    loads: &mut Loads,
    tree: &mut T,
    c: ClassId,
    class: &ClassDecl,
    name: &Name,
    at: u64,
) -> Result<ClassId, LinkEnd>
    requires { IsClass loads.old c }
    ensures hosts { (files : List File) (x : Loaded) → T.files tree.old ≡ Some files → class_at loads.old c ≡ Some x → x.declared ≡ class.now → IfOk result (λ h. (loads.new, h) ≡ nests.host_named files at loads.old c x (Some name.now)) }
    ensures found { (x : Loaded) → class_at loads.old c ≡ Some x → x.declared ≡ class.now → class.now.nest_host ≡ Some name.now → IfOk result (IsHost loads.new c) }
    ensures there { IfOk result (IsClass loads.new) }
    ensures silent { IfErr result IsSilent }
    ensures keeps { Keeps loads.old loads.new }
    ensures asks { Asks loads.old loads.new (T.asked tree.old) (T.asked tree.new) }
    ensures same_files { T.files tree.new ≡ T.files tree.old }
    ensures counts { T.faults tree.old ≤ T.faults tree.new }
    ensures read_fault { IsErrOf result LinkEnd.ReadFault → Rose (T.faults tree.old) (T.faults tree.new) }
{
    let loader = loads.loader_of(c);
    let loaded = loads.load(tree, loader, name.as_str().as_bytes(), at);
    settled(loads, loaded, c, class)
}

/// The class that was loaded as host, if it was loaded and is one, or the class itself.
fn settled(
    loads: &Loads,
    loaded: Result<ClassId, LinkEnd>,
    c: ClassId,
    class: &ClassDecl,
) -> Result<ClassId, LinkEnd>
    requires class { IsClass loads.now c }
    requires host { IfOk loaded (IsClass loads.now) }
    ensures settles { (x : Loaded) (o : Outcome ClassId) → x.declared ≡ class.now → Leaves o loaded loads.now → IfOk result (λ h. (loads.now, h) ≡ nests.host_or_itself c x o) }
    ensures found { (x : Loaded) (name : List ℕ) → class_at loads.now c ≡ Some x → x.declared ≡ class.now → class.now.nest_host ≡ Some name → IfOk loaded (IsLoadedAs loads.now x.loader name) → IfOk result (IsHost loads.now c) }
    ensures there { IfOk result (IsClass loads.now) }
    ensures silent { IfErr result IsSilent }
    ensures read_fault { IsErrOf result LinkEnd.ReadFault → IsErrOf loaded LinkEnd.ReadFault }
{
    match loaded {
        Ok(host) => Ok(host_or_itself(loads, host, c, class)),
        Err(LinkEnd::Throws(..)) => Ok(c),
        Err(end) => Err(end),
    }
}

/// The class that was loaded as host, if it is one, or the class itself.
fn host_or_itself(loads: &Loads, host: ClassId, c: ClassId, class: &ClassDecl) -> ClassId
    requires host { IsClass loads.now host }
    ensures { result ≡ nests.listed_or_itself (class_at loads.now host) host c class.now }
{
    if lists(loads.class(host), class) {
        host
    } else {
        c
    }
}

/// Whether a host is of the package of a class and lists it as a member.
fn lists(host: &ClassDecl, class: &ClassDecl) -> bool
    ensures { result ≡ nests.lists_it host.now class.now }
{
    package_of(host.name().as_bytes()) == package_of(class.name().as_bytes())
        && is_listed(host, class)
}

fn is_listed(host: &ClassDecl, class: &ClassDecl) -> bool
    ensures { result ≡ nests.is_listed host.now class.now }
{
    let name = class.name().as_bytes();
    host.nest_members()
        .iter()
        .any(|member| name == member.as_bytes())
}
