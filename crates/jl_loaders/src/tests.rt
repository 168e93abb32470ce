ghost use Rattle.std.specs.Prelude.{◌≡◌, ◌+◌, ◌<◌, length, IfOk, OnOk};

use super::*;
use jl_prim::{Items, LoaderId, ModuleId, Name, ParentLoader};
use std::alloc::Global;
use std::test::*;

fn pairs(alloc: Global, given: &[(&str, u32)]) -> Result<Items<(Name, ModuleId)>, Fail> {
    let mut items = Items::new(alloc);
    for (package, m) in given {
        items.push((Name::from_text(alloc, package)?, ModuleId(*m)))?;
    }
    Ok(items)
}

/// One more loader, with a null parent.
fn place(
    alloc: Global,
    loaders: &mut Loaders,
    own: &[(&str, u32)],
    seen: &[(&str, u32)],
) -> Result<(), Fail>
    requires { length loaders.old.loaders < 9 }
    ensures { OnOk result (length loaders.new.loaders ≡ length loaders.old.loaders + 1) }
{
    let own = pairs(alloc, own)?;
    let seen = pairs(alloc, seen)?;
    let parts = LoaderParts::new(alloc, own, seen, ParentLoader::Null)?;
    loaders.room(1)?;
    let _ = loaders.place(parts);
    Ok(())
}

/// Loaders 1 and 2 lead p/T to module 1, loader 3 leads it nowhere, loader 4 to module 4.
fn four(alloc: Global) -> Result<Loaders, Fail>
    ensures { IfOk result (λ loaders. length loaders.loaders ≡ 4) }
{
    let mut loaders = Loaders::new(alloc);
    place(
        alloc,
        &mut loaders,
        &[("q", 3), ("p", 1), ("p", 7)],
        &[("p", 9), ("b", 5)],
    )?;
    place(alloc, &mut loaders, &[], &[("p", 1)])?;
    place(alloc, &mut loaders, &[], &[])?;
    place(alloc, &mut loaders, &[("p", 4)], &[])?;
    Ok(loaders)
}

/// What a constraint on p/T clashes with.
fn clash_of(loaders: &mut Loaders, one: u32, other: u32) -> Result<Option<(u32, u32)>, Fail>
    requires { length loaders.old.loaders ≡ 4 }
    ensures { length loaders.new.loaders ≡ 4 }
{
    if one == 0 || one > 4 || other == 0 || other > 4 {
        return Err(Fail::new("no such loader"));
    }
    match loaders.impose("p/T".as_bytes(), LoaderId(one), LoaderId(other)) {
        Ok(()) => Ok(None),
        Err(
            ConstraintFault::Clash {
                name: _,
                one,
                other,
            },
        ) => Ok(Some((one.0, other.0))),
        Err(ConstraintFault::NoMemory) => Err(Fail::new("no memory")),
    }
}

#[test]
fn the_third_entry_of_a_chain_clashes(rt: HostRuntime) -> Result<(), Fail> {
    let mut loaders = four(rt.alloc())?;
    assert_eq!(rt; clash_of(&mut loaders, 1, 2)?, None);
    assert_eq!(rt; clash_of(&mut loaders, 2, 3)?, None);
    assert_eq!(rt; clash_of(&mut loaders, 3, 4)?, Some((1, 4)));
    // What was refused does not stay.
    assert_eq!(rt; clash_of(&mut loaders, 4, 4)?, None);
    assert_eq!(rt; clash_of(&mut loaders, 4, 3)?, Some((4, 1)));
    are_sound(&loaders);
    leads_stay();
    Ok(())
}

#[test]
fn a_map_has_each_package_once(rt: HostRuntime) -> Result<(), Fail> {
    let loaders = four(rt.alloc())?;
    let map = pairs(rt.alloc(), &[("b", 5), ("p", 1), ("q", 3)])?;
    assert_eq!(rt; loaders.map_of(LoaderId(1)), map.as_slice());
    assert_eq!(rt; loaders.lead(LoaderId(1), b"p/T"), Some(ModuleId(1)));
    assert_eq!(rt; loaders.lead(LoaderId(3), b"p/T"), None);
    Ok(())
}
