use super::*;
use indexmap::IndexMap;
use std::alloc::Global;
use std::test::*;

fn name(alloc: Global, text: &str) -> Result<Name, CopyEnd> {
    Name::from_text(alloc, text)
}

fn declaration(alloc: Global) -> Result<Declaration, Fail> {
    let mut required = Items::new(alloc);
    required.push(Requires {
        name: name(alloc, "java.base")?,
        transitive: false,
        is_static: false,
    })?;
    let mut exports = Items::new(alloc);
    exports.push(Grant {
        package: name(alloc, "p/q")?,
        to: None,
    })?;
    let mut packages = Items::new(alloc);
    packages.push(name(alloc, "p/q")?)?;
    packages.push(name(alloc, "p")?)?;
    Ok(Declaration {
        name: name(alloc, "a")?,
        is_open: true,
        version: Some(name(alloc, "1.0")?),
        required,
        exports,
        opens: Items::new(alloc),
        uses: Items::new(alloc),
        provides: Items::new(alloc),
        packages,
        main: None,
    })
}

#[test]
fn copies_find_memory(rt: HostRuntime) -> Result<(), Fail> {
    let alloc = rt.alloc();
    let seen = Observed {
        declaration: declaration(alloc)?,
        place: name(alloc, "m/a")?,
    };
    let copy = seen.copy()?;
    assert_eq!(rt; copy.place.as_str(), "m/a");
    assert_eq!(rt; copy.declaration.name.as_str(), "a");
    assert!(rt; copy.declaration.is_open);
    assert_eq!(rt; copy.declaration.required.len(), 1);
    assert_eq!(rt; copy.declaration.exports.len(), 1);
    assert!(rt; copy.declaration.has_package(b"p/q"));
    assert!(rt; !copy.declaration.has_package(b"q"));
    Ok(())
}

#[test]
fn names_are_keys(rt: HostRuntime) -> Result<(), Fail> {
    let alloc = rt.alloc();
    let mut places = IndexMap::new(alloc);
    places.insert(name(alloc, "b")?, 1u32)?;
    places.insert(name(alloc, "a")?, 2u32)?;
    places.insert(name(alloc, "b")?, 3u32)?;
    let b = name(alloc, "b")?;
    assert_eq!(rt; places.get(&b).copied(), Some(3));
    assert_eq!(rt; places.len(), 2);
    assert!(rt; name(alloc, "B")? < b);
    assert_eq!(rt; b.copy()?.into_string().as_str(), "b");
    Ok(())
}

#[test]
fn module_names(rt: HostRuntime) {
    let table: [(&str, bool); 12] = [
        ("a", true),
        ("java.base", true),
        ("mödul.日本", true),
        ("a-b", true),
        ("", false),
        ("a b", false),
        ("a/b", false),
        ("a\\b", false),
        ("a:b", false),
        ("a@b", false),
        ("a=b", false),
        ("a,b;", false),
    ];
    for (text, want) in table {
        assert_eq!(rt; is_module_name(text.as_bytes()), want, "{text}");
    }
}

#[test]
fn flags_by_name(rt: HostRuntime) {
    use bitflags::Flags;
    let flags = AccessFlags::from_bits_retain(0x0421);
    assert!(rt; flags.contains(AccessFlags::PUBLIC));
    assert!(rt; flags.contains(AccessFlags::ABSTRACT));
    assert!(rt; flags.contains(AccessFlags::SUPER));
    assert!(rt; !flags.contains(AccessFlags::STATIC));
    assert_eq!(rt; flags.bits(), 0x0421);
}
