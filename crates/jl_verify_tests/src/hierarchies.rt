//! The classes that the methods of the tests name.

use jl_names::utf16_of;
use jl_prim::{ErrorKind, Items, Name};
use jl_vtypes::{ListedClass, ListedClasses, MissingClass};
use std::alloc::Global;
use std::test::Fail;

/// Names, each with its superclass. An interface stands behind `interface`.
static CLASSES: [&str; 10] = [
    "java/lang/Object",
    "java/lang/String java/lang/Object",
    "java/lang/Throwable java/lang/Object",
    "p/S java/lang/Object",
    "p/A p/S",
    "p/B p/A",
    "p/T java/lang/Throwable",
    "interface p/I java/lang/Object",
    "interface p/J java/lang/Object",
    "interface java/lang/Cloneable java/lang/Object",
];

fn class(alloc: Global, line: &str) -> Result<ListedClass, Fail> {
    let is_interface = line.starts_with("interface ");
    let names = line.strip_prefix("interface ").unwrap_or(line);
    let (name, superclass) = match names.split_once(' ') {
        Some((name, superclass)) => (name, Some(Name::from_text(alloc, superclass)?)),
        None => (names, None),
    };
    Ok(ListedClass {
        name: Name::from_text(alloc, name)?,
        is_interface,
        superclass,
    })
}

/// The classes, where the questions with these numbers fail. The class `p/Gone` does not load.
pub fn hierarchy(alloc: Global, fails: &[u64]) -> Result<ListedClasses, Fail> {
    let mut listed = Items::new(alloc);
    for line in &CLASSES {
        listed.push(class(alloc, line)?)?;
    }
    let mut missing = Items::new(alloc);
    missing.push(MissingClass {
        name: Name::from_text(alloc, "p/Gone")?,
        kind: ErrorKind::LinkageError,
        message: Some(utf16_of(alloc, "gone")?),
    })?;
    let fails = Items::from_vec(Vec::from_slice(alloc, fails)?);
    Ok(ListedClasses::new(alloc, listed, missing, fails))
}
