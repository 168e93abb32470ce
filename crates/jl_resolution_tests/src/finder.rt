//! Tests of jl_finder.

use jl_finder::find_all;
use jl_making::{same, tree_in, words_in};
use jl_prim::{Name, Observed};
use jl_tree::MemTree;
use std::alloc::Global;
use std::test::*;

/// Each module's name and place, and its packages.
fn shown(alloc: Global, modules: &[Observed]) -> Result<String, Fail> {
    let mut text = String::new(alloc);
    for module in modules {
        let packages = module.declaration.packages.as_slice();
        let name = &module.declaration.name;
        let place = &module.place;
        text.push_str(format!(in alloc; "{name} {place} {packages:?};")?.as_str())?;
    }
    Ok(text)
}

/// What is found, or the fault.
fn found(alloc: Global, tree: &mut MemTree, elements: &[Name]) -> Result<String, Fail> {
    match find_all(alloc, tree, elements) {
        Ok(found) => shown(alloc, found.modules.as_slice()),
        Err(fault) => Ok(format!(in alloc; "{fault:?}")?),
    }
}

/// Checks what is found of each of these: files, elements, and what is wanted.
fn check_rows(alloc: Global, rows: &[(&str, &str, &str)]) -> Result<(), Fail> {
    for (files, elements, want) in rows {
        let mut tree = tree_in(alloc, files, &[])?;
        let elements = words_in(alloc, elements)?;
        same(found(alloc, &mut tree, elements.as_slice())?.as_str(), want)?;
    }
    Ok(())
}

static FOUND_ROWS: [(&str, &str, &str); 9] = [
    ("m/a : a | m/a/p : a", "m", "a m/a [p];"),
    ("m1/a : a | m2/a : a", "m1 m2", "a m1/a [];"),
    ("m/a : a", "m/a", "a m/a [];"),
    ("m/a : a", "n m", "a m/a [];"),
    ("m/a : a", "", ""),
    ("m/a : a", "m/a/module-info.class", ""),
    ("m/a : a | m/a/x.jar", "m", "a m/a [];"),
    ("m/a : a | m/a/b.c/X.class", "m", "a m/a [];"),
    ("m/a : a | m/a/p/q/r/X.class", "m", "a m/a [p/q/r];"),
];

#[test]
fn module_paths(rt: HostRuntime) -> Result<(), Fail> {
    check_rows(rt.alloc(), &FOUND_ROWS)
}

static REFUSED_ROWS: [(&str, &str, &str); 7] = [
    ("m/a : a | m/x.jar", "m", "Archive(m/x.jar)"),
    ("m/a : a", "x.jar m", "Archive(x.jar)"),
    ("m/x.zip/p/X.class", "m", "Archive(m/x.zip)"),
    (
        "m/a : a | bad/b/module-info.class",
        "m bad",
        "Info(bad/b/module-info.class, Short(0))",
    ),
    ("m/p : a | m/q : a", "m", "TwoInDirectory(m, a)"),
    ("m/a/X.class | m/a : a", "m", "TopLevelClass(m/a/X.class)"),
    (
        "bad/module-info.class",
        "bad",
        "Info(bad/module-info.class, Short(0))",
    ),
];

#[test]
fn refused_module_paths(rt: HostRuntime) -> Result<(), Fail> {
    check_rows(rt.alloc(), &REFUSED_ROWS)
}

/// What comes of a failure of one call, and how many declaration files were asked for then.
fn failed(alloc: Global, call: u64) -> Result<String, Fail> {
    let files = "m/a : a | m/a/p/X.class | m/b : b";
    let mut tree = tree_in(alloc, files, &[call])?;
    let text = found(alloc, &mut tree, words_in(alloc, "m")?.as_slice())?;
    let asked = tree.asked().len();
    Ok(format!(in alloc; "{asked} {text}")?)
}

/// Checks what comes of a failure of the first call, of the second, and so on.
fn all_failed(alloc: Global, rows: &[&str]) -> Result<(), Fail> {
    for (before, want) in rows.iter().enumerate() {
        same(failed(alloc, before as u64 + 1)?.as_str(), want)?;
    }
    Ok(())
}

/// Listings of `m`, of `m/a` and of `m/a/p`, its declaration, and the two of `m/b`: each call may fail.
#[test]
fn failing_calls(rt: HostRuntime) -> Result<(), Fail> {
    static ROWS: [&str; 7] = [
        "0 ReadFault",
        "0 ReadFault",
        "0 ReadFault",
        "1 ReadFault",
        "1 ReadFault",
        "2 ReadFault",
        "2 a m/a [p];b m/b [];",
    ];
    all_failed(rt.alloc(), &ROWS)
}

/// One element so many times.
fn repeated(alloc: Global, element: &str, count: usize) -> Result<Vec<Name>, Fail> {
    let mut elements = Vec::new(alloc);
    for _ in 0..count {
        elements.push(Name::from_text(alloc, element)?)?;
    }
    Ok(elements)
}

/// What is found in one element so many times.
fn found_in_repeated(alloc: Global, element: &str, count: usize) -> Result<String, Fail> {
    let mut tree = tree_in(alloc, "m/a : a | m/a/p/X.class", &[])?;
    let elements = repeated(alloc, element, count)?;
    found(alloc, &mut tree, elements.as_slice())
}

fn check_repeated(alloc: Global, rows: &[(&str, usize, &str)]) -> Result<(), Fail> {
    for (element, count, want) in rows {
        same(found_in_repeated(alloc, element, *count)?.as_str(), want)?;
    }
    Ok(())
}

/// A module, and a folder without modules, at the limits and one past them.
#[test]
fn limits(rt: HostRuntime) -> Result<(), Fail> {
    static ROWS: [(&str, usize, &str); 4] = [
        ("m/a", 4096, "a m/a [p];"),
        ("m/a", 4097, "TooMany"),
        ("m/a/p", 65536, ""),
        ("m/a/p", 65537, "TooMany"),
    ];
    check_repeated(rt.alloc(), &ROWS)
}
