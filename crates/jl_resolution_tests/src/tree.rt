//! Tests of jl_tree.

use jl_making::{numbers, same, tree_of};
use jl_prim::{Items, Name};
use jl_tree::{Entry, FolderTree, MemSink, MemTree, Sink, StdoutSink, Tree, are_of_one_tree};
use std::alloc::Global;
use std::os::unix::fs::symlink;
use std::test::*;
use std::{env, fs};

/// A name, and a slash where it is a folder.
fn shown(alloc: Global, entry: &Entry) -> Result<String, Fail> {
    let mut name = String::from_str(alloc, entry.name.as_str())?;
    if entry.is_dir {
        name.push('/')?;
    }
    Ok(name)
}

fn shown_in_order(alloc: Global, entries: &[Entry]) -> Result<String, Fail> {
    let mut names = Vec::new(alloc);
    for entry in entries {
        names.push(shown(alloc, entry)?)?;
    }
    names.sort()?;
    Ok(names.as_slice().join(alloc, " ")?)
}

fn listed(alloc: Global, tree: &mut impl Tree, dir: &str) -> Result<String, Fail> {
    let dir = Name::from_text(alloc, dir)?;
    match tree.list(alloc, &dir) {
        Ok(None) => Ok(String::from_str(alloc, "none")?),
        Ok(Some(entries)) => shown_in_order(alloc, entries.as_slice()),
        Err(fault) => Ok(fault.to_string(alloc)?),
    }
}

fn content(alloc: Global, tree: &mut impl Tree, path: &str, most: usize) -> Result<String, Fail> {
    let path = Name::from_text(alloc, path)?;
    match tree.read(alloc, &path, most) {
        Ok(None) => Ok(String::from_str(alloc, "none")?),
        Ok(Some(bytes)) => Ok(String::from_utf8(bytes)?),
        Err(fault) => Ok(fault.to_string(alloc)?),
    }
}

fn lists_as(alloc: Global, tree: &mut impl Tree, dir: &str, want: &str) -> Result<(), Fail> {
    let got = listed(alloc, tree, dir)?;
    same(got.as_str(), want)
}

fn reads_as(
    alloc: Global,
    tree: &mut impl Tree,
    path: &str,
    most: usize,
    want: &str,
) -> Result<(), Fail> {
    let got = content(alloc, tree, path, most)?;
    same(got.as_str(), want)
}

/// Lists each folder below a place.
fn all_listed(
    alloc: Global,
    tree: &mut impl Tree,
    top: &str,
    rows: &[(&str, &str)],
) -> Result<(), Fail> {
    for (dir, want) in rows {
        let dir = place(alloc, top, dir)?;
        lists_as(alloc, tree, dir.as_str(), want)?;
    }
    Ok(())
}

/// Reads each file below a place, with the most bytes that it may have.
fn all_read(
    alloc: Global,
    tree: &mut impl Tree,
    top: &str,
    rows: &[(&str, usize, &str)],
) -> Result<(), Fail> {
    for (path, most, want) in rows {
        let path = place(alloc, top, path)?;
        reads_as(alloc, tree, path.as_str(), *most, want)?;
    }
    Ok(())
}

/// The files with these paths and texts.
fn files_of(alloc: Global, list: &[(&str, &str)]) -> Result<Items<(Name, Items<u8>)>, Fail> {
    let mut files = Items::new(alloc);
    for (path, text) in list {
        let bytes = Items::from_vec(Vec::from_slice(alloc, text.as_bytes())?);
        files.push((Name::from_text(alloc, path)?, bytes))?;
    }
    Ok(files)
}

fn small_tree(alloc: Global) -> Result<MemTree, Fail> {
    let files = [("a/b/c", "one"), ("a/d", ""), ("a/b/e/f", "22"), ("g", "x")];
    tree_of(alloc, files_of(alloc, &files)?, &[])
}

#[test]
fn memory_tree_lists(rt: HostRuntime) -> Result<(), Fail> {
    static ROWS: [(&str, &str); 8] = [
        ("a", "b/ d"),
        ("a/b", "c e/"),
        ("a/b/e", "f"),
        ("a/b/c", "none"),
        ("g", "none"),
        ("h", "none"),
        ("", "none"),
        ("a/", "none"),
    ];
    let mut tree = small_tree(rt.alloc())?;
    all_listed(rt.alloc(), &mut tree, "", &ROWS)
}

#[test]
fn memory_tree_reads(rt: HostRuntime) -> Result<(), Fail> {
    static ROWS: [(&str, usize, &str); 6] = [
        ("a/b/c", 3, "one"),
        ("a/b/c", 2, "the file has 3 bytes"),
        ("a/d", 0, ""),
        ("a/b", 9, "none"),
        ("a/x", 9, "none"),
        ("g", 1, "x"),
    ];
    let mut tree = small_tree(rt.alloc())?;
    all_read(rt.alloc(), &mut tree, "", &ROWS)
}

fn asked_by(alloc: Global, tree: &MemTree) -> Result<String, Fail> {
    let mut asked = String::new(alloc);
    for path in tree.asked() {
        asked.push_str(path.as_str())?;
        asked.push(' ')?;
    }
    Ok(asked)
}

/// Six calls of a tree whose second, third and fifth fail.
fn fails_by_number(alloc: Global, tree: &mut MemTree) -> Result<(), Fail> {
    lists_as(alloc, tree, "a", "b")?;
    reads_as(alloc, tree, "a/b", 9, "the tree failed")?;
    lists_as(alloc, tree, "x", "the tree failed")?;
    reads_as(alloc, tree, "x", 9, "none")?;
    reads_as(alloc, tree, "a/b", 0, "the tree failed")?;
    reads_as(alloc, tree, "a/b", 0, "the file has 3 bytes")
}

#[test]
fn memory_tree_fails_by_number(rt: HostRuntime) -> Result<(), Fail> {
    let alloc = rt.alloc();
    let mut tree = tree_of(alloc, files_of(alloc, &[("a/b", "one")])?, &[2, 3, 5])?;
    fails_by_number(alloc, &mut tree)?;
    let asked = asked_by(alloc, &tree)?;
    same(asked.as_str(), "a/b x a/b a/b ")
}

fn are_two(alloc: Global, first: &str, second: &str) -> Result<bool, Fail> {
    let files = files_of(alloc, &[(first, ""), (second, "")])?;
    Ok(are_of_one_tree(files.as_slice()))
}

fn all_are_two(alloc: Global, rows: &[(&str, &str, bool)]) -> Result<(), Fail> {
    for (first, second, want) in rows {
        if are_two(alloc, first, second)? != *want {
            return Err(Fail::new(format_args!("{first} {second}")));
        }
    }
    Ok(())
}

#[test]
fn files_of_one_tree(rt: HostRuntime) -> Result<(), Fail> {
    static ROWS: [(&str, &str, bool); 6] = [
        ("a", "b", true),
        ("a", "a", false),
        ("a", "a/b", false),
        ("a/b/c", "a", false),
        ("a", "ab/c", true),
        ("a/b", "a/c", true),
    ];
    all_are_two(rt.alloc(), &ROWS)
}

/// Writes each piece, and sees how many bytes of it were taken.
fn all_written(sink: &mut MemSink, rows: &[(&str, Option<usize>)]) -> Result<(), Fail> {
    for (piece, want) in rows {
        if sink.write(piece.as_bytes()).ok() != *want {
            return Err(Fail::new(format_args!("{piece}")));
        }
    }
    Ok(())
}

#[test]
fn memory_sink_takes_what_fits(rt: HostRuntime) -> Result<(), Fail> {
    static ROWS: [(&str, Option<usize>); 7] = [
        ("ab", Some(2)),
        ("c", None),
        ("cd", Some(2)),
        ("ef", None),
        ("e", Some(1)),
        ("", Some(0)),
        ("f", None),
    ];
    let alloc = rt.alloc();
    let mut sink = MemSink::new(alloc, 5, numbers(alloc, &[2])?)?;
    all_written(&mut sink, &ROWS)?;
    assert_eq!(rt; sink.bytes(), b"abcde".as_slice());
    Ok(())
}

fn place(alloc: Global, top: &str, path: &str) -> Result<String, Fail> {
    let mut place = String::from_str(alloc, top)?;
    place.push_str(path)?;
    Ok(place)
}

fn make_folders(rt: &HostRuntime, top: &str) -> Result<(), Fail> {
    let alloc = rt.alloc();
    fs::create_dir_all(rt, place(alloc, top, "/a/b")?.as_str())?;
    fs::write(rt, place(alloc, top, "/a/c")?.as_str(), "one")?;
    symlink(rt, "a", place(alloc, top, "/link")?.as_str())?;
    symlink(rt, "nowhere", place(alloc, top, "/lost")?.as_str())?;
    Ok(())
}

fn list_folders(rt: &HostRuntime, top: &str) -> Result<(), Fail> {
    static ROWS: [(&str, &str); 6] = [
        ("", "a/ link/"),
        ("/a", "b/ c"),
        ("/a/b", ""),
        ("/a/c", "none"),
        ("/link", "b/ c"),
        ("/x", "none"),
    ];
    let mut tree = FolderTree::new(rt);
    all_listed(rt.alloc(), &mut tree, top, &ROWS)
}

fn read_files(rt: &HostRuntime, top: &str) -> Result<(), Fail> {
    static ROWS: [(&str, usize, &str); 5] = [
        ("/a/c", 3, "one"),
        ("/a/c", 2, "the file has 3 bytes"),
        ("/a/b", 9, "none"),
        ("/a/c/d", 9, "none"),
        ("/lost", 9, "none"),
    ];
    let mut tree = FolderTree::new(rt);
    all_read(rt.alloc(), &mut tree, top, &ROWS)
}

/// Makes folders at a place, and looks at them there.
fn look_at_folders(rt: &HostRuntime, top: &str) -> Result<(), Fail> {
    if fs::exists(rt, top)? {
        fs::remove_dir_all(rt, top)?;
    }
    make_folders(rt, top)?;
    list_folders(rt, top)?;
    read_files(rt, top)?;
    fs::remove_dir_all(rt, top)?;
    Ok(())
}

#[test]
fn folders_are_listed_and_read(rt: HostRuntime) -> Result<(), Fail> {
    let top = env::temp_dir(&rt)?;
    let top = place(rt.alloc(), top.as_path().as_str(), "/jl_tree_folders")?;
    look_at_folders(&rt, top.as_str())
}

#[test]
fn standard_output_takes_bytes(rt: HostRuntime) -> Result<(), Fail> {
    let mut sink = StdoutSink::new(&rt);
    assert_eq!(rt; sink.write(b"taken\n"), Ok(6));
    assert_eq!(rt; sink.write(b""), Ok(0));
    Ok(())
}
