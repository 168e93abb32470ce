//! Tests of jl_class and jl_classw on class files of the versions 55 to 61: nests, records and permitted subclasses.

use crate::class::{SMALLEST, all_come, class_of};
use crate::classw::{after, entry_count, file_of, is_read_so, length_written, made};
use jl_class::ClassDecl;
use jl_making::{bytes_of_lines, comes, edited_in, same};
use std::alloc::Global;
use std::test::*;

/// The class `p/A` of version 55. Its entries are 1 `p/A`, 2 that class, 3 `java/lang/Object`, 4 that class,
/// 5 `NestHost`, 6 `NestMembers`, 7 `Record`, 8 `PermittedSubclasses`, 9 `x`, 10 `I`, 11 `p/B`, 12 that class and
/// 13 `()V`. The flags of the class stand at 120, the count of its attributes at 132, and their first at 134.
const NESTED: [&str; 3] = [
    "cafebabe 00000037 000e =p/A 070001 =java/lang/Object 070003 =NestHost =NestMembers =Record",
    "=PermittedSubclasses =x =I =p/B 07000b =()V",
    "0021 0002 0004 0000 0000 0000 0000",
];

/// The host of the nest of a class, the members and whom it permits.
pub fn nest_of(alloc: Global, class: &ClassDecl) -> Result<String, Fail> {
    let permits = class.permits().map(|names| names.as_slice());
    let (host, members) = (class.nest_host(), class.nest_members());
    Ok(format!(in alloc; "{host:?} {members:?} {permits:?}")?)
}

/// Tries each row: the edits of the class, and the host of its nest, the members and whom it permits then.
fn all_declare(alloc: Global, rows: &[&str]) -> Result<(), Fail> {
    let file = bytes_of_lines(alloc, &NESTED)?;
    for row in rows {
        let (edits, want) = row.split_once(" -> ").ok_or("a row")?;
        let class = class_of(alloc, &edited_in(alloc, &file, edits)?)?;
        same(nest_of(alloc, &class)?.as_str(), want)?;
    }
    Ok(())
}

#[test]
fn versions(rt: HostRuntime) -> Result<(), Fail> {
    static ROWS: [&str; 9] = [
        "4 4 ffff0036 -> read",
        "7 1 37 -> read",
        "4 4 00010037 -> read",
        "7 1 38 -> read",
        "4 4 00010038 -> Version(56, 1)",
        "7 1 3d -> read",
        "4 4 ffff003d -> Version(61, 65535)",
        "7 1 3e -> Version(62, 0)",
        "4 4 00000137 -> Version(311, 0)",
    ];
    all_come(rt.alloc(), &SMALLEST, &ROWS)
}

#[test]
fn hosts_and_members(rt: HostRuntime) -> Result<(), Fail> {
    static ROWS: [&str; 9] = [
        "0 0 - -> None [] None",
        "132 2 0001 0005 00000002 000c -> Some(p/B) [] None",
        "132 2 0001 0006 00000002 0000 -> None [] None",
        "132 2 0001 0006 00000006 0002 000c 0002 -> None [p/B, p/A] None",
        // at 54 they are passed over
        "7 1 36; 132 2 0001 0005 00000002 000c -> None [] None",
        "7 1 36; 132 2 0001 0005 00000003 000b00 -> None [] None",
        "7 1 36; 132 2 0001 0006 00000004 0001 000c -> None [] None",
        "7 1 36; 132 2 0002 0005 00000002 000c 0005 00000002 000c -> None [] None",
        "7 1 36; 132 2 0002 0005 00000002 000c 0006 00000002 0000 -> None [] None",
    ];
    all_declare(rt.alloc(), &ROWS)?;
    static FAULTS: [&str; 17] = [
        // a host of a wrong length, and of a wrong index
        "132 2 0001 0005 00000000 -> Attribute(134)",
        "132 2 0001 0005 00000001 00 -> Attribute(134)",
        "132 2 0001 0005 00000003 000c00 -> Attribute(134)",
        "132 2 0001 0005 00000003 000c -> Short(140)",
        "132 2 0001 0005 00000002 000b -> Attribute(134)",
        "132 2 0001 0005 00000002 0000 -> Attribute(134)",
        "132 2 0001 0005 00000002 00ff -> Attribute(134)",
        // members of a wrong length, and of a wrong index
        "132 2 0001 0006 00000001 00 -> Attribute(134)",
        "132 2 0001 0006 00000003 000100 -> Attribute(134)",
        "132 2 0001 0006 00000004 0002 000c -> Attribute(134)",
        "132 2 0001 0006 00000006 0001 000c 000c -> Attribute(134)",
        "132 2 0001 0006 00000004 0001 000b -> Attribute(134)",
        // a second one, and one beside the other
        "132 2 0002 0005 00000002 000c 0005 -> Attribute(142)",
        "132 2 0002 0006 00000002 0000 0006 -> Attribute(142)",
        "132 2 0002 0005 00000002 000c 0006 -> Attribute(142)",
        "132 2 0002 0006 00000002 0000 0005 -> Attribute(142)",
        "132 2 0003 0005 00000002 000c 0009 00000000 0006 -> Attribute(148)",
    ];
    all_come(rt.alloc(), &NESTED, &FAULTS)
}

#[test]
fn records(rt: HostRuntime) -> Result<(), Fail> {
    static ROWS: [&str; 21] = [
        "7 1 3c; 132 2 0001 0007 00000002 0000 -> read",
        "7 1 3c; 132 2 0001 0007 00000008 0001 0009 000a 0000 -> read",
        "7 1 3c; 132 2 0001 0007 0000000e 0002 0009 000a 0000 0009 000a 0000 -> read",
        "7 1 3c; 132 2 0001 0007 0000000e 0001 0009 000a 0001 0009 00000000 -> read",
        "7 1 3c; 132 2 0001 0007 00000014 0001 0009 000a 0002 0007 00000000 0007 00000000 -> read",
        // at 59 it is passed over
        "7 1 3b; 132 2 0001 0007 00000001 00 -> read",
        "7 1 3b; 132 2 0002 0007 00000000 0007 00000000 -> read",
        // wrong lengths, and a second one
        "7 1 3c; 132 2 0001 0007 00000001 00 -> Attribute(134)",
        "7 1 3c; 132 2 0001 0007 00000002 0001 -> Attribute(134)",
        "7 1 3c; 132 2 0001 0007 00000004 0001 0009 -> Attribute(134)",
        "7 1 3c; 132 2 0001 0007 00000006 0001 0009 000a -> Attribute(134)",
        "7 1 3c; 132 2 0001 0007 00000009 0001 0009 000a 0000 00 -> Attribute(134)",
        "7 1 3c; 132 2 0001 0007 00000003 0000 -> Short(140)",
        "7 1 3c; 132 2 0002 0007 00000002 0000 0007 -> Attribute(142)",
        // a component whose name or descriptor is none
        "7 1 3c; 132 2 0001 0007 00000008 0001 000c 000a 0000 -> Attribute(134)",
        "7 1 3c; 132 2 0001 0007 00000008 0001 0001 000a 0000 -> Attribute(134)",
        "7 1 3c; 132 2 0001 0007 00000008 0001 0009 0009 0000 -> Attribute(134)",
        "7 1 3c; 132 2 0001 0007 00000008 0001 0009 000d 0000 -> Attribute(134)",
        // an attribute of a component whose name is none, or whose length passes the content
        "7 1 3c; 132 2 0001 0007 0000000e 0001 0009 000a 0001 000c 00000000 -> Attribute(148)",
        "7 1 3c; 132 2 0001 0007 0000000e 0001 0009 000a 0001 0009 00000001 -> Attribute(148)",
        "7 1 3c; 132 2 0001 0007 0000000e 0001 0009 000a 0001 0009 ffffffff -> Attribute(148)",
    ];
    all_come(rt.alloc(), &NESTED, &ROWS)
}

#[test]
fn permitted_subclasses(rt: HostRuntime) -> Result<(), Fail> {
    static ROWS: [&str; 5] = [
        "7 1 3d; 132 2 0001 0008 00000002 0000 -> None [] Some([])",
        "7 1 3d; 132 2 0001 0008 00000006 0002 000c 0002 -> None [] Some([p/B, p/A])",
        "7 1 3d; 132 2 0002 0008 00000004 0001 000c 0005 00000002 0002 -> Some(p/A) [] Some([p/B])",
        // at 60 it is passed over
        "7 1 3c; 132 2 0001 0008 00000004 0001 000c -> None [] None",
        "7 1 3c; 120 2 0031; 132 2 0001 0008 00000001 00 -> None [] None",
    ];
    all_declare(rt.alloc(), &ROWS)?;
    static FAULTS: [&str; 7] = [
        // in a final class
        "7 1 3d; 120 2 0031; 132 2 0001 0008 00000004 0001 000c -> Attribute(134)",
        "7 1 3d; 120 2 0031; 132 2 0001 0008 ffffffff -> Attribute(134)",
        "7 1 3d; 132 2 0001 0008 00000001 00 -> Attribute(134)",
        "7 1 3d; 132 2 0001 0008 00000004 0002 000c -> Attribute(134)",
        "7 1 3d; 132 2 0001 0008 00000006 0001 000c 000c -> Attribute(134)",
        "7 1 3d; 132 2 0001 0008 00000004 0001 0009 -> Attribute(134)",
        "7 1 3d; 132 2 0002 0008 00000002 0000 0008 -> Attribute(142)",
    ];
    all_come(rt.alloc(), &NESTED, &FAULTS)
}

/// How long the file is that is written of the class of a file.
fn length_of(alloc: Global, file: &[u8]) -> Result<usize, Fail> {
    let class = class_of(alloc, file)?;
    length_written(alloc, &class)
}

/// How long the file is that is written of the class after these edits, as a text.
fn length_after(alloc: Global, file: &[u8], edits: &str) -> Result<String, Fail> {
    let edited = edited_in(alloc, file, edits)?;
    let length = length_of(alloc, &edited)?;
    Ok(format!(in alloc; "{length}")?)
}

/// Tries each row: the edits of the class, and how long the file is that is written of it.
fn all_written(alloc: Global, rows: &[&str]) -> Result<(), Fail> {
    let file = bytes_of_lines(alloc, &NESTED)?;
    for row in rows {
        let (edits, want) = row.split_once(" -> ").ok_or("a row")?;
        comes(row, length_after(alloc, &file, edits)?.as_str(), want)?;
    }
    Ok(())
}

/// What is read is written so that it is read again. A record is written without its components.
#[test]
fn nests_are_written(rt: HostRuntime) -> Result<(), Fail> {
    static ROWS: [&str; 6] = [
        "132 2 0001 0005 00000002 000c -> 142",
        "7 1 3d; 132 2 0001 0006 00000006 0002 000c 0002 -> 146",
        "7 1 3d; 132 2 0001 0008 00000004 0001 000c -> 144",
        "7 1 3d; 132 2 0002 0008 00000002 0000 0005 00000002 000c -> 150",
        "7 1 3d; 132 2 0001 0007 00000002 0000 -> 134",
        "7 1 3c; 132 2 0001 0008 00000004 0001 000c -> 134",
    ];
    all_written(rt.alloc(), &ROWS)
}

/// The class `p/A` of this version and these flags, which extends `java/lang/Object`, after these steps.
fn given(alloc: Global, major: u16, flags: u16, steps: &[&str]) -> Result<ClassDecl, Fail> {
    after(alloc, made(alloc, major, flags)?, steps)
}

/// The host, the members and whom a class permits, and how many entries it has: five at first.
fn declared(alloc: Global, class: &ClassDecl) -> Result<String, Fail> {
    let nest = nest_of(alloc, class)?;
    Ok(format!(in alloc; "{nest} {}", entry_count(class))?)
}

/// What the class of a file declares.
fn declared_in(alloc: Global, file: &[u8]) -> Result<String, Fail> {
    let class = class_of(alloc, file)?;
    declared(alloc, &class)
}

/// What a class declares when it was written and read.
fn declared_again(alloc: Global, class: &ClassDecl) -> Result<String, Fail> {
    let written = file_of(alloc, class)?;
    if !is_read_so(alloc, &written, class)? {
        return Err(Fail::new("not read so"));
    }
    declared_in(alloc, &written)
}

/// Makes a class by its major version, its flags and these steps, and sees what it declares when it was written
/// and read.
fn gives(alloc: Global, of: (u16, u16), steps: &[&str], want: &str) -> Result<(), Fail> {
    let class = given(alloc, of.0, of.1, steps)?;
    same(declared_again(alloc, &class)?.as_str(), want)
}

#[test]
fn all_attributes_are_given(rt: HostRuntime) -> Result<(), Fail> {
    static STEPS: [&str; 8] = [
        "class p/B -> 6",
        "attribute NestMembers 0002 0006 0002 -> added",
        "attribute Record 0001 0001 0001 0000 -> added",
        "attribute PermittedSubclasses 0001 0006 -> added",
        "attribute Note -> added",
        "attribute NestHost 0002 -> refused",
        "attribute NestMembers 0000 -> refused",
        "attribute PermittedSubclasses 0000 -> refused",
    ];
    let want = "None [p/B, p/A] Some([p/B]) 10";
    gives(rt.alloc(), (61, 0x421), &STEPS, want)
}

#[test]
fn a_host_is_given(rt: HostRuntime) -> Result<(), Fail> {
    static STEPS: [&str; 3] = [
        "attribute NestHost 0004 -> added",
        "attribute NestHost 0004 -> refused",
        "attribute PermittedSubclasses 00 -> added",
    ];
    let want = "Some(java/lang/Object) [] None 6";
    gives(rt.alloc(), (55, 0x31), &STEPS, want)
}

/// Before their versions they are no part of the class.
#[test]
fn attributes_of_later_versions(rt: HostRuntime) -> Result<(), Fail> {
    static HOST: [&str; 1] = ["attribute NestHost 0002 -> added"];
    static PERMITS: [&str; 1] = ["attribute PermittedSubclasses 0000 -> added"];
    static FINAL: [&str; 1] = ["attribute PermittedSubclasses 0000 -> refused"];
    let alloc = rt.alloc();
    gives(alloc, (54, 0x21), &HOST, "None [] None 5")?;
    gives(alloc, (60, 0x21), &PERMITS, "None [] None 5")?;
    gives(alloc, (61, 0x31), &FINAL, "None [] None 5")
}

/// Contents of a wrong length or index.
#[test]
fn wrong_contents_are_not_given(rt: HostRuntime) -> Result<(), Fail> {
    static STEPS: [&str; 9] = [
        "attribute NestHost 00 -> refused",
        "attribute NestHost 000200 -> refused",
        "attribute NestHost 0001 -> refused",
        "attribute NestHost 0005 -> refused",
        "attribute NestMembers -> refused",
        "attribute NestMembers 0002 0002 -> refused",
        "attribute NestMembers 0001 0002 00 -> refused",
        "attribute PermittedSubclasses 0001 0003 -> refused",
        "attribute PermittedSubclasses 0000 -> added",
    ];
    gives(rt.alloc(), (61, 0x21), &STEPS, "None [] Some([]) 6")
}
