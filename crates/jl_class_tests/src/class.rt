//! Tests of jl_class.

use jl_class::{ClassDecl, ClassFault, read_class};
use jl_making::{bytes_of_lines, case_of, comes, edited_in, same};
use std::alloc::Global;
use std::test::*;

/// The class `p/A` with no members.
pub const SMALLEST: [&str; 2] = [
    "cafebabe 00000035 0005 =p/A 070001 =java/lang/Object 070003",
    "0021 0002 0004 0000 0000 0000 0000",
];

/// The class with a field, a method that has code, and an attribute that is passed over. Its entries are 1 `p/A`,
/// 2 that class, 3 `java/lang/Object`, 4 that class, 5 `x`, 6 `I`, 7 `()V`, 8 `<init>`, 9 `<clinit>`, 10 `Code`,
/// 11 `ConstantValue`, 12 `StackMapTable`, 13 an Integer, 14 a String, 15 a Float, 16 a Long, 18 a Double,
/// 20 `Ljava/lang/String;`, 21 `(I)V`, 22 `()I`, 23 `a.b`, 24 that class, 25 `J`, 26 a surrogate that stands alone,
/// 27 `F` and 28 `D`. The flags of the class stand at 206, the field at 216, and the method at 234.
pub const FILLED: [&str; 7] = [
    "cafebabe 00000035 001d =p/A 070001 =java/lang/Object 070003 =x =I =()V =<init> =<clinit> =Code",
    "=ConstantValue =StackMapTable 0300000007 080005 0440000000 050000000000000001 063ff0000000000000",
    "=Ljava/lang/String; =(I)V =()I =a.b 070017 =J 010003eda080 =F =D 0021 0002 0004 0000",
    "0001 0008 0005 0006 0001 000b 00000002 000d",
    "0001 0001 0005 0007 0001 000a 0000001c 0001 0002 00000001 b1 0001 0000000100020003",
    "0001 000c 00000001 09",
    "0001 0001 00000000",
];

/// The class that a file declares, of which a test needs to know no more.
pub fn class_of(alloc: Global, file: &[u8]) -> Result<ClassDecl, ClassFault> {
    read_class(alloc, file)
}

/// What comes of reading a file: `read`, or the fault.
fn outcome(alloc: Global, file: &[u8]) -> Result<String, Fail> {
    match class_of(alloc, file) {
        Ok(_) => Ok(String::from_str(alloc, "read")?),
        Err(fault) => Ok(format!(in alloc; "{fault:?}")?),
    }
}

/// Tries each row on a file: its edits, and what comes of reading.
pub fn all_come(alloc: Global, lines: &[&str], rows: &[&str]) -> Result<(), Fail> {
    let file = bytes_of_lines(alloc, lines)?;
    for row in rows {
        let (edited, want) = case_of(alloc, &file, row)?;
        comes(row, outcome(alloc, &edited)?.as_str(), want)?;
    }
    Ok(())
}

/// Tries each front of a file, where numbers, texts and contents begin at these places: each is cut there.
fn all_cut(alloc: Global, file: &[u8], places: &[usize]) -> Result<(), Fail> {
    let mut place = 0;
    for n in 0..file.len() {
        if places.contains(&n) {
            place = n;
        }
        let want = format!(in alloc; "Short({place})")?;
        same(outcome(alloc, &file[..n])?.as_str(), want.as_str())?;
    }
    Ok(())
}

#[test]
fn cut_files(rt: HostRuntime) -> Result<(), Fail> {
    static PLACES: [usize; 21] = [
        0, 4, 6, 8, 10, 11, 13, 16, 17, 19, 20, 22, 38, 39, 41, 43, 45, 47, 49, 51, 53,
    ];
    let file = bytes_of_lines(rt.alloc(), &SMALLEST)?;
    assert_eq!(rt; file.len(), 55);
    all_cut(rt.alloc(), &file, &PLACES)
}

#[test]
fn edits_of_the_smallest_file(rt: HostRuntime) -> Result<(), Fail> {
    static ROWS: [&str; 35] = [
        "0 0 - -> read",
        "0 1 00 -> Magic",
        "7 1 3f -> Version(63, 0)",
        "4 4 00030034 -> Version(52, 3)",
        "4 4 ffff0035 -> read",
        "7 1 36 -> read",
        "9 1 06 -> Pool(5)",
        "10 1 02 -> Pool(1)",
        "18 1 02 -> Pool(2)",
        // a module and a package
        "16 1 13 -> Pool(2)",
        "16 1 14 -> Pool(2)",
        // an interface that is not abstract, a final class that is, and a module
        "41 2 0200 -> Flags(41)",
        "41 2 0600 -> read",
        "41 2 0410 -> Flags(41)",
        "41 2 8021 -> Flags(41)",
        "43 2 0001 -> Name(43)",
        "43 2 0000 -> Name(43)",
        "13 3 702f2f -> Name(43)",
        "13 3 703b41 -> Name(43)",
        "13 3 eda080 -> Name(43)",
        "45 2 0000 -> Name(45)",
        "45 2 0003 -> Name(45)",
        "22 4 6a612e61 -> Name(45)",
        "43 4 00040000 -> read",
        "43 4 00040002 -> read",
        // an interface that extends another, and one that extends nothing
        "41 6 060000020002 -> Name(45)",
        "41 6 060000040000 -> Name(45)",
        "47 2 00010004 -> read",
        "47 2 00010003 -> Name(49)",
        "47 2 000200040000 -> Name(51)",
        "53 2 0001000100000000 -> read",
        "53 2 000100020000 -> Attribute(55)",
        "53 2 0001000000000000 -> Attribute(55)",
        "53 2 0001000100000001 -> Short(61)",
        "55 0 00 -> Trailing",
    ];
    all_come(rt.alloc(), &SMALLEST, &ROWS)
}

#[test]
fn fields(rt: HostRuntime) -> Result<(), Fail> {
    static ROWS: [&str; 21] = [
        "0 0 - -> read",
        // two accesses, and a field of an interface
        "216 2 0003 -> Flags(216)",
        "216 2 0005 -> Flags(216)",
        "216 2 0006 -> Flags(216)",
        "206 2 0600; 216 2 0011 -> Flags(216)",
        "206 2 0600; 216 2 0019 -> read",
        "218 2 0002 -> Name(218)",
        "218 2 0001 -> Name(218)",
        "218 2 0017 -> Name(218)",
        "218 2 001a -> Name(218)",
        "218 2 0000 -> Name(218)",
        "218 2 0008 -> read",
        "220 2 0007 -> Name(220)",
        "220 2 0005 -> Name(220)",
        "220 2 0002 -> Name(220)",
        "220 2 001a -> Name(220)",
        "224 2 0002 -> Attribute(224)",
        "224 2 000a -> read",
        "226 4 ffffffff -> Short(230)",
        // a second field of the name and type, and of the name alone
        "214 2 0002; 232 0 000800050006 -> RepeatedMember(x)",
        "214 2 0002; 232 0 0000000500190000 -> read",
    ];
    all_come(rt.alloc(), &FILLED, &ROWS)
}

#[test]
fn constants(rt: HostRuntime) -> Result<(), Fail> {
    static ROWS: [&str; 32] = [
        "226 4 00000001 -> Attribute(224)",
        "226 4 00000003 -> Attribute(224)",
        "226 4 00000000 -> Attribute(224)",
        "222 2 0002; 232 0 000b -> Attribute(232)",
        // int, and the types that are kept as one
        "230 2 000f -> Attribute(224)",
        "230 2 000e -> Attribute(224)",
        "230 2 0005 -> Attribute(224)",
        "230 2 0000 -> Attribute(224)",
        "48 1 53 -> read",
        "48 1 43 -> read",
        "48 1 42 -> read",
        "48 1 5a -> read",
        "48 1 53; 230 2 000f -> Attribute(224)",
        "48 1 43; 230 2 000f -> Attribute(224)",
        "48 1 42; 230 2 000f -> Attribute(224)",
        "48 1 5a; 230 2 000f -> Attribute(224)",
        // long, float, double and String
        "220 2 0019; 230 2 0010 -> read",
        "220 2 0019 -> Attribute(224)",
        "220 2 001b; 230 2 000f -> read",
        "220 2 001b -> Attribute(224)",
        "220 2 001c; 230 2 0012 -> read",
        "220 2 001c; 230 2 0010 -> Attribute(224)",
        "220 2 0014; 230 2 000e -> read",
        "220 2 0014 -> Attribute(224)",
        "148 1 5b; 220 2 0014 -> Name(220)",
        "164 1 68; 220 2 0014; 230 2 000e -> Attribute(224)",
        // a field of an instance has a constant of any kind
        "216 2 0000; 230 2 000f -> read",
        "216 2 0000; 230 2 0010 -> read",
        "216 2 0000; 230 2 0012 -> read",
        "216 2 0000; 230 2 000e -> read",
        "216 2 0000; 230 2 0005 -> Attribute(224)",
        "216 2 0000; 230 2 0000 -> Attribute(224)",
    ];
    all_come(rt.alloc(), &FILLED, &ROWS)
}

#[test]
fn methods(rt: HostRuntime) -> Result<(), Fail> {
    static ROWS: [&str; 35] = [
        // two accesses, and an abstract method that is static or private
        "234 2 0003 -> Flags(234)",
        "234 2 0005 -> Flags(234)",
        "234 2 0006 -> Flags(234)",
        "234 2 0408 -> Flags(234)",
        "234 2 0402 -> Flags(234)",
        "234 2 0401; 240 36 0000 -> read",
        "234 2 0101; 240 36 0000 -> read",
        "234 2 0401; 242 2 000b -> read",
        "236 2 0017 -> Name(236)",
        "183 1 3c; 236 2 0017 -> Name(236)",
        "183 1 3e; 236 2 0017 -> Name(236)",
        "183 1 62; 236 2 0017 -> read",
        "236 2 0001 -> Name(236)",
        "236 2 0002 -> Name(236)",
        "236 2 001a -> Name(236)",
        // a constructor that is static or abstract, and an initializer of an instance
        "234 4 00080008 -> Name(236)",
        "234 4 04000008 -> Name(236)",
        "234 4 00000009 -> Name(236)",
        "236 2 0008 -> read",
        "234 4 00080009 -> read",
        "238 2 0006 -> Name(238)",
        "238 2 0002 -> Name(238)",
        "238 2 0016 -> read",
        "236 4 00080016 -> Name(238)",
        "236 4 00080015 -> read",
        "234 6 000800090015 -> Name(238)",
        // a second method of the name and type, and of the name alone
        "232 2 0002; 276 0 000100050007 -> RepeatedMember(x)",
        "232 2 0002; 276 0 0401000500150000 -> read",
        // code that is missing, that may not be there, and that is there twice
        "240 36 0000 -> Attribute(242)",
        "242 2 000b -> Attribute(276)",
        "234 2 0401 -> Attribute(242)",
        "234 2 0101 -> Attribute(242)",
        "240 2 0002; 276 0 000a -> Attribute(276)",
        "242 2 0002 -> Attribute(242)",
        "244 4 ffffffff -> Short(248)",
    ];
    all_come(rt.alloc(), &FILLED, &ROWS)
}

#[test]
fn codes(rt: HostRuntime) -> Result<(), Fail> {
    static ROWS: [&str; 28] = [
        // no code, no handlers, other attributes and no frames
        "244 4 0000001b; 252 5 00000000 -> read",
        "244 4 00000014; 257 10 0000 -> read",
        "244 4 00000015; 267 9 0000 -> read",
        "269 2 000b -> read",
        "244 4 0000001b; 271 5 00000000 -> read",
        // contents that are too short, cut at each number, and too long
        "244 4 00000000 -> Attribute(242)",
        "244 4 00000001 -> Attribute(242)",
        "244 4 00000003 -> Attribute(242)",
        "244 4 00000007 -> Attribute(242)",
        "244 4 00000008 -> Attribute(242)",
        "244 4 0000000a -> Attribute(242)",
        "244 4 00000012 -> Attribute(242)",
        "244 4 00000014 -> Attribute(242)",
        "252 4 000000ff -> Attribute(242)",
        "252 4 ffffffff -> Attribute(242)",
        "257 2 ffff -> Attribute(242)",
        "244 4 0000001d -> Attribute(242)",
        // attributes of the code
        "244 4 00000015 -> Attribute(269)",
        "244 4 00000016 -> Attribute(269)",
        "244 4 00000017 -> Attribute(269)",
        "244 4 0000001a -> Attribute(269)",
        "244 4 0000001b -> Attribute(269)",
        "269 2 0002 -> Attribute(269)",
        "271 4 00000002 -> Attribute(269)",
        "271 4 ffffffff -> Attribute(269)",
        "267 2 0002; 244 4 0000001d; 276 0 00 -> Attribute(276)",
        "267 2 0002; 244 4 0000001e; 276 0 000c -> Attribute(276)",
        "267 2 0002; 244 4 00000022; 276 0 000b00000000 -> read",
    ];
    all_come(rt.alloc(), &FILLED, &ROWS)
}

#[test]
fn attributes_of_a_class(rt: HostRuntime) -> Result<(), Fail> {
    static ROWS: [&str; 5] = [
        "278 2 0002 -> Attribute(278)",
        "278 2 000a -> read",
        "276 8 0002000a00000000000a00000000 -> read",
        "280 4 00000001 -> Short(284)",
        "284 0 00 -> Trailing",
    ];
    all_come(rt.alloc(), &FILLED, &ROWS)
}

/// What stands at the front of a class: version, flags, its name and that of its superclass.
fn front_of(alloc: Global, class: &ClassDecl) -> Result<String, Fail> {
    let (name, above) = (class.name(), class.super_name());
    Ok(format!(in alloc; "{:?} {} {name} {above:?}", class.version(), class.flags())?)
}

/// The interfaces, fields and methods of a class.
fn members_of(alloc: Global, class: &ClassDecl) -> Result<String, Fail> {
    let (fields, methods) = (class.fields(), class.methods());
    Ok(format!(in alloc; "{:?} {fields:?} {methods:?}", class.interfaces())?)
}

/// What a class declares, but for its pool.
pub fn parts_of(alloc: Global, class: &ClassDecl) -> Result<String, Fail> {
    let front = front_of(alloc, class)?;
    let members = members_of(alloc, class)?;
    Ok(format!(in alloc; "{front} {members}")?)
}

/// What a file declares, but for its pool.
fn shown(alloc: Global, lines: &[&str], edits: &str) -> Result<String, Fail> {
    let file = bytes_of_lines(alloc, lines)?;
    let class = class_of(alloc, &edited_in(alloc, &file, edits)?)?;
    parts_of(alloc, &class)
}

/// Tries each row on a file: its edits, and what it declares then.
fn all_shown(alloc: Global, lines: &[&str], rows: &[&str]) -> Result<(), Fail> {
    for row in rows {
        let (edits, want) = row.split_once(" -> ").ok_or("a row")?;
        comes(row, shown(alloc, lines, edits)?.as_str(), want)?;
    }
    Ok(())
}

#[test]
fn parts_of_classes(rt: HostRuntime) -> Result<(), Fail> {
    static ROWS: [&str; 4] = [
        "0 0 - -> (53, 0) 33 p/A Some(java/lang/Object) [] [] []",
        "43 4 00040000 -> (53, 0) 33 java/lang/Object None [] [] []",
        "4 4 00010036 -> (54, 1) 33 p/A Some(java/lang/Object) [] [] []",
        "47 2 000200020004 -> (53, 0) 33 p/A Some(java/lang/Object) [p/A, java/lang/Object] [] []",
    ];
    all_shown(rt.alloc(), &SMALLEST, &ROWS)
}

#[test]
fn parts_of_a_filled_class(rt: HostRuntime) -> Result<(), Fail> {
    static ROWS: [&str; 1] = [
        "0 0 - -> (53, 0) 33 p/A Some(java/lang/Object) [] \
        [FieldDecl { flags: 8, name: x, desc: I, constant: Some(13) }] \
        [MethodDecl { flags: 1, name: x, desc: ()V, code: Some(CodeBytes { \
        max_stack: 1, max_locals: 2, code: Items { items: [177] }, \
        handlers: Items { items: [Handler { start: 0, end: 1, target: 2, catch_type: 3 }] }, \
        frames: Some(Items { items: [9] }) }) }]",
    ];
    all_shown(rt.alloc(), &FILLED, &ROWS)
}

/// Where the field and the method of a name and a descriptor stand.
fn found(class: &ClassDecl, name: &str, desc: &str) -> (Option<usize>, Option<usize>) {
    let (name, desc) = (name.as_bytes(), desc.as_bytes());
    (class.field(name, desc), class.method(name, desc))
}

/// Looks for the name and descriptor of each row, and sees where they are found.
fn all_found(alloc: Global, class: &ClassDecl, rows: &[&str]) -> Result<(), Fail> {
    for row in rows {
        let (member, want) = row.split_once(" -> ").ok_or("a row")?;
        let (name, desc) = member.split_once(' ').ok_or("a name")?;
        let (field, method) = found(class, name, desc);
        comes(
            row,
            format!(in alloc; "{field:?} {method:?}")?.as_str(),
            want,
        )?;
    }
    Ok(())
}

/// The index of the text that entry 4 names, which is a class.
fn entry_4(class: &ClassDecl) -> Option<u16> {
    class.pool().class(4)
}

#[test]
fn members_are_found(rt: HostRuntime) -> Result<(), Fail> {
    static ROWS: [&str; 5] = [
        "x I -> Some(0) None",
        "x ()V -> None Some(0)",
        "x J -> None None",
        "y I -> None None",
        "y ()V -> None None",
    ];
    let alloc = rt.alloc();
    let class = class_of(alloc, &bytes_of_lines(alloc, &FILLED)?)?;
    assert_eq!(rt; entry_4(&class), Some(3));
    all_found(alloc, &class, &ROWS)
}
