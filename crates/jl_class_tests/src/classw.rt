//! Tests of jl_classw.

ghost use Rattle.std.specs.Prelude.{IfOk, IsUtf8};
ghost use Rattle.jl_pool.specs.Builder.{IsShort};

use crate::class::{FILLED, SMALLEST, class_of, parts_of};
use crate::nests::nest_of;
use jl_class::{ClassDecl, CodeBytes};
use jl_classfile::is_version;
use jl_classw::{
    ClassBuilder, Constant, NewEntry, WriteFault, are_class_flags, are_field_flags,
    are_method_flags, describes_a_field, describes_method, has_code, is_short, is_small,
    is_superclass, may_extend, may_have, names_method, write_class,
};
use jl_making::{bytes_of_lines, comes, same};
use jl_names::{is_class_name, is_field_name, utf16_of};
use jl_prim::{Handler, Items, Name};
use std::alloc::Global;
use std::test::*;

/// A short text as a name.
fn named(alloc: Global, text: &str) -> Result<Name, Fail>
    ensures short { IfOk result (λ name. IsShort name) }
    ensures utf8 { IfOk result (λ name. IsUtf8 name) }
{
    let name = Name::from_text(alloc, text)?;
    if !is_short(alloc, &name)? {
        return Err(Fail::new("long"));
    }
    Ok(name)
}

/// A class by its major version, flags, name and superclass, empty for none, where it may begin so.
fn begun(
    alloc: Global,
    major: u16,
    flags: u16,
    this: &str,
    above: &str,
) -> Result<Option<ClassBuilder>, Fail> {
    let name = named(alloc, this)?;
    let above = named(alloc, above)?;
    begun_by_names(alloc, major, flags, &name, &above)
}

fn begun_by_names(
    alloc: Global,
    major: u16,
    flags: u16,
    name: &Name,
    above: &Name,
) -> Result<Option<ClassBuilder>, Fail>
    requires utf8 { IsUtf8 name.now × IsUtf8 above.now }
    requires short { IsShort name.now }
{
    if !is_version(major, 0)
        || !is_class_name(name.as_bytes())
        || !is_superclass(alloc, above)?
        || !are_class_flags(flags)
        || !may_extend(flags, name, above)
    {
        return Ok(None);
    }
    let b = ClassBuilder::new(alloc, major, flags, name.as_bytes(), above.as_bytes())?;
    Ok(Some(b))
}

/// The class `p/A` of this version and these flags, which extends `java/lang/Object`.
pub fn made(alloc: Global, major: u16, flags: u16) -> Result<ClassBuilder, Fail> {
    match begun(alloc, major, flags, "p/A", "java/lang/Object")? {
        Some(b) => Ok(b),
        None => Err(Fail::new("refused")),
    }
}

/// What comes of a call whose conditions a builder does not meet.
fn refused(alloc: Global) -> Result<String, Fail> {
    Ok(String::from_str(alloc, "refused")?)
}

/// What came of adding something.
fn told(alloc: Global, added: Result<(), WriteFault>) -> Result<String, Fail> {
    match added {
        Ok(()) => Ok(String::from_str(alloc, "added")?),
        Err(fault) => Ok(format!(in alloc; "{fault:?}")?),
    }
}

fn with_interface(alloc: Global, b: &mut ClassBuilder, name: &str) -> Result<String, Fail> {
    let name = named(alloc, name)?;
    if !is_class_name(name.as_bytes()) {
        return refused(alloc);
    }
    told(alloc, b.interface(name.as_bytes()))
}

/// The constant of a line: `int NUMBER`, `long NUMBER` or `text TEXT`. An empty line is none.
fn constant(alloc: Global, line: &str) -> Result<Option<Constant>, Fail> {
    match line.split_once(' ') {
        Some(("int", number)) => Ok(Some(Constant::Int(number.parse()?))),
        Some(("long", number)) => Ok(Some(Constant::Long(number.parse()?))),
        Some(("text", text)) => Ok(Some(Constant::Text(utf16_of(alloc, text)?))),
        _ => Ok(None),
    }
}

/// Flags, name and descriptor, and what stands behind them.
fn parts(line: &str) -> Result<(u16, &str, &str, &str), Fail> {
    let (flags, rest) = line.split_once(' ').ok_or("flags")?;
    let (name, rest) = rest.split_once(' ').ok_or("a name")?;
    let (desc, rest) = rest.split_once(' ').unwrap_or((rest, ""));
    Ok((flags.parse()?, name, desc, rest))
}

fn with_field(alloc: Global, b: &mut ClassBuilder, line: &str) -> Result<String, Fail> {
    let (flags, name, desc, rest) = parts(line)?;
    let name = named(alloc, name)?;
    let desc = named(alloc, desc)?;
    let constant = constant(alloc, rest)?;
    with_field_named(alloc, b, flags, &name, &desc, constant)
}

fn with_field_named(
    alloc: Global,
    b: &mut ClassBuilder,
    flags: u16,
    name: &Name,
    desc: &Name,
    constant: Option<Constant>,
) -> Result<String, Fail>
    requires utf8 { IsUtf8 name.now × IsUtf8 desc.now }
    requires short { IsShort name.now × IsShort desc.now }
{
    if !are_field_flags(b.is_interface(), flags)
        || !is_field_name(name.as_bytes())
        || !describes_a_field(alloc, desc)?
        || !may_have(alloc, flags, desc, &constant)?
        || b.has_field(name, desc)
    {
        return refused(alloc);
    }
    let added = b.field(flags, name.as_bytes(), desc.as_bytes(), constant);
    told(alloc, added)
}

fn with_code(
    alloc: Global,
    b: &mut ClassBuilder,
    line: &str,
    code: Option<CodeBytes>,
) -> Result<String, Fail> {
    let (flags, name, desc, _) = parts(line)?;
    let name = named(alloc, name)?;
    let desc = named(alloc, desc)?;
    with_method_named(alloc, b, flags, &name, &desc, code)
}

fn with_method_named(
    alloc: Global,
    b: &mut ClassBuilder,
    flags: u16,
    name: &Name,
    desc: &Name,
    code: Option<CodeBytes>,
) -> Result<String, Fail>
    requires utf8 { IsUtf8 name.now × IsUtf8 desc.now }
    requires short { IsShort name.now × IsShort desc.now }
{
    if !are_method_flags(flags)
        || !names_method(flags, name)
        || !describes_method(alloc, name, desc)?
        || !is_small(&code)
        || code.is_some() != has_code(flags)
        || b.has_method(name, desc)
    {
        return refused(alloc);
    }
    let added = b.method(flags, name.as_bytes(), desc.as_bytes(), code);
    told(alloc, added)
}

/// So many handlers that each catch what the third entry names.
fn handlers(alloc: Global, count: usize) -> Result<Items<Handler>, Fail> {
    let mut handlers = Items::new(alloc);
    for _ in 0..count {
        handlers.push(Handler {
            start: 0,
            end: 1,
            target: 2,
            catch_type: 3,
        })?;
    }
    Ok(handlers)
}

/// A `return` with so many handlers.
fn code(alloc: Global, count: usize) -> Result<CodeBytes, Fail> {
    Ok(CodeBytes {
        max_stack: 4,
        max_locals: 5,
        code: Items::from_vec(Vec::from_slice(alloc, &[0xb1])?),
        handlers: handlers(alloc, count)?,
        frames: Some(Items::from_vec(Vec::from_slice(alloc, &[0, 0])?)),
    })
}

fn with_method(alloc: Global, b: &mut ClassBuilder, line: &str) -> Result<String, Fail> {
    match line.split_once(" with ") {
        None => with_code(alloc, b, line, None),
        Some((line, count)) => with_code(alloc, b, line, Some(code(alloc, count.parse()?)?)),
    }
}

/// Gives the attribute of a name, with a content in hexadecimal digits.
fn with_attribute(alloc: Global, b: &mut ClassBuilder, line: &str) -> Result<String, Fail> {
    let (name, digits) = line.split_once(' ').unwrap_or((line, ""));
    let content = bytes_of_lines(alloc, &[digits])?;
    if !b.may_have_attribute(name.as_bytes(), &content)? {
        return refused(alloc);
    }
    told(alloc, b.attribute(name.as_bytes(), &content))
}

/// What came of entering something: its index, or the fault.
fn told_index(alloc: Global, entered: Result<u16, WriteFault>) -> Result<String, Fail> {
    match entered {
        Ok(index) => Ok(format!(in alloc; "{index}")?),
        Err(fault) => Ok(format!(in alloc; "{fault:?}")?),
    }
}

/// The index of a field by a number, which says nothing, its name, its descriptor and its class.
fn field_entered(alloc: Global, b: &mut ClassBuilder, line: &str) -> Result<String, Fail> {
    let (_, name, desc, class) = parts(line)?;
    let class = named(alloc, class)?;
    let name = named(alloc, name)?;
    let desc = named(alloc, desc)?;
    let entry = NewEntry::Member {
        tag: 9,
        class,
        name,
        desc,
    };
    told_index(alloc, b.entry(entry))
}

/// The index of a class, of an Integer, or of a field.
fn entered(alloc: Global, b: &mut ClassBuilder, line: &str) -> Result<String, Fail> {
    match line.split_once(' ') {
        Some(("class", name)) => {
            let name = named(alloc, name)?;
            told_index(alloc, b.entry(NewEntry::Class(name)))
        }
        Some(("int", number)) => {
            let number = number.parse()?;
            told_index(alloc, b.entry(NewEntry::Constant(Constant::Int(number))))
        }
        _ => field_entered(alloc, b, line),
    }
}

/// What comes of a step: an interface, a field, a method or an attribute that is added, or an entry.
fn step(alloc: Global, b: &mut ClassBuilder, line: &str) -> Result<String, Fail> {
    match line.split_once(' ') {
        Some(("interface", name)) => with_interface(alloc, b, name),
        Some(("field", line)) => with_field(alloc, b, line),
        Some(("method", line)) => with_method(alloc, b, line),
        Some(("attribute", line)) => with_attribute(alloc, b, line),
        _ => entered(alloc, b, line),
    }
}

/// Takes each step, and sees what comes of it.
fn all_taken(alloc: Global, b: &mut ClassBuilder, rows: &[&str]) -> Result<(), Fail> {
    for row in rows {
        let (line, want) = row.split_once(" -> ").ok_or("a step")?;
        comes(row, step(alloc, b, line)?.as_str(), want)?;
    }
    Ok(())
}

/// The file of a class, of which a test needs to know no more.
pub fn file_of(alloc: Global, class: &ClassDecl) -> Result<Vec<u8>, WriteFault> {
    write_class(alloc, class)
}

/// The entries of a pool as a text.
fn pool_of(alloc: Global, class: &ClassDecl) -> Result<String, Fail> {
    Ok(format!(in alloc; "{:?}", class.pool().entries())?)
}

/// A class as a text, with its pool.
fn shown(alloc: Global, class: &ClassDecl) -> Result<String, Fail> {
    let parts = parts_of(alloc, class)?;
    let nest = nest_of(alloc, class)?;
    let pool = pool_of(alloc, class)?;
    Ok(format!(in alloc; "{parts} {nest} {pool}")?)
}

/// Whether bytes are read as a class that is shown as this one.
pub fn is_read_so(alloc: Global, bytes: &[u8], class: &ClassDecl) -> Result<bool, Fail> {
    match class_of(alloc, bytes) {
        Ok(read) => Ok(shown(alloc, &read)? == shown(alloc, class)?),
        Err(_) => Ok(false),
    }
}

/// Whether a class is written as these lines say, and read so.
fn is_written_so(alloc: Global, class: &ClassDecl, lines: &[&str]) -> Result<bool, Fail> {
    let bytes = file_of(alloc, class)?;
    let want = bytes_of_lines(alloc, lines)?;
    Ok(bytes.as_slice() == want.as_slice() && is_read_so(alloc, &bytes, class)?)
}

/// The class that a builder makes after these steps.
pub fn after(alloc: Global, mut b: ClassBuilder, steps: &[&str]) -> Result<ClassDecl, Fail> {
    all_taken(alloc, &mut b, steps)?;
    Ok(b.finish()?)
}

/// The class `p/A` after a step that is taken so many times, and then others.
fn built(alloc: Global, count: usize, step: &str, rows: &[&str]) -> Result<ClassDecl, Fail> {
    let mut b = made(alloc, 53, 0x21)?;
    all_added(alloc, &mut b, count, step)?;
    after(alloc, b, rows)
}

/// Takes a step so many times.
fn all_added(alloc: Global, b: &mut ClassBuilder, count: usize, line: &str) -> Result<(), Fail> {
    for _ in 0..count {
        same(step(alloc, b, line)?.as_str(), "added")?;
    }
    Ok(())
}

/// How many entries the pool of a class has.
pub fn entry_count(class: &ClassDecl) -> usize {
    class.pool().entries().len()
}

/// A class with an interface, fields with constants of each kind, and methods with and without code.
const BUILT: [&str; 9] = [
    "cafebabe 00000035 001a =p/A 070001 =java/lang/Object 070003 =p/I 070005 =x =I =ConstantValue",
    "0300000007 =l =J 050000000000000001 =s =Ljava/lang/String; =hi 080011 =m =()V =Code",
    "=StackMapTable =n 0c00070008 0900020018",
    "0021 0002 0004 0001 0006",
    "0003 0018 0007 0008 0001 0009 00000002 000a",
    "0018 000b 000c 0001 0009 00000002 000d 0002 000f 0010 0001 0009 00000002 0012",
    "0002 0001 0013 0014 0001 0015 0000001d 0004 0005 00000001 b1 0001 0000000100020003",
    "0001 0016 00000002 0000 0401 0017 0014 0000",
    "0000",
];

#[test]
fn a_class_is_built_and_written(rt: HostRuntime) -> Result<(), Fail> {
    static ROWS: [&str; 24] = [
        "interface p/I -> added",
        "field 24 x I int 7 -> added",
        "field 24 l J long 1 -> added",
        "field 2 s Ljava/lang/String; text hi -> added",
        "method 1 m ()V with 1 -> added",
        "method 1025 n ()V -> added",
        "9 x I p/A -> 25",
        "9 x I p/A -> 25",
        "class p/I -> 6",
        "int 7 -> 10",
        // what the conditions refuse
        "interface p//I -> refused",
        "field 3 y I -> refused",
        "field 1 y/z I -> refused",
        "field 1 y ()V -> refused",
        "field 24 y I long 1 -> refused",
        "field 1 x I -> refused",
        "method 3 k ()V with 0 -> refused",
        "method 1 <k> ()V with 0 -> refused",
        "method 1 <init> ()I with 0 -> refused",
        "method 1 k I with 0 -> refused",
        "method 1 k ()V -> refused",
        "method 1025 k ()V with 0 -> refused",
        "method 257 k ()V with 0 -> refused",
        "method 1 m ()V with 0 -> refused",
    ];
    let alloc = rt.alloc();
    let class = built(alloc, 0, "", &ROWS)?;
    assert!(rt; is_written_so(alloc, &class, &BUILT)?);
    Ok(())
}

/// A major version, flags, a name and a superclass, and whether a class begins so.
type Beginning = (u16, u16, &'static str, &'static str, bool);

static BEGINNINGS: [Beginning; 13] = [
    (53, 0x21, "p/A", "java/lang/Object", true),
    (54, 0x600, "p/A", "java/lang/Object", true),
    (53, 0x21, "java/lang/Object", "", true),
    (61, 0x21, "p/A", "java/lang/Object", true),
    (52, 0x21, "p/A", "java/lang/Object", false),
    (62, 0x21, "p/A", "java/lang/Object", false),
    (53, 0x200, "p/A", "java/lang/Object", false),
    (53, 0x410, "p/A", "java/lang/Object", false),
    (53, 0x8000, "p/A", "java/lang/Object", false),
    (53, 0x600, "p/A", "p/B", false),
    (53, 0x21, "p.A", "java/lang/Object", false),
    (53, 0x21, "p/A", "p;B", false),
    (53, 0x21, "p/A", "", false),
];

/// Whether a class begins so.
fn begins(alloc: Global, row: &Beginning) -> Result<bool, Fail> {
    let (major, flags, this, above, _) = *row;
    let b = begun(alloc, major, flags, this, above)?;
    Ok(b.is_some())
}

fn not_so(row: &Beginning) -> Fail {
    let (major, flags, this, above, _) = *row;
    Fail::new(format_args!("{major} {flags} {this} {above}"))
}

fn all_begin(alloc: Global, rows: &[Beginning]) -> Result<(), Fail> {
    for row in rows {
        if begins(alloc, row)? != row.4 {
            return Err(not_so(row));
        }
    }
    Ok(())
}

#[test]
fn classes_begin(rt: HostRuntime) -> Result<(), Fail> {
    all_begin(rt.alloc(), &BEGINNINGS)
}

/// A class whose pool has an entry of each kind: 12 an Integer, 13 a Float, 14 a Long, 16 a Double, 18 a
/// String, 19 and 20 names with types, 21 a field, 22 a method, 23 that of an interface, 24 a method handle,
/// 25 a method type, 26 a computed constant and 27 a computed call site.
const EVERY_KIND: [&str; 6] = [
    "cafebabe 00000035 001c =p/A 070001 =java/lang/Object 070003 =x =I =m =()V =ConstantValue =Code",
    "=StackMapTable 0300000007 0440000000 050000000000000001 063ff0000000000000 080005 0c00050006",
    "0c00070008 0900020013 0a00020014 0b00020014 0f060016 100008 1100000013 1200000014",
    "0021 0002 0004 0001 0004 0001 0018 0005 0006 0001 0009 00000002 000c",
    "0001 0009 0007 0008 0001 000a 0000001d 0001 0002 00000001 b1 0001 0000000100000000",
    "0001 000b 00000002 0000 0000",
];

/// Whether a class is written as these bytes.
fn is_written_as(alloc: Global, class: &ClassDecl, bytes: &[u8]) -> Result<bool, Fail> {
    let written = file_of(alloc, class)?;
    Ok(written.as_slice() == bytes)
}

/// Whether a file is written as it is read.
fn is_file_kept(alloc: Global, file: &[u8]) -> Result<bool, Fail> {
    let class = class_of(alloc, file)?;
    is_written_as(alloc, &class, file)
}

/// Whether the file that lines say is written as it is read.
fn is_kept(alloc: Global, lines: &[&str]) -> Result<bool, Fail> {
    let file = bytes_of_lines(alloc, lines)?;
    is_file_kept(alloc, &file)
}

/// How long the file of a class is, which is read as the same class.
pub fn length_written(alloc: Global, class: &ClassDecl) -> Result<usize, Fail> {
    let written = file_of(alloc, class)?;
    if !is_read_so(alloc, &written, class)? {
        return Err(Fail::new("not read so"));
    }
    Ok(written.len())
}

#[test]
fn what_is_read_is_written(rt: HostRuntime) -> Result<(), Fail> {
    let alloc = rt.alloc();
    assert!(rt; is_kept(alloc, &SMALLEST)?);
    assert!(rt; is_kept(alloc, &EVERY_KIND)?);
    assert!(rt; is_kept(alloc, &BUILT)?);
    Ok(())
}

#[test]
fn what_was_passed_over_is_not_written(rt: HostRuntime) -> Result<(), Fail> {
    let alloc = rt.alloc();
    let class = class_of(alloc, &bytes_of_lines(alloc, &FILLED)?)?;
    assert_eq!(rt; length_written(alloc, &class)?, 278);
    Ok(())
}

/// A class with a full table of interfaces has one name more in its pool.
#[test]
fn interfaces_are_counted_by_two_bytes(rt: HostRuntime) -> Result<(), Fail> {
    static ROWS: [&str; 1] = ["interface p/I -> TooMany(interfaces)"];
    let class = built(rt.alloc(), 65535, "interface p/I", &ROWS)?;
    assert_eq!(rt; class.interfaces().len(), 65535);
    assert_eq!(rt; entry_count(&class), 7);
    Ok(())
}

#[test]
fn handlers_are_counted_by_two_bytes(rt: HostRuntime) -> Result<(), Fail> {
    static ROWS: [&str; 2] = [
        "method 1 m ()V with 65536 -> TooMany(handlers)",
        "method 1 m ()V with 65535 -> added",
    ];
    let class = built(rt.alloc(), 0, "", &ROWS)?;
    assert_eq!(rt; class.methods().len(), 1);
    assert_eq!(rt; entry_count(&class), 9);
    Ok(())
}

/// Also those that are no part of the class count, and take no entry.
#[test]
fn attributes_are_counted_by_two_bytes(rt: HostRuntime) -> Result<(), Fail> {
    static ROWS: [&str; 1] = ["attribute Note 00 -> TooMany(attributes)"];
    let class = built(rt.alloc(), 65535, "attribute Note 00", &ROWS)?;
    assert_eq!(rt; entry_count(&class), 5);
    Ok(())
}

/// Enters the class of a number.
fn enter_numbered(alloc: Global, b: &mut ClassBuilder, n: u16) -> Result<(), Fail> {
    let line = format!(in alloc; "class C{n}")?;
    entered(alloc, b, line.as_str())?;
    Ok(())
}

/// Fills a pool: a class takes two entries, so that 32,765 fill it.
fn fill(alloc: Global, b: &mut ClassBuilder) -> Result<(), Fail> {
    for n in 0..32765u16 {
        enter_numbered(alloc, b, n)?;
    }
    Ok(())
}

/// A class whose pool is full.
fn full(alloc: Global) -> Result<ClassBuilder, Fail> {
    let mut b = made(alloc, 61, 0x21)?;
    fill(alloc, &mut b)?;
    Ok(b)
}

#[test]
fn entries_are_counted_by_two_bytes(rt: HostRuntime) -> Result<(), Fail> {
    static ROWS: [&str; 8] = [
        "int 7 -> TooMany(pool)",
        "field 1 x I -> TooMany(pool)",
        "interface p/I -> TooMany(pool)",
        "attribute NestHost 0002 -> TooMany(pool)",
        "attribute Note 00 -> added",
        "class C0 -> 6",
        "class C32764 -> 65534",
        "interface C1 -> added",
    ];
    let class = after(rt.alloc(), full(rt.alloc())?, &ROWS)?;
    assert_eq!(rt; entry_count(&class), 65535);
    Ok(())
}
