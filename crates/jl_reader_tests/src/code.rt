//! Tests of jl_code.

use jl_code::{
    Arg, Code, CodeFault, Instr, PlaceTable, class_text, decode, local_of, member_class,
    member_desc, member_name, member_tag,
};
use jl_making::{bytes_in, bytes_of_lines};
use jl_optable::{Form, each_row, op_table, ops};
use jl_pool::{Pool, read_pool};
use jl_prim::{Handler, Name};
use std::alloc::Global;
use std::fmt::Write;
use std::test::*;

/// A pool of what instructions name.
const POOL: [&str; 12] = [
    "0022 =f 07 0001", // 2: class f
    "=(J)V 0c 0001 0003 0a 0002 0004 0b 0002 0004", // 5: f of a class, 6: of an interface
    "=[[I 07 0007 05 0000000000000005 04 00000000", // 8: class [[I, 9: a long, 11: a float
    "=F 0c 0001 000c 09 0002 000d", // 14: the field f of type F
    "=<init> =()V 0c 000f 0010 0a 0002 0011", // 18: the constructor
    "=(F)V 0c 0001 0013 0a 0002 0014", // 21: f with a float
    "=<c 0c 0016 0010 0a 0002 0017", // 24: <c
    "=I 0c 0001 0019 09 0002 001a", // 27: the field f of type I
    "12 0000 0004", // 28: a computed call
    "08 0001 03 00000007", // 29: the string f, 30: the integer 7
    "01 0008 28 4c ed a0 80 3b 29 56 0c 0001 001f", // 31: a surrogate that stands alone
    "0a 0002 0020", // 33: a method with no descriptor
];

/// Codes of a method `()V`, with what each is.
const CODES: [(&str, &str); 85] = [
    ("", "Empty"),
    ("a8", "UnknownOp(0)"),
    ("00 ff", "UnknownOp(1)"),
    ("10", "ShortOperand(0)"),
    ("0b 10", "ShortOperand(1)"),
    ("a7 0005", "BadTarget(0)"),
    ("a7 ffff", "BadTarget(0)"),
    ("a7 0001 00", "BadTarget(0)"),
    ("a7 0002 00", "BadTarget(0)"),
    ("a7 0004 00 a8", "BadTarget(0)"),
    ("a7 0005 12 00 b1", "BadIndex(3)"),
    ("a7 0006 a7 0064 b1", "BadTarget(3)"),
    ("a7 0004 12 00 b1", "BadTarget(0)"),
    ("c8 00000005", "BadTarget(0)"),
    ("c4 00 0000", "UnknownOp(0)"),
    ("c4", "ShortOperand(0)"),
    ("c4 15 00", "ShortOperand(0)"),
    ("c4 84 0000 00", "ShortOperand(0)"),
    ("bc 03", "BadIndex(0)"),
    ("bc 0c", "BadIndex(0)"),
    ("12 09", "BadIndex(0)"),
    ("14 001e", "BadIndex(0)"),
    ("b2 0005", "BadIndex(0)"),
    ("b6 0006", "BadIndex(0)"),
    ("b6 0012", "BadIndex(0)"),
    ("b6 0021", "BadIndex(0)"),
    ("b7 0018", "BadIndex(0)"),
    ("b8 001b", "BadIndex(0)"),
    ("b9 0006 02 00", "BadIndex(0)"),
    ("b9 0006 03 01", "BadIndex(0)"),
    ("b9 0005 03 00", "BadIndex(0)"),
    ("ba 0005 0000", "BadIndex(0)"),
    ("bb 0008", "BadIndex(0)"),
    ("bd 0001", "BadIndex(0)"),
    ("c0 001d", "BadIndex(0)"),
    ("c5 0008 00", "BadIndex(0)"),
    ("c5 0008 03", "BadIndex(0)"),
    ("c5 0002 01", "BadIndex(0)"),
    ("0b 57 b1", "stub Some(11)"),
    ("c4 17 0000", "stub Some(23)"),
    ("bc 06", "stub Some(188)"),
    ("bc 07", "stub Some(188)"),
    ("12 0b", "stub Some(18)"),
    ("b2 000e", "stub Some(178)"),
    ("b8 0015", "stub Some(184)"),
    ("ba 001c 0000", "stub Some(186)"),
    ("00 62 0b", "stub Some(98)"),
    ("03 b0", "0 Nothing; 1 Nothing; "),
    ("00 a7 ffff", "0 Nothing; 1 Target(0); "),
    ("a7 0003 00", "0 Target(3); 3 Nothing; "),
    ("c8 00000005 00", "0 Target(5); 5 Nothing; "),
    ("c4 84 0100 ffff", "0 Inc(256, -1); "),
    ("84 05 80", "0 Inc(5, -128); "),
    ("c4 36 0102", "0 Local(258); "),
    ("36 02", "0 Local(2); "),
    ("10 80", "0 Number(-128); "),
    ("11 8000", "0 Number(-32768); "),
    ("bc 0b", "0 Number(11); "),
    ("12 1e", "0 Index(30); "),
    ("13 001d", "0 Index(29); "),
    ("14 0009", "0 Long(5); "),
    ("b4 001b", "0 Index(27); "),
    ("b6 0005", "0 Index(5); "),
    ("b7 0012", "0 Index(18); "),
    ("b7 0006", "0 Index(6); "),
    ("b9 0006 03 00", "0 Index(6); "),
    ("bd 0008", "0 Index(8); "),
    ("c5 0008 02", "0 Multi(8, 2); "),
    // switches on 5 and 6, at places 0 to 3
    (
        "aa 010203 00000000 00000005 00000006 00000000 00000000",
        "0 else 0 [(5, 0), (6, 0)]; ",
    ),
    (
        "00 aa 0102 ffffffff 00000005 00000006 00000000 00000000",
        "0 Nothing; 1 else 0 [(5, 1), (6, 1)]; ",
    ),
    (
        "00 00 aa 01 00000000 00000005 00000006 00000000 00000000",
        "0 Nothing; 1 Nothing; 2 else 2 [(5, 2), (6, 2)]; ",
    ),
    (
        "00 00 00 aa 00000000 00000005 00000006 00000000 00000000",
        "0 Nothing; 1 Nothing; 2 Nothing; 3 else 3 [(5, 3), (6, 3)]; ",
    ),
    ("aa 000000 00000000 00000006 00000005", "BadTarget(0)"),
    ("aa 000000 00000063 00000005 00000005", "ShortOperand(0)"),
    // switches by pairs, at places 0 to 3
    (
        "ab 010203 00000000 00000002 ffffffff 00000000 00000007 00000000",
        "0 else 0 [(-1, 0), (7, 0)]; ",
    ),
    (
        "00 ab 0102 00000000 00000002 ffffffff 00000000 00000007 00000000",
        "0 Nothing; 1 else 1 [(-1, 1), (7, 1)]; ",
    ),
    (
        "00 00 ab 01 00000000 00000002 00000006 00000000 00000007 fffffffe",
        "0 Nothing; 1 Nothing; 2 else 2 [(6, 2), (7, 0)]; ",
    ),
    (
        "00 00 00 ab 00000000 00000002 00000007 00000000 00000007 00000000",
        "BadTarget(3)",
    ),
    (
        "00 00 00 ab 00000000 00000002 00000007 00000000 ff000007 00000000",
        "BadTarget(3)",
    ),
    (
        "00 00 00 ab 00000000 00000003 00000007 00000000 00000007 00000000",
        "ShortOperand(3)",
    ),
    ("00 00 00 ab 00000000 ffffffff", "BadTarget(3)"),
    ("ab 000000 00000000 00000000", "0 else 0 []; "),
    ("c6 0000", "0 Target(0); "),
    ("bb 0002", "0 Index(2); "),
    ("c1 0008", "0 Index(8); "),
];

fn push_instr(text: &mut String, instr: &Instr) -> Result<(), Fail> {
    match &instr.arg {
        Arg::Switch { other, cases } => {
            let cases = cases.as_slice();
            write!(text, "{} else {other} {cases:?}; ", instr.at)?;
        }
        arg => write!(text, "{} {arg:?}; ", instr.at)?,
    }
    Ok(())
}

/// What a code is, as a text: its fault, the opcode of its stub, or its instructions.
fn told(alloc: Global, answer: Result<Code, CodeFault>) -> Result<String, Fail> {
    let mut text = String::new(alloc);
    match answer {
        Err(fault) => write!(text, "{fault:?}")?,
        Ok(Code::Stub(op)) => write!(text, "stub {op:?}")?,
        Ok(Code::Instructions(found)) => {
            for instr in found.as_slice() {
                push_instr(&mut text, instr)?;
            }
        }
    }
    Ok(text)
}

fn decoded(
    alloc: Global,
    pool: &Pool,
    desc: &[u8],
    code: &[u8],
    handlers: &[Handler],
) -> Result<String, Fail> {
    if code.len() > 100 {
        return Err(Fail::new("a long code"));
    }
    told(alloc, decode(alloc, pool, desc, code, handlers))
}

fn pool_of(alloc: Global) -> Result<Pool, Fail> {
    let (pool, _) = read_pool(alloc, &bytes_of_lines(alloc, &POOL)?, 0)?;
    Ok(pool)
}

#[test]
fn codes(rt: HostRuntime) -> Result<(), Fail> {
    let pool = pool_of(rt.alloc())?;
    for (code, expected) in &CODES {
        let bytes = bytes_in(rt.alloc(), code)?;
        let found = decoded(rt.alloc(), &pool, b"()V", &bytes, &[])?;
        assert_eq!(rt; found.as_str(), *expected, "{code}");
    }
    Ok(())
}

/// How many bytes an instruction takes whose operands are zeros, or none where there is no such opcode.
fn length_of(op: u8) -> usize {
    match op {
        168 | 169 | 201..=255 => 0,
        16 | 18 | 21..=25 | 54..=58 | 188 => 2,
        17 | 19 | 20 | 132 | 153..=167 | 178..=184 | 187 | 189 | 192 | 193 | 198 | 199 => 3,
        197 => 4,
        185 | 186 | 200 => 5,
        171 => 12,
        170 => 20,
        196 => 6,
        _ => 1,
    }
}

/// An instruction whose operands are zeros. What `wide` widens is `iinc`.
fn zeros(op: u8) -> [u8; 20] {
    let mut code = [0; 20];
    code[0] = op;
    if op == ops::WIDE {
        code[1] = ops::IINC;
    }
    code
}

fn is_fault(alloc: Global, pool: &Pool, code: &[u8], fault: CodeFault) -> bool {
    if code.len() > 100 {
        return false;
    }
    match decode(alloc, pool, b"()V", code, &[]) {
        Ok(_) => false,
        Err(found) => found == fault,
    }
}

/// Whether an instruction is cut where it has a byte less than it takes, and is not where it has them all.
fn has_length(alloc: Global, pool: &Pool, op: u8) -> bool {
    let code = zeros(op);
    let len = length_of(op);
    if len == 0 {
        return is_fault(alloc, pool, &code, CodeFault::UnknownOp(0));
    }
    if len > 20 {
        return false;
    }
    let is_cut = len == 1 || is_fault(alloc, pool, &code[..len - 1], CodeFault::ShortOperand(0));
    is_cut && !is_fault(alloc, pool, &code[..len], CodeFault::ShortOperand(0))
}

/// Whether `wide` is an instruction before just these opcodes, and a branch over instructions at 3, 5 and 8
/// leads to them and to itself alone.
fn is_judged(alloc: Global, pool: &Pool, byte: u8) -> bool {
    let is_widened = matches!(byte, 21..=25 | 54..=58 | 132);
    let widened = [196, byte, 0, 0, 0, 0];
    let is_start = matches!(byte, 0 | 3 | 5 | 8);
    let branch = [0xa7, 0, byte, 0x10, 0, 0x11, 0, 0, 0xb1];
    is_fault(alloc, pool, &widened, CodeFault::UnknownOp(0)) != is_widened
        && is_fault(alloc, pool, &branch, CodeFault::BadTarget(0)) != is_start
}

#[test]
fn bytes(rt: HostRuntime) -> Result<(), Fail> {
    let pool = pool_of(rt.alloc())?;
    for byte in 0..=255 {
        assert!(rt; has_length(rt.alloc(), &pool, byte), "{byte}");
        assert!(rt; is_judged(rt.alloc(), &pool, byte), "{byte}");
    }
    Ok(())
}

/// Ranges over two instructions, with what code with one of them is.
const HANDLERS: [((u16, u16, u16, u16), &str); 9] = [
    ((0, 2, 0, 0), "0 Nothing; 1 Nothing; "),
    ((0, 2, 1, 0), "0 Nothing; 1 Nothing; "),
    ((0, 1, 1, 2), "0 Nothing; 1 Nothing; "),
    ((1, 1, 0, 0), "BadRange(1)"),
    ((1, 0, 0, 0), "BadRange(1)"),
    ((0, 3, 0, 0), "BadRange(1)"),
    ((2, 3, 0, 0), "BadRange(1)"),
    ((0, 2, 2, 0), "BadRange(1)"),
    ((0, 2, 0, 1), "BadRange(1)"),
];

fn handler((start, end, target, catch_type): (u16, u16, u16, u16)) -> Handler {
    Handler {
        start,
        end,
        target,
        catch_type,
    }
}

/// Descriptors of methods whose code is `fconst_0`, with what each is.
const METHODS: [(&str, &str); 4] = [
    ("(IF)V", "stub None"),
    ("()D", "stub None"),
    ("([D)[F", "stub Some(11)"),
    ("F", "stub Some(11)"),
];

#[test]
fn methods(rt: HostRuntime) -> Result<(), Fail> {
    let pool = pool_of(rt.alloc())?;
    for (range, expected) in &HANDLERS {
        let handlers = [handler((0, 1, 0, 0)), handler(*range)];
        let found = decoded(rt.alloc(), &pool, b"()V", &[0, 0], &handlers)?;
        assert_eq!(rt; found.as_str(), *expected, "{range:?}");
    }
    for (desc, expected) in &METHODS {
        let found = decoded(rt.alloc(), &pool, desc.as_bytes(), &[ops::FCONST_0], &[])?;
        assert_eq!(rt; found.as_str(), *expected, "{desc}");
    }
    Ok(())
}

fn text(found: Option<&Name>) -> Option<&str> {
    found.map(|name| name.as_str())
}

/// What the indices of the pool name: a class, or the tag, class, name and descriptor of a member.
#[test]
fn names(rt: HostRuntime) -> Result<(), Fail> {
    let pool = pool_of(rt.alloc())?;
    assert_eq!(rt; text(class_text(&pool, 2)), Some("f"));
    assert_eq!(rt; text(class_text(&pool, 8)), Some("[[I"));
    assert_eq!(rt; text(class_text(&pool, 5)), None);
    assert_eq!(rt; member_tag(&pool, 6), Some(11));
    assert_eq!(rt; text(member_class(&pool, 18)), Some("f"));
    assert_eq!(rt; text(member_name(&pool, 18)), Some("<init>"));
    assert_eq!(rt; text(member_desc(&pool, 18)), Some("()V"));
    assert_eq!(rt; text(member_desc(&pool, 33)), None);
    assert_eq!(rt; member_tag(&pool, 2), None);
    Ok(())
}

/// The indices of the instructions at places, and the locals that they name.
#[test]
fn places(rt: HostRuntime) -> Result<(), Fail> {
    let pool = pool_of(rt.alloc())?;
    let code = bytes_in(rt.alloc(), "15 07 2d a7 fffd c4 84 0100 ffff 3d b1")?;
    assert!(rt; code.len() < 100);
    let Code::Instructions(found) = decode(rt.alloc(), &pool, b"()V", &code, &[])? else {
        return Err(Fail::new("a stub"));
    };
    let table = PlaceTable::of(rt.alloc(), found.as_slice(), code.len())?;
    let expected = [Some(0), None, Some(1), Some(2), None, None, Some(3)];
    for (place, index) in expected.iter().enumerate() {
        assert_eq!(rt; table.index_of(place as u32), *index, "{place}");
    }
    assert_eq!(rt; table.index_of(4_000_000_000), None);
    let locals = [Some(7), Some(3), None, Some(256), Some(2), None];
    assert_eq!(rt; found.len(), locals.len());
    for (instr, local) in found.as_slice().iter().zip(&locals) {
        assert_eq!(rt; local_of(instr), *local, "{instr:?}");
    }
    Ok(())
}

/// Opcodes with their mnemonics, and whether they make a stub, as a table over the rows that another crate writes.
macro_rules! mnemonics {
    ([] $($stub:tt $operands:ident: $($op:ident)*;)*) => {
        [$($((ops::$op, $stub, stringify!($op)),)*)*]
    };
}

const MNEMONICS: [(u8, &str); 8] = [
    (0, "NOP"),
    (42, "ALOAD_0"),
    (132, "IINC"),
    (167, "GOTO"),
    (170, "TABLESWITCH"),
    (184, "INVOKESTATIC"),
    (196, "WIDE"),
    (200, "GOTO_W"),
];

#[test]
fn rows(rt: HostRuntime) -> Result<(), Fail> {
    static ROWS: [(u8, bool, &str); 199] = each_row!(mnemonics);
    let table = op_table();
    for (op, stub, name) in &ROWS {
        let Some(Form { stub: found, .. }) = table.form(*op) else {
            return Err(Fail::new("no form"));
        };
        assert_eq!(rt; found, *stub, "{name}");
    }
    for (op, name) in &MNEMONICS {
        let found = ROWS.iter().find(|row| row.0 == *op).map(|row| row.2);
        assert_eq!(rt; found, Some(*name));
    }
    Ok(())
}
