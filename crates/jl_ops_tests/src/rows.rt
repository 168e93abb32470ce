//! Rows of constants, locals, stacks, branches, arrays and returns, with what the Java standard says of them.

use crate::program::{code_of, comes, outcome, run, store_with};
use jl_code::Code;
use std::alloc::Global;
use std::test::*;

/// What comes of programs in a frame of eight slots on the stack and four locals, above one with two slots. The stack is
/// told from the top down: `_` is the upper slot of a long, `5L` a long, `#3` the first array that a program makes.
static ROWS: [&str; 95] = [
    // constants
    "ACONST_NULL -> null",
    "ICONST_M1 ICONST_0 ICONST_1 ICONST_2 ICONST_3 ICONST_4 ICONST_5 -> 5 4 3 2 1 0 -1",
    "LCONST_0 LCONST_1 -> _ 1L _ 0L",
    "BIPUSH:-128 SIPUSH:32767 LDC2_W:-9223372036854775808 NOP -> _ -9223372036854775808L 32767 -128",
    // locals
    "ICONST_3 ISTORE:3 ILOAD:3 ILOAD_3 -> 3 3",
    "ICONST_3 ISTORE_0 ICONST_4 ISTORE_1 ICONST_5 ISTORE_2 ILOAD_0 ILOAD_1 ILOAD_2 -> 5 4 3",
    "LCONST_1 LSTORE_2 LLOAD:2 LLOAD_2 -> _ 1L _ 1L",
    "LCONST_1 LSTORE_0 LCONST_0 LSTORE_1 LLOAD_1 -> _ 0L",
    "ACONST_NULL ASTORE_3 ALOAD:3 ALOAD_3 -> null null",
    "ICONST_1 ISTORE_0 IINC:0,-128 ILOAD_0 -> -127",
    "BIPUSH:2147483647 ISTORE_0 WIDE.IINC:0,-32768 WIDE.ILOAD:0 -> 2147450879",
    "BIPUSH:2147483647 ISTORE_0 IINC:0,1 ILOAD_0 -> -2147483648",
    "ILOAD_0 -> Stuck(Int, Top)",
    "ICONST_0 ISTORE_0 LLOAD_0 -> Stuck(Long, Int)",
    "ICONST_0 ISTORE_0 ALOAD_0 -> Stuck(Ref, Int)",
    "LCONST_0 LSTORE_0 IINC:0,1 -> Stuck(Int, Long)",
    "LCONST_0 LSTORE_0 ILOAD_1 -> Stuck(Int, Top)",
    // a long that is cut by another value in its second local
    "LCONST_0 LSTORE_0 ICONST_0 ISTORE_1 LLOAD_0 -> Stuck(Long, Top)",
    "ICONST_0 ISTORE:4 -> Stuck(Top, Top)",
    "LCONST_0 LSTORE_3 -> Stuck(Top, Top)",
    "LCONST_0 LSTORE_2 LLOAD_3 -> Stuck(Top, Top)",
    "ILOAD:4 -> Stuck(Top, Top)",
    "ALOAD:4 -> Stuck(Top, Top)",
    "ACONST_NULL ASTORE:4 -> Stuck(Top, Top)",
    "IINC:4,1 -> Stuck(Top, Top)",
    // the kind of the operand comes before the local
    "LCONST_0 ISTORE:4 -> Stuck(Int, Long)",
    // stacks
    "ICONST_1 ICONST_2 POP -> 1",
    "LCONST_0 ICONST_2 POP2 -> Stuck(Top, Top)",
    "LCONST_1 POP -> Stuck(Top, Top)",
    "POP -> Stuck(Top, Top)",
    "ICONST_1 LCONST_1 POP2 -> 1",
    "ICONST_1 ICONST_2 ICONST_3 POP2 -> 1",
    "ICONST_1 POP2 -> Stuck(Top, Top)",
    "ICONST_1 DUP -> 1 1",
    "LCONST_1 DUP -> Stuck(Top, Top)",
    "ICONST_1 ICONST_2 DUP_X1 -> 2 1 2",
    "LCONST_1 ICONST_2 DUP_X1 -> Stuck(Top, Top)",
    "ICONST_1 LCONST_1 DUP_X1 -> Stuck(Top, Top)",
    "ICONST_1 DUP_X1 -> Stuck(Top, Top)",
    "ICONST_1 ICONST_2 ICONST_3 DUP_X2 -> 3 2 1 3",
    "LCONST_1 ICONST_3 DUP_X2 -> 3 _ 1L 3",
    "LCONST_1 ICONST_2 ICONST_3 DUP_X2 -> Stuck(Top, Top)",
    "ICONST_1 LCONST_1 DUP_X2 -> Stuck(Top, Top)",
    "ICONST_1 ICONST_2 DUP2 -> 2 1 2 1",
    "LCONST_1 DUP2 -> _ 1L _ 1L",
    "LCONST_1 ICONST_2 DUP2 -> Stuck(Top, Top)",
    "ICONST_1 ICONST_2 ICONST_3 DUP2_X1 -> 3 2 1 3 2",
    "ICONST_1 LCONST_1 DUP2_X1 -> _ 1L 1 _ 1L",
    "LCONST_1 LCONST_0 DUP2_X1 -> Stuck(Top, Top)",
    "LCONST_1 ICONST_3 DUP2_X1 -> Stuck(Top, Top)",
    "ICONST_2 ICONST_3 DUP2_X1 -> Stuck(Top, Top)",
    "ICONST_1 ICONST_2 ICONST_3 ICONST_4 DUP2_X2 -> 4 3 2 1 4 3",
    "ICONST_1 ICONST_2 LCONST_1 DUP2_X2 -> _ 1L 2 1 _ 1L",
    "LCONST_0 ICONST_3 ICONST_4 DUP2_X2 -> 4 3 _ 0L 4 3",
    "LCONST_0 LCONST_1 DUP2_X2 -> _ 1L _ 0L _ 1L",
    "LCONST_0 ICONST_3 LCONST_1 DUP2_X2 -> Stuck(Top, Top)",
    "ICONST_0 ICONST_3 LCONST_1 ICONST_4 DUP2_X2 -> Stuck(Top, Top)",
    "ICONST_0 LCONST_1 DUP2_X2 -> Stuck(Top, Top)",
    "ICONST_1 ICONST_2 SWAP -> 1 2",
    "LCONST_1 ICONST_2 SWAP -> Stuck(Top, Top)",
    "ICONST_2 LCONST_1 SWAP -> Stuck(Top, Top)",
    "ICONST_2 SWAP -> Stuck(Top, Top)",
    // arrays
    "ICONST_2 NEWARRAY:10 DUP ICONST_1 BIPUSH:-9 IASTORE DUP ICONST_1 IALOAD -> -9 #3",
    "ICONST_2 NEWARRAY:11 DUP ICONST_1 LDC2_W:-9 LASTORE ICONST_1 LALOAD -> _ -9L",
    "ICONST_2 NEWARRAY:8 DUP ICONST_0 SIPUSH:200 BASTORE ICONST_0 BALOAD -> -56",
    "ICONST_2 NEWARRAY:4 DUP ICONST_0 SIPUSH:200 BASTORE ICONST_0 BALOAD -> 0",
    "ICONST_2 NEWARRAY:4 DUP ICONST_0 ICONST_M1 BASTORE ICONST_0 BALOAD -> 1",
    "ICONST_2 NEWARRAY:5 DUP ICONST_0 ICONST_M1 CASTORE ICONST_0 CALOAD -> 65535",
    "ICONST_2 NEWARRAY:9 DUP ICONST_0 BIPUSH:40000 SASTORE ICONST_0 SALOAD -> -25536",
    "ICONST_2 NEWARRAY:10 ARRAYLENGTH -> 2",
    "ICONST_0 NEWARRAY:4 ARRAYLENGTH -> 0",
    "ICONST_M1 NEWARRAY:10 -> NegativeArraySizeException: -1",
    "BIPUSH:16777214 NEWARRAY:10 -> OutOfMemoryError: heap",
    "BIPUSH:2147483647 NEWARRAY:4 -> OutOfMemoryError: heap",
    "ACONST_NULL ARRAYLENGTH -> NullPointerException",
    "ACONST_NULL ICONST_M1 IALOAD -> NullPointerException",
    "ACONST_NULL ICONST_0 AALOAD -> NullPointerException",
    "ICONST_2 NEWARRAY:10 ICONST_M1 IALOAD -> ArrayIndexOutOfBoundsException: Index -1 out of bounds for length 2",
    "ICONST_0 NEWARRAY:11 ICONST_0 LALOAD -> ArrayIndexOutOfBoundsException: Index 0 out of bounds for length 0",
    "ICONST_2 NEWARRAY:10 ICONST_2 IALOAD -> ArrayIndexOutOfBoundsException: Index 2 out of bounds for length 2",
    "ICONST_2 NEWARRAY:11 ICONST_2 LCONST_0 LASTORE -> ArrayIndexOutOfBoundsException: Index 2 out of bounds for length 2",
    "ICONST_0 NEWARRAY:5 ICONST_0 ICONST_0 CASTORE -> ArrayIndexOutOfBoundsException: Index 0 out of bounds for length 0",
    "ACONST_NULL ICONST_0 ICONST_0 BASTORE -> NullPointerException",
    // another array than the wanted one is found before its index
    "ICONST_2 NEWARRAY:10 ICONST_5 BALOAD -> Stuck(Ref, Ref)",
    "ICONST_2 NEWARRAY:8 ICONST_0 AALOAD -> Stuck(Ref, Ref)",
    "ICONST_2 NEWARRAY:9 ICONST_0 ICONST_0 CASTORE -> Stuck(Ref, Ref)",
    "ICONST_2 NEWARRAY:10 ICONST_0 LCONST_0 LASTORE -> Stuck(Ref, Ref)",
    // how a method is left
    "ICONST_5 IRETURN -> 5",
    "LCONST_1 LRETURN -> _ 1L",
    "ICONST_2 NEWARRAY:10 ARETURN -> #3",
    "ICONST_5 RETURN ICONST_1 -> 1",
    "ACONST_NULL ATHROW -> NullPointerException",
    "ICONST_2 NEWARRAY:10 ATHROW -> raises #3",
    // monitors
    "ACONST_NULL MONITORENTER -> NullPointerException",
    "ICONST_2 NEWARRAY:10 DUP MONITORENTER MONITOREXIT ICONST_1 -> 1",
];

/// Where frames have less: the slots of the stack, of the locals, and of the stack of the frame below, and a program.
static ROOMS: [(u16, u16, u16, &str); 20] = [
    (0, 0, 0, "ICONST_0 -> Stuck(Top, Top)"),
    (1, 0, 0, "LCONST_0 -> Stuck(Top, Top)"),
    (1, 0, 0, "ICONST_0 I2L -> Stuck(Top, Top)"),
    (2, 0, 0, "ICONST_0 I2L -> _ 0L"),
    (0, 0, 0, "ACONST_NULL -> Stuck(Top, Top)"),
    (0, 0, 0, "BIPUSH:1 -> Stuck(Top, Top)"),
    (1, 0, 0, "LDC2_W:1 -> Stuck(Top, Top)"),
    (
        2,
        2,
        0,
        "LCONST_0 LSTORE_0 ICONST_0 LLOAD_0 -> Stuck(Top, Top)",
    ),
    (1, 0, 0, "ICONST_0 DUP -> Stuck(Top, Top)"),
    (2, 0, 0, "ICONST_0 ICONST_0 DUP_X1 -> Stuck(Top, Top)"),
    (3, 0, 0, "LCONST_0 ICONST_0 DUP_X2 -> Stuck(Top, Top)"),
    (3, 0, 0, "ICONST_0 ICONST_0 DUP2 -> Stuck(Top, Top)"),
    (4, 0, 0, "ICONST_0 LCONST_0 DUP2_X1 -> Stuck(Top, Top)"),
    (5, 0, 0, "LCONST_0 LCONST_0 DUP2_X2 -> Stuck(Top, Top)"),
    // the kind of a local comes before the room
    (
        1,
        1,
        0,
        "ACONST_NULL ASTORE_0 ICONST_0 ILOAD_0 -> Stuck(Int, Ref)",
    ),
    (
        1,
        1,
        0,
        "ICONST_0 ISTORE_0 ICONST_0 ILOAD_0 -> Stuck(Top, Top)",
    ),
    (1, 0, 0, "ICONST_0 IRETURN -> Stuck(Top, Top)"),
    (2, 0, 1, "LCONST_0 LRETURN -> Stuck(Top, Top)"),
    (2, 0, 1, "LCONST_0 ARETURN -> Stuck(Ref, Long)"),
    (1, 0, 0, "RETURN POP -> Stuck(Top, Top)"),
];

/// Where the frame stands behind a program: its instructions stand at 0, 100, 200 and so on.
static PLACES: [&str; 44] = [
    "NOP -> 1",
    "ICONST_0 BIPUSH:1 -> 102",
    "SIPUSH:1 -> 3",
    "LDC2_W:1 -> 3",
    "ICONST_0 ISTORE:1 -> 102",
    "ICONST_0 WIDE.ISTORE:1 -> 104",
    "ICONST_0 ISTORE_1 IINC:1,1 -> 203",
    "ICONST_0 ISTORE_1 WIDE.IINC:1,1 -> 206",
    "ICONST_0 NEWARRAY:4 -> 102",
    "GOTO:7 -> 7",
    "NOP GOTO_W:70000 -> 70000",
    "NOP NOP GOTO_W:5 -> 5",
    "ICONST_0 IFEQ:7 -> 7",
    "ICONST_1 IFEQ:7 -> 103",
    "ICONST_1 IFNE:7 -> 7",
    "ICONST_0 IFNE:7 -> 103",
    "ICONST_M1 IFLT:7 -> 7",
    "ICONST_0 IFLT:7 -> 103",
    "ICONST_0 IFGE:7 -> 7",
    "ICONST_M1 IFGE:7 -> 103",
    "ICONST_1 IFGT:7 -> 7",
    "ICONST_0 IFGT:7 -> 103",
    "ICONST_0 IFLE:7 -> 7",
    "ICONST_1 IFLE:7 -> 103",
    "ICONST_1 ICONST_2 IF_ICMPEQ:7 -> 203",
    "ICONST_1 ICONST_2 IF_ICMPNE:7 -> 7",
    "ICONST_1 ICONST_2 IF_ICMPLT:7 -> 7",
    "ICONST_1 ICONST_2 IF_ICMPGE:7 -> 203",
    "ICONST_1 ICONST_2 IF_ICMPGT:7 -> 203",
    "ICONST_1 ICONST_2 IF_ICMPLE:7 -> 7",
    "BIPUSH:-2147483648 BIPUSH:2147483647 IF_ICMPLT:7 -> 7",
    "ACONST_NULL ACONST_NULL IF_ACMPEQ:7 -> 7",
    "ICONST_0 NEWARRAY:4 ACONST_NULL IF_ACMPEQ:7 -> 303",
    "ICONST_0 NEWARRAY:4 DUP IF_ACMPEQ:7 -> 7",
    "ICONST_0 NEWARRAY:4 DUP IF_ACMPNE:7 -> 303",
    "ICONST_0 NEWARRAY:4 ICONST_0 NEWARRAY:4 IF_ACMPNE:7 -> 7",
    "ACONST_NULL IFNULL:7 -> 7",
    "ACONST_NULL IFNONNULL:7 -> 103",
    "ICONST_4 TABLESWITCH:9,5=50,6=60 -> 9",
    "ICONST_5 TABLESWITCH:9,5=50,6=60 -> 50",
    "BIPUSH:6 TABLESWITCH:9,5=50,6=60 -> 60",
    "BIPUSH:7 TABLESWITCH:9,5=50,6=60 -> 9",
    "BIPUSH:-2147483648 LOOKUPSWITCH:9,-2147483648=50,2147483647=60 -> 50",
    "ICONST_0 LOOKUPSWITCH:9,-2147483648=50,2147483647=60 -> 9",
];

#[test]
fn rows(rt: HostRuntime) -> Result<(), Fail> {
    let alloc = rt.alloc();
    for row in &ROWS {
        let (program, want) = row.split_once(" -> ").ok_or("a row")?;
        let mut store = store_with(alloc, 8, 4, 2)?;
        comes(row, &outcome(alloc, &mut store, program)?, want)?;
    }
    Ok(())
}

#[test]
fn rooms(rt: HostRuntime) -> Result<(), Fail> {
    let alloc = rt.alloc();
    for (stack, locals, below, row) in &ROOMS {
        let (program, want) = row.split_once(" -> ").ok_or("a row")?;
        let mut store = store_with(alloc, *stack, *locals, *below)?;
        comes(row, &outcome(alloc, &mut store, program)?, want)?;
    }
    Ok(())
}

fn place_behind(alloc: Global, program: &str) -> Result<u32, Fail> {
    let mut store = store_with(alloc, 8, 4, 2)?;
    outcome(alloc, &mut store, program)?;
    if store.frames.depth() == 0 {
        return Err(Fail::new("no frame"));
    }
    Ok(store.frames.pc())
}

#[test]
fn places(rt: HostRuntime) -> Result<(), Fail> {
    for row in &PLACES {
        let (program, want) = row.split_once(" -> ").ok_or("a row")?;
        let want: u32 = want.parse()?;
        assert_eq!(rt; place_behind(rt.alloc(), program)?, want, "{row}");
    }
    Ok(())
}

/// Code whose instructions stand one behind the other, and the stack where it comes to an end.
static CODES: [&str; 4] = [
    // the sum of 1 to 10
    "BIPUSH:10 ISTORE_0 ICONST_0 ISTORE_1 ILOAD_1 ILOAD_0 IADD ISTORE_1 IINC:0,-1 ILOAD_0 IFGT:5 ILOAD_1 -> 55",
    // a widened instruction, and a branch past an instruction
    "ICONST_1 WIDE.ISTORE:0 WIDE.IINC:0,300 GOTO:15 ICONST_5 ILOAD_0 -> 301",
    // a switch, which counts as one byte here
    "ICONST_2 TABLESWITCH:7,1=5,2=2 ICONST_5 -> 5",
    "ICONST_0 NEWARRAY:10 ICONST_0 IALOAD -> ArrayIndexOutOfBoundsException: Index 0 out of bounds for length 0",
];

#[test]
fn codes(rt: HostRuntime) -> Result<(), Fail> {
    let alloc = rt.alloc();
    for row in &CODES {
        let (program, want) = row.split_once(" -> ").ok_or("a row")?;
        let mut store = store_with(alloc, 8, 4, 2)?;
        let code = code_of(alloc, program)?;
        comes(row, &run(alloc, &mut store, &code, 200)?, want)?;
    }
    let mut store = store_with(alloc, 8, 4, 2)?;
    comes("a stub", &run(alloc, &mut store, &Code::Stub(None), 1)?, "")
}
