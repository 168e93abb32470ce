//! The kinds that rows ask for: each operand is replaced by values of the other kinds, and left out.

use crate::program::{comes, outcome, store_with};
use std::alloc::Global;
use std::test::*;

/// Instructions, and the kinds of their operands from the top down.
static KINDS: [&str; 73] = [
    "ISTORE:0 Int",
    "ISTORE_1 Int",
    "LSTORE:0 Long",
    "LSTORE_1 Long",
    "ASTORE:0 Ref",
    "ASTORE_1 Ref",
    "IALOAD Int Ref",
    "LALOAD Int Ref",
    "AALOAD Int Ref",
    "BALOAD Int Ref",
    "CALOAD Int Ref",
    "SALOAD Int Ref",
    "IASTORE Int Int Ref",
    "BASTORE Int Int Ref",
    "CASTORE Int Int Ref",
    "SASTORE Int Int Ref",
    "LASTORE Long Int Ref",
    "IADD Int Int",
    "ISUB Int Int",
    "IMUL Int Int",
    "IDIV Int Int",
    "IREM Int Int",
    "ISHL Int Int",
    "ISHR Int Int",
    "IUSHR Int Int",
    "IAND Int Int",
    "IOR Int Int",
    "IXOR Int Int",
    "LADD Long Long",
    "LSUB Long Long",
    "LMUL Long Long",
    "LDIV Long Long",
    "LREM Long Long",
    "LAND Long Long",
    "LOR Long Long",
    "LXOR Long Long",
    "LCMP Long Long",
    "LSHL Int Long",
    "LSHR Int Long",
    "LUSHR Int Long",
    "INEG Int",
    "I2L Int",
    "I2B Int",
    "I2C Int",
    "I2S Int",
    "LNEG Long",
    "L2I Long",
    "IFEQ:7 Int",
    "IFNE:7 Int",
    "IFLT:7 Int",
    "IFGE:7 Int",
    "IFGT:7 Int",
    "IFLE:7 Int",
    "IF_ICMPEQ:7 Int Int",
    "IF_ICMPNE:7 Int Int",
    "IF_ICMPLT:7 Int Int",
    "IF_ICMPGE:7 Int Int",
    "IF_ICMPGT:7 Int Int",
    "IF_ICMPLE:7 Int Int",
    "IF_ACMPEQ:7 Ref Ref",
    "IF_ACMPNE:7 Ref Ref",
    "IFNULL:7 Ref",
    "IFNONNULL:7 Ref",
    "TABLESWITCH:7,0=8 Int",
    "LOOKUPSWITCH:7,0=8 Int",
    "IRETURN Int",
    "LRETURN Long",
    "ARETURN Ref",
    "NEWARRAY:10 Int",
    "ARRAYLENGTH Ref",
    "ATHROW Ref",
    "MONITORENTER Ref",
    "MONITOREXIT Ref",
];

/// An instruction that pushes a value of a kind.
fn push_of(kind: &str) -> &'static str {
    match kind {
        "Int" => "ICONST_0",
        "Long" => "LCONST_0",
        _ => "ACONST_NULL",
    }
}

/// Fails where a program does not stop as wanted.
fn stops(alloc: Global, program: &str, kind: &str, found: &str) -> Result<(), Fail> {
    let mut store = store_with(alloc, 8, 4, 2)?;
    let got = outcome(alloc, &mut store, program)?;
    let want = format!(in alloc; "Stuck({kind}, {found})")?;
    comes(program, &got, &want)
}

/// Tries values of the other kinds, and none, under what lies above an operand of a kind.
fn wrong_ones_stop(alloc: Global, above: &str, kind: &str) -> Result<(), Fail> {
    static ALL: [&str; 3] = ["Int", "Long", "Ref"];
    stops(alloc, above, kind, "Top")?;
    for found in &ALL {
        if *found != kind {
            let push = push_of(found);
            let program = format!(in alloc; "{push} {above}")?;
            stops(alloc, &program, kind, found)?;
        }
    }
    Ok(())
}

#[test]
fn kinds(rt: HostRuntime) -> Result<(), Fail> {
    let alloc = rt.alloc();
    for row in &KINDS {
        let (instr, kinds) = row.split_once(' ').ok_or("a row")?;
        let mut above = String::from_str(alloc, instr)?;
        for kind in kinds.split(' ') {
            wrong_ones_stop(alloc, &above, kind)?;
            let push = push_of(kind);
            above = format!(in alloc; "{push} {above}")?;
        }
    }
    Ok(())
}
