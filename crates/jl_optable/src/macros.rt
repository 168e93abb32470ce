//! The rows of the table, as what a macro takes.

/// Hands all rows to a macro of the caller, with what else it is to have: `each_row!(made, x y)` is
/// `made! { [x y] false Nothing: NOP ACONST_NULL ..; true Nothing: FCONST_0 ..; .. }` (JVMS 6.5).
///
/// Rows stand in the order of their opcodes, in groups: whether they make a stub, their operands, and
/// their mnemonics, which are the constants of `ops`. So a table or a `match` that is written over the rows
/// in another crate has each of them once, and none is forgotten: a mnemonic that the macro does not take is
/// an error where it is called.
#[macro_export]
macro_rules! each_row {
    ($made:ident $(, $($more:tt)*)?) => {
        $made! {
            [$($($more)*)?]
            false Nothing: NOP ACONST_NULL ICONST_M1 ICONST_0 ICONST_1 ICONST_2 ICONST_3
                ICONST_4 ICONST_5 LCONST_0 LCONST_1;
            true Nothing: FCONST_0 FCONST_1 FCONST_2 DCONST_0 DCONST_1;
            false Byte: BIPUSH;
            false Short: SIPUSH;
            false Index1: LDC;
            false Index2: LDC_W LDC2_W;
            false Local: ILOAD LLOAD;
            true Local: FLOAD DLOAD;
            false Local: ALOAD;
            false Nothing: ILOAD_0 ILOAD_1 ILOAD_2 ILOAD_3 LLOAD_0 LLOAD_1 LLOAD_2 LLOAD_3;
            true Nothing: FLOAD_0 FLOAD_1 FLOAD_2 FLOAD_3 DLOAD_0 DLOAD_1 DLOAD_2 DLOAD_3;
            false Nothing: ALOAD_0 ALOAD_1 ALOAD_2 ALOAD_3 IALOAD LALOAD;
            true Nothing: FALOAD DALOAD;
            false Nothing: AALOAD BALOAD CALOAD SALOAD;
            false Local: ISTORE LSTORE;
            true Local: FSTORE DSTORE;
            false Local: ASTORE;
            false Nothing: ISTORE_0 ISTORE_1 ISTORE_2 ISTORE_3 LSTORE_0 LSTORE_1 LSTORE_2
                LSTORE_3;
            true Nothing: FSTORE_0 FSTORE_1 FSTORE_2 FSTORE_3 DSTORE_0 DSTORE_1 DSTORE_2
                DSTORE_3;
            false Nothing: ASTORE_0 ASTORE_1 ASTORE_2 ASTORE_3 IASTORE LASTORE;
            true Nothing: FASTORE DASTORE;
            false Nothing: AASTORE BASTORE CASTORE SASTORE POP POP2 DUP DUP_X1 DUP_X2 DUP2
                DUP2_X1 DUP2_X2 SWAP IADD LADD;
            true Nothing: FADD DADD;
            false Nothing: ISUB LSUB;
            true Nothing: FSUB DSUB;
            false Nothing: IMUL LMUL;
            true Nothing: FMUL DMUL;
            false Nothing: IDIV LDIV;
            true Nothing: FDIV DDIV;
            false Nothing: IREM LREM;
            true Nothing: FREM DREM;
            false Nothing: INEG LNEG;
            true Nothing: FNEG DNEG;
            false Nothing: ISHL LSHL ISHR LSHR IUSHR LUSHR IAND LAND IOR LOR IXOR LXOR;
            false Inc: IINC;
            false Nothing: I2L;
            true Nothing: I2F I2D;
            false Nothing: L2I;
            true Nothing: L2F L2D F2I F2L F2D D2I D2L D2F;
            false Nothing: I2B I2C I2S LCMP;
            true Nothing: FCMPL FCMPG DCMPL DCMPG;
            false Target2: IFEQ IFNE IFLT IFGE IFGT IFLE IF_ICMPEQ IF_ICMPNE IF_ICMPLT
                IF_ICMPGE IF_ICMPGT IF_ICMPLE IF_ACMPEQ IF_ACMPNE GOTO;
            false Table: TABLESWITCH;
            false Lookup: LOOKUPSWITCH;
            false Nothing: IRETURN LRETURN;
            true Nothing: FRETURN DRETURN;
            false Nothing: ARETURN RETURN;
            false Index2: GETSTATIC PUTSTATIC GETFIELD PUTFIELD INVOKEVIRTUAL INVOKESPECIAL
                INVOKESTATIC;
            false Interface: INVOKEINTERFACE;
            true Dynamic: INVOKEDYNAMIC;
            false Index2: NEW;
            false Byte: NEWARRAY;
            false Index2: ANEWARRAY;
            false Nothing: ARRAYLENGTH ATHROW;
            false Index2: CHECKCAST INSTANCEOF;
            false Nothing: MONITORENTER MONITOREXIT;
            false Wide: WIDE;
            false Multi: MULTIANEWARRAY;
            false Target2: IFNULL IFNONNULL;
            false Target4: GOTO_W;
        }
    };
}
