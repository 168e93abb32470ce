//! Which family an instruction is of.

ghost use Rattle.std.specs.Prelude.{◌≡◌};
ghost use Rattle.jl_verify.specs.Families as words;

use crate::family::{Compute, Elements, Family, FamilyRow, Shuffle, ValueKind};
use jl_optable::ops;

macro_rules! family_rows {
    ($($first:ident to $last:ident is $family:expr,)*) => {
        [$(FamilyRow { first: ops::$first, last: ops::$last, family: $family },)*]
    };
}

/// The opcodes of each family.
#[tactic(auto, unfolding(crate::specs::Families::family_rows))]
fn family_rows() -> &'static [FamilyRow]
    ensures { result.now ≡ words.family_rows }
{
    static ROWS: [FamilyRow; 97] = family_rows! {
        NOP to NOP is Family::Nothing,
        ACONST_NULL to ACONST_NULL is Family::PushNull,
        ICONST_M1 to ICONST_5 is Family::PushInt,
        LCONST_0 to LCONST_1 is Family::PushLong,
        BIPUSH to SIPUSH is Family::PushInt,
        LDC to LDC_W is Family::PushConstant,
        LDC2_W to LDC2_W is Family::PushLong,
        ILOAD to ILOAD is Family::Load(ValueKind::Int),
        LLOAD to LLOAD is Family::Load(ValueKind::Long),
        ALOAD to ALOAD is Family::Load(ValueKind::Reference),
        ILOAD_0 to ILOAD_3 is Family::Load(ValueKind::Int),
        LLOAD_0 to LLOAD_3 is Family::Load(ValueKind::Long),
        ALOAD_0 to ALOAD_3 is Family::Load(ValueKind::Reference),
        IALOAD to IALOAD is Family::LoadElement(Elements::Ints),
        LALOAD to LALOAD is Family::LoadElement(Elements::Longs),
        AALOAD to AALOAD is Family::LoadElement(Elements::References),
        BALOAD to BALOAD is Family::LoadElement(Elements::Bytes),
        CALOAD to CALOAD is Family::LoadElement(Elements::Chars),
        SALOAD to SALOAD is Family::LoadElement(Elements::Shorts),
        ISTORE to ISTORE is Family::Store(ValueKind::Int),
        LSTORE to LSTORE is Family::Store(ValueKind::Long),
        ASTORE to ASTORE is Family::Store(ValueKind::Reference),
        ISTORE_0 to ISTORE_3 is Family::Store(ValueKind::Int),
        LSTORE_0 to LSTORE_3 is Family::Store(ValueKind::Long),
        ASTORE_0 to ASTORE_3 is Family::Store(ValueKind::Reference),
        IASTORE to IASTORE is Family::StoreElement(Elements::Ints),
        LASTORE to LASTORE is Family::StoreElement(Elements::Longs),
        AASTORE to AASTORE is Family::StoreElement(Elements::References),
        BASTORE to BASTORE is Family::StoreElement(Elements::Bytes),
        CASTORE to CASTORE is Family::StoreElement(Elements::Chars),
        SASTORE to SASTORE is Family::StoreElement(Elements::Shorts),
        POP to POP is Family::Shuffle(Shuffle::Pop),
        POP2 to POP2 is Family::Shuffle(Shuffle::Pop2),
        DUP to DUP is Family::Shuffle(Shuffle::Dup),
        DUP_X1 to DUP_X1 is Family::Shuffle(Shuffle::DupX1),
        DUP_X2 to DUP_X2 is Family::Shuffle(Shuffle::DupX2),
        DUP2 to DUP2 is Family::Shuffle(Shuffle::Dup2),
        DUP2_X1 to DUP2_X1 is Family::Shuffle(Shuffle::Dup2X1),
        DUP2_X2 to DUP2_X2 is Family::Shuffle(Shuffle::Dup2X2),
        SWAP to SWAP is Family::Shuffle(Shuffle::Swap),
        IADD to IADD is Family::Compute(Compute::IntsToInt),
        LADD to LADD is Family::Compute(Compute::LongsToLong),
        ISUB to ISUB is Family::Compute(Compute::IntsToInt),
        LSUB to LSUB is Family::Compute(Compute::LongsToLong),
        IMUL to IMUL is Family::Compute(Compute::IntsToInt),
        LMUL to LMUL is Family::Compute(Compute::LongsToLong),
        IDIV to IDIV is Family::Compute(Compute::IntsToInt),
        LDIV to LDIV is Family::Compute(Compute::LongsToLong),
        IREM to IREM is Family::Compute(Compute::IntsToInt),
        LREM to LREM is Family::Compute(Compute::LongsToLong),
        INEG to INEG is Family::Compute(Compute::IntToInt),
        LNEG to LNEG is Family::Compute(Compute::LongToLong),
        ISHL to ISHL is Family::Compute(Compute::IntsToInt),
        LSHL to LSHL is Family::Compute(Compute::LongAndIntToLong),
        ISHR to ISHR is Family::Compute(Compute::IntsToInt),
        LSHR to LSHR is Family::Compute(Compute::LongAndIntToLong),
        IUSHR to IUSHR is Family::Compute(Compute::IntsToInt),
        LUSHR to LUSHR is Family::Compute(Compute::LongAndIntToLong),
        IAND to IAND is Family::Compute(Compute::IntsToInt),
        LAND to LAND is Family::Compute(Compute::LongsToLong),
        IOR to IOR is Family::Compute(Compute::IntsToInt),
        LOR to LOR is Family::Compute(Compute::LongsToLong),
        IXOR to IXOR is Family::Compute(Compute::IntsToInt),
        LXOR to LXOR is Family::Compute(Compute::LongsToLong),
        IINC to IINC is Family::Count,
        I2L to I2L is Family::Compute(Compute::IntToLong),
        L2I to L2I is Family::Compute(Compute::LongToInt),
        I2B to I2S is Family::Compute(Compute::IntToInt),
        LCMP to LCMP is Family::Compute(Compute::LongsToInt),
        IFEQ to IFLE is Family::TakeInt,
        IF_ICMPEQ to IF_ICMPLE is Family::TakeInts,
        IF_ACMPEQ to IF_ACMPNE is Family::TakeReferences,
        GOTO to GOTO is Family::Nothing,
        TABLESWITCH to LOOKUPSWITCH is Family::TakeInt,
        IRETURN to IRETURN is Family::Return(ValueKind::Int),
        LRETURN to LRETURN is Family::Return(ValueKind::Long),
        ARETURN to ARETURN is Family::Return(ValueKind::Reference),
        RETURN to RETURN is Family::ReturnNothing,
        GETSTATIC to GETSTATIC is Family::GetStatic,
        PUTSTATIC to PUTSTATIC is Family::PutStatic,
        GETFIELD to GETFIELD is Family::GetField,
        PUTFIELD to PUTFIELD is Family::PutField,
        INVOKEVIRTUAL to INVOKEVIRTUAL is Family::InvokeOn,
        INVOKESPECIAL to INVOKESPECIAL is Family::InvokeSpecial,
        INVOKESTATIC to INVOKESTATIC is Family::InvokeStatic,
        INVOKEINTERFACE to INVOKEINTERFACE is Family::InvokeOn,
        NEW to NEW is Family::New,
        NEWARRAY to NEWARRAY is Family::NewArray,
        ANEWARRAY to ANEWARRAY is Family::NewReferenceArray,
        ARRAYLENGTH to ARRAYLENGTH is Family::Length,
        ATHROW to ATHROW is Family::Throw,
        CHECKCAST to CHECKCAST is Family::Cast,
        INSTANCEOF to INSTANCEOF is Family::InstanceOf,
        MONITORENTER to MONITOREXIT is Family::TakeReference,
        MULTIANEWARRAY to MULTIANEWARRAY is Family::NewArrays,
        IFNULL to IFNONNULL is Family::TakeReference,
        GOTO_W to GOTO_W is Family::Nothing,
    };
    &ROWS
}

/// The family of the instructions with an opcode. Those that compute with float or double are of none.
pub fn family_of(op: u8) -> Option<Family>
    ensures { result ≡ words.family_of op }
{
    family_rows()
        .iter()
        .find(|row| row.first <= op && op <= row.last)
        .map(|row| row.family)
}

/// Whether an instruction is a return.
pub fn is_return(op: u8) -> bool
    ensures { result ≡ words.is_return op }
{
    ops::IRETURN <= op && op <= ops::RETURN
}

/// Whether control never goes on from an instruction to the next.
pub fn leaves(op: u8) -> bool
    ensures { result ≡ words.leaves op }
{
    op == ops::GOTO
        || op == ops::GOTO_W
        || (ops::TABLESWITCH <= op && op <= ops::LOOKUPSWITCH)
        || is_return(op)
        || op == ops::ATHROW
}
