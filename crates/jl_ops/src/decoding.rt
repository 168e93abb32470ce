//! Which row an instruction has (JVMS 6.5).

ghost use Rattle.std.specs.Prelude.{◌≡◌, option_map};
ghost use Rattle.jl_ops.specs.declared.row.Row.TheVariants as rows;
ghost use Rattle.jl_ops.specs.Decoding as words;

use crate::row::{
    ArrayRow, Condition, Elements, FrameRow, IntOp, IntType, LongOp, Row, Shift, StackOp, Test,
};
use crate::type_letters::{
    BOOLEAN, BYTE, CHAR, INT, LONG, SHORT, T_BOOLEAN, T_BYTE, T_CHAR, T_INT, T_LONG, T_SHORT,
};
use jl_code::{Arg, Instr, local_of};
use jl_heap::{Kind, Value};
use jl_optable::ops;

/// Null, -1 to 5, and the longs 0 and 1.
#[tactic(auto, unfolding(crate::specs::Decoding::constant_of))]
fn constant_of(op: u8) -> Option<Value>
    ensures { result ≡ words.constant_of op }
{
    match op {
        ops::ACONST_NULL => Some(Value::Ref(None)),
        ops::ICONST_M1..=ops::ICONST_5 => {
            Some(Value::Int(i32::from(op) - i32::from(ops::ICONST_0)))
        }
        ops::LCONST_0..=ops::LCONST_1 => {
            Some(Value::Long(i64::from(op) - i64::from(ops::LCONST_0)))
        }
        _ => None,
    }
}

/// The kind that a load puts on the stack.
#[tactic(auto, unfolding(crate::specs::Decoding::kind_loaded))]
fn kind_loaded(op: u8) -> Option<Kind>
    ensures { result ≡ words.kind_loaded op }
{
    match op {
        ops::ILOAD | ops::ILOAD_0..=ops::ILOAD_3 => Some(Kind::Int),
        ops::LLOAD | ops::LLOAD_0..=ops::LLOAD_3 => Some(Kind::Long),
        ops::ALOAD | ops::ALOAD_0..=ops::ALOAD_3 => Some(Kind::Ref),
        _ => None,
    }
}

/// The kind that a store takes from the stack.
#[tactic(auto, unfolding(crate::specs::Decoding::kind_stored))]
fn kind_stored(op: u8) -> Option<Kind>
    ensures { result ≡ words.kind_stored op }
{
    match op {
        ops::ISTORE | ops::ISTORE_0..=ops::ISTORE_3 => Some(Kind::Int),
        ops::LSTORE | ops::LSTORE_0..=ops::LSTORE_3 => Some(Kind::Long),
        ops::ASTORE | ops::ASTORE_0..=ops::ASTORE_3 => Some(Kind::Ref),
        _ => None,
    }
}

/// The rows that take, copy or swap slots of the stack.
#[tactic(auto, unfolding(crate::specs::Decoding::stack_row))]
fn stack_row(op: u8) -> Option<FrameRow>
    ensures { result ≡ words.stack_row op }
{
    match op {
        ops::POP => Some(FrameRow::Stack(StackOp::Pop)),
        ops::POP2 => Some(FrameRow::Stack(StackOp::Pop2)),
        ops::DUP => Some(FrameRow::Stack(StackOp::Dup)),
        ops::DUP_X1 => Some(FrameRow::Stack(StackOp::DupX1)),
        ops::DUP_X2 => Some(FrameRow::Stack(StackOp::DupX2)),
        ops::DUP2 => Some(FrameRow::Stack(StackOp::Dup2)),
        ops::DUP2_X1 => Some(FrameRow::Stack(StackOp::Dup2X1)),
        ops::DUP2_X2 => Some(FrameRow::Stack(StackOp::Dup2X2)),
        ops::SWAP => Some(FrameRow::Stack(StackOp::Swap)),
        _ => None,
    }
}

/// The rows that compute with ints alone.
#[tactic(auto, unfolding(crate::specs::Decoding::int_row))]
fn int_row(op: u8) -> Option<FrameRow>
    ensures { result ≡ words.int_row op }
{
    match op {
        ops::IADD => Some(FrameRow::Ints(IntOp::Add)),
        ops::ISUB => Some(FrameRow::Ints(IntOp::Sub)),
        ops::IMUL => Some(FrameRow::Ints(IntOp::Mul)),
        ops::IDIV => Some(FrameRow::Ints(IntOp::Div)),
        ops::IREM => Some(FrameRow::Ints(IntOp::Rem)),
        ops::INEG => Some(FrameRow::NegateInt),
        ops::ISHL => Some(FrameRow::Ints(IntOp::Shift(Shift::Left))),
        ops::ISHR => Some(FrameRow::Ints(IntOp::Shift(Shift::Right))),
        ops::IUSHR => Some(FrameRow::Ints(IntOp::Shift(Shift::UnsignedRight))),
        ops::IAND => Some(FrameRow::Ints(IntOp::And)),
        ops::IOR => Some(FrameRow::Ints(IntOp::Or)),
        ops::IXOR => Some(FrameRow::Ints(IntOp::Xor)),
        _ => None,
    }
}

/// The rows that compute with longs.
#[tactic(auto, unfolding(crate::specs::Decoding::long_row))]
fn long_row(op: u8) -> Option<FrameRow>
    ensures { result ≡ words.long_row op }
{
    match op {
        ops::LADD => Some(FrameRow::Longs(LongOp::Add)),
        ops::LSUB => Some(FrameRow::Longs(LongOp::Sub)),
        ops::LMUL => Some(FrameRow::Longs(LongOp::Mul)),
        ops::LDIV => Some(FrameRow::Longs(LongOp::Div)),
        ops::LREM => Some(FrameRow::Longs(LongOp::Rem)),
        ops::LNEG => Some(FrameRow::NegateLong),
        ops::LSHL => Some(FrameRow::ShiftLong(Shift::Left)),
        ops::LSHR => Some(FrameRow::ShiftLong(Shift::Right)),
        ops::LUSHR => Some(FrameRow::ShiftLong(Shift::UnsignedRight)),
        ops::LAND => Some(FrameRow::Longs(LongOp::And)),
        ops::LOR => Some(FrameRow::Longs(LongOp::Or)),
        ops::LXOR => Some(FrameRow::Longs(LongOp::Xor)),
        _ => None,
    }
}

/// A row that computes with ints or with longs.
fn number_row(op: u8) -> Option<FrameRow>
    ensures { result ≡ words.number_row op }
{
    match int_row(op) {
        Some(row) => Some(row),
        None => long_row(op),
    }
}

/// Conversions, `lcmp`, `nop` and the monitor rows.
#[tactic(auto, unfolding(crate::specs::Decoding::other_row))]
fn other_row(op: u8) -> Option<FrameRow>
    ensures { result ≡ words.other_row op }
{
    match op {
        ops::I2L => Some(FrameRow::IntToLong),
        ops::L2I => Some(FrameRow::LongToInt),
        ops::I2B => Some(FrameRow::Cut(IntType::Byte)),
        ops::I2C => Some(FrameRow::Cut(IntType::Char)),
        ops::I2S => Some(FrameRow::Cut(IntType::Short)),
        ops::LCMP => Some(FrameRow::CompareLongs),
        ops::NOP => Some(FrameRow::Nothing),
        ops::MONITORENTER..=ops::MONITOREXIT => Some(FrameRow::Monitor),
        _ => None,
    }
}

/// The rows of arrays, but for those that ask for classes.
#[tactic(auto, unfolding(crate::specs::Decoding::array_row))]
fn array_row(op: u8) -> Option<ArrayRow>
    ensures { result ≡ words.array_row op }
{
    match op {
        ops::IALOAD => Some(ArrayRow::Load(Elements::Ints(IntType::Int))),
        ops::LALOAD => Some(ArrayRow::Load(Elements::Longs)),
        ops::AALOAD => Some(ArrayRow::Load(Elements::References)),
        ops::BALOAD => Some(ArrayRow::Load(Elements::Ints(IntType::Byte))),
        ops::CALOAD => Some(ArrayRow::Load(Elements::Ints(IntType::Char))),
        ops::SALOAD => Some(ArrayRow::Load(Elements::Ints(IntType::Short))),
        ops::IASTORE => Some(ArrayRow::StoreInt(IntType::Int)),
        ops::LASTORE => Some(ArrayRow::StoreLong),
        ops::BASTORE => Some(ArrayRow::StoreInt(IntType::Byte)),
        ops::CASTORE => Some(ArrayRow::StoreInt(IntType::Char)),
        ops::SASTORE => Some(ArrayRow::StoreInt(IntType::Short)),
        ops::ARRAYLENGTH => Some(ArrayRow::Length),
        _ => None,
    }
}

/// The rows that leave the method.
#[tactic(auto, unfolding(crate::specs::Decoding::leaving_row))]
fn leaving_row(op: u8) -> Option<Row>
    ensures { result ≡ words.leaving_row op }
{
    match op {
        ops::IRETURN => Some(Row::Return(Some(Kind::Int))),
        ops::LRETURN => Some(Row::Return(Some(Kind::Long))),
        ops::ARETURN => Some(Row::Return(Some(Kind::Ref))),
        ops::RETURN => Some(Row::Return(None)),
        ops::ATHROW => Some(Row::Throw),
        _ => None,
    }
}

/// When a branch is taken.
#[tactic(auto, unfolding(crate::specs::Decoding::test_of))]
fn test_of(op: u8) -> Option<Test>
    ensures { result ≡ words.test_of op }
{
    match op {
        ops::IFEQ => Some(Test::Zero(Condition::Equal)),
        ops::IFNE => Some(Test::Zero(Condition::NotEqual)),
        ops::IFLT => Some(Test::Zero(Condition::Less)),
        ops::IFGE => Some(Test::Zero(Condition::GreaterOrEqual)),
        ops::IFGT => Some(Test::Zero(Condition::Greater)),
        ops::IFLE => Some(Test::Zero(Condition::LessOrEqual)),
        ops::IF_ICMPEQ => Some(Test::Ints(Condition::Equal)),
        ops::IF_ICMPNE => Some(Test::Ints(Condition::NotEqual)),
        ops::IF_ICMPLT => Some(Test::Ints(Condition::Less)),
        ops::IF_ICMPGE => Some(Test::Ints(Condition::GreaterOrEqual)),
        ops::IF_ICMPGT => Some(Test::Ints(Condition::Greater)),
        ops::IF_ICMPLE => Some(Test::Ints(Condition::LessOrEqual)),
        ops::IF_ACMPEQ => Some(Test::Same(true)),
        ops::IF_ACMPNE => Some(Test::Same(false)),
        ops::IFNULL => Some(Test::Null(true)),
        ops::IFNONNULL => Some(Test::Null(false)),
        ops::GOTO | ops::GOTO_W => Some(Test::Always),
        _ => None,
    }
}

/// The letter of the type that `newarray` names by a number.
#[tactic(auto, unfolding(crate::specs::Decoding::letter_named))]
fn letter_named(n: i32) -> Option<u8>
    ensures { result ≡ words.letter_named n }
{
    match n {
        T_BOOLEAN => Some(BOOLEAN),
        T_CHAR => Some(CHAR),
        T_BYTE => Some(BYTE),
        T_SHORT => Some(SHORT),
        T_INT => Some(INT),
        T_LONG => Some(LONG),
        _ => None,
    }
}

fn in_frame(row: Option<FrameRow>) -> Option<Row>
    ensures { result ≡ option_map rows.Frame row }
{
    match row {
        Some(row) => Some(Row::Frame(row)),
        None => None,
    }
}

fn of_array(row: Option<ArrayRow>) -> Option<Row>
    ensures { result ≡ option_map rows.Array row }
{
    match row {
        Some(row) => Some(Row::Array(row)),
        None => None,
    }
}

fn constant_row(op: u8) -> Option<Row>
    ensures { result ≡ option_map words.constant (words.constant_of op) }
{
    match constant_of(op) {
        Some(v) => Some(Row::Frame(FrameRow::Constant(v))),
        None => None,
    }
}

/// The row of an opcode alone.
#[tactic(auto, unfolding(crate::specs::Decoding::bare_row))]
fn bare_row(op: u8) -> Option<Row>
    ensures { result ≡ words.bare_row op }
{
    match op {
        ops::ACONST_NULL..=ops::LCONST_1 => constant_row(op),
        ops::IALOAD..=ops::SASTORE | ops::ARRAYLENGTH => of_array(array_row(op)),
        ops::POP..=ops::SWAP => in_frame(stack_row(op)),
        ops::IADD..=ops::LXOR => in_frame(number_row(op)),
        ops::IRETURN..=ops::RETURN | ops::ATHROW => leaving_row(op),
        _ => in_frame(other_row(op)),
    }
}

/// A load or a store of a local.
fn local_row(op: u8, local: u16) -> Option<Row>
    ensures { result ≡ words.local_row (words.kind_loaded op) (words.kind_stored op) local }
{
    if let Some(kind) = kind_loaded(op) {
        return Some(Row::Frame(FrameRow::Load(kind, local)));
    }
    match kind_stored(op) {
        Some(kind) => Some(Row::Frame(FrameRow::Store(kind, local))),
        None => None,
    }
}

/// What a number behind an opcode is: the type of a new array, or a constant.
fn numbered_row(op: u8, n: i32) -> Option<Row>
    ensures { result ≡ words.numbered_row op n }
{
    if op != ops::NEWARRAY {
        return Some(Row::Frame(FrameRow::Constant(Value::Int(n))));
    }
    match letter_named(n) {
        Some(letter) => Some(Row::NewArray(letter)),
        None => None,
    }
}

fn branch_row(op: u8, place: u32) -> Option<Row>
    ensures { result ≡ option_map (λ test. rows.Branch test place) (words.test_of op) }
{
    match test_of(op) {
        Some(test) => Some(Row::Branch(test, place)),
        None => None,
    }
}

/// The row of an instruction. None of a switch, which is executed by its operands, of an instruction that asks for
/// classes, and of one that makes a stub.
pub fn row_of(instr: &Instr) -> Option<Row>
    ensures { result ≡ words.row_of instr.now }
{
    match &instr.arg {
        Arg::Nothing => match local_of(instr) {
            Some(local) => local_row(instr.op, local),
            None => bare_row(instr.op),
        },
        Arg::Local(local) => local_row(instr.op, *local),
        Arg::Inc(local, more) => Some(Row::Frame(FrameRow::Increase(*local, *more))),
        Arg::Number(n) => numbered_row(instr.op, *n),
        Arg::Long(n) => Some(Row::Frame(FrameRow::Constant(Value::Long(*n)))),
        Arg::Target(place) => branch_row(instr.op, *place),
        _ => None,
    }
}

/// Whether an instruction is executed here: it asks for no class, and makes no stub.
pub fn is_plain(instr: &Instr) -> bool
    ensures { result ≡ words.is_plain instr.now }
{
    matches!(instr.arg, Arg::Switch { .. }) || row_of(instr).is_some()
}
