//! The rows that are executed here, by what they do (JVMS 6.5).

use jl_heap::{Kind, Value};

/// What is computed of two ints. The second of them lies on top.
#[derive(Clone, Copy, Debug)]
pub enum IntOp {
    Add,
    Sub,
    Mul,
    Div,
    Rem,
    And,
    Or,
    Xor,
    /// The first one is shifted by the low five bits of the second.
    Shift(Shift),
}

/// What is computed of two longs. The second of them lies on top.
#[derive(Clone, Copy, Debug)]
pub enum LongOp {
    Add,
    Sub,
    Mul,
    Div,
    Rem,
    And,
    Or,
    Xor,
}

/// How bits are shifted.
#[derive(Clone, Copy, Debug)]
pub enum Shift {
    Left,
    /// To the right, where the sign fills up.
    Right,
    /// To the right, where zeros fill up.
    UnsignedRight,
}

/// The types whose values are ints on the stack and in arrays of their own. Arrays of booleans are taken where those of
/// bytes are.
#[derive(Clone, Copy, Debug)]
pub enum IntType {
    Int,
    Byte,
    Char,
    Short,
}

/// How slots of the stack are taken, copied or swapped. A copy of the upper slots is put under those that follow.
#[derive(Clone, Copy, Debug)]
pub enum StackOp {
    Pop,
    Pop2,
    Dup,
    DupX1,
    DupX2,
    Dup2,
    Dup2X1,
    Dup2X2,
    Swap,
}

/// How two ints compare. The second of them lies on top, or is 0.
#[derive(Clone, Copy, Debug)]
pub enum Condition {
    Equal,
    NotEqual,
    Less,
    GreaterOrEqual,
    Greater,
    LessOrEqual,
}

/// When a branch is taken.
#[derive(Clone, Copy, Debug)]
pub enum Test {
    Always,
    /// An int compares so with 0.
    Zero(Condition),
    /// Two ints compare so.
    Ints(Condition),
    /// Two references are the same, or they are not.
    Same(bool),
    /// A reference is null, or it is not.
    Null(bool),
}

/// A row that changes the top frame alone, and is followed by the next instruction. The kinds of its loads and stores are
/// those of ints, longs and references.
#[derive(Clone, Copy, Debug)]
pub enum FrameRow {
    Nothing,
    Constant(Value),
    /// A value of this kind is loaded from a local.
    Load(Kind, u16),
    /// A value of this kind is stored into a local.
    Store(Kind, u16),
    /// A number is added to an int in a local.
    Increase(u16, i32),
    Stack(StackOp),
    Ints(IntOp),
    Longs(LongOp),
    ShiftLong(Shift),
    NegateInt,
    NegateLong,
    IntToLong,
    LongToInt,
    /// An int is cut to a type.
    Cut(IntType),
    CompareLongs,
    /// A monitor is entered or left. There is one task, so that it only has to be there.
    Monitor,
}

/// What an array has as its elements.
#[derive(Clone, Copy, Debug)]
pub enum Elements {
    Ints(IntType),
    Longs,
    References,
}

/// A row of arrays.
#[derive(Clone, Copy, Debug)]
pub enum ArrayRow {
    Load(Elements),
    StoreInt(IntType),
    StoreLong,
    Length,
}

/// A row that is executed here, but for the two switches.
#[derive(Clone, Copy, Debug)]
pub enum Row {
    Frame(FrameRow),
    Array(ArrayRow),
    /// An array of the primitive type with this letter is made.
    NewArray(u8),
    /// A branch to this place.
    Branch(Test, u32),
    /// The method returns, with an int, a long or a reference where there is a kind.
    Return(Option<Kind>),
    Throw,
}
