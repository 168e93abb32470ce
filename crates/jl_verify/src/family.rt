//! Families of instructions: those whose rows of the check are the same (JVMS 4.10.1.9).

/// The kinds of values that locals are loaded and stored by, and that methods return.
#[derive(Clone, Copy, Debug, PartialEq, Eq)]
pub enum ValueKind {
    Int,
    Long,
    Reference,
}

/// The elements of arrays.
#[derive(Clone, Copy, Debug, PartialEq, Eq)]
pub enum Elements {
    Ints,
    Longs,
    References,
    /// Bytes or booleans.
    Bytes,
    Chars,
    Shorts,
}

/// What is done with ints and longs.
#[derive(Clone, Copy, Debug, PartialEq, Eq)]
pub enum Compute {
    IntsToInt,
    LongsToLong,
    LongAndIntToLong,
    IntToInt,
    LongToLong,
    IntToLong,
    LongToInt,
    LongsToInt,
}

/// What is done with the slots of the stack, whatever they hold.
#[derive(Clone, Copy, Debug, PartialEq, Eq)]
pub enum Shuffle {
    Pop,
    Pop2,
    Dup,
    DupX1,
    DupX2,
    Dup2,
    Dup2X1,
    Dup2X2,
    Swap,
}

/// Slots of the stack that are moved together.
#[derive(Clone, Copy, Debug, PartialEq, Eq)]
pub enum Group {
    /// One slot that is a whole value.
    One,
    /// Two slots: a long, or two values.
    Two,
}

/// A family of instructions.
#[derive(Clone, Copy, Debug, PartialEq, Eq)]
pub enum Family {
    /// It takes and gives nothing.
    Nothing,
    PushNull,
    PushInt,
    PushLong,
    /// It gives an int, a String or a Class, as the pool says.
    PushConstant,
    Load(ValueKind),
    Store(ValueKind),
    /// It counts a local up.
    Count,
    LoadElement(Elements),
    StoreElement(Elements),
    Shuffle(Shuffle),
    Compute(Compute),
    /// It takes an int, and branches or not.
    TakeInt,
    TakeInts,
    TakeReference,
    TakeReferences,
    Return(ValueKind),
    ReturnNothing,
    GetStatic,
    PutStatic,
    GetField,
    PutField,
    /// A method of the object that the class or interface named has.
    InvokeOn,
    InvokeSpecial,
    InvokeStatic,
    New,
    NewArray,
    NewReferenceArray,
    NewArrays,
    Length,
    Throw,
    Cast,
    InstanceOf,
}

/// The opcodes of one family, from the first to the last.
#[derive(Clone, Copy, Debug, PartialEq, Eq)]
pub struct FamilyRow {
    pub first: u8,
    pub last: u8,
    pub family: Family,
}
