//! What a row of the table says.

/// What follows an opcode in the code (JVMS 6.5).
#[derive(Clone, Copy, Debug, PartialEq, Eq)]
pub enum Operands {
    /// No operand.
    Nothing,
    /// A signed byte, or the type of an array of primitives.
    Byte,
    /// A signed number of two bytes.
    Short,
    /// The number of a local in one byte.
    Local,
    /// An index of the pool in one byte.
    Index1,
    /// An index of the pool in two bytes.
    Index2,
    /// The number of a local, and a signed byte to be added.
    Inc,
    /// A signed offset of a branch in two bytes.
    Target2,
    /// A signed offset of a branch in four bytes.
    Target4,
    /// Padding, the default offset, the lowest and the highest key, and an offset for each of these keys.
    Table,
    /// Padding, the default offset, the count of pairs, and pairs of a key and an offset.
    Lookup,
    /// An index of the pool in two bytes, a count of slots, and a zero.
    Interface,
    /// An index of the pool in two bytes, and two zeros.
    Dynamic,
    /// An index of the pool in two bytes, and a count of dimensions.
    Multi,
    /// The opcode that is widened, and its operands: a local in two bytes, and for `iinc` a number in two.
    Wide,
}

/// A row of the table.
#[derive(Clone, Copy, Debug, PartialEq, Eq)]
pub struct Form {
    pub op: u8,
    /// Whether the instruction makes its method a stub, whatever its operands are.
    pub stub: bool,
    pub operands: Operands,
}
