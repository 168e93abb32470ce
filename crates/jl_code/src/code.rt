//! Instructions as values (JVMS 6.5).

use jl_prim::Items;

/// The operands of an instruction.
#[derive(Debug, Drop)]
pub enum Arg {
    Nothing,
    /// The number that is pushed, or the type of the array that is made.
    Number(i32),
    /// The number of a local.
    Local(u16),
    /// The number of a local, and what is added to it.
    Inc(u16, i32),
    /// An index of the pool.
    Index(u16),
    /// An index of the pool, and a count of dimensions.
    Multi(u16, u8),
    /// The constant that is pushed.
    Long(i64),
    /// The place to which a branch leads.
    Target(u32),
    /// The places to which a switch leads: that of all other keys, and those of keys, which rise.
    Switch {
        other: u32,
        cases: Items<(i32, u32)>,
    },
}

/// An instruction, and the place at which it begins. A widened one begins at its `wide`, and has its own opcode.
#[derive(Debug, Drop)]
pub struct Instr {
    pub at: u32,
    pub op: u8,
    pub wide: bool,
    pub arg: Arg,
}

/// The code of a method.
#[derive(Debug, Drop)]
pub enum Code {
    /// The instructions in the order of their places.
    Instructions(Items<Instr>),
    /// The method is no more than a stub, by its descriptor, or by the first instruction with this opcode.
    Stub(Option<u8>),
}
