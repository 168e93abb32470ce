//! Why a row does not go on (JVMS 6.5, the run-time exceptions of each instruction).

use jl_heap::Kind;
use jl_prim::ObjRef;

/// Why a row does not go on. It has changed nothing.
#[derive(Clone, Copy, Debug)]
pub enum Stop {
    /// A value of the first kind was wanted, and one of the second was found.
    Stuck(Kind, Kind),
    /// A reference is null.
    Null,
    /// A divisor is zero.
    ZeroDivisor,
    /// An array of so many elements has none at this index.
    OutOfBounds(i32, u32),
    /// An array is to have this negative number of elements.
    Negative(i32),
    /// The heap has no room for an array.
    Full,
    /// This object is thrown.
    Raised(ObjRef),
}
