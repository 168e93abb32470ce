//! The names of the primitive types whose values are ints or longs.

// Letters of descriptors (JVMS 4.3.2)
pub const BOOLEAN: u8 = b'Z';

pub const BYTE: u8 = b'B';

pub const CHAR: u8 = b'C';

pub const INT: u8 = b'I';

pub const LONG: u8 = b'J';

pub const SHORT: u8 = b'S';

// Numbers of newarray (JVMS 6.5)
pub const T_BOOLEAN: i32 = 4;

pub const T_CHAR: i32 = 5;

pub const T_BYTE: i32 = 8;

pub const T_SHORT: i32 = 9;

pub const T_INT: i32 = 10;

pub const T_LONG: i32 = 11;
