//! The rows of instructions that ask for classes (JVMS 6.5).

/// Reading or writing a field: `getstatic`, `putstatic`, `getfield`, `putfield`.
#[derive(Clone, Copy, Debug, PartialEq, Eq)]
pub enum FieldOp {
    GetStatic,
    PutStatic,
    GetField,
    PutField,
}

/// A cast: `checkcast`, `instanceof`.
#[derive(Clone, Copy, Debug, PartialEq, Eq)]
pub enum CastOp {
    Check,
    Ask,
}

/// A row that asks for classes. Numbers of 16 bits are indices of the pool of the class whose code runs.
#[derive(Clone, Copy, Debug, PartialEq, Eq)]
pub enum ObjectRow {
    /// `ldc`, `ldc_w`.
    Constant(u16),
    /// `aastore`.
    StoreReference,
    Field(FieldOp, u16),
    /// `new`.
    New(u16),
    /// `anewarray`.
    NewArray(u16),
    Cast(CastOp, u16),
}
