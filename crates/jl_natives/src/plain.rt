//! Values that go to a native and come from it.

ghost use Rattle.std.specs.Prelude.{◌≡◌, IfOk};

use jl_names::{CopyEnd, Units};

/// A value of a native (JVMS 2.2). An int also stands for a char and a boolean.
#[derive(Debug, Drop)]
pub enum Plain {
    /// What a method without a result gives.
    Nothing,
    Int(i32),
    Long(i64),
    /// The units of a String.
    Text(Units),
    Null,
}

impl Plain {
    /// An equal value. The source stays as it is, also where there is no memory.
    pub fn copy(&self) -> Result<Plain, CopyEnd>
        ensures { IfOk result (λ it. it ≡ self.now) }
    {
        match self {
            Plain::Nothing => Ok(Plain::Nothing),
            Plain::Int(n) => Ok(Plain::Int(*n)),
            Plain::Long(n) => Ok(Plain::Long(*n)),
            Plain::Text(units) => Ok(Plain::Text(units.copy()?)),
            Plain::Null => Ok(Plain::Null),
        }
    }
}
