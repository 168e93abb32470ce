//! Values and their kinds.

ghost use Rattle.std.specs.Prelude.{◌≡◌, ◌++◌, map, OnOk};
ghost use Rattle.jl_heap.specs.Values as words;

use jl_prim::ObjRef;
use std::alloc::AllocFailed;

/// What kind of value a slot holds (JVMS 2.2). Booleans, bytes, characters and shorts are ints.
#[derive(Clone, Copy, Debug, PartialEq, Eq, Hash)]
pub enum Kind {
    Int,
    Long,
    Ref,
    /// The second slot of a long in a frame, and a slot that holds nothing.
    Top,
}

/// A value, as one slot holds it.
#[derive(Clone, Copy, Debug, PartialEq, Eq, Hash)]
pub enum Value {
    Int(i32),
    Long(i64),
    /// A reference to an object, or null.
    Ref(Option<ObjRef>),
    Top,
}

impl Value {
    /// The kind of the value.
    pub fn kind(self) -> Kind
        ensures { result ≡ words.kind_of self }
    {
        match self {
            Value::Int(_) => Kind::Int,
            Value::Long(_) => Kind::Long,
            Value::Ref(_) => Kind::Ref,
            Value::Top => Kind::Top,
        }
    }
}

impl Kind {
    /// The value with which a slot of this kind begins (JVMS 2.3, 2.4).
    pub fn first_value(self) -> Value
        ensures { result ≡ words.first_value self }
    {
        match self {
            Kind::Int => Value::Int(0),
            Kind::Long => Value::Long(0),
            Kind::Ref => Value::Ref(None),
            Kind::Top => Value::Top,
        }
    }
}

/// Adds what slots of these kinds begin with.
pub fn push_first(values: &mut Vec<Value>, kinds: &[Kind]) -> Result<(), AllocFailed<Value>>
    ensures { OnOk result (values.new.items ≡ values.old.items ++ map words.first_value kinds.now) }
{
    for kind in kinds {
        values.push(kind.first_value())?;
    }
    Ok(())
}
