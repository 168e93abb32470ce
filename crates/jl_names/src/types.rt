//! Types and descriptors as values (JVMS 4.3).

ghost use Rattle.std.specs.Prelude.{◌≡◌};
ghost use Rattle.std.specs.Option.{option_copied};
ghost use Rattle.jl_names.specs.Descriptors.{class_in as class_named, slots_of};

use std::marker::Model;

/// A type that is no array.
#[derive(Clone, Copy, Debug, PartialEq, Eq)]
pub enum BaseType {
    /// A primitive type, by its letter.
    Prim(u8),
    /// A class, by where its name begins in the text and where it ends: the last byte stands before the second place.
    Class(usize, usize),
}

/// A type of a field, parameter or result: how many dimensions an array has (0 for none), and of what.
#[derive(Clone, Copy, Debug, PartialEq, Eq)]
pub struct FieldType {
    pub dims: u8,
    pub base: BaseType,
}

impl FieldType {
    /// How many slots a value of the type takes (JVMS 2.6.1).
    pub fn slots(&self) -> usize
        ensures { result ≡ slots_of self.now }
    {
        match self.base {
            BaseType::Prim(b'J' | b'D') if self.dims == 0 => 2,
            _ => 1,
        }
    }

    /// The name of the class that the type names in the text that it was read from: of an array its elements' class.
    /// None where it names none, or where the text ends before the name.
    pub fn class_in<'a>(&self, text: &'a [u8]) -> Option<&'a [u8]>
        ensures { option_copied result ≡ class_named text.now self.now }
    {
        match self.base {
            BaseType::Class(from, to) => text.get(from..to),
            BaseType::Prim(_) => None,
        }
    }
}

/// The types of parameters, which contracts see as their list.
#[derive(Debug, Drop)]
pub struct Params {
    types: Vec<FieldType>,
}

impl Model for Params {
    ghost use Rattle.std.specs.Prelude.{List};
    ghost use Rattle.jl_names.specs.declared.types.FieldType.{FieldType};

    ghost Value = { List FieldType };

    ghost view = { λ it. it.types.items };
}

impl Params {
    /// The types of a vector, as they stand.
    pub fn from_vec(types: Vec<FieldType>) -> Params
        ensures { result ≡ types.items }
    {
        Params { types }
    }

    /// The types in order.
    pub fn as_slice(&self) -> &[FieldType]
        ensures { result.now ≡ self.now }
    {
        self.types.as_slice()
    }
}

/// What a descriptor says.
#[derive(Debug, Drop)]
pub enum Descriptor {
    /// The type of a field.
    Field(FieldType),
    /// The types of a method's parameters and of its result, where `V` is no result.
    Method {
        params: Params,
        result: Option<FieldType>,
    },
}
