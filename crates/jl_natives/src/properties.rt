//! Properties of the system.

ghost use Rattle.std.specs.Prelude.{◌≡◌, IfOk};
ghost use Rattle.std.specs.Option.{option_copied};
ghost use Rattle.jl_natives.specs.Boxes.{quiet_view};
ghost use Rattle.jl_natives.specs.Outside.{property, text_named};

use crate::args::units_at;
use crate::native::{NativeEnd, NativeOp};
use crate::plain::Plain;
use jl_names::{CopyEnd, Units};
use jl_prim::Items;
use std::alloc::Global;
use std::marker::Model;

/// `System.getProperty(String)`, of a list of names and texts. It tells no answers.
#[derive(Debug, Drop)]
pub struct Properties {
    list: Items<(Units, Units)>,
}

impl Model for Properties {
    ghost use Rattle.std.specs.Prelude.{ℕ, List};

    ghost Value = { List (List ℕ × List ℕ) };

    ghost view = { λ it. it.list };
}

impl Properties {
    /// These properties, and no others. The first of a name counts.
    pub fn new(list: Items<(Units, Units)>) -> Properties
        ensures { result ≡ list }
    {
        Properties { list }
    }

    /// The text of the property with this name, and null where there is none.
    pub fn property(&self, name: &[u16]) -> Result<Plain, CopyEnd>
        ensures { IfOk result (λ text. text ≡ property name.now self.now) }
    {
        match text_of(self.list.as_slice(), name) {
            Some(text) => Ok(Plain::Text(text.copy()?)),
            None => Ok(Plain::Null),
        }
    }
}

#[tactic(auto, unfolding(crate::specs::Table::native_of, crate::specs::Table::row_of, crate::specs::Table::gives, crate::specs::Table::is_outside))]
impl NativeOp for Properties {
    ghost view = { λ _. quiet_view 32 };

    fn row(&self) -> u16 {
        32
    }

    fn call(&mut self, _alloc: Global, args: &[Plain]) -> Result<Plain, NativeEnd> {
        Ok(self.property(units_at(args, 0))?)
    }
}

/// The text of the first property with a name.
fn text_of<'a>(list: &'a [(Units, Units)], name: &[u16]) -> Option<&'a Units>
    ensures { option_copied result ≡ text_named name.now list.now }
{
    for (key, text) in list {
        if key.as_slice() == name {
            return Some(text);
        }
    }
    None
}
