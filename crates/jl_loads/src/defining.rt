//! Defining a class (JVMS 5.3.5).

ghost use Rattle.std.specs.Prelude.{◌≡◌, None, Some, IfErr, IfOk, OnErr, OnOk, if◌then◌else◌};
ghost use Rattle.std.specs.Option.{option_or};
ghost use Rattle.jl_loads.specs.declared.class_key.ClassKey.{ClassKey};
ghost use Rattle.jl_loads.specs.contracts.class_key.ClassKeyPartialEq.TheImpl as keys;
ghost use Rattle.jl_loads.specs.Ends.{Leaves, IsNotRead};
ghost use Rattle.jl_loads.specs.Laws.{IsNew};
ghost use Rattle.jl_loads.specs.Loading as loading;
ghost use Rattle.jl_loads.specs.Worlds as worlds;
ghost use Rattle.jl_loads.specs.Worlds.{IsClass, Keeps, blank};
ghost use Rattle.jl_loads.specs.Whole.{kept_for};

use crate::class::Class;
use crate::class_key::ClassKey;
use crate::end::LinkEnd;
use crate::errors::error;
use crate::loads::Loads;
use crate::slot::Slots;
use indexmap::IndexMap;
use jl_prim::{ClassId, ErrorKind, MOST_CLASSES};
use std::alloc::{AllocError, AllocFailed};

impl Loads {
    /// Defines a class behind the others, if there is room for one more.
    pub(crate) fn add_class(&mut self, class: Class, key: ClassKey) -> Result<ClassId, LinkEnd>
        requires loader { key.loader ≡ class.loader }
        requires name { key.name ≡ class.declared.name }
        requires new { IsNew self.old class }
        ensures defines { Leaves (loading.define self.old class) result self.new }
        ensures not_read { IfErr result IsNotRead }
        ensures keeps { Keeps self.old self.new }
        ensures defined { IfOk result (λ c. worlds.defined self.new class.loader class.declared.name ≡ Some c) }
        ensures there { IfOk result (IsClass self.new) }
    {
        if self.classes.len() >= MOST_CLASSES {
            return Err(error(self.allocator(), ErrorKind::OutOfMemoryError, "classes"));
        }
        let number = ClassId(self.classes.len() as u32 + 1);
        let slots = self.no_slots(&class)?;
        let rank = self.rank_new(&class)?;
        self.classes.reserve(1)?;
        self.slots.reserve(1)?;
        self.ranks.reserve(1)?;
        enter(&mut self.names, key, number)?;
        self.ranks.push_reserved(rank);
        self.slots.push_reserved(slots);
        self.classes.push_reserved(class);
        Ok(number)
    }

    /// The slots of a class of which nothing is decided.
    fn no_slots(&self, class: &Class) -> Result<Slots, AllocError>
        ensures { IfOk result (λ slots. slots ≡ blank class.now) }
    {
        Slots::blank(self.allocator(), class.declared().pool().entries().len())
    }
}

/// Enters a class under its key, where there is none.
fn enter(
    names: &mut IndexMap<ClassKey, ClassId>,
    key: ClassKey,
    c: ClassId,
) -> Result<(), AllocFailed<(ClassKey, ClassId)>>
    ensures entered { OnOk result ((q : ClassKey) → kept_for names.new.entries q ≡ option_or (kept_for names.old.entries q) (if keys.eq-value.it key q then Some c else None)) }
    ensures before { OnErr result ((q : ClassKey) → kept_for names.new.entries q ≡ kept_for names.old.entries q) }
{
    if !names.contains_key(&key) {
        names.insert(key, c)?;
    }
    Ok(())
}
