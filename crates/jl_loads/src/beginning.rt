//! What a world begins with: layers, and the classes of `java.base` (JVMS 5.3.1).

ghost use Rattle.std.specs.Prelude.{◌≡◌, ◌<◌, [], Some, length, map, option_map, IfOk, OnOk};
ghost use Rattle.jl_layer.specs.Layers.{IsModule};
ghost use Rattle.jl_loaders.specs.Loaders.{IsLoader};
ghost use Rattle.jl_layer.specs.Layers as layers;
ghost use Rattle.jl_loads.specs.Beginning.{IsBegin, base_class, base_packages, begun, class_named, named_under};
ghost use Rattle.jl_loads.specs.Beginning as beginning;
ghost use Rattle.jl_loads.specs.Starting.{MayBegin};
ghost use Rattle.jl_loads.specs.Worlds.{bare, with_class};

use crate::class::Class;
use crate::class_key::ClassKey;
use crate::end::WorldFault;
use crate::law::are_laid;
use crate::loads::Loads;
use indexmap::IndexMap;
use jl_access::Report;
use jl_class::ClassDecl;
use jl_layer::Layers;
use jl_prim::{ClassId, Copied, CopyEnd, Items, LayerId, LoaderId, ModuleId, Name};
use std::alloc::Global;
use std::rc::Rc;

impl Loads {
    /// The layers, with the classes of `java.base`, which are defined in this order, and with no check noted.
    pub fn new(layers: Layers, base: Items<ClassDecl>) -> Result<Loads, WorldFault>
        requires boot { 0 < length layers.layers }
        requires begin { IsBegin (base_packages layers) base }
        ensures { IfOk result (λ w. w ≡ begun layers base) }
    {
        let classes = base.into_vec();
        let mut world = Loads::over(*classes.allocator(), layers);
        for class in classes {
            world.begin(class)?;
        }
        Ok(world)
    }

    /// The layers, with no class.
    fn over(alloc: Global, layers: Layers) -> Loads
        requires { 0 < length layers.layers }
        ensures { result ≡ bare layers }
    {
        are_laid(&layers);
        Loads {
            base: base_of(&layers),
            layers,
            classes: Vec::new(alloc),
            names: IndexMap::new(alloc),
            report: Report::new(alloc),
            slots: Vec::new(alloc),
            kept: IndexMap::new(alloc),
            ranks: Vec::new(alloc),
        }
    }

    /// The module of `java.base`.
    fn base(&self) -> ModuleId
        ensures base { result ≡ beginning.base_of self.now }
        ensures there { IsModule self.now.layers result }
    {
        jl_layer::are_sound(&self.layers);
        self.base
    }

    /// Defines a class of `java.base` behind the others.
    fn begin(&mut self, class: ClassDecl) -> Result<(), WorldFault>
        requires { MayBegin self.old class }
        ensures { OnOk result (self.new ≡ with_class (base_class self.old class) self.old) }
    {
        jl_class::tables_stand(&class);
        let home = self.base();
        let loader = self.loader_of_module(home);
        let key = ClassKey {
            loader,
            name: class.name().copy()?,
        };
        let superclass = self.superclass_of(loader, &class)?;
        let interfaces = self.interfaces_named(loader, &class)?;
        let alloc = self.allocator();
        let class = Class::unlinked(alloc, loader, home, Rc::new(alloc, class)?);
        match self.add_class(class.under(superclass, interfaces), key) {
            Ok(_) => Ok(()),
            Err(_) => Err(WorldFault::NoMemory),
        }
    }

    /// The class that a class names as its superclass.
    fn superclass_of(&self, loader: LoaderId, class: &ClassDecl) -> Result<Option<ClassId>, CopyEnd>
        ensures { IfOk result (λ c. c ≡ option_map (class_named self.now loader) class.now.super_name) }
    {
        match class.super_name() {
            Some(name) => Ok(Some(self.named(loader, name)?)),
            None => Ok(None),
        }
    }

    /// The classes that a class names as its interfaces.
    fn interfaces_named(
        &self,
        loader: LoaderId,
        class: &ClassDecl,
    ) -> Result<Items<ClassId>, WorldFault>
        ensures { IfOk result (λ cs. cs ≡ map (class_named self.now loader) class.now.interfaces) }
    {
        let names = class.interfaces();
        let mut interfaces = Vec::new(self.allocator());
        for name in names {
            interfaces.push(self.named(loader, name)?)?;
        }
        Ok(Items::from_vec(interfaces))
    }

    /// The class with a name, or number 0.
    fn named(&self, loader: LoaderId, name: &Name) -> Result<ClassId, CopyEnd>
        ensures { IfOk result (λ c. c ≡ class_named self.now loader name.now) }
    {
        let key = ClassKey {
            loader,
            name: name.copy()?,
        };
        Ok(self.find_defined(&key).unwrap_or(ClassId(0)))
    }
}

/// The module of `java.base`, which the boot layer has.
fn base_of(layers: &Layers) -> ModuleId
    requires { 0 < length layers.now.layers }
    ensures { layers.now.loaders.base ≡ Some result }
{
    jl_layer::are_sound(layers);
    match layers.find_module(LayerId(1), "java.base".as_bytes()) {
        Some(m) => m,
        None => unreachable!(),
    }
}
