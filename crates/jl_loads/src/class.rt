//! A class that is defined, or about to be.

ghost use Rattle.std.specs.Prelude.{◌≡◌, [], None, IfOk};
ghost use Rattle.jl_loads.specs.Loading.{under, unlinked};
ghost use Rattle.jl_loads.specs.Worlds.{place_of};

use crate::package::package_name;
use jl_access::Place;
use jl_class::ClassDecl;
use jl_prim::{ClassId, CopyEnd, Items, LoaderId, ModuleId};
use std::alloc::Global;
use std::marker::Model;
use std::rc::Rc;

/// A class: its defining loader and the module of that, the classes that it extends and implements, and what its
/// file declares.
#[derive(Drop)]
pub struct Class {
    loader: LoaderId,
    home: ModuleId,
    superclass: Option<ClassId>,
    interfaces: Items<ClassId>,
    declared: Rc<ClassDecl>,
}

impl Model for Class {
    ghost use Rattle.jl_loads.specs.Worlds.{Loaded};

    ghost Value = { Loaded };

    ghost view = { λ c. record { loader = c.loader; home = c.home; super = c.superclass; interfaces = c.interfaces; declared = c.declared.value } };
}

impl Class {
    /// A class before its supertypes are loaded.
    pub fn unlinked(
        alloc: Global,
        loader: LoaderId,
        home: ModuleId,
        declared: Rc<ClassDecl>,
    ) -> Class
        ensures { result ≡ unlinked loader home declared.value }
    {
        Class {
            loader,
            home,
            superclass: None,
            interfaces: Items::new(alloc),
            declared,
        }
    }

    /// The class with its supertypes.
    pub fn under(self, superclass: Option<ClassId>, interfaces: Items<ClassId>) -> Class
        ensures { result ≡ under self superclass interfaces }
    {
        Class {
            loader: self.loader,
            home: self.home,
            superclass,
            interfaces,
            declared: self.declared,
        }
    }

    /// Its defining loader.
    pub fn loader(&self) -> LoaderId
        ensures { result ≡ self.now.loader }
    {
        self.loader
    }

    /// The module that it is of.
    pub fn home(&self) -> ModuleId
        ensures { result ≡ self.now.home }
    {
        self.home
    }

    /// Its superclass.
    pub fn superclass(&self) -> Option<ClassId>
        ensures { result ≡ self.now.super }
    {
        self.superclass
    }

    /// Its direct superinterfaces, in order.
    pub fn interfaces(&self) -> &[ClassId]
        ensures { result.now ≡ self.now.interfaces }
    {
        self.interfaces.as_slice()
    }

    /// What its file declares.
    pub fn declared(&self) -> &Rc<ClassDecl>
        ensures { result.now.value ≡ self.now.declared }
    {
        &self.declared
    }

    /// Where it is, for checks of access.
    pub fn place(&self, alloc: Global) -> Result<Place, CopyEnd>
        ensures { IfOk result (λ place. place ≡ place_of self.now) }
    {
        Ok(Place {
            module: self.home,
            loader: self.loader,
            package: package_name(alloc, self.declared.name())?,
        })
    }
}
