//! What a module declares, and where it was found.

ghost use Rattle.std.specs.Prelude.{◌↔◌, IsTrue, Contains};

use crate::copied::Copied;
use crate::ends::CopyEnd;
use crate::items::Items;
use crate::name::Name;
use crate::numbers::LoaderId;

/// A module that another requires (JLS 7.7.1).
#[derive(Debug, PartialEq, Drop)]
pub struct Requires {
    pub name: Name,
    pub transitive: bool,
    pub is_static: bool,
}

/// A package that is exported or opened, to the named modules or, where there is no list, to all
/// (JLS 7.7.2).
#[derive(Debug, Drop)]
pub struct Grant {
    pub package: Name,
    pub to: Option<Items<Name>>,
}

/// A service and the classes that implement it, in order (JLS 7.7.4).
#[derive(Debug, Drop)]
pub struct Provides {
    pub service: Name,
    pub implementations: Items<Name>,
}

/// A module declaration (JLS 7.7, JVMS 4.7.25). Package and class names are in internal form, with `/`.
#[derive(Debug, Drop)]
pub struct Declaration {
    pub name: Name,
    pub is_open: bool,
    pub version: Option<Name>,
    pub required: Items<Requires>,
    pub exports: Items<Grant>,
    pub opens: Items<Grant>,
    pub uses: Items<Name>,
    pub provides: Items<Provides>,
    pub packages: Items<Name>,
    pub main: Option<Name>,
}

impl Declaration {
    /// Whether the module contains the package with this name.
    pub fn has_package(&self, p: &[u8]) -> bool
        ensures { IsTrue result ↔ Contains self.now.packages p.now }
    {
        self.packages
            .as_slice()
            .iter()
            .any(|name| name.as_bytes() == p)
    }
}

/// A declaration and the folder that holds it.
#[derive(Debug, Drop)]
pub struct Observed {
    pub declaration: Declaration,
    pub place: Name,
}

/// The modules that a finder observes.
#[derive(Debug, Drop)]
pub struct Found {
    pub modules: Items<Observed>,
}

/// A range of code and where an exception in it is handled (JVMS 4.7.3). A catch type of 0 takes every
/// exception.
#[derive(Clone, Copy, Debug, PartialEq, Eq)]
pub struct Handler {
    pub start: u16,
    pub end: u16,
    pub target: u16,
    pub catch_type: u16,
}

/// The loader to which a layer's loaders turn last.
#[derive(Clone, Copy, Debug, PartialEq, Eq)]
pub enum ParentLoader {
    /// `java.base` alone.
    Null,
    Loader(LoaderId),
}

impl Copied for Requires {
    fn copy(&self) -> Result<Requires, CopyEnd> {
        Ok(Requires {
            name: self.name.copy()?,
            transitive: self.transitive,
            is_static: self.is_static,
        })
    }
}

impl Copied for Grant {
    fn copy(&self) -> Result<Grant, CopyEnd> {
        Ok(Grant {
            package: self.package.copy()?,
            to: self.to.copy()?,
        })
    }
}

impl Copied for Provides {
    fn copy(&self) -> Result<Provides, CopyEnd> {
        Ok(Provides {
            service: self.service.copy()?,
            implementations: self.implementations.copy()?,
        })
    }
}

impl Copied for Declaration {
    fn copy(&self) -> Result<Declaration, CopyEnd> {
        Ok(Declaration {
            name: self.name.copy()?,
            is_open: self.is_open,
            version: self.version.copy()?,
            required: self.required.copy()?,
            exports: self.exports.copy()?,
            opens: self.opens.copy()?,
            uses: self.uses.copy()?,
            provides: self.provides.copy()?,
            packages: self.packages.copy()?,
            main: self.main.copy()?,
        })
    }
}

impl Copied for Observed {
    fn copy(&self) -> Result<Observed, CopyEnd> {
        Ok(Observed {
            declaration: self.declaration.copy()?,
            place: self.place.copy()?,
        })
    }
}
