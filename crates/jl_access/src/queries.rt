//! Questions about one module or two.

ghost use Rattle.std.specs.Prelude.{◌≡◌, ◌||◌};
ghost use Rattle.std.specs.List.{list_any};
ghost use Rattle.jl_access.specs.Facts as facts;

use crate::facts::Facts;
use crate::statement::Reach;
use crate::table::About;
use jl_prim::ModuleId;

impl Facts {
    /// Whether a reads b. A module reads itself (`Module.canRead`).
    pub fn reads(&self, a: ModuleId, b: ModuleId) -> bool
        ensures { result ≡ facts.reads self.now a b }
    {
        a == b || self.says_reads(a, b)
    }

    /// Whether m exports a package of its own to a module or, where none is given, to all
    /// (`Module.isExported`). What is open counts as exported.
    pub fn exported(&self, m: ModuleId, name: &[u8], to: Option<ModuleId>) -> bool
        ensures { result ≡ facts.asked_exported self.now m name.now to }
    {
        self.has_package(m, name)
            && match to {
                None => self.exported_to_all(m, name),
                Some(c) => self.exported_to(m, name, c),
            }
    }

    /// Whether m opens a package of its own, likewise (`Module.isOpen`).
    pub fn opened(&self, m: ModuleId, name: &[u8], to: Option<ModuleId>) -> bool
        ensures { result ≡ facts.asked_open self.now m name.now to }
    {
        self.has_package(m, name)
            && match to {
                None => self.open_to_all(m, name),
                Some(c) => self.open_to(m, name, c),
            }
    }

    /// Whether m uses a service (`Module.canUse`).
    pub fn uses(&self, m: ModuleId, service: &[u8]) -> bool
        ensures { result ≡ facts.uses self.now m service.now }
    {
        self.says(About::Uses(m), service)
    }

    /// Whether m opens the package, to whomever.
    pub(crate) fn open_somewhere(&self, m: ModuleId, name: &[u8]) -> bool
        ensures { result ≡ facts.opened self.now m name.now }
    {
        self.is_open(m) || self.says_anywhere(About::Opens(m, Reach::All), name)
    }

    /// Whether m opens the package to all.
    pub(crate) fn open_to_all(&self, m: ModuleId, name: &[u8]) -> bool
        ensures { result ≡ facts.open_to_all self.now m name.now }
    {
        self.is_open(m) || self.says(About::Opens(m, Reach::All), name)
    }

    /// Whether m opens the package to c.
    pub(crate) fn open_to(&self, m: ModuleId, name: &[u8], c: ModuleId) -> bool
        ensures { result ≡ facts.open_to self.now m name.now c }
    {
        m == c || self.open_to_other(m, name, c)
    }

    /// Whether m opens the package to c, were c another module.
    fn open_to_other(&self, m: ModuleId, name: &[u8], c: ModuleId) -> bool
        ensures { result ≡ (facts.is_open_module self.now m || list_any (facts.says_opens (facts.reach_to c) m name.now) self.now.statements) }
    {
        self.is_open(m) || self.says_opened_to(m, name, c)
    }

    /// Whether it is stated that m opens the package to c or to all.
    fn says_opened_to(&self, m: ModuleId, name: &[u8], c: ModuleId) -> bool
        ensures { result ≡ list_any (facts.says_opens (facts.reach_to c) m name.now) self.now.statements }
    {
        self.says(About::Opens(m, Reach::All), name)
            || self.says(About::Opens(m, Reach::To(c)), name)
    }

    /// Whether m exports the package, to whomever. What is open is exported.
    pub(crate) fn exported_somewhere(&self, m: ModuleId, name: &[u8]) -> bool
        ensures { result ≡ facts.exported self.now m name.now }
    {
        self.open_somewhere(m, name) || self.says_anywhere(About::Exports(m, Reach::All), name)
    }

    /// Whether m exports the package to all.
    pub(crate) fn exported_to_all(&self, m: ModuleId, name: &[u8]) -> bool
        ensures { result ≡ facts.exported_to_all self.now m name.now }
    {
        self.open_to_all(m, name) || self.says(About::Exports(m, Reach::All), name)
    }

    /// Whether m exports the package to c.
    pub(crate) fn exported_to(&self, m: ModuleId, name: &[u8], c: ModuleId) -> bool
        ensures { result ≡ facts.exported_to self.now m name.now c }
    {
        self.open_to(m, name, c) || self.says_exported_to(m, name, c)
    }

    /// Whether it is stated that m exports the package to c or to all.
    fn says_exported_to(&self, m: ModuleId, name: &[u8], c: ModuleId) -> bool
        ensures { result ≡ list_any (facts.says_exports (facts.reach_to c) m name.now) self.now.statements }
    {
        self.says(About::Exports(m, Reach::All), name)
            || self.says(About::Exports(m, Reach::To(c)), name)
    }
}
