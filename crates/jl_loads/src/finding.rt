//! Where names lead, and which classes are there already.

ghost use Rattle.std.specs.Prelude.{◌≡◌, ◌≤◌, IfErr, IfOk, IfSome, IsErrOf, IsSome, List, None, OnOk, Some};
ghost use Rattle.std.specs.String.{string_bytes};
ghost use Rattle.jl_logic.specs.Counts.{Rose};
ghost use Rattle.jl_tree.specs.Files.{File};
ghost use Rattle.jl_layer.specs.Layers.{IsModule};
ghost use Rattle.jl_loaders.specs.Loaders.{IsLoader};
ghost use Rattle.jl_loaders.specs.Loaders as delegation;
ghost use Rattle.jl_loads.specs.Ends.{Asks, IsNotRead, Leaves};
ghost use Rattle.jl_loads.specs.Loading as loading;
ghost use Rattle.jl_loads.specs.Loading.{kept_at, with_file};
ghost use Rattle.jl_loads.specs.Steps as steps;
ghost use Rattle.jl_loads.specs.Steps.{IsUnlinked};
ghost use Rattle.jl_loads.specs.Worlds as worlds;
ghost use Rattle.jl_loads.specs.Worlds.{Content, IsClass, Keeps, files_of_module};

use crate::class::Class;
use crate::class_key::ClassKey;
use crate::end::{FileEnd, LinkEnd};
use crate::errors::of_class;
use crate::file;
use crate::kept::{Kept, keep_file};
use crate::loads::Loads;
use crate::text::module_text;
use jl_class::tables_stand;
use jl_prim::{ClassId, CopyEnd, ErrorKind, LoaderId, ModuleId, Name};
use jl_tree::Tree;
use std::alloc::AllocError;

impl Loads {
    /// The class that a loader has defined with a name.
    pub fn defined(&self, loader: LoaderId, name: Name) -> Option<ClassId>
        ensures class { result ≡ worlds.defined self.now loader name }
        ensures there { IfSome result (IsClass self.now) }
    {
        self.find_defined(&ClassKey { loader, name })
    }

    /// The class that was defined under a key.
    pub(crate) fn find_defined(&self, key: &ClassKey) -> Option<ClassId>
        ensures class { result ≡ worlds.defined self.now key.now.loader key.now.name }
        ensures there { IfSome result (IsClass self.now) }
    {
        self.names.get(key).copied()
    }

    /// The module to which a loader leads a name.
    pub(crate) fn lead(&self, loader: LoaderId, name: &[u8]) -> Option<ModuleId>
        requires { IsLoader self.now.layers.loaders loader }
        ensures leads { result ≡ delegation.lead self.now.layers.loaders loader name.now }
        ensures there { IfSome result (IsModule self.now.layers) }
    {
        jl_layer::leads_by_layers(&self.layers);
        self.layers.loaders().lead(loader, name)
    }

    /// The loader of a module.
    pub(crate) fn loader_of_module(&self, m: ModuleId) -> LoaderId
        requires { IsModule self.now.layers m }
        ensures loader { result ≡ worlds.loader_of_module self.now m }
        ensures there { IsLoader self.now.layers.loaders result }
    {
        jl_layer::are_sound(&self.layers);
        self.layers.loader_of_module(m)
    }

    /// Whether a module is `java.base`.
    pub(crate) fn is_base(&self, m: ModuleId) -> bool
        ensures { result ≡ worlds.is_base self.now m }
    {
        self.base == m
    }

    /// The path of the file of a class in a module.
    pub(crate) fn path(&self, m: ModuleId, name: &Name) -> Result<Name, CopyEnd>
        requires { IsModule self.now.layers m }
        ensures { IfOk result (λ path. path ≡ loading.path_of (files_of_module self.now m) name.now) }
    {
        file::path_of(self.allocator(), self.layers.place_of(m), name)
    }

    /// Keeps what a path gives, if nothing is kept of it. No path is read twice, however a call ends.
    pub(crate) fn keep_file<T: Tree>(&mut self, tree: &mut T, path: &Name) -> Result<(), FileEnd>
        ensures file { (files : List File) → T.files tree.old ≡ Some files → OnOk result (self.new ≡ with_file files path.now self.old) }
        ensures there { OnOk result (IsSome (kept_at self.new path.now)) }
        ensures others { self.new ≡ record { layers = self.old.layers; classes = self.old.classes; report = self.old.report; slots = self.old.slots; kept = self.new.kept } }
        ensures keeps { Keeps self.old self.new }
        ensures asks { Asks self.old self.new (T.asked tree.old) (T.asked tree.new) }
        ensures same_files { T.files tree.new ≡ T.files tree.old }
        ensures counts { T.faults tree.old ≤ T.faults tree.new }
        ensures read_fault { IsErrOf result FileEnd.ReadFault → Rose (T.faults tree.old) (T.faults tree.new) }
    {
        let alloc = self.allocator();
        keep_file(&mut self.kept, alloc, tree, path)
    }

    /// What is kept of a path.
    pub(crate) fn kept_of(&self, path: &Name) -> &Kept
        requires { IsSome (kept_at self.now path.now) }
        ensures { kept_at self.now path.now ≡ Some result.now }
    {
        match self.kept.get(path) {
            Some(what) => what,
            None => unreachable!(),
        }
    }

    /// A class of a module by its file, before its supertypes are loaded.
    pub(crate) fn read_unlinked<T: Tree>(
        &mut self,
        tree: &mut T,
        home: ModuleId,
        key: &ClassKey,
    ) -> Result<Class, LinkEnd>
        requires module { IsModule self.old.layers home }
        requires loader { IsLoader self.old.layers.loaders key.now.loader }
        requires owner { key.now.loader ≡ worlds.loader_of_module self.old home }
        requires fresh { worlds.defined self.old key.now.loader key.now.name ≡ None }
        ensures reads { (files : List File) → T.files tree.old ≡ Some files → Leaves (steps.unlinked_in files self.old key.now home) result self.new }
        ensures new { IfOk result (IsUnlinked self.new key.now) }
        ensures classes { self.new.classes ≡ self.old.classes }
        ensures fresh { OnOk result (worlds.defined self.new key.now.loader key.now.name ≡ None) }
        ensures keeps { Keeps self.old self.new }
        ensures asks { Asks self.old self.new (T.asked tree.old) (T.asked tree.new) }
        ensures same_files { T.files tree.new ≡ T.files tree.old }
        ensures counts { T.faults tree.old ≤ T.faults tree.new }
        ensures read_fault { IsErrOf result LinkEnd.ReadFault → Rose (T.faults tree.old) (T.faults tree.new) }
    {
        if self.is_base(home) {
            return Err(of_class(self.allocator(), ErrorKind::NoClassDefFoundError, &key.name));
        }
        let path = self.path(home, &key.name)?;
        self.keep_file(tree, &path)?;
        self.unlinked(home, key, &path)
    }

    /// A class by what is kept of the path of its file, before its supertypes are loaded.
    fn unlinked(&self, home: ModuleId, key: &ClassKey, path: &Name) -> Result<Class, LinkEnd>
        requires module { IsModule self.now.layers home }
        requires loader { IsLoader self.now.layers.loaders key.now.loader }
        requires owner { key.now.loader ≡ worlds.loader_of_module self.now home }
        requires there { IsSome (kept_at self.now path.now) }
        ensures gives { (what : Content) → kept_at self.now path.now ≡ Some what → Leaves (steps.unlinked_by key.now home what self.now) result self.now }
        ensures new { IfOk result (IsUnlinked self.now key.now) }
        ensures not_read { IfErr result IsNotRead }
    {
        let alloc = self.allocator();
        let declared = self.kept_of(path).declared(alloc, &key.name)?;
        tables_stand(&declared);
        Ok(Class::unlinked(alloc, key.loader, home, declared))
    }

    /// A module as it is printed: its name and its layer.
    pub fn module_text(&self, m: ModuleId) -> Result<String, AllocError>
        requires { IsModule self.now.layers m }
        ensures { IfOk result (λ text. string_bytes text ≡ worlds.module_text self.now m) }
    {
        module_text(self.allocator(), &self.layers, m)
    }
}
