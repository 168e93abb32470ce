//! Loading a class by its name (JVMS 5.3, 5.3.5).

ghost use Rattle.std.specs.Prelude.{◌≡◌, ◌≤◌, ◌++◌, ◌∷◌, [], List, None, Some, true, false, Contains, IfOk, IsErrOf, OnOk};
ghost use Rattle.std.specs.Str.{IsUtf8};
ghost use Rattle.jl_logic.specs.Counts.{Rose};
ghost use Rattle.jl_tree.specs.Files.{File};
ghost use Rattle.jl_layer.specs.Layers.{IsModule};
ghost use Rattle.jl_loaders.specs.Loaders.{IsLoader};
ghost use Rattle.jl_loads.specs.Ends.{Asks, Leaves};
ghost use Rattle.jl_loads.specs.Loading as loading;
ghost use Rattle.jl_loads.specs.Steps as steps;
ghost use Rattle.jl_loads.specs.Laws.{IsLoadedAs};
ghost use Rattle.jl_loads.specs.Steps.{IsUnlinked, StayFree, loads_above};
ghost use Rattle.jl_loads.specs.declared.class_key.ClassKey.{ClassKey};
ghost use Rattle.jl_prim.specs.declared.numbers.ClassId.{ClassId};
ghost use Rattle.jl_loads.specs.Worlds.{IsClass, Keeps};
ghost use Rattle.jl_loads.specs.Worlds as worlds;

use crate::class::Class;
use crate::class_key::ClassKey;
use crate::end::LinkEnd;
use crate::errors::{of_class, silent};
use crate::loads::Loads;
use crate::role::Role;
use crate::text::name_of;
use jl_prim::{
    ClassId, Copied, CopyEnd, ErrorKind, Items, LoaderId, MOST_WAITING_CLASSES, ModuleId, Name,
};
use jl_tree::Tree;

impl Loads {
    /// A loader loads the class with a name, at a step.
    ///
    /// A class that is defined answers at once. Else the name is led to a module, the class is made by its file there,
    /// and its supertypes are loaded and accessed before it is defined. What was defined and noted before an error stays.
    /// `ReadFault` comes only where the count of the tree's faults rose.
    pub fn load<T: Tree>(
        &mut self,
        tree: &mut T,
        loader: LoaderId,
        name: &[u8],
        at: u64,
    ) -> Result<ClassId, LinkEnd>
        requires text { IsUtf8 name.now }
        requires loader { IsLoader self.old.layers.loaders loader }
        ensures loads { (files : List File) → T.files tree.old ≡ Some files → Leaves (loading.load files at self.old loader name.now) result self.new }
        ensures there { IfOk result (IsClass self.new) }
        ensures keeps { Keeps self.old self.new }
        ensures asks { Asks self.old self.new (T.asked tree.old) (T.asked tree.new) }
        ensures found { IfOk result (λ c. IsLoadedAs self.new loader name.now c) }
        ensures same_files { T.files tree.new ≡ T.files tree.old }
        ensures counts { T.faults tree.old ≤ T.faults tree.new }
        ensures read_fault { IsErrOf result LinkEnd.ReadFault → Rose (T.faults tree.old) (T.faults tree.new) }
    {
        let alloc = self.allocator();
        let name = name_of(alloc, name)?;
        let mut waiting = Vec::new(alloc);
        self.load_by(tree, MOST_WAITING_CLASSES, &mut waiting, loader, &name, at)
    }

    /// A loader loads the class with a name, where these wait and so many more may.
    #[cycle(load)]
    fn load_by<T: Tree>(
        &mut self,
        tree: &mut T,
        more: usize,
        waiting: &mut Vec<ClassKey>,
        loader: LoaderId,
        name: &Name,
        at: u64,
    ) -> Result<ClassId, LinkEnd>
        requires { IsLoader self.old.layers.loaders loader }
        ensures loads { (files : List File) → T.files tree.old ≡ Some files → Leaves (loading.load_by more files at waiting.old.items self.old loader name.now) result self.new }
        ensures there { IfOk result (IsClass self.new) }
        ensures keeps { Keeps self.old self.new }
        ensures asks { Asks self.old self.new (T.asked tree.old) (T.asked tree.new) }
        ensures found { IfOk result (λ c. IsLoadedAs self.new loader name.now c) }
        ensures free { OnOk result (StayFree waiting.old.items self.old self.new) }
        ensures waiting { OnOk result (waiting.new.items ≡ waiting.old.items) }
        ensures same_files { T.files tree.new ≡ T.files tree.old }
        ensures counts { T.faults tree.old ≤ T.faults tree.new }
        ensures read_fault { IsErrOf result LinkEnd.ReadFault → Rose (T.faults tree.old) (T.faults tree.new) }
    {
        match self.lead(loader, name.as_bytes()) {
            None => Err(of_class(self.allocator(), ErrorKind::NoClassDefFoundError, name)),
            Some(home) => self.load_in(tree, more, waiting, home, name, at),
        }
    }

    /// The class of a module is loaded.
    #[cycle(load)]
    fn load_in<T: Tree>(
        &mut self,
        tree: &mut T,
        more: usize,
        waiting: &mut Vec<ClassKey>,
        home: ModuleId,
        name: &Name,
        at: u64,
    ) -> Result<ClassId, LinkEnd>
        requires { IsModule self.old.layers home }
        ensures loads { (files : List File) → T.files tree.old ≡ Some files → Leaves (steps.load_in more files at waiting.old.items self.old name.now home) result self.new }
        ensures there { IfOk result (IsClass self.new) }
        ensures keeps { Keeps self.old self.new }
        ensures asks { Asks self.old self.new (T.asked tree.old) (T.asked tree.new) }
        ensures found { IfOk result (λ c. worlds.defined self.new (worlds.loader_of_module self.new home) name.now ≡ Some c) }
        ensures free { OnOk result (StayFree waiting.old.items self.old self.new) }
        ensures waiting { OnOk result (waiting.new.items ≡ waiting.old.items) }
        ensures same_files { T.files tree.new ≡ T.files tree.old }
        ensures counts { T.faults tree.old ≤ T.faults tree.new }
        ensures read_fault { IsErrOf result LinkEnd.ReadFault → Rose (T.faults tree.old) (T.faults tree.new) }
    {
        let key = ClassKey {
            loader: self.loader_of_module(home),
            name: name.copy()?,
        };
        if let Some(c) = self.find_defined(&key) {
            return Ok(c);
        }
        if is_waiting(waiting.as_slice(), &key) {
            return Err(of_class(self.allocator(), ErrorKind::ClassCircularityError, name));
        }
        if more == 0 {
            return Err(silent(ErrorKind::StackOverflowError));
        }
        self.make(tree, more - 1, waiting, home, key, at)
    }

    /// A class is made by its file.
    #[cycle(load)]
    fn make<T: Tree>(
        &mut self,
        tree: &mut T,
        fewer: usize,
        waiting: &mut Vec<ClassKey>,
        home: ModuleId,
        key: ClassKey,
        at: u64,
    ) -> Result<ClassId, LinkEnd>
        requires module { IsModule self.old.layers home }
        requires there { IsLoader self.old.layers.loaders key.loader }
        requires owner { key.loader ≡ worlds.loader_of_module self.old home }
        requires free { loading.is_waiting key.loader key.name waiting.old.items ≡ false }
        requires fresh { worlds.defined self.old key.loader key.name ≡ None }
        ensures loads { (files : List File) → T.files tree.old ≡ Some files → Leaves (steps.made fewer files at waiting.old.items self.old key home) result self.new }
        ensures there { IfOk result (IsClass self.new) }
        ensures keeps { Keeps self.old self.new }
        ensures asks { Asks self.old self.new (T.asked tree.old) (T.asked tree.new) }
        ensures found { IfOk result (λ c. worlds.defined self.new key.loader key.name ≡ Some c) }
        ensures free { OnOk result (StayFree waiting.old.items self.old self.new) }
        ensures waiting { OnOk result (waiting.new.items ≡ waiting.old.items) }
        ensures same_files { T.files tree.new ≡ T.files tree.old }
        ensures counts { T.faults tree.old ≤ T.faults tree.new }
        ensures read_fault { IsErrOf result LinkEnd.ReadFault → Rose (T.faults tree.old) (T.faults tree.new) }
    {
        let class = self.read_unlinked(tree, home, &key)?;
        wait_for(waiting, &key)?;
        let c = self.link(tree, fewer, waiting, class, key, at)?;
        let _ = waiting.pop();
        Ok(c)
    }

    /// A class whose supertypes are loaded, and which is then defined.
    #[cycle(load)]
    fn link<T: Tree>(
        &mut self,
        tree: &mut T,
        fewer: usize,
        waiting: &mut Vec<ClassKey>,
        new: Class,
        key: ClassKey,
        at: u64,
    ) -> Result<ClassId, LinkEnd>
        requires new { IsUnlinked self.old key new }
        requires waits { loading.is_waiting key.loader key.name waiting.old.items ≡ true }
        requires fresh { worlds.defined self.old key.loader key.name ≡ None }
        ensures loads { (files : List File) → T.files tree.old ≡ Some files → Leaves (loading.linked (loads_above fewer files at waiting.old.items key) at self.old new) result self.new }
        ensures there { IfOk result (IsClass self.new) }
        ensures keeps { Keeps self.old self.new }
        ensures asks { Asks self.old self.new (T.asked tree.old) (T.asked tree.new) }
        ensures found { IfOk result (λ c. worlds.defined self.new key.loader key.name ≡ Some c) }
        ensures free { OnOk result ((before : List ClassKey) → waiting.old.items ≡ before ++ key ∷ [] → loading.is_waiting key.loader key.name before ≡ false → StayFree before self.old self.new) }
        ensures waiting { OnOk result (waiting.new.items ≡ waiting.old.items) }
        ensures same_files { T.files tree.new ≡ T.files tree.old }
        ensures counts { T.faults tree.old ≤ T.faults tree.new }
        ensures read_fault { IsErrOf result LinkEnd.ReadFault → Rose (T.faults tree.old) (T.faults tree.new) }
    {
        let superclass = self.load_superclass(tree, fewer, waiting, &new, &key, at)?;
        let interfaces = self.load_interfaces(tree, fewer, waiting, &new, &key, at)?;
        self.add_class(new.under(superclass, interfaces), key)
    }

    /// The superclass is loaded, where the class names one.
    #[cycle(load)]
    fn load_superclass<T: Tree>(
        &mut self,
        tree: &mut T,
        fewer: usize,
        waiting: &mut Vec<ClassKey>,
        new: &Class,
        key: &ClassKey,
        at: u64,
    ) -> Result<Option<ClassId>, LinkEnd>
        requires module { IsModule self.old.layers new.now.home }
        requires loader { IsLoader self.old.layers.loaders key.now.loader }
        ensures loads { (files : List File) → T.files tree.old ≡ Some files → Leaves (loading.superclass (loads_above fewer files at waiting.old.items key.now) at new.now self.old new.now.declared.super_name) result self.new }
        ensures keeps { Keeps self.old self.new }
        ensures asks { Asks self.old self.new (T.asked tree.old) (T.asked tree.new) }
        ensures there { IfOk result (λ o. (d : ClassId) → o ≡ Some d → IsClass self.new d) }
        ensures free { OnOk result (StayFree waiting.old.items self.old self.new) }
        ensures waiting { OnOk result (waiting.new.items ≡ waiting.old.items) }
        ensures same_files { T.files tree.new ≡ T.files tree.old }
        ensures counts { T.faults tree.old ≤ T.faults tree.new }
        ensures read_fault { IsErrOf result LinkEnd.ReadFault → Rose (T.faults tree.old) (T.faults tree.new) }
    {
        match new.declared().super_name() {
            None => Ok(None),
            Some(name) => {
                let c = self.load_supertype(
                    tree,
                    fewer,
                    waiting,
                    new,
                    key,
                    Role::Superclass,
                    name,
                    at,
                )?;
                Ok(Some(c))
            }
        }
    }

    /// The superinterfaces are loaded in turn.
    #[cycle(load)]
    fn load_interfaces<T: Tree>(
        &mut self,
        tree: &mut T,
        fewer: usize,
        waiting: &mut Vec<ClassKey>,
        new: &Class,
        key: &ClassKey,
        at: u64,
    ) -> Result<Items<ClassId>, LinkEnd>
        requires module { IsModule self.old.layers new.now.home }
        requires loader { IsLoader self.old.layers.loaders key.now.loader }
        ensures loads { (files : List File) → T.files tree.old ≡ Some files → Leaves (loading.interfaces_behind (loads_above fewer files at waiting.old.items key.now) at new.now self.old [] new.now.declared.interfaces) result self.new }
        ensures keeps { Keeps self.old self.new }
        ensures asks { Asks self.old self.new (T.asked tree.old) (T.asked tree.new) }
        ensures there { IfOk result (λ cs. (d : ClassId) → Contains cs d → IsClass self.new d) }
        ensures free { OnOk result (StayFree waiting.old.items self.old self.new) }
        ensures waiting { OnOk result (waiting.new.items ≡ waiting.old.items) }
        ensures same_files { T.files tree.new ≡ T.files tree.old }
        ensures counts { T.faults tree.old ≤ T.faults tree.new }
        ensures read_fault { IsErrOf result LinkEnd.ReadFault → Rose (T.faults tree.old) (T.faults tree.new) }
    {
        let mut found = Vec::new(self.allocator());
        let names = new.declared().interfaces();
        for name in names {
            let c = self.load_supertype(
                tree,
                fewer,
                waiting,
                new,
                key,
                Role::Superinterface,
                name,
                at,
            )?;
            found.push(c)?;
        }
        Ok(Items::from_vec(found))
    }

    /// A class loads one that it names above itself.
    #[cycle(load)]
    fn load_supertype<T: Tree>(
        &mut self,
        tree: &mut T,
        fewer: usize,
        waiting: &mut Vec<ClassKey>,
        new: &Class,
        key: &ClassKey,
        role: Role,
        name: &Name,
        at: u64,
    ) -> Result<ClassId, LinkEnd>
        requires module { IsModule self.old.layers new.now.home }
        requires loader { IsLoader self.old.layers.loaders key.now.loader }
        ensures loads { (files : List File) → T.files tree.old ≡ Some files → Leaves (loading.supertype (loads_above fewer files at waiting.old.items key.now) at new.now self.old role name.now) result self.new }
        ensures keeps { Keeps self.old self.new }
        ensures asks { Asks self.old self.new (T.asked tree.old) (T.asked tree.new) }
        ensures there { IfOk result (IsClass self.new) }
        ensures free { OnOk result (StayFree waiting.old.items self.old self.new) }
        ensures waiting { OnOk result (waiting.new.items ≡ waiting.old.items) }
        ensures same_files { T.files tree.new ≡ T.files tree.old }
        ensures counts { T.faults tree.old ≤ T.faults tree.new }
        ensures read_fault { IsErrOf result LinkEnd.ReadFault → Rose (T.faults tree.old) (T.faults tree.new) }
    {
        let c = self.load_by(tree, fewer, waiting, key.loader, name, at)?;
        self.accept(new, role, c, at)
    }
}

/// Whether a class is one of those that wait.
fn is_waiting(waiting: &[ClassKey], key: &ClassKey) -> bool
    ensures { result ≡ loading.is_waiting key.now.loader key.now.name waiting.now }
{
    waiting
        .iter()
        .any(|w| w.loader.0 == key.loader.0 && w.name == key.name)
}

/// One more class waits.
fn wait_for(waiting: &mut Vec<ClassKey>, key: &ClassKey) -> Result<(), CopyEnd>
    ensures items { OnOk result (waiting.new.items ≡ waiting.old.items ++ key.now ∷ []) }
    ensures waits { OnOk result (loading.is_waiting key.now.loader key.now.name waiting.new.items ≡ true) }
{
    waiting.push(key.copy()?)?;
    Ok(())
}
