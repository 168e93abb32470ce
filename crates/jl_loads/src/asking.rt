//! Whether there is the file of a class.

ghost use Rattle.std.specs.Prelude.{◌≡◌, ◌≤◌, List, Some, IfOk, IsErrOf};
ghost use Rattle.std.specs.Str.{IsUtf8};
ghost use Rattle.jl_logic.specs.Counts.{Rose};
ghost use Rattle.jl_tree.specs.Files.{File};
ghost use Rattle.jl_layer.specs.Layers.{IsModule};
ghost use Rattle.jl_loaders.specs.Loaders.{IsLoader};
ghost use Rattle.jl_loads.specs.Ends.{Asks};
ghost use Rattle.jl_loads.specs.Loading as loading;
ghost use Rattle.jl_loads.specs.Worlds.{Keeps};

use crate::end::FileEnd;
use crate::loads::Loads;
use crate::text::name_of;
use jl_prim::{LoaderId, ModuleId, Name};
use jl_tree::Tree;

impl Loads {
    /// Whether the module that a loader leads the name of a class to has the file of the class, and is not
    /// `java.base`; a file that is too long counts. Nothing is loaded, and what the file gave is kept. `ReadFault` comes
    /// only where the count of the tree's faults rose.
    pub fn has_file<T: Tree>(
        &mut self,
        tree: &mut T,
        loader: LoaderId,
        name: &[u8],
    ) -> Result<bool, FileEnd>
        requires text { IsUtf8 name.now }
        requires loader { IsLoader self.old.layers.loaders loader }
        ensures answers { (files : List File) → T.files tree.old ≡ Some files → IfOk result (λ there. (self.new, there) ≡ loading.has_file files self.old loader name.now) }
        ensures others { self.new ≡ record { layers = self.old.layers; classes = self.old.classes; report = self.old.report; slots = self.old.slots; kept = self.new.kept } }
        ensures keeps { Keeps self.old self.new }
        ensures asks { Asks self.old self.new (T.asked tree.old) (T.asked tree.new) }
        ensures same_files { T.files tree.new ≡ T.files tree.old }
        ensures counts { T.faults tree.old ≤ T.faults tree.new }
        ensures read_fault { IsErrOf result FileEnd.ReadFault → Rose (T.faults tree.old) (T.faults tree.new) }
    {
        let name = name_of(self.allocator(), name)?;
        match self.lead(loader, name.as_bytes()) {
            Some(home) => self.has_file_in(tree, home, &name),
            None => Ok(false),
        }
    }

    /// Whether a module has the file of a class, and is not `java.base`.
    fn has_file_in<T: Tree>(
        &mut self,
        tree: &mut T,
        home: ModuleId,
        name: &Name,
    ) -> Result<bool, FileEnd>
        requires { IsModule self.old.layers home }
        ensures answers { (files : List File) → T.files tree.old ≡ Some files → IfOk result (λ there. (self.new, there) ≡ loading.has_file_in files self.old name.now home) }
        ensures others { self.new ≡ record { layers = self.old.layers; classes = self.old.classes; report = self.old.report; slots = self.old.slots; kept = self.new.kept } }
        ensures keeps { Keeps self.old self.new }
        ensures asks { Asks self.old self.new (T.asked tree.old) (T.asked tree.new) }
        ensures same_files { T.files tree.new ≡ T.files tree.old }
        ensures counts { T.faults tree.old ≤ T.faults tree.new }
        ensures read_fault { IsErrOf result FileEnd.ReadFault → Rose (T.faults tree.old) (T.faults tree.new) }
    {
        if self.is_base(home) {
            return Ok(false);
        }
        let path = self.path(home, name)?;
        self.keep_file(tree, &path)?;
        self.kept_of(&path).is_there()
    }
}
