//! Which classes are subtypes of which (JLS 4.10.2).

ghost use Rattle.std.specs.Prelude.{◌≡◌, slice_get};
ghost use Rattle.std.specs.Option.{option_copied};
ghost use Rattle.jl_loads.specs.Worlds.{IsClass, class_at, superinterfaces};
ghost use Rattle.jl_loads.specs.Worlds as worlds;

use crate::above::is_there;
use crate::class::Class;
use crate::loads::Loads;
use jl_prim::ClassId;

impl Loads {
    /// Whether a class is another one, or has it among its superclasses and superinterfaces at any depth.
    pub fn is_subtype(&self, c: ClassId, d: ClassId) -> bool
        ensures { result ≡ worlds.is_subtype self.now c d }
    {
        self.is_subclass(c, d) || is_there(self.above(c), d)
    }

    /// Whether a class is another one or one of its subclasses.
    pub fn is_subclass(&self, c: ClassId, d: ClassId) -> bool
        ensures { result ≡ worlds.is_subclass self.now c d }
    {
        let mut most = c.0;
        let mut at = Some(c);
        while let Some(here) = at {
            if most == 0 {
                return false;
            }
            if d == here {
                return true;
            }
            at = self.superclass(here);
            most -= 1;
        }
        false
    }

    /// The superinterfaces of a class at any depth, each once: the direct ones in order, each behind its own, and then
    /// those of the superclass.
    pub fn superinterfaces(&self, c: ClassId) -> &[ClassId]
        requires { IsClass self.now c }
        ensures { result.now ≡ superinterfaces self.now c }
    {
        self.rank(c).above.as_slice()
    }

    /// The superinterfaces of a class, if there is the class.
    #[tactic(auto, using(crate::proofs::Ranked::no_above))]
    pub(crate) fn above(&self, c: ClassId) -> &[ClassId]
        ensures { result.now ≡ superinterfaces self.now c }
    {
        if c.0 == 0 || c.0 > self.classes() {
            return &[];
        }
        self.superinterfaces(c)
    }

    /// The class with a number, if there is one.
    fn find(&self, c: ClassId) -> Option<&Class>
        ensures { option_copied result ≡ class_at self.now c }
    {
        if c.0 == 0 {
            return None;
        }
        nth(self.classes.as_slice(), c.0 as usize - 1)
    }

    /// The superclass of a class, if there is the class and it has one.
    fn superclass(&self, c: ClassId) -> Option<ClassId>
        ensures { result ≡ worlds.super_of self.now c }
    {
        self.find(c)?.superclass()
    }
}

/// The class at a place, if there is one.
fn nth(classes: &[Class], at: usize) -> Option<&Class>
    ensures { option_copied result ≡ slice_get classes.now at }
{
    classes.get(at)
}
