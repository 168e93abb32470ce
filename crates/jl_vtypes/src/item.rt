//! Items of a frame.

ghost use Rattle.std.specs.Prelude.{◌≡◌};
ghost use Rattle.jl_vtypes.specs.Assignability as words;

use jl_prim::{Copied, CopyEnd, Name};

/// What a slot of a frame holds: a verification type (JVMS 4.10.1.2).
#[derive(Debug, Drop)]
pub enum Item {
    /// Anything, or nothing that can be used.
    Top,
    Int,
    Float,
    Long,
    Double,
    Null,
    /// The object that an `<init>` was called on, before another `<init>` was.
    UninitThis,
    /// The object that the `new` at this place of the code makes, before its `<init>` was called.
    Uninit(u32),
    /// An object of the class or interface with this name in internal form.
    Class(Name),
    /// An array, by its descriptor, which begins with `[`. Nothing is said of other texts.
    Array(Name),
}

impl Item {
    /// Whether two items are the same one.
    pub fn is_same(&self, other: &Item) -> bool
        ensures { result ≡ words.is_same self.now other.now }
    {
        match (self, other) {
            (Item::Top, Item::Top)
            | (Item::Int, Item::Int)
            | (Item::Float, Item::Float)
            | (Item::Long, Item::Long)
            | (Item::Double, Item::Double)
            | (Item::Null, Item::Null)
            | (Item::UninitThis, Item::UninitThis) => true,
            (Item::Uninit(made_at), Item::Uninit(other)) => made_at == other,
            (Item::Class(name), Item::Class(other)) => name == other,
            (Item::Array(desc), Item::Array(other)) => desc == other,
            _ => false,
        }
    }
}

impl Copied for Item {
    fn copy(&self) -> Result<Item, CopyEnd> {
        Ok(match self {
            Item::Top => Item::Top,
            Item::Int => Item::Int,
            Item::Float => Item::Float,
            Item::Long => Item::Long,
            Item::Double => Item::Double,
            Item::Null => Item::Null,
            Item::UninitThis => Item::UninitThis,
            Item::Uninit(made_at) => Item::Uninit(*made_at),
            Item::Class(name) => Item::Class(name.copy()?),
            Item::Array(desc) => Item::Array(desc.copy()?),
        })
    }
}
