//! Numbers in a file and inside an attribute.

ghost use Rattle.std.specs.Prelude.{◌≡◌};
ghost use Rattle.jl_reading.specs.Reading.{number_at};
ghost use Rattle.jl_classfile.specs.Places.{Reads, content_at, inside};
ghost use Rattle.jl_class.specs.Faults.{cut, told};

use crate::fault::ClassFault;
use jl_classfile::Place;

/// What is read, which decides the fault of what is not whole.
#[derive(Clone, Copy, Debug, PartialEq, Eq)]
pub enum Source {
    /// The file.
    File,
    /// The content of the attribute whose name index stands at this place.
    Content(usize),
}

impl Source {
    /// The fault where a unit at a place is not whole.
    pub fn cut(self, at: usize) -> ClassFault
        ensures { result ≡ cut self at }
    {
        match self {
            Source::File => ClassFault::Short(at),
            Source::Content(place) => ClassFault::Attribute(place),
        }
    }

    /// The number in two bytes, and the place after it.
    pub fn u16(self, place: Place<'_>) -> Result<(u16, Place<'_>), ClassFault>
        ensures { Reads told (λ n. n) place.entry result (number_at (cut self) 2) }
    {
        match place.next_u16() {
            Some(read) => Ok(read),
            None => Err(self.cut(place.at)),
        }
    }

    /// The content whose length stands at a place, and the place after it.
    #[tactic(auto, unfolding(jl_classfile::specs::Places::content_at))]
    pub fn content(self, place: Place<'_>) -> Result<(Place<'_>, Place<'_>), ClassFault>
        ensures { Reads told inside place.entry result (content_at (cut self)) }
    {
        let Some((count, start)) = place.next_u32() else {
            return Err(self.cut(place.at));
        };
        match start.next_content(count as usize) {
            Some(read) => Ok(read),
            None => Err(self.cut(start.at)),
        }
    }
}
