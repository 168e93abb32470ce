//! All that a running program changes but its world.

ghost use Rattle.std.specs.Prelude.{◌≡◌, [], ◌∷◌, None, IfOk};
ghost use Rattle.jl_heap.specs.Stores.{IsObject, started};

use crate::ends::StoreEnd;
use crate::frames::Frames;
use crate::heap::Heap;
use crate::kept::Kept;
use crate::shape::Shape;
use crate::statics::Statics;
use std::alloc::Global;

/// The heap, the frames of the task that runs, the statics and the kept objects.
#[derive(Drop)]
pub struct Store {
    pub heap: Heap,
    pub frames: Frames,
    pub statics: Statics,
    pub kept: Kept,
}

impl Store {
    /// A store with two objects of these shapes, numbers 1 and 2: the OutOfMemoryError of a full heap, and
    /// what `System.out` is. Frames, statics and kept objects are empty; its task is 1.
    pub fn new(alloc: Global, no_heap: Shape, out: Shape) -> Result<Store, StoreEnd>
        requires no_heap { IsObject no_heap }
        requires out { IsObject out }
        ensures { IfOk result (λ store. store ≡ started no_heap out) }
    {
        let mut heap = Heap::new(alloc);
        let no_heap = heap.start(no_heap)?;
        let out = heap.start(out)?;
        Ok(Store {
            heap,
            frames: Frames::new(alloc, 1),
            statics: Statics::new(alloc),
            kept: Kept::new(alloc, no_heap, out),
        })
    }
}
