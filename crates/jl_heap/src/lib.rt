//! The heap, the frames, the statics and the kept objects of a machine, each with its limits (JVMS 2.5, 2.6).
#![tactic(auto)]

mod ends;
mod frame;
mod frames;
mod heap;
mod kept;
mod law;
mod shape;
mod statics;
mod store;
mod value;

pub use ends::{FrameEnd, HeapEnd, KeptEnd, RowEnd, StaticsEnd, StoreEnd};
pub use frame::{FrameKind, NewFrame};
pub use frames::Frames;
pub use heap::Heap;
pub use kept::{Kept, KeptKey};
pub use law::{objects_stay, shapes_stay, slots_are_counted};
pub use shape::{Base, Element, Mirror, Object, Shape, element_kind};
pub use statics::{StaticEntry, Statics, Usable};
pub use store::Store;
pub use value::{Kind, Value};
