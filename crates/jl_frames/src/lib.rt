//! Stack maps: the frames that a StackMapTable attribute declares (JVMS 4.7.4).
#![tactic(auto)]

mod fault;
mod form;
mod frame;
mod reading;

pub use fault::FrameFault;
pub use frame::{Change, Frame, RawItem};
pub use reading::read_frames;
