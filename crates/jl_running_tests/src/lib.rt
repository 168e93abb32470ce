//! Tests of the heap, the frames, the statics, the kept objects and the natives.
#![tactic(auto)]

#[cfg(test)]
mod frames;
#[cfg(test)]
mod heap;
#[cfg(test)]
mod kept;
#[cfg(test)]
mod natives;
#[cfg(test)]
mod statics;
#[cfg(test)]
mod store;
