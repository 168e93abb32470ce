//! Reading bytes from places, from left to right, with the first fault that is met.
//!
//! A reader is a function of the bytes and a place, and answers the value with the place after it, or a
//! fault. The definitions of readers are written over the same words, on lists.
#![tactic(auto)]

mod fault;
mod number;

pub use fault::Fault;
pub use number::{byte_at, is_whole, u16_at, u32_at, u64_at};

#[cfg(test)]
mod tests;
