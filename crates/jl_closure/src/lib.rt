//! The least set of places that holds given ones and is closed under a successor.
#![tactic(auto)]

mod law;
mod reach;

pub use law::marks_exist;
pub use reach::closure;

#[cfg(test)]
mod tests;
