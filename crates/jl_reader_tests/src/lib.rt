//! Tests of the readers and writers below class files.
#![tactic(auto)]

#[cfg(test)]
mod code;
#[cfg(test)]
mod frames;
#[cfg(test)]
mod modinfo;
#[cfg(test)]
mod names;
#[cfg(test)]
mod pool;
