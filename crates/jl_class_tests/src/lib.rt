//! Tests of class files, read and built.
#![tactic(auto)]

#[cfg(test)]
mod class;
#[cfg(test)]
mod classw;
#[cfg(test)]
mod nests;
