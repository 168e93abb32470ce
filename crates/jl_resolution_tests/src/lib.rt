//! Tests of the command resolve and of what it stands on.
#![tactic(auto)]

#[cfg(test)]
mod config;
#[cfg(test)]
mod finder;
#[cfg(test)]
mod launch;
#[cfg(test)]
mod parents;
#[cfg(test)]
mod tree;
#[cfg(test)]
mod words;
