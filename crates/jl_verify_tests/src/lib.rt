//! Tests of assignability and of the check of methods.
#![tactic(auto)]

#[cfg(test)]
mod assignability;
#[cfg(test)]
mod files;
#[cfg(test)]
mod hierarchies;
#[cfg(test)]
mod methods;
