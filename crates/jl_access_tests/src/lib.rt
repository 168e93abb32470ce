//! Tests of the access checks.
#![tactic(auto)]

#[cfg(test)]
mod access;
