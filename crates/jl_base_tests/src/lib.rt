//! Tests of the built-in `java.base`.
#![tactic(auto)]

#[cfg(test)]
mod image;
