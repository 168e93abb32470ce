//! Tests of the plain rows.
#![tactic(auto)]

#[cfg(test)]
mod arithmetic;
#[cfg(test)]
mod kinds;
#[cfg(test)]
mod program;
#[cfg(test)]
mod rows;
