//! Tests of linkage: loading, references, selection, nests, and what is kept.
#![tactic(auto)]

#[cfg(test)]
mod access;
#[cfg(test)]
mod files;
#[cfg(test)]
mod growing;
#[cfg(test)]
mod kept;
#[cfg(test)]
mod layers;
#[cfg(test)]
mod loading;
#[cfg(test)]
mod making;
#[cfg(test)]
mod members;
#[cfg(test)]
mod nests;
#[cfg(test)]
mod references;
#[cfg(test)]
mod selection;
#[cfg(test)]
mod showing;
#[cfg(test)]
mod stage;
#[cfg(test)]
mod steps;
