//! Resolution of modules (JLS 7.7.1, `java.lang.module.Configuration`).
#![tactic(auto)]

mod ancestors;
mod candidate;
mod configuration;
mod cycle;
mod fault;
mod imports;
mod law;
mod member_rows;
mod members;
mod missing;
mod packages;
mod placed;
mod provisions;
mod readings;
mod reads;
mod resolution;
mod same_name;
mod scene;
mod services;
mod sorted;
mod tables;
mod walk;

pub use candidate::Candidate;
pub use configuration::{Configuration, Read};
pub use fault::ResolveFault;
pub use law::{refuses_where_one_holds, resolves_always, resolves_once};
pub use resolution::resolve;
