//! Constant pools (JVMS 4.4).
#![tactic(auto)]

mod builder;
mod constant;
mod entry;
mod fault;
mod law;
mod memory;
mod pool;
mod reading;
mod references;
mod writing;

pub use builder::PoolBuilder;
pub use constant::{BuildEnd, Constant};
pub use entry::{Entry, Text};
pub use fault::{PoolFault, PoolWriteFault};
pub use law::reads_longer;
pub use pool::Pool;
pub use reading::read_pool;
pub use writing::{pool_bytes, push_u16, push_u32};
