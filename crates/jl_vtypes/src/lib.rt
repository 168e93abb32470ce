//! The types that the check of methods works with, and which of them are assignable to which (JVMS 4.10.1.2).
#![tactic(auto)]

mod assigning;
mod ends;
mod hierarchy;
mod item;
mod listed;
mod question;

pub use assigning::{ask_subclass, assignable, is_going};
pub use ends::HierarchyEnd;
pub use hierarchy::Hierarchy;
pub use item::Item;
pub use listed::{ListedClass, ListedClasses, MissingClass};
pub use question::{Asked, Question, Unanswered};
