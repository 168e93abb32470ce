//! The check of methods by the frames that they declare (JVMS 4.10.1).
#![tactic(auto)]

mod applying;
mod asking;
mod context;
mod declared_frame;
mod declaring;
mod families;
mod family;
mod fault;
mod frames_going;
mod giving;
mod handling;
mod methods;
mod moving;
mod naming;
mod placing;
mod rule;
mod rules;
mod shuffles;
mod type_frame;
mod types;
mod verifying;
mod walking;
mod want;
mod wanting;

pub use declared_frame::{DeclaredFrame, Types};
pub use family::{Compute, Elements, Family, FamilyRow, Group, Shuffle, ValueKind};
pub use fault::VerifyFault;
pub use rule::CheckRule;
pub use type_frame::TypeFrame;
pub use verifying::verify;
pub use want::{Want, Wanted};
