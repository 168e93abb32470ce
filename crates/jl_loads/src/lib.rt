//! Loading over layers of modules (JVMS 5.3): classes, and the checks that were made of them.
#![tactic(auto)]

mod above;
mod accepting;
mod access;
mod asking;
mod beginning;
mod class;
mod class_key;
mod defining;
mod end;
mod errors;
mod file;
mod finding;
mod kept;
mod law;
mod layering;
mod loading;
mod loads;
mod members;
mod package;
mod rank;
mod role;
mod slot;
mod subtypes;
mod text;

pub use end::{FileEnd, LinkEnd, WorldFault};
pub use errors::{error, of_class, of_member, silent};
pub use law::{
    access_stays, classes_stay, files_stay, is_sound, loads_stay, numbers_name_one_member,
    read_once, sound_stays,
};
pub use loads::Loads;
pub use slot::{PoolSlot, Target};
