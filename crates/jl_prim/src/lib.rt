//! The words that every layer speaks: names, lists, numbers, access flags, declarations and limits.
#![tactic(auto)]

mod copied;
mod declaration;
mod ends;
mod error_kind;
mod flags;
mod items;
mod limits;
mod name;
mod numbers;

pub use copied::Copied;
pub use declaration::{
    Declaration, Found, Grant, Handler, Observed, ParentLoader, Provides, Requires,
};
pub use ends::{CopyEnd, PushEnd};
pub use error_kind::ErrorKind;
pub use flags::AccessFlags;
pub use items::Items;
pub use limits::{
    MOST_CLASSES, MOST_FILE_BYTES, MOST_FOLDERS, MOST_FRAME_SLOTS, MOST_FRAMES, MOST_HEAP_SLOTS,
    MOST_MODULES, MOST_SAMPLE_MODULES, MOST_STEPS, MOST_WAITING_CLASSES, MOST_WORDS, USUAL_STEPS,
};
pub use name::{Name, is_module_name};
pub use numbers::{ClassId, ConfigId, FieldId, LayerId, LoaderId, MethodId, ModuleId, ObjRef};

#[cfg(test)]
mod tests;
