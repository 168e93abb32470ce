//! What a hierarchy of classes is asked.

use crate::ends::HierarchyEnd;
use jl_prim::Items;

/// A question about classes, which are named in internal form.
#[derive(Debug, Drop)]
pub enum Question {
    /// Whether the class with this name is an interface.
    IsInterface(Items<u8>),
    /// Whether the first class is the second or one of its subclasses.
    IsSubclass(Items<u8>, Items<u8>),
}

/// A question that was asked, and the answer that it got.
#[derive(Debug, Drop)]
pub struct Asked {
    pub question: Question,
    pub answer: Result<bool, HierarchyEnd>,
}

/// A question that has no answer: the first name in it, and why.
#[derive(Debug, Drop)]
pub struct Unanswered<'a> {
    pub name: &'a str,
    pub end: HierarchyEnd,
}
