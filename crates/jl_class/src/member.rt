//! Fields and methods (JVMS 4.5, 4.6), and what their attributes hold.

use jl_prim::{Copied, CopyEnd, Handler, Items, Name};

/// A field (JVMS 4.5).
#[derive(Debug, Drop)]
pub struct FieldDecl {
    /// Its access and property flags.
    pub flags: u16,
    pub name: Name,
    /// Its descriptor.
    pub desc: Name,
    /// The pool index that its ConstantValue attribute has (JVMS 4.7.2). Only a static field is set to it.
    pub constant: Option<u16>,
}

/// A method (JVMS 4.6). It has code exactly where it is neither native nor abstract.
#[derive(Debug, Drop)]
pub struct MethodDecl {
    /// Its access and property flags.
    pub flags: u16,
    pub name: Name,
    /// Its descriptor.
    pub desc: Name,
    pub code: Option<CodeBytes>,
}

/// A Code attribute (JVMS 4.7.3).
#[derive(Debug, Drop)]
pub struct CodeBytes {
    /// Slots of the operand stack.
    pub max_stack: u16,
    /// Slots of the local variables.
    pub max_locals: u16,
    pub code: Items<u8>,
    pub handlers: Items<Handler>,
    /// The content of its StackMapTable attribute (JVMS 4.7.4), as it stands.
    pub frames: Option<Items<u8>>,
}

/// By what a member is told from the others of its table: its name and its descriptor.
#[derive(Debug, PartialEq, Eq, Hash, Drop)]
pub struct MemberKey {
    pub name: Name,
    pub desc: Name,
}

impl Copied for FieldDecl {
    fn copy(&self) -> Result<FieldDecl, CopyEnd> {
        Ok(FieldDecl {
            flags: self.flags,
            name: self.name.copy()?,
            desc: self.desc.copy()?,
            constant: self.constant,
        })
    }
}
