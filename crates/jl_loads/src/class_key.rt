//! By what a class is told from the others.

use jl_prim::{Copied, CopyEnd, LoaderId, Name};

/// A class by its defining loader and its name (JVMS 5.3).
#[derive(Debug, PartialEq, Eq, Hash, Drop)]
pub struct ClassKey {
    pub loader: LoaderId,
    pub name: Name,
}

impl Copied for ClassKey {
    fn copy(&self) -> Result<ClassKey, CopyEnd> {
        Ok(ClassKey {
            loader: self.loader,
            name: self.name.copy()?,
        })
    }
}
