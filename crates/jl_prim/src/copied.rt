//! Copies that may find no memory.

ghost use Rattle.std.specs.Prelude.{◌≡◌, IfOk};

use crate::ends::CopyEnd;

/// A value that can be copied where there is memory for it.
pub trait Copied: Sized + Drop {
    /// An equal value. The source stays as it is, also where there is no memory.
    fn copy(&self) -> Result<Self, CopyEnd>
        ensures { IfOk result (λ it. it ≡ self.now) };
}

impl<T: Copied> Copied for Option<T> {
    fn copy(&self) -> Result<Option<T>, CopyEnd> {
        match self {
            None => Ok(None),
            Some(it) => Ok(Some(it.copy()?)),
        }
    }
}
