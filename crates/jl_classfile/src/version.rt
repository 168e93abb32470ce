//! Magic and version (JVMS 4.1).

ghost use Rattle.std.specs.Prelude.{◌≡◌, Some, IfErr};
ghost use Rattle.jl_classfile.specs.Front as words;
ghost use Rattle.jl_classfile.specs.Front.{front_at};
ghost use Rattle.jl_classfile.specs.Places.{Reads};

use crate::place::Place;
use jl_reading::Fault;

const MAGIC: u32 = 0xcafe_babe;

/// Faults of files that begin with magic and version.
pub trait FileFault: Fault {
    ghost use Rattle.std.specs.Prelude.{◌≡◌, ℕ, Some};

    /// The fault of a file with another magic.
    ghost magic: { Self };

    /// The fault of a version that is not read, by major and minor.
    ghost version: { ℕ → ℕ → Self };

    /// The file does not begin with 0xCAFEBABE.
    fn magic() -> Self
        ensures is { result ≡ magic }
        ensures told { Self.told result ≡ Some result };

    /// Files of this version are not read.
    fn version(major: u16, minor: u16) -> Self
        ensures is { result ≡ version major minor }
        ensures told { Self.told result ≡ Some result };
}

/// Whether files of a version are read: 53 to 61, and from 56 on with the minor version 0.
pub fn is_version(major: u16, minor: u16) -> bool
    ensures { result ≡ words.is_version major minor }
{
    (53..=61).contains(&major) && (major < 56 || minor == 0)
}

/// The major and the minor version behind the magic, and the place after them.
#[tactic(auto, unfolding(crate::specs::Front::front_at))]
pub fn front<'a, F: FileFault>(place: Place<'a>) -> Result<((u16, u16), Place<'a>), F>
    ensures exact { Reads F.told (λ x. x) place.entry result (front_at F.short F.magic F.version) }
    // Want of memory is no answer.
    ensures fault { IfErr result (λ e. F.told e ≡ Some e) }
{
    let (magic, place) = place.u32::<F>()?;
    if magic != MAGIC {
        return Err(F::magic());
    }
    let (minor, place) = place.u16::<F>()?;
    let (major, place) = place.u16::<F>()?;
    if is_version(major, minor) {
        Ok(((major, minor), place))
    } else {
        Err(F::version(major, minor))
    }
}
