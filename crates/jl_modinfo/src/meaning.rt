//! What the index of a class means (JVMS 4.4.1).

ghost use Rattle.std.specs.Prelude.{◌≡◌};
ghost use Rattle.std.specs.Option.{option_copied};
ghost use Rattle.jl_modinfo.specs.Meaning as meaning;

use jl_pool::Pool;
use jl_prim::Name;

/// The text of the name of a Class index, whatever it is.
pub fn class_text(pool: &Pool, i: u16) -> Option<&Name>
    ensures { option_copied result ≡ meaning.class_text pool.now i }
{
    pool.text(pool.class(i)?)
}
