//! What an index of the pool names: a class, or a member with its class, name and descriptor (JVMS 4.4.1, 4.4.2, 4.4.6).

ghost use Rattle.std.specs.Prelude.{◌≡◌};
ghost use Rattle.std.specs.Option.{option_copied};
ghost use Rattle.jl_code.specs.References as words;

use jl_pool::Pool;
use jl_prim::Name;

/// The text of the class at an index: its name, or the descriptor of an array.
pub fn class_text(pool: &Pool, i: u16) -> Option<&Name>
    ensures { option_copied result ≡ words.class_text pool.now i }
{
    pool.text(pool.class(i)?)
}

/// The tag of the member at an index: 9 of a field, 10 of a class's method, 11 of an interface's method.
pub fn member_tag(pool: &Pool, i: u16) -> Option<u8>
    ensures { result ≡ words.member_tag pool.now i }
{
    match pool.member(i) {
        Some((tag, _, _)) => Some(tag),
        None => None,
    }
}

/// The text of the class that the member at an index is looked up in.
pub fn member_class(pool: &Pool, i: u16) -> Option<&Name>
    ensures { option_copied result ≡ words.member_class pool.now i }
{
    let (_, class, _) = pool.member(i)?;
    class_text(pool, class)
}

/// The name of the member at an index.
pub fn member_name(pool: &Pool, i: u16) -> Option<&Name>
    ensures { option_copied result ≡ words.member_name pool.now i }
{
    let (_, _, named) = pool.member(i)?;
    let (name, _) = pool.name_and_type(named)?;
    pool.text(name)
}

/// The descriptor of the member at an index, as a text, where each surrogate stands in a pair.
pub fn member_desc(pool: &Pool, i: u16) -> Option<&Name>
    ensures { option_copied result ≡ words.member_desc pool.now i }
{
    let (_, _, named) = pool.member(i)?;
    let (_, desc) = pool.name_and_type(named)?;
    pool.paired_text(desc)
}
