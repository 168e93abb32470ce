//! Handlers of exceptions (JVMS 4.7.3).

ghost use Rattle.std.specs.Prelude.{◌≡◌};
ghost use Rattle.jl_code.specs.Places.{is_marked};
ghost use Rattle.jl_code.specs.Decoding as words;

use crate::places::stands;
use jl_pool::Pool;
use jl_prim::Handler;

/// Whether a handler's range is some instructions, and it begins at one, for a class or everything.
fn is_right_handler(pool: &Pool, code: &[u8], marks: &[bool], handler: &Handler) -> bool
    ensures { result ≡ words.is_right_handler pool.now code.now (is_marked marks.now) handler.now }
{
    handler.start < handler.end
        && stands(marks, handler.start as u32)
        && stands(marks, handler.target as u32)
        && (stands(marks, handler.end as u32) || handler.end as usize == code.len())
        && (handler.catch_type == 0 || pool.class(handler.catch_type).is_some())
}

/// The place in the list of the first handler that is not right.
pub fn wrong_handler(
    pool: &Pool,
    code: &[u8],
    marks: &[bool],
    handlers: &[Handler],
) -> Option<usize>
    ensures { result ≡ words.wrong_handler pool.now code.now (is_marked marks.now) handlers.now }
{
    handlers
        .iter()
        .position(|handler| !is_right_handler(pool, code, marks, handler))
}
