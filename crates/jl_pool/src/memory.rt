//! Calls that can fail for want of memory alone.

ghost use Rattle.std.specs.Prelude.{◌≡◌, Ok, IfOk, IsOkUnless};

use jl_names::TextFault;
use jl_prim::CopyEnd;

/// What was made of a text that is none of those that are refused.
pub fn made<T>(answer: Result<T, TextFault>) -> Result<T, CopyEnd>
    requires { IsOkUnless answer TextFault.NoMemory }
    ensures { IfOk result (λ it. answer ≡ Ok it) }
{
    match answer {
        Ok(it) => Ok(it),
        Err(TextFault::NoMemory) => Err(CopyEnd::NoMemory),
        Err(TextFault::BadText(_)) => unreachable!(),
    }
}
