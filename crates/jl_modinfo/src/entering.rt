//! The pool of a declaration.

ghost use Rattle.std.specs.Prelude.{◌≡◌, [], IfOk};
ghost use Rattle.std.specs.List.{AllByRecursion};
ghost use Rattle.jl_logic.specs.Answers.{Gives};
ghost use Rattle.jl_pool.specs.Builder.{build_told, fitting, text_in, IsShort};
ghost use Rattle.jl_modinfo.specs.Layout.{with_all};

use jl_pool::{BuildEnd, Constant, PoolBuilder};
use jl_prim::{Copied, CopyEnd};
use std::alloc::Global;

/// The pool in which these constants are entered one after the other.
#[tactic(auto, using(crate::proofs::NeedLaws::refused_table, crate::proofs::NeedLaws::refused_pool, crate::proofs::NeedLaws::refused_none, crate::proofs::NeedLaws::all_short))]
pub fn entered(alloc: Global, constants: &[Constant]) -> Result<PoolBuilder, BuildEnd>
    requires { AllByRecursion (λ c. IsShort (text_in c)) constants.now }
    ensures { Gives build_told (λ builder. builder) result (fitting (with_all [] constants.now)) }
{
    let mut builder = PoolBuilder::new(alloc);
    for constant in constants {
        builder.enter(copied(constant)?)?;
    }
    Ok(builder)
}

fn copied(constant: &Constant) -> Result<Constant, CopyEnd>
    ensures { IfOk result (λ it. it ≡ constant.now) }
{
    Ok(match constant {
        Constant::Text(name) => Constant::Text(name.copy()?),
        Constant::Class(name) => Constant::Class(name.copy()?),
        Constant::Module(name) => Constant::Module(name.copy()?),
        Constant::Package(name) => Constant::Package(name.copy()?),
    })
}
