//! Branches and the places to which they lead.

ghost use Rattle.std.specs.Prelude.{◌≡◌};
ghost use Rattle.std.specs.List.{list_all};
ghost use Rattle.jl_code.specs.Places.{is_marked};
ghost use Rattle.jl_code.specs.Decoding as words;

use crate::code::{Arg, Instr};
use crate::places::stands;

/// Whether each case of a switch leads to an instruction.
fn lead_right(marks: &[bool], cases: &[(i32, u32)]) -> bool
    ensures { result ≡ list_all (λ case. is_marked marks.now case.1) cases.now }
{
    cases.iter().all(|(_, place)| stands(marks, *place))
}

/// Whether operands lead to instructions alone.
fn leads_right(marks: &[bool], arg: &Arg) -> bool
    ensures { result ≡ words.leads_right (is_marked marks.now) arg.now }
{
    match arg {
        Arg::Target(place) => stands(marks, *place),
        Arg::Switch { other, cases } => {
            stands(marks, *other) && lead_right(marks, cases.as_slice())
        }
        _ => true,
    }
}

/// The place of the first instruction that leads to a place where none stands.
#[tactic(auto, unfolding(crate::specs::Decoding::first_where))]
pub fn first_astray(marks: &[bool], all: &[Instr]) -> Option<u32>
    ensures { result ≡ words.first_astray (is_marked marks.now) all.now }
{
    let mut rest = all;
    while let [instr, others @ ..] = rest {
        if !leads_right(marks, &instr.arg) {
            return Some(instr.at);
        }
        rest = others;
    }
    None
}
