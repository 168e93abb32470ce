//! What is checked of a method.

use crate::declared_frame::DeclaredFrame;
use jl_class::{ClassDecl, CodeBytes, MethodDecl};
use jl_code::Instr;
use std::marker::Model;

/// The class, the method, its code, the instructions there, and the frames that are declared for them, in the order of
/// their places.
#[derive(Drop)]
pub struct Context<'a> {
    pub(crate) class: &'a ClassDecl,
    pub(crate) method: &'a MethodDecl,
    pub(crate) code: &'a CodeBytes,
    pub(crate) instrs: &'a [Instr],
    pub(crate) declared: &'a [DeclaredFrame],
}

impl<'a> Model for Context<'a> {
    ghost use Rattle.jl_verify.specs.Checked.{Checked};
    ghost use Rattle.jl_verify.specs.Rising.{PlacesRise};

    ghost Value = { Checked };

    ghost view = { λ c. record { class = c.class.now; method = c.method.now; code = c.code.now; instrs = c.instrs.now; declared = c.declared.now } };

    ghost invariant = { λ c. PlacesRise c.declared.now };
}
