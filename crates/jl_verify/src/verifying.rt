//! The check of a method.

ghost use Rattle.std.specs.Prelude.{◌<◌, ◌^◌, ℕ, List, length, slice_get, IfOk, Ok};
ghost use Rattle.std.specs.List.{AllByRecursion};
ghost use Rattle.jl_code.specs.declared.code.Instr.{Instr};
ghost use Rattle.jl_code.specs.Decoding.{code_of};
ghost use Rattle.jl_code.specs.Places.{stands};
ghost use Rattle.jl_code.specs.PlaceTables.{IsIndexOf, index_in};
ghost use Rattle.jl_code.specs.Sound.{IsSound, starts};
ghost use Rattle.jl_frames.specs.Fitting.{OffsetsRise};
ghost use Rattle.jl_verify.specs.Checks.{Verifies, Typed, AnswersOrNoMemory, judged_code, judged_stated, stated_of};
ghost use Rattle.jl_verify.specs.Declaring as words;
ghost use Rattle.jl_verify.specs.Judging.{IsDecoded, IsStated, IsDeclared};
ghost use Rattle.jl_verify.specs.WellTyped.{IsWellTypedIfAccepted};

use crate::context::Context;
use crate::declared_frame::DeclaredFrame;
use crate::declaring::{MadeEnd, first_frame, first_items, made};
use crate::fault::VerifyFault;
use crate::rule::CheckRule;
use crate::walking::walk;
use jl_class::{ClassDecl, CodeBytes, MethodDecl};
use jl_code::{Code, CodeFault, Instr, PlaceTable, decode};
use jl_frames::{Frame, FrameFault, read_frames};
use jl_vtypes::Hierarchy;
use std::alloc::Global;

/// Whether a method of a class is well-typed by the frames that its stack map declares (JVMS 4.10.1).
///
/// A method without code and a stub are accepted. `Code` and `Frames` are the faults of its code and of its stack map,
/// in this order. Then `NotTyped` with the rule `Frame` is the lowest offset at which a frame is declared that stands at
/// no instruction or cannot be made. Then it is the first instruction, by its place, at which a rule fails, and the
/// first of the rules that fail there. A question to the hierarchy without an answer ends the check: `ClassMissing` with
/// the first name in the question, `ReadFault`, or `NoMemory`.
pub fn verify<H: Hierarchy>(
    alloc: Global,
    h: &mut H,
    class: &ClassDecl,
    method: usize,
) -> Result<(), VerifyFault>
    requires { method < length class.now.methods }
    ensures exact { Verifies H.step class.now (slice_get class.now.methods method) h.old result h.new }
    // Where a method that is checked is accepted, no rule fails at any of its instructions.
    ensures typed { IsWellTypedIfAccepted H.step class.now (slice_get class.now.methods method) h.old result h.new }
{
    verify_method(alloc, h, class, method)
}

fn verify_method<H: Hierarchy>(
    alloc: Global,
    h: &mut H,
    class: &ClassDecl,
    method: usize,
) -> Result<(), VerifyFault>
    requires { method < length class.now.methods }
    ensures { Verifies H.step class.now (slice_get class.now.methods method) h.old result h.new }
{
    let method = &class.methods()[method];
    match &method.code {
        Some(code) => verify_code(alloc, h, class, method, code),
        None => Ok(()),
    }
}

fn verify_code<H: Hierarchy>(
    alloc: Global,
    h: &mut H,
    class: &ClassDecl,
    method: &MethodDecl,
    code: &CodeBytes,
) -> Result<(), VerifyFault>
    requires { length code.now.code < 2 ^ 32 }
    ensures { AnswersOrNoMemory H.step (judged_code class.now method.now code.now (code_of class.now.pool method.now.desc code.now.code code.now.handlers)) h.old result h.new }
{
    match decoded(alloc, class, method, code) {
        Ok(Code::Instructions(instrs)) => {
            verify_instructions(alloc, h, class, method, code, instrs.as_slice())
        }
        Ok(Code::Stub(_)) => Ok(()),
        Err(fault) => Err(fault),
    }
}

fn decoded(
    alloc: Global,
    class: &ClassDecl,
    method: &MethodDecl,
    code: &CodeBytes,
) -> Result<Code, VerifyFault>
    requires { length code.now.code < 2 ^ 32 }
    ensures found { IsDecoded result (code_of class.now.pool method.now.desc code.now.code code.now.handlers) }
    ensures sound { IfOk result (λ all. IsSound class.now.pool method.now.desc code.now.code code.now.handlers all) }
{
    match decode(
        alloc,
        class.pool(),
        method.desc.as_bytes(),
        code.code.as_slice(),
        code.handlers.as_slice(),
    ) {
        Ok(found) => Ok(found),
        Err(CodeFault::NoMemory) => Err(VerifyFault::NoMemory),
        Err(fault) => Err(VerifyFault::Code(fault)),
    }
}

/// The frames that the stack map of a code states, none where it has none.
fn stated(alloc: Global, code: &CodeBytes) -> Result<Vec<Frame>, VerifyFault>
    ensures exact { IsStated result (stated_of code.now) }
    ensures rise { IfOk result (λ frames. OffsetsRise frames.items) }
{
    match &code.frames {
        Some(bytes) => match read_frames(alloc, bytes.as_slice()) {
            Ok(frames) => Ok(frames),
            Err(FrameFault::NoMemory) => Err(VerifyFault::NoMemory),
            Err(fault) => Err(VerifyFault::Frames(fault)),
        },
        None => Ok(Vec::new(alloc)),
    }
}

fn declared(
    alloc: Global,
    class: &ClassDecl,
    method: &MethodDecl,
    places: &PlaceTable,
    stated: &[Frame],
) -> Result<Vec<DeclaredFrame>, VerifyFault>
    ensures { (instrs : List Instr) → ((pc : ℕ) → IsIndexOf (starts instrs) pc (index_in places.now pc)) → IsDeclared result (words.made class.now.pool (stands (starts instrs)) (words.first_items class.now method.now) stated.now) }
{
    let Ok(first) = first_items(alloc, class, method) else {
        return Err(VerifyFault::NoMemory);
    };
    match made(alloc, class.pool(), places, first, stated) {
        Ok(declared) => Ok(declared),
        Err(MadeEnd::Wrong(at)) => Err(VerifyFault::NotTyped(at, CheckRule::Frame)),
        Err(MadeEnd::NoMemory) => Err(VerifyFault::NoMemory),
    }
}

fn verify_instructions<H: Hierarchy>(
    alloc: Global,
    h: &mut H,
    class: &ClassDecl,
    method: &MethodDecl,
    code: &CodeBytes,
    instrs: &[Instr],
) -> Result<(), VerifyFault>
    requires { AllByRecursion (λ (i : Instr). i.at < length code.now.code) instrs.now }
    ensures { AnswersOrNoMemory H.step (judged_stated class.now method.now code.now instrs.now (stated_of code.now)) h.old result h.new }
{
    match stated(alloc, code) {
        Ok(stated) => verify_frames(alloc, h, class, method, (code, instrs), &stated),
        Err(fault) => Err(fault),
    }
}

/// The same with the frames that the stack map states.
fn verify_frames<H: Hierarchy>(
    alloc: Global,
    h: &mut H,
    class: &ClassDecl,
    method: &MethodDecl,
    code: (&CodeBytes, &[Instr]),
    stated: &[Frame],
) -> Result<(), VerifyFault>
    requires within { AllByRecursion (λ (i : Instr). i.at < length code.0.now.code) code.1.now }
    requires rise { OffsetsRise stated.now }
    ensures { AnswersOrNoMemory H.step (judged_stated class.now method.now code.entry.0.now code.entry.1.now (Ok stated.now)) h.old result h.new }
{
    let (code, instrs) = code;
    let Ok(places) = PlaceTable::of(alloc, instrs, code.code.len()) else {
        return Err(VerifyFault::NoMemory);
    };
    match declared(alloc, class, method, &places, stated) {
        Ok(declared) => {
            let c = Context {
                class,
                method,
                code,
                instrs,
                declared: &declared,
            };
            verify_typed(alloc, h, &c)
        }
        Err(fault) => Err(fault),
    }
}

/// The same with the frames that are declared.
fn verify_typed<H: Hierarchy>(alloc: Global, h: &mut H, c: &Context) -> Result<(), VerifyFault>
    ensures { AnswersOrNoMemory H.step (Typed c.now) h.old result h.new }
{
    let Ok(first) = first_frame(alloc, c.class, c.method) else {
        return Err(VerifyFault::NoMemory);
    };
    match walk(alloc, h, c, first) {
        Ok(None) => Ok(()),
        Ok(Some((at, rule))) => Err(VerifyFault::NotTyped(at, rule)),
        Err(fault) => Err(fault),
    }
}
