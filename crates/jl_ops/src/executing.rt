//! Executing one instruction (JVMS 6.5).

ghost use Rattle.std.specs.Prelude.{◌≡◌, ◌==◌, Some, IfSome, IsSome, IsTrue, true, false, option_map};
ghost use Rattle.std.specs.List.{find};
ghost use Rattle.jl_code.specs.declared.code.Instr.{Instr};
ghost use Rattle.jl_heap.specs.Frames.{top_of};
ghost use Rattle.jl_ops.specs.Decoding as decoding;
ghost use Rattle.jl_ops.specs.Rows as words;

use crate::arrays::{MakeEnd, array_row, make};
use crate::branches::{branch, switch};
use crate::decoding::{is_plain, row_of};
use crate::frame_rows::frame_row;
use crate::leaving::{leave, throw};
use crate::messages::end_of;
use crate::places::next_place;
use crate::row::{ArrayRow, FrameRow, Row, Test};
use jl_code::{Arg, Code, Instr};
use jl_heap::{Kind, RowEnd, Store};
use std::alloc::Global;

/// Executes a row that changes the top frame alone, and goes on at the next place.
fn run_frame_row(alloc: Global, store: &mut Store, row: FrameRow, next: u32) -> RowEnd
    requires { IsSome (top_of store.old.frames) }
    ensures { words.Ends false (words.row_does (Row.Frame row) next store.old) store.old result store.new }
{
    match frame_row(&mut store.frames, row) {
        Ok(()) => {
            store.frames.set_pc(next);
            RowEnd::Next
        }
        Err(stop) => end_of(alloc, stop),
    }
}

/// Executes a row of arrays, and goes on at the next place.
fn run_array_row(alloc: Global, store: &mut Store, row: ArrayRow, next: u32) -> RowEnd
    requires { IsSome (top_of store.old.frames) }
    ensures { words.Ends false (words.row_does (Row.Array row) next store.old) store.old result store.new }
{
    match array_row(store, row) {
        Ok(()) => {
            store.frames.set_pc(next);
            RowEnd::Next
        }
        Err(stop) => end_of(alloc, stop),
    }
}

/// Makes an array of a primitive type, and goes on at the next place.
fn run_new_array(alloc: Global, store: &mut Store, letter: u8, next: u32) -> RowEnd
    requires { IsSome (top_of store.old.frames) }
    ensures { words.Ends true (words.row_does (Row.NewArray letter) next store.old) store.old result store.new }
{
    match make(store, letter) {
        Ok(()) => {
            store.frames.set_pc(next);
            RowEnd::Next
        }
        Err(MakeEnd::Stop(stop)) => end_of(alloc, stop),
        Err(MakeEnd::NoMemory) => RowEnd::NoMemory,
    }
}

/// Executes a branch, to its place or to the next.
fn run_branch(alloc: Global, store: &mut Store, test: Test, place: u32, next: u32) -> RowEnd
    requires { IsSome (top_of store.old.frames) }
    ensures { words.Ends false (words.row_does (Row.Branch test place) next store.old) store.old result store.new }
{
    match branch(&mut store.frames, test, place, next) {
        Ok(()) => RowEnd::Next,
        Err(stop) => end_of(alloc, stop),
    }
}

/// Executes a return.
fn run_return(alloc: Global, store: &mut Store, kind: Option<Kind>) -> RowEnd
    requires { IsSome (top_of store.old.frames) }
    ensures { words.Ends false (words.return_does kind store.old) store.old result store.new }
{
    match leave(&mut store.frames, kind) {
        Ok(()) => RowEnd::Next,
        Err(stop) => end_of(alloc, stop),
    }
}

/// Executes a row, where the next instruction stands at a place.
fn run_row(alloc: Global, store: &mut Store, row: Row, next: u32) -> RowEnd
    requires { IsSome (top_of store.old.frames) }
    ensures { words.Ends (words.is_new_array (Some row)) (words.row_does row next store.old) store.old result store.new }
{
    match row {
        Row::Frame(row) => run_frame_row(alloc, store, row, next),
        Row::Array(row) => run_array_row(alloc, store, row, next),
        Row::NewArray(letter) => run_new_array(alloc, store, letter, next),
        Row::Branch(test, place) => run_branch(alloc, store, test, place, next),
        Row::Return(kind) => run_return(alloc, store, kind),
        Row::Throw => end_of(alloc, throw(&store.frames)),
    }
}

/// Executes a switch.
fn run_switch(alloc: Global, store: &mut Store, other: u32, cases: &[(i32, u32)]) -> RowEnd
    requires { IsSome (top_of store.old.frames) }
    ensures { words.Ends false (words.switch_does other cases.now store.old) store.old result store.new }
{
    match switch(&mut store.frames, other, cases) {
        Ok(()) => RowEnd::Next,
        Err(stop) => end_of(alloc, stop),
    }
}

/// Executes one instruction, which is plain, in the top frame (JVMS 6.5).
///
/// `Next` where it goes on: the frame then stands at the next instruction, or where the branch or the switch leads. A
/// return has dropped the frame, and put its value on the stack of the frame below, which stands where it stood.
/// Nothing else has changed anything. `Stuck` where a value of another kind is found than is wanted, where a local or
/// room on a stack is missing (nothing is wanted, and nothing found), or an object is no array of the wanted elements
/// (a reference is wanted, and one found). `Throws` an error of the instruction. `Raises` the object of `athrow`.
/// `NoMemory` only where an array is made, or an error has a message.
#[tactic(auto, unfolding(crate::specs::Rows::row))]
pub fn exec_instr(alloc: Global, store: &mut Store, instr: &Instr) -> RowEnd
    requires frame { IsSome (top_of store.old.frames) }
    requires plain { IsTrue (decoding.is_plain instr.now) }
    ensures { words.IsRow instr.now store.old result store.new }
{
    if let Arg::Switch { other, cases } = &instr.arg {
        return run_switch(alloc, store, *other, cases.as_slice());
    }
    match row_of(instr) {
        Some(row) => run_row(alloc, store, row, next_place(instr)),
        None => unreachable!(),
    }
}

fn first_at(instrs: &[Instr], place: u32) -> Option<&Instr>
    ensures { option_map (λ i. i.now) result ≡ find (λ (i : Instr). i.at == place) instrs.now }
{
    instrs.iter().find(|instr| instr.at == place)
}

/// The instruction that stands at a place.
pub fn instr_at(code: &Code, place: u32) -> Option<&Instr>
    ensures { option_map (λ i. i.now) result ≡ words.instr_at code.now place }
{
    match code {
        Code::Instructions(instrs) => first_at(instrs.as_slice(), place),
        Code::Stub(_) => None,
    }
}

/// Whether the top frame stands at an instruction of the code that is plain.
pub fn stands_at_plain(store: &Store, code: &Code) -> bool
    ensures { result ≡ words.stands_at_plain code.now store.now }
{
    if store.frames.depth() == 0 {
        return false;
    }
    match instr_at(code, store.frames.pc()) {
        Some(instr) => is_plain(instr),
        None => false,
    }
}

/// Executes the instruction of the code at which the top frame stands, which is plain, as `exec_instr` does.
pub fn exec_plain(alloc: Global, store: &mut Store, code: &Code) -> RowEnd
    requires { IsTrue (words.stands_at_plain code.now store.old) }
    ensures { IfSome (words.instr_under code.now store.old) (λ instr. words.IsRow instr store.old result store.new) }
{
    match instr_at(code, store.frames.pc()) {
        Some(instr) => exec_instr(alloc, store, instr),
        None => unreachable!(),
    }
}
