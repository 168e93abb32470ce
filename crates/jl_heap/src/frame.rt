//! One frame (JVMS 2.6).

ghost use Rattle.std.specs.Prelude.{◌≡◌, ◌+◌, ◌-◌, ◌<◌, ◌≤◌, ◌++◌, length, take, drop, reverse, IfOk, IsOkUnless, Some, replicate, slice_get, vec_len, vec_capacity};
ghost use Rattle.jl_heap.specs.Frames.{FrameState, new_frame, frame_slots, room_of, value_at, with_pc, with_local, with_value, without_value, without_slots, called_locals, without_values, IsWithin};

use crate::ends::FrameEnd;
use crate::value::Value;
use jl_prim::{ClassId, MethodId};
use std::alloc::Global;
use std::marker::Model;

/// What a frame is of.
#[derive(Clone, Copy, Debug, PartialEq, Eq)]
pub enum FrameKind {
    /// A method that runs its code.
    Method(MethodId),
    /// The initialization of a class.
    Init(ClassId),
    /// A native that calls code.
    Enter(MethodId),
}

/// A frame to be pushed, with the slots that its stack and its locals have at the most.
#[derive(Clone, Copy, Debug, PartialEq, Eq)]
pub struct NewFrame {
    pub kind: FrameKind,
    pub max_stack: u16,
    pub max_locals: u16,
}

/// A frame. Its stack has room for its slots, so that a value is put on it without memory.
#[derive(Drop)]
pub struct Frame {
    kind: FrameKind,
    max_stack: u16,
    max_locals: u16,
    pc: u32,
    locals: Vec<Value>,
    stack: Vec<Value>,
}

impl Model for Frame {
    ghost use Rattle.std.specs.Prelude.{◌≡◌, ◌≤◌, vec_len, vec_capacity, reverse};
    ghost use Rattle.jl_heap.specs.Frames.{FrameState};

    ghost Value = { FrameState };

    ghost view = { λ f. record { kind = f.kind; max_stack = f.max_stack; max_locals = f.max_locals; pc = f.pc; locals = f.locals.items; stack = reverse f.stack.items } };

    ghost invariant = { λ f. (vec_len f.locals ≡ f.max_locals) × (vec_len f.stack ≤ f.max_stack) × (f.max_stack ≤ vec_capacity f.stack) };
}

impl Frame {
    /// A frame at place 0, with locals that hold nothing and an empty stack.
    pub fn new(alloc: Global, frame: NewFrame) -> Result<Frame, FrameEnd>
        ensures made { IfOk result (λ f. f ≡ new_frame frame) }
        ensures memory { IsOkUnless result FrameEnd.NoMemory }
    {
        let locals = vec![in alloc; Value::Top; frame.max_locals as usize]?;
        let stack = Vec::with_capacity(alloc, frame.max_stack as usize)?;
        Ok(Frame {
            kind: frame.kind,
            max_stack: frame.max_stack,
            max_locals: frame.max_locals,
            pc: 0,
            locals,
            stack,
        })
    }

    pub fn kind(&self) -> FrameKind
        ensures { result ≡ self.now.kind }
    {
        self.kind
    }

    pub fn pc(&self) -> u32
        ensures { result ≡ self.now.pc }
    {
        self.pc
    }

    /// The slots that the frame may use.
    pub fn slots(&self) -> u64
        ensures { result ≡ frame_slots self.now }
    {
        u64::from(self.max_stack) + u64::from(self.max_locals)
    }

    pub fn max_locals(&self) -> u16
        ensures locals { result ≡ self.now.max_locals }
        ensures within { IsWithin self.now }
    {
        self.max_locals
    }

    /// The slots that the stack has left.
    pub fn room(&self) -> u16
        ensures { result ≡ room_of self.now }
    {
        self.max_stack - self.stack.len() as u16
    }

    pub fn set_pc(&mut self, pc: u32)
        ensures { self.new ≡ with_pc pc self.old }
    {
        self.pc = pc;
    }

    /// The value of a local.
    pub fn local(&self, at: usize) -> Value
        requires { at < self.now.max_locals }
        ensures { slice_get self.now.locals at ≡ Some result }
    {
        self.locals[at]
    }

    pub fn set_local(&mut self, at: usize, v: Value)
        requires { at < self.old.max_locals }
        ensures { self.new ≡ with_local at v self.old }
    {
        self.locals[at] = v;
    }

    /// The value so many below the top of the stack. None at a place below the stack's last.
    pub fn peek(&self, down: usize) -> Option<Value>
        ensures { result ≡ value_at self.now down }
    {
        if down < self.stack.len() {
            Some(self.stack[self.stack.len() - 1 - down])
        } else {
            None
        }
    }

    /// Puts a value on the stack.
    pub fn put(&mut self, v: Value)
        requires { length self.old.stack < self.old.max_stack }
        ensures { self.new ≡ with_value v self.old }
    {
        self.stack.push_reserved(v);
    }

    /// Takes the value on top of the stack. None where it is empty.
    pub fn pop(&mut self) -> Option<Value>
        ensures value { result ≡ value_at self.old 0 }
        ensures left { self.new ≡ without_value self.old }
        ensures room { room_of self.new + length self.new.stack ≡ room_of self.old + length self.old.stack }
    {
        self.stack.pop()
    }

    /// Moves so many slots of the stack into the locals of another frame, which hold nothing, the deepest first.
    pub fn give(&mut self, to: &mut Frame, slots: u16)
        requires taken { slots ≤ length self.old.stack }
        requires locals { slots ≤ to.old.max_locals }
        requires nothing { to.old.locals ≡ replicate to.old.max_locals Value.Top }
        ensures left { self.new ≡ without_slots slots self.old }
        ensures given { to.new ≡ record to.old { locals = called_locals slots to.old.max_locals self.old.stack } }
    {
        copy_last(&self.stack, &mut to.locals, slots as usize);
        take_last(&mut self.stack, slots as usize);
    }

    /// Takes all values of the stack.
    pub fn clear(&mut self)
        ensures cleared { self.new ≡ without_values self.old }
        ensures room { room_of self.new ≡ room_of self.old + length self.old.stack }
    {
        self.stack.clear();
    }
}

/// Copies so many values at the end of a list to the front of another.
#[tactic(auto, using(crate::proofs::Giving::sliced, crate::proofs::Giving::moved))]
fn copy_last(from: &[Value], to: &mut [Value], count: usize)
    requires there { count ≤ length from.now }
    requires room { count ≤ length to.old }
    ensures copied { to.new ≡ reverse (take count (reverse from.now)) ++ drop count to.old }
    ensures length { length to.new ≡ length to.old }
{
    to[..count].copy_from_slice(&from[from.len() - count..]);
}

/// Takes so many values off the end of a list.
#[tactic(auto, using(crate::proofs::Giving::stay))]
fn take_last(list: &mut Vec<Value>, count: usize)
    requires { count ≤ vec_len list.old }
    ensures left { reverse list.new.items ≡ drop count (reverse list.old.items) }
    ensures length { vec_len list.new ≡ vec_len list.old - count }
    ensures capacity { vec_capacity list.new ≡ vec_capacity list.old }
{
    list.truncate(list.len() - count);
}
