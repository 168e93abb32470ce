//! The frames of a task (JVMS 2.5.2, 2.6).

ghost use Rattle.std.specs.Prelude.{◌≡◌, ◌↔◌, ◌+◌, ◌-◌, ◌<◌, ◌≤◌, [], length, None, Some, IsTrue, IsErrOf, IsSome, OnOk, OnErr, option_map, slice_get};
ghost use Rattle.std.specs.Option.{option_and_then};
ghost use Rattle.jl_heap.specs.declared.ends.FrameEnd.TheVariants.{Deep};
ghost use Rattle.jl_heap.specs.Frames.{FrameState, FramesState, is_deep, with_frame, with_call, on_top, without_frame, frame_at, value_at, with_pc, with_local, with_value, without_value, without_values, top_of, room_of, locals_in, height_in, room_in, StaysOnTop, IsWithin};

use crate::ends::FrameEnd;
use crate::frame::{Frame, FrameKind, NewFrame};
use crate::value::Value;
use jl_prim::{MOST_FRAME_SLOTS, MOST_FRAMES};
use std::alloc::Global;
use std::marker::Model;

/// The frames of a task. Contracts see the number of the task, and the list of its frames from the top down.
#[derive(Drop)]
pub struct Frames {
    task: u32,
    top: Option<Frame>,
    below: Vec<Frame>,
    slots: u64,
}

impl Model for Frames {
    ghost use Rattle.std.specs.Prelude.{◌≡◌, [], None};
    ghost use Rattle.jl_heap.specs.Frames.{FramesState, all_slots};
    ghost use Rattle.jl_heap.specs.Stacking.{top_first};

    ghost Value = { FramesState };

    ghost view = { λ f. record { task = f.task; frames = top_first f.top f.below.items } };

    // The slots of all frames are counted, and where there is no top frame there is none below it.
    ghost invariant = { λ f. (f.slots ≡ all_slots (top_first f.top f.below.items)) × (f.top ≡ None → f.below.items ≡ []) };
}

impl Frames {
    /// No frame, for the task with this number.
    pub fn new(alloc: Global, task: u32) -> Frames
        ensures { result ≡ record { task = task; frames = [] } }
    {
        Frames {
            task,
            top: None,
            below: Vec::new(alloc),
            slots: 0,
        }
    }

    /// Pushes a frame. Deep exactly where the frames or their slots would pass the limit; a refusal changes
    /// nothing.
    pub fn push(&mut self, frame: NewFrame) -> Result<(), FrameEnd>
        ensures deep { IsErrOf result Deep ↔ IsTrue (is_deep self.old frame) }
        ensures pushed { OnOk result (self.new ≡ with_frame frame self.old) }
        ensures refused { OnErr result (self.new ≡ self.old) }
    {
        if self.is_deep(frame) {
            return Err(FrameEnd::Deep);
        }
        let alloc = *self.below.allocator();
        let pushed = Frame::new(alloc, frame)?;
        self.below.reserve(1)?;
        self.slots += pushed.slots();
        if let Some(top) = self.top.replace(pushed) {
            self.below.push_reserved(top);
        }
        Ok(())
    }

    /// Pushes the frame of a call: so many slots of the stack of the frame that calls move into its locals, the deepest
    /// first. Deep exactly where the frames or their slots would pass the limit; a refusal changes nothing.
    pub fn call(&mut self, frame: NewFrame, slots: u16) -> Result<(), FrameEnd>
        requires there { IsSome (top_of self.old) }
        requires taken { slots ≤ height_in self.old }
        requires locals { slots ≤ frame.max_locals }
        ensures deep { IsErrOf result Deep ↔ IsTrue (is_deep self.old frame) }
        ensures called { OnOk result (self.new ≡ with_call frame slots self.old) }
        ensures refused { OnErr result (self.new ≡ self.old) }
    {
        if self.is_deep(frame) {
            return Err(FrameEnd::Deep);
        }
        let alloc = *self.below.allocator();
        let mut pushed = Frame::new(alloc, frame)?;
        self.below.reserve(1)?;
        self.slots += pushed.slots();
        if let Some(mut top) = self.top.take() {
            top.give(&mut pushed, slots);
            self.below.push_reserved(top);
        }
        self.top = Some(pushed);
        Ok(())
    }

    fn is_deep(&self, frame: NewFrame) -> bool
        ensures { result ≡ is_deep self.now frame }
    {
        let slots = u64::from(frame.max_stack) + u64::from(frame.max_locals);
        self.depth() >= MOST_FRAMES || self.slots > MOST_FRAME_SLOTS - slots
    }

    /// The number of the task.
    pub fn task(&self) -> u32
        ensures { result ≡ self.now.task }
    {
        self.task
    }

    /// How many frames there are.
    pub fn depth(&self) -> usize
        ensures { result ≡ length self.now.frames }
    {
        match &self.top {
            Some(_) => self.below.len() + 1,
            None => 0,
        }
    }

    /// The slots of the top frame's locals.
    pub fn max_locals(&self) -> u16
        requires { IsSome (top_of self.now) }
        ensures { result ≡ locals_in self.now }
    {
        self.top_frame().max_locals()
    }

    /// The slots that the top frame's stack has left.
    pub fn room(&self) -> u16
        requires { IsSome (top_of self.now) }
        ensures { result ≡ room_in self.now }
    {
        self.top_frame().room()
    }

    /// The slots that the stack of the frame below the top has left. None where there is none.
    pub fn room_below(&self) -> Option<u16>
        requires { IsSome (top_of self.now) }
        ensures { result ≡ option_map room_of (frame_at self.now 1) }
    {
        match self.below.last() {
            Some(frame) => Some(frame.room()),
            None => None,
        }
    }

    /// What the top frame is of.
    pub fn kind(&self) -> FrameKind
        requires { IsSome (top_of self.now) }
        ensures { option_map (λ (f : FrameState). f.kind) (top_of self.now) ≡ Some result }
    {
        self.top_frame().kind()
    }

    /// What the frame so many below the top is of. None past the bottom.
    pub fn kind_at(&self, down: usize) -> Option<FrameKind>
        requires { IsSome (top_of self.now) }
        ensures { result ≡ option_map (λ (f : FrameState). f.kind) (frame_at self.now down) }
    {
        if down == 0 {
            return Some(self.kind());
        }
        if down > self.below.len() {
            return None;
        }
        Some(self.below[self.below.len() - down].kind())
    }

    /// The place in the code of the top frame's method.
    pub fn pc(&self) -> u32
        requires { IsSome (top_of self.now) }
        ensures { option_map (λ (f : FrameState). f.pc) (top_of self.now) ≡ Some result }
    {
        self.top_frame().pc()
    }

    /// Sets the place in the code of the top frame's method.
    pub fn set_pc(&mut self, pc: u32)
        requires { IsSome (top_of self.old) }
        ensures set { self.new ≡ on_top (with_pc pc) self.old }
        ensures frame { StaysOnTop self.old self.new (height_in self.old) }
    {
        if let Some(top) = &mut self.top {
            top.set_pc(pc);
        }
    }

    /// The value of a local of the top frame.
    pub fn local(&self, at: usize) -> Value
        requires { at < locals_in self.now }
        ensures { option_and_then (λ (f : FrameState). slice_get f.locals at) (top_of self.now) ≡ Some result }
    {
        self.top_frame().local(at)
    }

    /// Sets a local of the top frame.
    pub fn set_local(&mut self, at: usize, v: Value)
        requires { at < locals_in self.old }
        ensures set { self.new ≡ on_top (with_local at v) self.old }
        ensures frame { StaysOnTop self.old self.new (height_in self.old) }
    {
        if let Some(top) = &mut self.top {
            top.set_local(at, v);
        }
    }

    /// The value so many below the top of the top frame's stack. None at a place below the stack's last.
    pub fn peek(&self, down: usize) -> Option<Value>
        requires { IsSome (top_of self.now) }
        ensures value { result ≡ option_and_then (λ f. value_at f down) (top_of self.now) }
        ensures there { IsSome result ↔ (down < height_in self.now) }
    {
        self.top_frame().peek(down)
    }

    /// Puts a value on the top frame's stack.
    pub fn put(&mut self, v: Value)
        requires { 0 < room_in self.old }
        ensures put { self.new ≡ on_top (with_value v) self.old }
        ensures frame { StaysOnTop self.old self.new (height_in self.old + 1) }
    {
        if let Some(top) = &mut self.top {
            top.put(v);
        }
    }

    /// Takes the value on top of the top frame's stack. None where the stack is empty.
    pub fn pop(&mut self) -> Option<Value>
        requires { IsSome (top_of self.old) }
        ensures value { result ≡ option_and_then (λ f. value_at f 0) (top_of self.old) }
        ensures left { self.new ≡ on_top without_value self.old }
        ensures frame { StaysOnTop self.old self.new (height_in self.old - 1) }
    {
        match &mut self.top {
            Some(top) => top.pop(),
            None => None,
        }
    }

    /// Empties the top frame's stack.
    pub fn clear(&mut self)
        requires { IsSome (top_of self.old) }
        ensures left { self.new ≡ on_top without_values self.old }
        ensures frame { StaysOnTop self.old self.new 0 }
    {
        if let Some(top) = &mut self.top {
            top.clear();
        }
    }

    /// Drops the top frame.
    pub fn leave(&mut self)
        requires { IsSome (top_of self.old) }
        ensures left { self.new ≡ without_frame self.old }
        ensures below { top_of self.new ≡ frame_at self.old 1 }
    {
        if let Some(top) = self.top.take() {
            self.slots -= top.slots();
        }
        self.top = self.below.pop();
    }

    fn top_frame(&self) -> &Frame
        requires { IsSome (top_of self.now) }
        ensures { top_of self.now ≡ Some result.now }
    {
        match &self.top {
            Some(top) => top,
            None => unreachable!(),
        }
    }
}
