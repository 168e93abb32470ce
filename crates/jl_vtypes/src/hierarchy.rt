//! Classes that can be asked what they are.

ghost use Rattle.jl_vtypes.specs.declared.question.Question.TheVariants as questions;
ghost use Rattle.jl_vtypes.specs.declared.question.Asked.{Asked};

use crate::ends::HierarchyEnd;
use std::alloc::Global;

/// Classes and interfaces, as those who check a method see them. A question may load classes, and so change them.
pub trait Hierarchy {
    /// One question: the classes before it, the question with its answer, and the classes after it. Each way in which a
    /// call ends is an answer, want of memory too, so what is known after an error stands here.
    ghost step: { Self → Asked → Self → Type 0 };

    /// Whether the class with this name is an interface.
    fn is_interface(&mut self, alloc: Global, name: &[u8]) -> Result<bool, HierarchyEnd>
        ensures { step self.old (record { question = questions.IsInterface name.now; answer = result }) self.new };

    /// Whether the class `from` is the class `to` or one of its subclasses.
    fn is_subclass(&mut self, alloc: Global, from: &[u8], to: &[u8]) -> Result<bool, HierarchyEnd>
        ensures { step self.old (record { question = questions.IsSubclass from.now to.now; answer = result }) self.new };
}
