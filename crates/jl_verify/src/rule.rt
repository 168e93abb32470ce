//! The rules that an instruction is checked by.

/// A rule of the check of methods (JVMS 4.10.1), in the order in which they are tried at an instruction.
#[derive(Clone, Copy, Debug, PartialEq, Eq)]
pub enum CheckRule {
    /// Nothing falls through to the instruction, and no frame is declared at it.
    NoFrame,
    /// What falls through does not fit the frame that is declared here, or no such frame can be made.
    Frame,
    /// A handler that covers the instruction has no declared frame, or its frame does not take what comes there, or
    /// what it catches is no Throwable.
    Handler,
    /// The instruction does not apply to its frame.
    Operand,
    /// A return from `<init>` before `this` is initialized.
    Init,
    /// There is more on the stack than max_stack, or there are more locals than max_locals.
    Overflow,
    /// A place to which the instruction leads has no declared frame, or its frame does not take what comes there.
    Target,
    /// The last instruction falls through.
    End,
}
