//! The rows of instructions that ask for no class: constants, locals, stacks, arithmetic, branches, arrays, and how a
//! method is left (JVMS 6.5).
#![tactic(auto)]

mod arithmetic;
mod arrays;
mod branches;
mod decoding;
mod executing;
mod frame_rows;
mod law;
mod leaving;
mod locals;
mod messages;
mod operands;
mod places;
mod row;
mod stacks;
mod stop;
mod type_letters;

pub use arrays::{Array, array_at, array_with, index_in};
pub use decoding::{is_plain, row_of};
pub use executing::{exec_instr, exec_plain, instr_at, stands_at_plain};
pub use law::{each_opcode_is_shared_out, rows_keep_names};
pub use messages::end_of;
pub use operands::{
    int_under, need_room, no_room, pop_value, put_value, ref_under, value_slots, value_under,
    wanted,
};
pub use places::next_place;
pub use row::{
    ArrayRow, Condition, Elements, FrameRow, IntOp, IntType, LongOp, Row, Shift, StackOp, Test,
};
pub use stop::Stop;
