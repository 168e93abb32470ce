//! Laws of the rows: none is left out, and references stay right. There is nothing to run.

ghost use Rattle.std.specs.Prelude.{IsTrue};
ghost use Rattle.jl_ops.specs.Laws.{holds_below, is_shared_out, is_type_shared_out};
ghost use Rattle.jl_ops.specs.Naming.{RowsKeepNames};

use jl_heap::objects_stay;

/// Says that each opcode is executed here, but for those that make a stub and those that ask for classes, and
/// `newarray` of each type but those of `float` and `double` (JVMS 6.5).
pub fn each_opcode_is_shared_out()
    ensures opcodes { IsTrue (holds_below is_shared_out 256) }
    ensures types { IsTrue (holds_below is_type_shared_out 256) }
{}

/// Says that an instruction which goes on leaves a store whose references name objects of its heap, where they did.
pub fn rows_keep_names()
    ensures { RowsKeepNames }
{
    objects_stay();
}
