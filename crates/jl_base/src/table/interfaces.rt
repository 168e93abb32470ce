//! The interfaces of `java.lang`.

ghost use Rattle.std.specs.Prelude.{◌≡◌, map};
ghost use Rattle.jl_base.specs.Rows.{row_of};
ghost use Rattle.jl_base.specs.Table.{interfaces_rows};

use crate::row::ClassRow;
use crate::row::MemberKind::Abstract;

/// The interfaces of `java.lang`.
pub static INTERFACES: [ClassRow; 5] = class_rows! {
    0x0601 "java/lang/Iterable" extends "java/lang/Object" implements [] {
        0x0401 "iterator" "()Ljava/util/Iterator;" Abstract;
    }
    0x0601 "java/lang/Runnable" extends "java/lang/Object" implements [] {
        0x0401 "run" "()V" Abstract;
    }
    0x0601 "java/lang/Comparable" extends "java/lang/Object" implements [] {
        0x0401 "compareTo" "(Ljava/lang/Object;)I" Abstract;
    }
    0x0601 "java/lang/AutoCloseable" extends "java/lang/Object" implements [] {
        0x0401 "close" "()V" Abstract;
    }
    0x0601 "java/lang/Cloneable" extends "java/lang/Object" implements [] {}
};

/// These rows.
pub fn rows() -> &'static [ClassRow]
    ensures { map row_of result.now ≡ interfaces_rows }
{
    &INTERFACES
}
