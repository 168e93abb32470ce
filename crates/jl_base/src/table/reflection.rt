//! `java.lang.reflect`.

ghost use Rattle.std.specs.Prelude.{◌≡◌, map};
ghost use Rattle.jl_base.specs.Rows.{row_of};
ghost use Rattle.jl_base.specs.Table.{reflection_rows};

use crate::row::ClassRow;
use crate::row::MemberKind::{Core, Entering};

/// `java.lang.reflect`.
pub static REFLECTION: [ClassRow; 4] = class_rows! {
    0x0021 "java/lang/reflect/AccessibleObject" extends "java/lang/Object" implements [] {
        0x0101 "setAccessible" "(Z)V" Core;
    }
    0x0031 "java/lang/reflect/Field" extends "java/lang/reflect/AccessibleObject" implements [] {
        0x0101 "getName" "()Ljava/lang/String;" Core;
        0x0101 "get" "(Ljava/lang/Object;)Ljava/lang/Object;" Core;
        0x0101 "set" "(Ljava/lang/Object;Ljava/lang/Object;)V" Core;
        0x0101 "getInt" "(Ljava/lang/Object;)I" Core;
    }
    0x0031 "java/lang/reflect/Method" extends "java/lang/reflect/AccessibleObject" implements [] {
        0x0101 "getName" "()Ljava/lang/String;" Core;
        0x0181 "invoke" "(Ljava/lang/Object;[Ljava/lang/Object;)Ljava/lang/Object;" Entering;
    }
    0x0031 "java/lang/reflect/Constructor" extends "java/lang/reflect/AccessibleObject" implements [] {
        0x0101 "getName" "()Ljava/lang/String;" Core;
        0x0181 "newInstance" "([Ljava/lang/Object;)Ljava/lang/Object;" Entering;
    }
};

/// These rows.
pub fn rows() -> &'static [ClassRow]
    ensures { map row_of result.now ≡ reflection_rows }
{
    &REFLECTION
}
