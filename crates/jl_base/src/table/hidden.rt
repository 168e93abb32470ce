//! `jdk.internal`, which `java.base` has for itself.

ghost use Rattle.std.specs.Prelude.{◌≡◌, map};
ghost use Rattle.jl_base.specs.Rows.{row_of};
ghost use Rattle.jl_base.specs.Table.{hidden_rows};

use crate::row::ClassRow;
use crate::row::MemberKind::{Core, Entering};

/// `jdk.internal`, which `java.base` has for itself.
pub static HIDDEN: [ClassRow; 7] = class_rows! {
    0x0021 "jdk/internal/Hidden" extends "java/lang/Object" implements [] {
        0x0109 "answer" "()I" Core;
    }
    0x0031 "jdk/internal/PathFinder" extends "java/lang/Object" implements ["java/lang/module/ModuleFinder"] {}
    0x0031 "jdk/internal/TextPath" extends "java/lang/Object" implements ["java/nio/file/Path"] {
        0x0101 "toString" "()Ljava/lang/String;" Core;
    }
    0x0031 "jdk/internal/FixedList" extends "java/lang/Object" implements ["java/util/List"] {
        0x0101 "get" "(I)Ljava/lang/Object;" Core;
        0x0101 "size" "()I" Core;
        0x0101 "isEmpty" "()Z" Core;
        0x0101 "iterator" "()Ljava/util/Iterator;" Core;
    }
    0x0031 "jdk/internal/FixedSet" extends "java/lang/Object" implements ["java/util/Set"] {
        0x0101 "size" "()I" Core;
        0x0101 "isEmpty" "()Z" Core;
        0x0101 "iterator" "()Ljava/util/Iterator;" Core;
    }
    0x0031 "jdk/internal/ItemIterator" extends "java/lang/Object" implements ["java/util/Iterator"] {
        0x0101 "hasNext" "()Z" Core;
        0x0101 "next" "()Ljava/lang/Object;" Core;
    }
    0x0031 "jdk/internal/ServiceIterator" extends "java/lang/Object" implements ["java/util/Iterator"] {
        0x0101 "hasNext" "()Z" Core;
        0x0101 "next" "()Ljava/lang/Object;" Entering;
    }
};

/// These rows.
pub fn rows() -> &'static [ClassRow]
    ensures { map row_of result.now ≡ hidden_rows }
{
    &HIDDEN
}
