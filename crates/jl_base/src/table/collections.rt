//! `java.util`.

ghost use Rattle.std.specs.Prelude.{◌≡◌, map};
ghost use Rattle.jl_base.specs.Rows.{row_of};
ghost use Rattle.jl_base.specs.Table.{collections_rows};

use crate::row::ClassRow;
use crate::row::MemberKind::{Abstract, Core};

/// `java.util`.
pub static COLLECTIONS: [ClassRow; 8] = class_rows! {
    0x0601 "java/util/Iterator" extends "java/lang/Object" implements [] {
        0x0401 "hasNext" "()Z" Abstract;
        0x0401 "next" "()Ljava/lang/Object;" Abstract;
    }
    0x0601 "java/util/Collection" extends "java/lang/Object" implements ["java/lang/Iterable"] {
        0x0401 "size" "()I" Abstract;
        0x0401 "isEmpty" "()Z" Abstract;
    }
    0x0601 "java/util/List" extends "java/lang/Object" implements ["java/util/Collection"] {
        0x0401 "get" "(I)Ljava/lang/Object;" Abstract;
        0x0109 "of" "()Ljava/util/List;" Core;
        0x0109 "of" "(Ljava/lang/Object;)Ljava/util/List;" Core;
        0x0109 "of" "(Ljava/lang/Object;Ljava/lang/Object;)Ljava/util/List;" Core;
        0x0189 "of" "([Ljava/lang/Object;)Ljava/util/List;" Core;
    }
    0x0601 "java/util/Set" extends "java/lang/Object" implements ["java/util/Collection"] {
        0x0109 "of" "()Ljava/util/Set;" Core;
        0x0109 "of" "(Ljava/lang/Object;)Ljava/util/Set;" Core;
        0x0109 "of" "(Ljava/lang/Object;Ljava/lang/Object;)Ljava/util/Set;" Core;
        0x0189 "of" "([Ljava/lang/Object;)Ljava/util/Set;" Core;
    }
    0x0031 "java/util/ArrayList" extends "java/lang/Object" implements ["java/util/List"] {
        0x0101 "<init>" "()V" Core;
        0x0101 "add" "(Ljava/lang/Object;)Z" Core;
        0x0101 "set" "(ILjava/lang/Object;)Ljava/lang/Object;" Core;
        0x0101 "get" "(I)Ljava/lang/Object;" Core;
        0x0101 "size" "()I" Core;
        0x0101 "isEmpty" "()Z" Core;
        0x0101 "iterator" "()Ljava/util/Iterator;" Core;
    }
    0x0031 "java/util/Optional" extends "java/lang/Object" implements [] {
        0x0101 "isPresent" "()Z" Core;
        0x0101 "isEmpty" "()Z" Core;
        0x0101 "get" "()Ljava/lang/Object;" Core;
        0x0101 "orElseThrow" "()Ljava/lang/Object;" Core;
    }
    0x0031 "java/util/Objects" extends "java/lang/Object" implements [] {
        0x0109 "requireNonNull" "(Ljava/lang/Object;)Ljava/lang/Object;" Core;
    }
    0x0031 "java/util/ServiceLoader" extends "java/lang/Object" implements ["java/lang/Iterable"] {
        0x0109 "load" "(Ljava/lang/Class;)Ljava/util/ServiceLoader;" Core;
        0x0109 "load" "(Ljava/lang/ModuleLayer;Ljava/lang/Class;)Ljava/util/ServiceLoader;" Core;
        0x0101 "iterator" "()Ljava/util/Iterator;" Core;
    }
};

/// These rows.
pub fn rows() -> &'static [ClassRow]
    ensures { map row_of result.now ≡ collections_rows }
{
    &COLLECTIONS
}
