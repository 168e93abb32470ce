//! `java.lang.module` and `java.nio.file`.

ghost use Rattle.std.specs.Prelude.{◌≡◌, map};
ghost use Rattle.jl_base.specs.Rows.{row_of};
ghost use Rattle.jl_base.specs.Table.{modules_rows};

use crate::row::ClassRow;
use crate::row::MemberKind::{Abstract, Core};

/// `java.lang.module` and `java.nio.file`.
pub static MODULES: [ClassRow; 3] = class_rows! {
    0x0601 "java/lang/module/ModuleFinder" extends "java/lang/Object" implements [] {
        0x0189 "of" "([Ljava/nio/file/Path;)Ljava/lang/module/ModuleFinder;" Core;
    }
    0x0031 "java/lang/module/Configuration" extends "java/lang/Object" implements [] {
        0x0101 "parents" "()Ljava/util/List;" Core;
        0x0101 "resolve" "(Ljava/lang/module/ModuleFinder;Ljava/lang/module/ModuleFinder;Ljava/util/Collection;)Ljava/lang/module/Configuration;" Core;
        0x0101 "resolveAndBind" "(Ljava/lang/module/ModuleFinder;Ljava/lang/module/ModuleFinder;Ljava/util/Collection;)Ljava/lang/module/Configuration;" Core;
        0x0109 "resolve" "(Ljava/lang/module/ModuleFinder;Ljava/util/List;Ljava/lang/module/ModuleFinder;Ljava/util/Collection;)Ljava/lang/module/Configuration;" Core;
        0x0109 "resolveAndBind" "(Ljava/lang/module/ModuleFinder;Ljava/util/List;Ljava/lang/module/ModuleFinder;Ljava/util/Collection;)Ljava/lang/module/Configuration;" Core;
    }
    0x0601 "java/nio/file/Path" extends "java/lang/Object" implements [] {
        0x0189 "of" "(Ljava/lang/String;[Ljava/lang/String;)Ljava/nio/file/Path;" Core;
        0x0401 "toString" "()Ljava/lang/String;" Abstract;
    }
};

/// These rows.
pub fn rows() -> &'static [ClassRow]
    ensures { map row_of result.now ≡ modules_rows }
{
    &MODULES
}
