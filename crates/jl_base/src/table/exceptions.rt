//! `Throwable`, and the exceptions of all packages, each behind its superclass.

ghost use Rattle.std.specs.Prelude.{◌≡◌, map};
ghost use Rattle.jl_base.specs.Rows.{row_of};
ghost use Rattle.jl_base.specs.Table.{exceptions_rows};

use crate::row::ClassRow;
use crate::row::MemberKind::Core;

/// `Throwable`, and the exceptions of all packages, each behind its superclass.
pub static EXCEPTIONS: [ClassRow; 29] = class_rows! {
    0x0021 "java/lang/Throwable" extends "java/lang/Object" implements [] {
        0x0101 "<init>" "()V" Core;
        0x0101 "<init>" "(Ljava/lang/String;)V" Core;
        0x0101 "<init>" "(Ljava/lang/String;Ljava/lang/Throwable;)V" Core;
        0x0101 "<init>" "(Ljava/lang/Throwable;)V" Core;
        0x0101 "getMessage" "()Ljava/lang/String;" Core;
        0x0101 "getCause" "()Ljava/lang/Throwable;" Core;
        0x0101 "toString" "()Ljava/lang/String;" Core;
        0x0111 "addSuppressed" "(Ljava/lang/Throwable;)V" Core;
    }
    0x0021 "java/lang/Exception" extends "java/lang/Throwable" implements [] {
        0x0101 "<init>" "()V" Core;
        0x0101 "<init>" "(Ljava/lang/String;)V" Core;
        0x0101 "<init>" "(Ljava/lang/String;Ljava/lang/Throwable;)V" Core;
        0x0101 "<init>" "(Ljava/lang/Throwable;)V" Core;
    }
    0x0021 "java/lang/RuntimeException" extends "java/lang/Exception" implements [] {
        0x0101 "<init>" "()V" Core;
        0x0101 "<init>" "(Ljava/lang/String;)V" Core;
        0x0101 "<init>" "(Ljava/lang/String;Ljava/lang/Throwable;)V" Core;
        0x0101 "<init>" "(Ljava/lang/Throwable;)V" Core;
    }
    0x0021 "java/lang/ReflectiveOperationException" extends "java/lang/Exception" implements [] {
        0x0101 "<init>" "()V" Core;
        0x0101 "<init>" "(Ljava/lang/String;)V" Core;
    }
    0x0021 "java/lang/ClassNotFoundException" extends "java/lang/ReflectiveOperationException" implements [] {
        0x0101 "<init>" "()V" Core;
        0x0101 "<init>" "(Ljava/lang/String;)V" Core;
    }
    0x0021 "java/lang/NoSuchMethodException" extends "java/lang/ReflectiveOperationException" implements [] {
        0x0101 "<init>" "()V" Core;
        0x0101 "<init>" "(Ljava/lang/String;)V" Core;
    }
    0x0021 "java/lang/NoSuchFieldException" extends "java/lang/ReflectiveOperationException" implements [] {
        0x0101 "<init>" "()V" Core;
        0x0101 "<init>" "(Ljava/lang/String;)V" Core;
    }
    0x0021 "java/lang/IllegalAccessException" extends "java/lang/ReflectiveOperationException" implements [] {
        0x0101 "<init>" "()V" Core;
        0x0101 "<init>" "(Ljava/lang/String;)V" Core;
    }
    0x0021 "java/lang/InstantiationException" extends "java/lang/ReflectiveOperationException" implements [] {
        0x0101 "<init>" "()V" Core;
        0x0101 "<init>" "(Ljava/lang/String;)V" Core;
    }
    0x0021 "java/lang/reflect/InvocationTargetException" extends "java/lang/ReflectiveOperationException" implements [] {
        0x0101 "<init>" "()V" Core;
        0x0101 "<init>" "(Ljava/lang/String;)V" Core;
    }
    0x0021 "java/lang/ArithmeticException" extends "java/lang/RuntimeException" implements [] {
        0x0101 "<init>" "()V" Core;
        0x0101 "<init>" "(Ljava/lang/String;)V" Core;
    }
    0x0021 "java/lang/ArrayStoreException" extends "java/lang/RuntimeException" implements [] {
        0x0101 "<init>" "()V" Core;
        0x0101 "<init>" "(Ljava/lang/String;)V" Core;
    }
    0x0021 "java/lang/ClassCastException" extends "java/lang/RuntimeException" implements [] {
        0x0101 "<init>" "()V" Core;
        0x0101 "<init>" "(Ljava/lang/String;)V" Core;
    }
    0x0021 "java/lang/IllegalArgumentException" extends "java/lang/RuntimeException" implements [] {
        0x0101 "<init>" "()V" Core;
        0x0101 "<init>" "(Ljava/lang/String;)V" Core;
    }
    0x0021 "java/lang/NumberFormatException" extends "java/lang/IllegalArgumentException" implements [] {
        0x0101 "<init>" "()V" Core;
        0x0101 "<init>" "(Ljava/lang/String;)V" Core;
    }
    0x0021 "java/lang/IllegalStateException" extends "java/lang/RuntimeException" implements [] {
        0x0101 "<init>" "()V" Core;
        0x0101 "<init>" "(Ljava/lang/String;)V" Core;
    }
    0x0021 "java/lang/IllegalCallerException" extends "java/lang/RuntimeException" implements [] {
        0x0101 "<init>" "()V" Core;
        0x0101 "<init>" "(Ljava/lang/String;)V" Core;
    }
    0x0021 "java/lang/IllegalMonitorStateException" extends "java/lang/RuntimeException" implements [] {
        0x0101 "<init>" "()V" Core;
        0x0101 "<init>" "(Ljava/lang/String;)V" Core;
    }
    0x0021 "java/lang/IndexOutOfBoundsException" extends "java/lang/RuntimeException" implements [] {
        0x0101 "<init>" "()V" Core;
        0x0101 "<init>" "(Ljava/lang/String;)V" Core;
    }
    0x0021 "java/lang/ArrayIndexOutOfBoundsException" extends "java/lang/IndexOutOfBoundsException" implements [] {
        0x0101 "<init>" "()V" Core;
        0x0101 "<init>" "(Ljava/lang/String;)V" Core;
    }
    0x0021 "java/lang/StringIndexOutOfBoundsException" extends "java/lang/IndexOutOfBoundsException" implements [] {
        0x0101 "<init>" "()V" Core;
        0x0101 "<init>" "(Ljava/lang/String;)V" Core;
    }
    0x0021 "java/lang/NegativeArraySizeException" extends "java/lang/RuntimeException" implements [] {
        0x0101 "<init>" "()V" Core;
        0x0101 "<init>" "(Ljava/lang/String;)V" Core;
    }
    0x0021 "java/lang/NullPointerException" extends "java/lang/RuntimeException" implements [] {
        0x0101 "<init>" "()V" Core;
        0x0101 "<init>" "(Ljava/lang/String;)V" Core;
    }
    0x0021 "java/lang/UnsupportedOperationException" extends "java/lang/RuntimeException" implements [] {
        0x0101 "<init>" "()V" Core;
        0x0101 "<init>" "(Ljava/lang/String;)V" Core;
    }
    0x0021 "java/lang/LayerInstantiationException" extends "java/lang/RuntimeException" implements [] {
        0x0101 "<init>" "()V" Core;
        0x0101 "<init>" "(Ljava/lang/String;)V" Core;
    }
    0x0021 "java/util/NoSuchElementException" extends "java/lang/RuntimeException" implements [] {
        0x0101 "<init>" "()V" Core;
        0x0101 "<init>" "(Ljava/lang/String;)V" Core;
    }
    0x0021 "java/lang/reflect/InaccessibleObjectException" extends "java/lang/RuntimeException" implements [] {
        0x0101 "<init>" "()V" Core;
        0x0101 "<init>" "(Ljava/lang/String;)V" Core;
    }
    0x0021 "java/lang/module/FindException" extends "java/lang/RuntimeException" implements [] {
        0x0101 "<init>" "()V" Core;
        0x0101 "<init>" "(Ljava/lang/String;)V" Core;
    }
    0x0021 "java/lang/module/ResolutionException" extends "java/lang/RuntimeException" implements [] {
        0x0101 "<init>" "()V" Core;
        0x0101 "<init>" "(Ljava/lang/String;)V" Core;
    }
};

/// These rows.
pub fn rows() -> &'static [ClassRow]
    ensures { map row_of result.now ≡ exceptions_rows }
{
    &EXCEPTIONS
}
