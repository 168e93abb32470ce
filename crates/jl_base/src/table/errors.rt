//! The errors of all packages, each behind its superclass.

ghost use Rattle.std.specs.Prelude.{◌≡◌, map};
ghost use Rattle.jl_base.specs.Rows.{row_of};
ghost use Rattle.jl_base.specs.Table.{errors_rows};

use crate::row::ClassRow;
use crate::row::MemberKind::Core;

/// The errors of all packages, each behind its superclass.
pub static ERRORS: [ClassRow; 21] = class_rows! {
    0x0021 "java/lang/Error" extends "java/lang/Throwable" implements [] {
        0x0101 "<init>" "()V" Core;
        0x0101 "<init>" "(Ljava/lang/String;)V" Core;
        0x0101 "<init>" "(Ljava/lang/String;Ljava/lang/Throwable;)V" Core;
        0x0101 "<init>" "(Ljava/lang/Throwable;)V" Core;
    }
    0x0021 "java/lang/AssertionError" extends "java/lang/Error" implements [] {
        0x0101 "<init>" "()V" Core;
        0x0101 "<init>" "(Ljava/lang/String;)V" Core;
    }
    0x0021 "java/util/ServiceConfigurationError" extends "java/lang/Error" implements [] {
        0x0101 "<init>" "()V" Core;
        0x0101 "<init>" "(Ljava/lang/String;)V" Core;
    }
    0x0421 "java/lang/VirtualMachineError" extends "java/lang/Error" implements [] {
        0x0101 "<init>" "()V" Core;
        0x0101 "<init>" "(Ljava/lang/String;)V" Core;
    }
    0x0021 "java/lang/InternalError" extends "java/lang/VirtualMachineError" implements [] {
        0x0101 "<init>" "()V" Core;
        0x0101 "<init>" "(Ljava/lang/String;)V" Core;
    }
    0x0021 "java/lang/OutOfMemoryError" extends "java/lang/VirtualMachineError" implements [] {
        0x0101 "<init>" "()V" Core;
        0x0101 "<init>" "(Ljava/lang/String;)V" Core;
    }
    0x0021 "java/lang/StackOverflowError" extends "java/lang/VirtualMachineError" implements [] {
        0x0101 "<init>" "()V" Core;
        0x0101 "<init>" "(Ljava/lang/String;)V" Core;
    }
    0x0021 "java/lang/LinkageError" extends "java/lang/Error" implements [] {
        0x0101 "<init>" "()V" Core;
        0x0101 "<init>" "(Ljava/lang/String;)V" Core;
    }
    0x0021 "java/lang/ClassCircularityError" extends "java/lang/LinkageError" implements [] {
        0x0101 "<init>" "()V" Core;
        0x0101 "<init>" "(Ljava/lang/String;)V" Core;
    }
    0x0021 "java/lang/ClassFormatError" extends "java/lang/LinkageError" implements [] {
        0x0101 "<init>" "()V" Core;
        0x0101 "<init>" "(Ljava/lang/String;)V" Core;
    }
    0x0021 "java/lang/UnsupportedClassVersionError" extends "java/lang/ClassFormatError" implements [] {
        0x0101 "<init>" "()V" Core;
        0x0101 "<init>" "(Ljava/lang/String;)V" Core;
    }
    0x0021 "java/lang/ExceptionInInitializerError" extends "java/lang/LinkageError" implements [] {
        0x0101 "<init>" "()V" Core;
        0x0101 "<init>" "(Ljava/lang/String;)V" Core;
    }
    0x0021 "java/lang/NoClassDefFoundError" extends "java/lang/LinkageError" implements [] {
        0x0101 "<init>" "()V" Core;
        0x0101 "<init>" "(Ljava/lang/String;)V" Core;
    }
    0x0021 "java/lang/UnsatisfiedLinkError" extends "java/lang/LinkageError" implements [] {
        0x0101 "<init>" "()V" Core;
        0x0101 "<init>" "(Ljava/lang/String;)V" Core;
    }
    0x0021 "java/lang/VerifyError" extends "java/lang/LinkageError" implements [] {
        0x0101 "<init>" "()V" Core;
        0x0101 "<init>" "(Ljava/lang/String;)V" Core;
    }
    0x0021 "java/lang/IncompatibleClassChangeError" extends "java/lang/LinkageError" implements [] {
        0x0101 "<init>" "()V" Core;
        0x0101 "<init>" "(Ljava/lang/String;)V" Core;
    }
    0x0021 "java/lang/AbstractMethodError" extends "java/lang/IncompatibleClassChangeError" implements [] {
        0x0101 "<init>" "()V" Core;
        0x0101 "<init>" "(Ljava/lang/String;)V" Core;
    }
    0x0021 "java/lang/IllegalAccessError" extends "java/lang/IncompatibleClassChangeError" implements [] {
        0x0101 "<init>" "()V" Core;
        0x0101 "<init>" "(Ljava/lang/String;)V" Core;
    }
    0x0021 "java/lang/InstantiationError" extends "java/lang/IncompatibleClassChangeError" implements [] {
        0x0101 "<init>" "()V" Core;
        0x0101 "<init>" "(Ljava/lang/String;)V" Core;
    }
    0x0021 "java/lang/NoSuchFieldError" extends "java/lang/IncompatibleClassChangeError" implements [] {
        0x0101 "<init>" "()V" Core;
        0x0101 "<init>" "(Ljava/lang/String;)V" Core;
    }
    0x0021 "java/lang/NoSuchMethodError" extends "java/lang/IncompatibleClassChangeError" implements [] {
        0x0101 "<init>" "()V" Core;
        0x0101 "<init>" "(Ljava/lang/String;)V" Core;
    }
};

/// These rows.
pub fn rows() -> &'static [ClassRow]
    ensures { map row_of result.now ≡ errors_rows }
{
    &ERRORS
}
