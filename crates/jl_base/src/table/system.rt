//! The system, classes and modules, of `java.lang`, and `java.io`.

ghost use Rattle.std.specs.Prelude.{◌≡◌, map};
ghost use Rattle.jl_base.specs.Rows.{row_of};
ghost use Rattle.jl_base.specs.Table.{system_rows};

use crate::row::ClassRow;
use crate::row::MemberKind::{Boxed, Core, Entering, Field};

/// The system, classes and modules, of `java.lang`, and `java.io`.
pub static SYSTEM: [ClassRow; 8] = class_rows! {
    0x0031 "java/lang/System" extends "java/lang/Object" implements [] {
        0x0019 "out" "Ljava/io/PrintStream;" Field;
        0x0109 "exit" "(I)V" Core;
        0x0109 "currentTimeMillis" "()J" Boxed(30);
        0x0109 "nanoTime" "()J" Boxed(31);
        0x0109 "getProperty" "(Ljava/lang/String;)Ljava/lang/String;" Boxed(32);
        0x0109 "identityHashCode" "(Ljava/lang/Object;)I" Core;
    }
    0x0031 "java/lang/Class" extends "java/lang/Object" implements [] {
        0x0101 "getName" "()Ljava/lang/String;" Core;
        0x0101 "getModule" "()Ljava/lang/Module;" Core;
        0x0101 "getClassLoader" "()Ljava/lang/ClassLoader;" Core;
        0x0101 "getSuperclass" "()Ljava/lang/Class;" Core;
        0x0101 "isInterface" "()Z" Core;
        0x0101 "isInstance" "(Ljava/lang/Object;)Z" Core;
        0x0101 "getPackageName" "()Ljava/lang/String;" Core;
        0x0101 "desiredAssertionStatus" "()Z" Core;
        0x0109 "forName" "(Ljava/lang/String;)Ljava/lang/Class;" Entering;
        0x0109 "forName" "(Ljava/lang/Module;Ljava/lang/String;)Ljava/lang/Class;" Core;
        0x0101 "getDeclaredField" "(Ljava/lang/String;)Ljava/lang/reflect/Field;" Core;
        0x0181 "getDeclaredMethod" "(Ljava/lang/String;[Ljava/lang/Class;)Ljava/lang/reflect/Method;" Core;
        0x0181 "getDeclaredConstructor" "([Ljava/lang/Class;)Ljava/lang/reflect/Constructor;" Core;
    }
    0x0421 "java/lang/ClassLoader" extends "java/lang/Object" implements [] {
        0x0109 "getSystemClassLoader" "()Ljava/lang/ClassLoader;" Core;
    }
    0x0031 "java/lang/Module" extends "java/lang/Object" implements [] {
        0x0101 "getName" "()Ljava/lang/String;" Core;
        0x0101 "isNamed" "()Z" Core;
        0x0101 "getLayer" "()Ljava/lang/ModuleLayer;" Core;
        0x0101 "getClassLoader" "()Ljava/lang/ClassLoader;" Core;
        0x0101 "canRead" "(Ljava/lang/Module;)Z" Core;
        0x0101 "isExported" "(Ljava/lang/String;)Z" Core;
        0x0101 "isExported" "(Ljava/lang/String;Ljava/lang/Module;)Z" Core;
        0x0101 "isOpen" "(Ljava/lang/String;)Z" Core;
        0x0101 "isOpen" "(Ljava/lang/String;Ljava/lang/Module;)Z" Core;
        0x0101 "canUse" "(Ljava/lang/Class;)Z" Core;
        0x0101 "addReads" "(Ljava/lang/Module;)Ljava/lang/Module;" Core;
        0x0101 "addExports" "(Ljava/lang/String;Ljava/lang/Module;)Ljava/lang/Module;" Core;
        0x0101 "addOpens" "(Ljava/lang/String;Ljava/lang/Module;)Ljava/lang/Module;" Core;
        0x0101 "addUses" "(Ljava/lang/Class;)Ljava/lang/Module;" Core;
    }
    0x0031 "java/lang/ModuleLayer" extends "java/lang/Object" implements [] {
        0x0109 "boot" "()Ljava/lang/ModuleLayer;" Core;
        0x0109 "empty" "()Ljava/lang/ModuleLayer;" Core;
        0x0101 "configuration" "()Ljava/lang/module/Configuration;" Core;
        0x0101 "parents" "()Ljava/util/List;" Core;
        0x0101 "findModule" "(Ljava/lang/String;)Ljava/util/Optional;" Core;
        0x0101 "findLoader" "(Ljava/lang/String;)Ljava/lang/ClassLoader;" Core;
        0x0101 "defineModulesWithOneLoader" "(Ljava/lang/module/Configuration;Ljava/lang/ClassLoader;)Ljava/lang/ModuleLayer;" Core;
        0x0101 "defineModulesWithManyLoaders" "(Ljava/lang/module/Configuration;Ljava/lang/ClassLoader;)Ljava/lang/ModuleLayer;" Core;
        0x0109 "defineModulesWithOneLoader" "(Ljava/lang/module/Configuration;Ljava/util/List;Ljava/lang/ClassLoader;)Ljava/lang/ModuleLayer$Controller;" Core;
        0x0109 "defineModulesWithManyLoaders" "(Ljava/lang/module/Configuration;Ljava/util/List;Ljava/lang/ClassLoader;)Ljava/lang/ModuleLayer$Controller;" Core;
    }
    0x0031 "java/lang/ModuleLayer$Controller" extends "java/lang/Object" implements [] {
        0x0101 "layer" "()Ljava/lang/ModuleLayer;" Core;
        0x0101 "addReads" "(Ljava/lang/Module;Ljava/lang/Module;)Ljava/lang/ModuleLayer$Controller;" Core;
        0x0101 "addExports" "(Ljava/lang/Module;Ljava/lang/String;Ljava/lang/Module;)Ljava/lang/ModuleLayer$Controller;" Core;
        0x0101 "addOpens" "(Ljava/lang/Module;Ljava/lang/String;Ljava/lang/Module;)Ljava/lang/ModuleLayer$Controller;" Core;
    }
    0x0601 "java/io/Serializable" extends "java/lang/Object" implements [] {}
    0x0021 "java/io/PrintStream" extends "java/lang/Object" implements [] {
        0x0101 "print" "(Ljava/lang/String;)V" Core;
        0x0101 "print" "(I)V" Core;
        0x0101 "print" "(J)V" Core;
        0x0101 "print" "(C)V" Core;
        0x0101 "print" "(Z)V" Core;
        0x0101 "println" "()V" Core;
        0x0101 "println" "(Ljava/lang/String;)V" Core;
        0x0101 "println" "(I)V" Core;
        0x0101 "println" "(J)V" Core;
        0x0101 "println" "(C)V" Core;
        0x0101 "println" "(Z)V" Core;
    }
};

/// These rows.
pub fn rows() -> &'static [ClassRow]
    ensures { map row_of result.now ≡ system_rows }
{
    &SYSTEM
}
