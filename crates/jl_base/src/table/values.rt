//! Objects, texts, boxed values and what every program extends, of `java.lang`.

ghost use Rattle.std.specs.Prelude.{◌≡◌, map};
ghost use Rattle.jl_base.specs.Rows.{row_of};
ghost use Rattle.jl_base.specs.Table.{values_rows};

use crate::row::ClassRow;
use crate::row::MemberKind::{Abstract, Boxed, Core};

/// Objects, texts, boxed values and what every program extends, of `java.lang`.
pub static VALUES: [ClassRow; 12] = class_rows! {
    0x0021 "java/lang/Object" extends "" implements [] {
        0x0101 "<init>" "()V" Core;
        0x0111 "getClass" "()Ljava/lang/Class;" Core;
        0x0101 "hashCode" "()I" Core;
        0x0101 "equals" "(Ljava/lang/Object;)Z" Core;
        0x0101 "toString" "()Ljava/lang/String;" Core;
        0x0104 "clone" "()Ljava/lang/Object;" Core;
    }
    0x0031 "java/lang/String" extends "java/lang/Object" implements [] {
        0x0101 "length" "()I" Boxed(1);
        0x0101 "charAt" "(I)C" Boxed(2);
        0x0101 "concat" "(Ljava/lang/String;)Ljava/lang/String;" Boxed(3);
        0x0101 "substring" "(II)Ljava/lang/String;" Boxed(4);
        0x0101 "indexOf" "(Ljava/lang/String;)I" Boxed(5);
        0x0101 "compareTo" "(Ljava/lang/String;)I" Boxed(6);
        0x0101 "hashCode" "()I" Boxed(7);
        0x0101 "isEmpty" "()Z" Boxed(8);
        0x0101 "startsWith" "(Ljava/lang/String;)Z" Boxed(9);
        0x0101 "equals" "(Ljava/lang/Object;)Z" Core;
        0x0101 "toString" "()Ljava/lang/String;" Core;
        0x0109 "valueOf" "(I)Ljava/lang/String;" Boxed(20);
        0x0109 "valueOf" "(J)Ljava/lang/String;" Boxed(21);
        0x0109 "valueOf" "(C)Ljava/lang/String;" Boxed(14);
        0x0109 "valueOf" "(Z)Ljava/lang/String;" Boxed(15);
    }
    0x0031 "java/lang/StringBuilder" extends "java/lang/Object" implements [] {
        0x0101 "<init>" "()V" Core;
        0x0101 "append" "(Ljava/lang/String;)Ljava/lang/StringBuilder;" Core;
        0x0101 "append" "(I)Ljava/lang/StringBuilder;" Core;
        0x0101 "append" "(J)Ljava/lang/StringBuilder;" Core;
        0x0101 "append" "(C)Ljava/lang/StringBuilder;" Core;
        0x0101 "append" "(Z)Ljava/lang/StringBuilder;" Core;
        0x0101 "length" "()I" Core;
        0x0101 "toString" "()Ljava/lang/String;" Core;
    }
    0x0031 "java/lang/Integer" extends "java/lang/Object" implements [] {
        0x0109 "valueOf" "(I)Ljava/lang/Integer;" Core;
        0x0101 "intValue" "()I" Core;
        0x0109 "toString" "(I)Ljava/lang/String;" Boxed(10);
        0x0109 "parseInt" "(Ljava/lang/String;)I" Boxed(11);
        0x0101 "equals" "(Ljava/lang/Object;)Z" Core;
        0x0101 "hashCode" "()I" Core;
        0x0101 "toString" "()Ljava/lang/String;" Core;
    }
    0x0031 "java/lang/Long" extends "java/lang/Object" implements [] {
        0x0109 "valueOf" "(J)Ljava/lang/Long;" Core;
        0x0101 "longValue" "()J" Core;
        0x0109 "toString" "(J)Ljava/lang/String;" Boxed(12);
        0x0109 "parseLong" "(Ljava/lang/String;)J" Boxed(13);
        0x0101 "equals" "(Ljava/lang/Object;)Z" Core;
        0x0101 "hashCode" "()I" Core;
        0x0101 "toString" "()Ljava/lang/String;" Core;
    }
    0x0031 "java/lang/Boolean" extends "java/lang/Object" implements [] {
        0x0109 "valueOf" "(Z)Ljava/lang/Boolean;" Core;
        0x0101 "booleanValue" "()Z" Core;
        0x0101 "equals" "(Ljava/lang/Object;)Z" Core;
        0x0101 "hashCode" "()I" Core;
        0x0101 "toString" "()Ljava/lang/String;" Core;
    }
    0x0031 "java/lang/Character" extends "java/lang/Object" implements [] {
        0x0109 "valueOf" "(C)Ljava/lang/Character;" Core;
        0x0101 "charValue" "()C" Core;
        0x0101 "equals" "(Ljava/lang/Object;)Z" Core;
        0x0101 "hashCode" "()I" Core;
        0x0101 "toString" "()Ljava/lang/String;" Core;
    }
    0x0031 "java/lang/Byte" extends "java/lang/Object" implements [] {
        0x0109 "valueOf" "(B)Ljava/lang/Byte;" Core;
        0x0101 "byteValue" "()B" Core;
        0x0101 "equals" "(Ljava/lang/Object;)Z" Core;
        0x0101 "hashCode" "()I" Core;
        0x0101 "toString" "()Ljava/lang/String;" Core;
    }
    0x0031 "java/lang/Short" extends "java/lang/Object" implements [] {
        0x0109 "valueOf" "(S)Ljava/lang/Short;" Core;
        0x0101 "shortValue" "()S" Core;
        0x0101 "equals" "(Ljava/lang/Object;)Z" Core;
        0x0101 "hashCode" "()I" Core;
        0x0101 "toString" "()Ljava/lang/String;" Core;
    }
    0x0031 "java/lang/Math" extends "java/lang/Object" implements [] {
        0x0109 "abs" "(I)I" Boxed(16);
        0x0109 "max" "(II)I" Boxed(17);
        0x0109 "min" "(II)I" Boxed(18);
        0x0109 "floorMod" "(II)I" Boxed(19);
    }
    0x0421 "java/lang/Enum" extends "java/lang/Object" implements [] {
        0x0104 "<init>" "(Ljava/lang/String;I)V" Core;
        0x0111 "name" "()Ljava/lang/String;" Core;
        0x0111 "ordinal" "()I" Core;
        0x0101 "toString" "()Ljava/lang/String;" Core;
    }
    0x0421 "java/lang/Record" extends "java/lang/Object" implements [] {
        0x0104 "<init>" "()V" Core;
        0x0401 "equals" "(Ljava/lang/Object;)Z" Abstract;
        0x0401 "hashCode" "()I" Abstract;
        0x0401 "toString" "()Ljava/lang/String;" Abstract;
    }
};

/// These rows.
pub fn rows() -> &'static [ClassRow]
    ensures { map row_of result.now ≡ values_rows }
{
    &VALUES
}
