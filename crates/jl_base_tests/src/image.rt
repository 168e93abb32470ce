//! Tests of the image of `java.base`.

use jl_base::{BaseImage, base_image};
use jl_class::ClassDecl;
use std::test::Fail;

/// Methods as `javap -v` of Java SE 17 shows them: class, name, descriptor and flags, to which native is added.
static METHODS: [(&str, &str, &str, u16); 14] = [
    ("java/lang/Object", "<init>", "()V", 0x0101),
    (
        "java/lang/Object",
        "getClass",
        "()Ljava/lang/Class;",
        0x0111,
    ),
    ("java/lang/Object", "clone", "()Ljava/lang/Object;", 0x0104),
    ("java/lang/String", "charAt", "(I)C", 0x0101),
    ("java/lang/Math", "floorMod", "(II)I", 0x0109),
    ("java/lang/Record", "<init>", "()V", 0x0104),
    ("java/lang/Record", "hashCode", "()I", 0x0401),
    ("java/lang/Enum", "ordinal", "()I", 0x0111),
    ("java/lang/Runnable", "run", "()V", 0x0401),
    (
        "java/lang/Error",
        "<init>",
        "(Ljava/lang/Throwable;)V",
        0x0101,
    ),
    (
        "java/util/List",
        "of",
        "([Ljava/lang/Object;)Ljava/util/List;",
        0x0189,
    ),
    (
        "java/lang/reflect/Method",
        "invoke",
        "(Ljava/lang/Object;[Ljava/lang/Object;)Ljava/lang/Object;",
        0x0181,
    ),
    (
        "java/nio/file/Path",
        "of",
        "(Ljava/lang/String;[Ljava/lang/String;)Ljava/nio/file/Path;",
        0x0189,
    ),
    ("java/io/PrintStream", "println", "(J)V", 0x0101),
];

#[test]
fn all_classes_are_made(rt: HostRuntime) -> Result<(), Fail> {
    let image = base_image(rt.alloc())?;
    assert_eq!(rt; image.declaration.name.as_str(), "java.base");
    assert_eq!(rt; image.declaration.exports.len(), 6);
    assert_eq!(rt; image.declaration.packages.len(), 7);
    assert_eq!(rt; image.classes.len(), 97);
    for (class, name, desc, flags) in &METHODS {
        assert_eq!(rt;
            flags_in(&image, class, name, desc),
            Some(*flags),
            "{class}.{name}"
        );
    }
    Ok(())
}

/// The flags of a method of the image.
fn flags_in(image: &BaseImage, class: &str, name: &str, desc: &str) -> Option<u16> {
    for c in image.classes.as_slice() {
        if c.name().as_str() == class {
            return flags_of(c, name, desc);
        }
    }
    None
}

fn flags_of(class: &ClassDecl, name: &str, desc: &str) -> Option<u16> {
    for method in class.methods() {
        if method.name.as_str() == name && method.desc.as_str() == desc {
            return Some(method.flags);
        }
    }
    None
}
