//! Rows of loading (JVMS 5.3).

use crate::steps::{Row, hold};
use std::test::Fail;

/// Module `lib` has Object; `a` reads it, and `b`, which exports nothing; `c` is read by nobody.
const MODULES: &str =
    "module java.base; packages base | module lib; packages java/lang; exports java/lang | module a; packages p; requires java.base; requires lib; requires b | module b; packages q; requires lib | module c; packages r; requires lib";

static LOADS: [Row; 22] = [
    ("", "load java/lang/Object, count", "java/lang/Object@1, 1"),
    ("a:p/A 0021", "load p/A, count", "p/A@1, 2"),
    ("a:p/A 0021", "load p/A, load p/A, count", "p/A@1, p/A@1, 2"),
    ("", "load z/Z, count", "NoClassDefFoundError z.Z, 0"),
    ("", "load base/Z, count", "NoClassDefFoundError base.Z, 0"),
    ("", "load p/A, count", "NoClassDefFoundError p.A, 0"),
    (
        "",
        "load [I, load [Lp/A;",
        "NoClassDefFoundError [I, NoClassDefFoundError [Lp.A;",
    ),
    (
        "a:p/A 0021 =p/B",
        "load p/A, count",
        "NoClassDefFoundError p.A, 0",
    ),
    (
        "a:p/A cut",
        "load p/A, count",
        "ClassFormatError p.A: Short 8, 0",
    ),
    (
        "a:p/A old",
        "load p/A, count",
        "UnsupportedClassVersionError p.A: Version 52 0, 0",
    ),
    (
        "a:p/A 0021 <p/B | a:p/B 0021 <p/A",
        "load p/A, load p/B, count",
        "ClassCircularityError p.A, ClassCircularityError p.B, 0",
    ),
    (
        "a:p/I 0601 :p/J | a:p/J 0601 :p/I",
        "load p/I, count",
        "ClassCircularityError p.I, 1",
    ),
    (
        "a:p/A 0021 <p/B",
        "load p/A, count",
        "NoClassDefFoundError p.B, 0",
    ),
    (
        "a:p/A 0021 <p/F | a:p/F 0031",
        "load p/A, count",
        "IncompatibleClassChangeError p.A, 2",
    ),
    (
        "a:p/A 0021 <p/I | a:p/I 0601",
        "load p/A, count",
        "IncompatibleClassChangeError p.A, 2",
    ),
    (
        "a:p/A 0021 :p/B | a:p/B 0021",
        "load p/A, count",
        "IncompatibleClassChangeError p.A, 2",
    ),
    (
        "a:p/A 0021 :p/I | a:p/I 0601",
        "load p/A, above p/A",
        "p/A@1, java/lang/Object@1 : p/I@1 .. p/I@1",
    ),
    (
        "a:p/A 0021 <q/B | b:q/B 0021",
        "load p/A, count, notes",
        "IllegalAccessError not-exported: p.A in a@1 to q.B in b@1, 2, [class granted 5x1 class denied not-exported 5x1]",
    ),
    (
        "a:p/A 0021 <r/C | c:r/C 0021",
        "load p/A, count, notes",
        "IllegalAccessError not-read: p.A in a@1 to r.C in c@1, 2, [class granted 5x1 class denied not-read 5x1]",
    ),
    (
        "a:p/A cut",
        "has p/A, has p/B, has z/Z",
        "true, false, false",
    ),
    ("java.base:base/Z cut", "has base/Z", "false"),
    (
        "a:p/A 0021 :p/I :p/J | a:p/I 0601 :p/K | a:p/J 0601 :p/K | a:p/K 0601",
        "load p/A, above p/A",
        "p/A@1, java/lang/Object@1 : p/I@1 p/J@1 .. p/K@1 p/I@1 p/J@1",
    ),
];

#[test]
fn loads(rt: HostRuntime) -> Result<(), Fail> {
    hold(rt.alloc(), MODULES, &LOADS)
}
