//! Rows of what is kept: what files gave, and what was decided of references (JVMS 5.4.3).

use crate::access::MANY_LOADERS;
use crate::references::ONE_LOADER;
use crate::steps::{Row, hold};
use std::test::Fail;

static PATHS: [Row; 9] = [
    (
        "a:p/A 0021",
        "load p/A, load p/A, asked",
        "p/A@1, p/A@1, [a/p/A lib/java/lang/Object]",
    ),
    (
        "a:p/A cut",
        "load p/A, load p/A, asked",
        "ClassFormatError p.A: Short 8, ClassFormatError p.A: Short 8, [a/p/A]",
    ),
    (
        "a:p/A old",
        "has p/A, load p/A, load p/A, asked",
        "true, UnsupportedClassVersionError p.A: Version 52 0, UnsupportedClassVersionError p.A: Version 52 0, [a/p/A]",
    ),
    (
        "",
        "load p/A, has p/A, load p/A, asked",
        "NoClassDefFoundError p.A, false, NoClassDefFoundError p.A, [a/p/A]",
    ),
    (
        "a:p/A 0021 =p/B",
        "load p/A, has p/A, load p/A, asked",
        "NoClassDefFoundError p.A, true, NoClassDefFoundError p.A, [a/p/A]",
    ),
    (
        "a:p/A 0021 <p/B",
        "load p/A, load p/A, asked",
        "NoClassDefFoundError p.B, NoClassDefFoundError p.B, [a/p/A a/p/B]",
    ),
    (
        "a:p/A 0021 <p/F | a:p/F 0031",
        "load p/A, load p/A, count, asked",
        "IncompatibleClassChangeError p.A, IncompatibleClassChangeError p.A, 2, [a/p/A a/p/F lib/java/lang/Object]",
    ),
    (
        "a:p/A 0021 <p/B | a:p/B 0021 <p/A",
        "load p/A, load p/B, load p/A, asked",
        "ClassCircularityError p.A, ClassCircularityError p.B, ClassCircularityError p.A, [a/p/A a/p/B]",
    ),
    (
        "",
        "load z/Z, has z/Z, load base/Z, has base/Z, load [I, asked",
        "NoClassDefFoundError z.Z, false, NoClassDefFoundError base.Z, false, NoClassDefFoundError [I, []",
    ),
];

static PATHS_OF_LOADERS: [Row; 4] = [
    (
        "n:q/M cut",
        "load q/M@2, load q/M@3, load q/M@2, asked",
        "ClassFormatError q.M: Short 8, ClassFormatError q.M: Short 8, ClassFormatError q.M: Short 8, [n/q/M]",
    ),
    (
        "n:q/M 0021",
        "has q/M@2, load q/M@3, load q/M@2, has q/M@3, asked",
        "true, q/M@3, q/M@3, true, [n/q/M lib/java/lang/Object]",
    ),
    (
        "m:p/A 0021 | n:p/A cut",
        "load p/A@2, load p/A@3, load p/A@3, load p/A@2, asked",
        "p/A@2, ClassFormatError p.A: Short 8, ClassFormatError p.A: Short 8, p/A@2, [m/p/A lib/java/lang/Object n/p/A]",
    ),
    (
        "",
        "load q/M@2, load q/M@3, load w/Y@3, load w/Y@4, asked",
        "NoClassDefFoundError q.M, NoClassDefFoundError q.M, NoClassDefFoundError w.Y, NoClassDefFoundError w.Y, [n/q/M n/w/Y o/w/Y]",
    ),
];

static DECIDED: [Row; 8] = [
    (
        "a:p/A 0021 Cq/B Fq/B,x,I | b:q/B 0021 f0001,x,I | d:s/D 0021",
        "ref p/A 1, slots p/A, reads p/A s/D, load s/D, layer module x; packages x, slots p/A, ref p/A 1",
        "q/B@1.x, [8=q/B@1 12=q/B@1.x], read, s/D@1, layer 2, [8=q/B@1 12=q/B@1.x], q/B@1.x",
    ),
    (
        "a:p/A 0021 Cr/C Cr/C | c:r/C 0021",
        "class p/A 0, exports r/C p/A, class p/A 0, class p/A 1, slots p/A",
        "IllegalAccessError not-exported: p.A in a@1 to r.C in c@1, exported, IllegalAccessError not-exported: p.A in a@1 to r.C in c@1, r/C@1, [2=IllegalAccessError 8=r/C@1]",
    ),
    (
        "a:p/A 0021 Fr/C,x,I F@0,y,I M@0,f,()V | c:r/C 0021 f0001,x,I f0001,y,I m0001,f,()V",
        "ref p/A 0, exports r/C p/A, ref p/A 1, ref p/A 2, ref p/A 0",
        "IllegalAccessError not-exported: p.A in a@1 to r.C in c@1, exported, IllegalAccessError not-exported: p.A in a@1 to r.C in c@1, IllegalAccessError not-exported: p.A in a@1 to r.C in c@1, IllegalAccessError not-exported: p.A in a@1 to r.C in c@1",
    ),
    (
        "a:p/A 0021 Fr/C,x,I Fr/C,x,I | c:r/C 0021 f0001,x,I",
        "ref p/A 0, exports r/C p/A, ref p/A 1",
        "IllegalAccessError not-exported: p.A in a@1 to r.C in c@1, exported, r/C@1.x",
    ),
    (
        "a:p/A 0021 Cs/D Cs/D | d:s/D 0021",
        "class p/A 0, reads p/A s/D, class p/A 0, class p/A 1",
        "IllegalAccessError not-read: p.A in a@1 to s.D in d@1, read, IllegalAccessError not-read: p.A in a@1 to s.D in d@1, IllegalAccessError not-exported: p.A in a@1 to s.D in d@1",
    ),
    (
        "a:p/A 0021 Fq/B,x,I F@0,y,I | b:q/B 0021 f0001,x,I",
        "ref p/A 1, ref p/A 0, slots p/A",
        "NoSuchFieldError q.B.y, q/B@1.x, [2=q/B@1 6=q/B@1.x 12=NoSuchFieldError]",
    ),
    (
        "a:p/A 0021 Fq/B,x,I | b:q/B 0021 f0002,x,I",
        "ref p/A 0, notes, ref p/A 0, notes",
        "IllegalAccessError member-private: p.A in a@1 to q.B.x in b@1, [class granted 5x1 class granted 5x1 class granted 5x1 member denied member-private 5x1], IllegalAccessError member-private: p.A in a@1 to q.B.x in b@1, [class granted 5x1 class granted 5x1 class granted 5x1 member denied member-private 5x1]",
    ),
    (
        "a:p/A 0021 Cp/Z",
        "class p/A 0, slots p/A, slots java/lang/Object",
        "NoClassDefFoundError p.Z, [2=NoClassDefFoundError], []",
    ),
];

#[test]
fn paths(rt: HostRuntime) -> Result<(), Fail> {
    hold(rt.alloc(), ONE_LOADER, &PATHS)
}

#[test]
fn paths_of_loaders(rt: HostRuntime) -> Result<(), Fail> {
    hold(rt.alloc(), MANY_LOADERS, &PATHS_OF_LOADERS)
}

#[test]
fn decided(rt: HostRuntime) -> Result<(), Fail> {
    hold(rt.alloc(), ONE_LOADER, &DECIDED)
}
