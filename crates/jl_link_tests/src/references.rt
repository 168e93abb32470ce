//! Rows of references to classes and arrays (JVMS 5.4.3.1).

use crate::steps::{Row, hold};
use std::test::Fail;

/// `a` has two packages, and reads `b`, which exports its package, and `c`, which does not. It does not read `d`.
pub const ONE_LOADER: &str =
    "module java.base; packages base | module lib; packages java/lang; exports java/lang | module a; packages p t; requires java.base; requires lib; requires b; requires c | module b; packages q; exports q; requires lib | module c; packages r; requires lib | module d; packages s; requires lib";

static CLASSES: [Row; 16] = [
    (
        "a:p/A 0021 Cp/B | a:p/B 0020",
        "class p/A 0, count",
        "p/B@1, 3",
    ),
    (
        "a:p/A 0021 Cp/A",
        "class p/A 0, slots p/A",
        "p/A@1, [2=p/A@1]",
    ),
    ("a:p/A 0021 Cq/B | b:q/B 0021", "class p/A 0", "q/B@1"),
    (
        "a:p/A 0021 Cp/Z",
        "class p/A 0, class p/A 0, slots p/A",
        "NoClassDefFoundError p.Z, NoClassDefFoundError p.Z, [2=NoClassDefFoundError]",
    ),
    ("a:p/A 0021 Cz/Z", "class p/A 0", "NoClassDefFoundError z.Z"),
    (
        "a:p/A 0021 Cp/B | a:p/B 0021 =p/C",
        "class p/A 0",
        "NoClassDefFoundError p.B",
    ),
    (
        "a:p/A 0021 Cp/B | a:p/B cut",
        "class p/A 0",
        "ClassFormatError p.B: Short 8",
    ),
    (
        "a:p/A 0021 Cp/B | a:p/B old",
        "class p/A 0",
        "UnsupportedClassVersionError p.B: Version 52 0",
    ),
    (
        "a:p/A 0021 Cp/B | a:p/B 0021 <p/C | a:p/C 0021 <p/B",
        "class p/A 0",
        "ClassCircularityError p.B",
    ),
    (
        "a:p/A 0021 Cp/B | a:p/B 0021 <p/F | a:p/F 0031",
        "class p/A 0",
        "IncompatibleClassChangeError p.B",
    ),
    (
        "a:p/A 0021 Ct/T | a:t/T 0020",
        "class p/A 0",
        "IllegalAccessError class-not-public: p.A in a@1 to t.T in a@1",
    ),
    (
        "a:p/A 0021 Cq/B | b:q/B 0020",
        "class p/A 0",
        "IllegalAccessError class-not-public: p.A in a@1 to q.B in b@1",
    ),
    (
        "a:p/A 0021 Cr/C | c:r/C 0021",
        "class p/A 0",
        "IllegalAccessError not-exported: p.A in a@1 to r.C in c@1",
    ),
    (
        "a:p/A 0021 Cs/D | d:s/D 0021",
        "class p/A 0",
        "IllegalAccessError not-read: p.A in a@1 to s.D in d@1",
    ),
    (
        "a:p/A 0021 Cp/B Cp/B | a:p/B 0021",
        "class p/A 1, slots p/A, class p/A 0, slots p/A",
        "p/B@1, [8=p/B@1], p/B@1, [2=p/B@1 8=p/B@1]",
    ),
    (
        "a:p/A 0021 Cq/B | b:q/B 0021",
        "class p/A 0, notes, class p/A 0, notes",
        "q/B@1, [class granted 5x1 class granted 5x1 class granted 5x1], q/B@1, [class granted 5x1 class granted 5x1 class granted 5x1]",
    ),
];

static ARRAYS: [Row; 8] = [
    (
        "a:p/A 0021 C[I",
        "class p/A 0, count, slots p/A",
        "[I, 2, [2=[I]",
    ),
    (
        "a:p/A 0021 C[[Lp/B; | a:p/B 0020",
        "class p/A 0, count",
        "[[Lp/B;, 3",
    ),
    (
        "a:p/A 0021 C[Ljava/lang/Object;",
        "class p/A 0, count",
        "[Ljava/lang/Object;, 2",
    ),
    (
        "a:p/A 0021 C[Lp/Z;",
        "class p/A 0",
        "NoClassDefFoundError p.Z",
    ),
    (
        "a:p/A 0021 C[Lr/C; | c:r/C 0021",
        "class p/A 0",
        "IllegalAccessError not-exported: p.A in a@1 to r.C in c@1",
    ),
    (
        "a:p/A 0021 C[Lt/T; | a:t/T 0020",
        "class p/A 0",
        "IllegalAccessError class-not-public: p.A in a@1 to t.T in a@1",
    ),
    ("a:p/A 0021 C[X", "class p/A 0", "NoClassDefFoundError [X"),
    (
        "a:p/A 0021 C[Lp/B",
        "class p/A 0",
        "NoClassDefFoundError [Lp.B",
    ),
];

#[test]
fn classes(rt: HostRuntime) -> Result<(), Fail> {
    hold(rt.alloc(), ONE_LOADER, &CLASSES)
}

#[test]
fn arrays(rt: HostRuntime) -> Result<(), Fail> {
    hold(rt.alloc(), ONE_LOADER, &ARRAYS)
}
