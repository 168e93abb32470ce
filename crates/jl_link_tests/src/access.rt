//! Rows of access to members (JVMS 5.4.4), and of the constraints that a member imposes (JVMS 5.3.4).

use crate::references::ONE_LOADER;
use crate::steps::{Row, hold};
use std::test::Fail;

/// Each module of the second layer has a loader of its own: `m` has loader 2, `n` loader 3 and `o` loader 4.
/// `m` and `n` both have a package `p`, and `n` and `o` a package `w`.
pub const MANY_LOADERS: &str =
    "module java.base; packages base | module lib; packages java/lang; exports java/lang # many 1 1 : module m; packages p s; requires java.base; requires lib; requires n | module n; packages p q w; exports q; requires java.base; requires lib | module o; packages w; requires java.base; requires lib";

static MEMBERS: [Row; 16] = [
    (
        "a:p/A 0021 Fp/B,x,I | a:p/B 0021 f0002,x,I",
        "ref p/A 0, ref p/A 0",
        "IllegalAccessError member-private: p.A in a@1 to p.B.x in a@1, IllegalAccessError member-private: p.A in a@1 to p.B.x in a@1",
    ),
    ("a:p/A 0021 f0002,x,I Fp/A,x,I", "ref p/A 0", "p/A@1.x"),
    (
        "a:p/A 0021 Mp/B,f,()V | a:p/B 0021 <p/S | a:p/S 0021 m0002,f,()V",
        "ref p/A 0",
        "IllegalAccessError member-private: p.A in a@1 to p.S.f in a@1",
    ),
    (
        "a:p/A 0021 Ip/I,f,()V | a:p/I 0601 m0002,f,()V",
        "ref p/A 0",
        "IllegalAccessError member-private: p.A in a@1 to p.I.f in a@1",
    ),
    (
        "a:p/A 0021 Fp/B,x,I | a:p/B 0021 f0000,x,I",
        "ref p/A 0",
        "p/B@1.x",
    ),
    (
        "a:p/A 0021 Ft/T,x,I | a:t/T 0021 f0000,x,I",
        "ref p/A 0",
        "IllegalAccessError member-package: p.A in a@1 to t.T.x in a@1",
    ),
    (
        "a:p/A 0021 Fp/B,x,I | a:p/B 0021 f0004,x,I",
        "ref p/A 0",
        "p/B@1.x",
    ),
    (
        "a:p/A 0021 Fq/B,x,I | b:q/B 0021 f0004,x,I",
        "ref p/A 0",
        "IllegalAccessError member-protected: p.A in a@1 to q.B.x in b@1",
    ),
    (
        "a:p/A 0021 <q/B Fp/A,x,I | b:q/B 0021 f0004,x,I",
        "ref p/A 0",
        "q/B@1.x",
    ),
    (
        "a:p/A 0021 <q/B Fq/B,x,I | b:q/B 0021 f0004,x,I",
        "ref p/A 0",
        "q/B@1.x",
    ),
    (
        "a:p/A 0021 <q/B Fp/D,x,I | a:p/D 0021 <p/A | b:q/B 0021 f0004,x,I",
        "ref p/A 0",
        "q/B@1.x",
    ),
    (
        "a:p/A 0021 <q/B Fp/C,x,I | a:p/C 0021 <q/B | b:q/B 0021 f0004,x,I",
        "ref p/A 0",
        "IllegalAccessError member-protected: p.A in a@1 to q.B.x in b@1",
    ),
    (
        "a:p/A 0021 <q/B Fp/C,x,I | a:p/C 0021 <q/B | b:q/B 0021 f000c,x,I",
        "ref p/A 0",
        "q/B@1.x",
    ),
    (
        "a:p/A 0021 Fq/B,x,I | b:q/B 0021 f0001,x,I",
        "ref p/A 0",
        "q/B@1.x",
    ),
    (
        "a:p/A 0021 Mp/B,clone,()Ljava/lang/Object; | a:p/B 0021",
        "ref p/A 0",
        "IllegalAccessError member-protected: p.A in a@1 to java.lang.Object.clone in lib@1",
    ),
    (
        "a:p/A 0021 Mp/A,clone,()Ljava/lang/Object;",
        "ref p/A 0",
        "java/lang/Object@1.clone",
    ),
];

static ACROSS: [Row; 9] = [
    (
        "n:q/M 0021",
        "load q/M@2, load q/M@3, count",
        "q/M@3, q/M@3, 2",
    ),
    (
        "m:p/A 0021 | n:p/A 0021",
        "load p/A@2, load p/A@3, count",
        "p/A@2, p/A@3, 3",
    ),
    (
        "n:p/A 0021 | m:s/C 0021 Cp/A",
        "class s/C@2 0",
        "NoClassDefFoundError p.A",
    ),
    (
        "n:q/M 0020 | m:s/C 0021 Cq/M",
        "class s/C@2 0",
        "IllegalAccessError class-not-public: s.C in m@2 to q.M in n@2",
    ),
    (
        "n:p/A 0021 f0000,x,I | n:q/M 0021 <p/A | m:p/B 0021 <q/M Fp/B,x,I",
        "ref p/B@2 0",
        "IllegalAccessError member-package: p.B in m@2 to p.A.x in n@2",
    ),
    (
        "n:p/A 0021 f0004,x,I | n:q/M 0021 <p/A | m:p/B 0021 <q/M Fp/B,x,I",
        "ref p/B@2 0",
        "p/A@3.x",
    ),
    (
        "n:p/A 0021 f0001,x,I | n:q/M 0021 <p/A | m:s/C 0021 Fq/M,x,I",
        "ref s/C@2 0",
        "p/A@3.x",
    ),
    (
        "n:q/M 0021 f0004,x,I | m:s/C 0021 Fq/M,x,I",
        "ref s/C@2 0, notes",
        "IllegalAccessError member-protected: s.C in m@2 to q.M.x in n@2, [class granted 5x1 class granted 5x1 class granted 5x1 member denied member-protected 5x1]",
    ),
    (
        "n:q/M 0021 m0002,f,()V | m:q/M 0021 | m:s/C 0021 Mq/M,f,()V",
        "ref s/C@2 0",
        "IllegalAccessError member-private: s.C in m@2 to q.M.f in n@2",
    ),
];

static CONSTRAINTS: [Row; 11] = [
    (
        "n:q/M 0021 m0009,f,(Ljava/lang/Object;Lp/X;)V | m:s/C 0021 Mq/M,f,(Ljava/lang/Object;Lp/X;)V",
        "ref s/C@2 0, ref s/C@2 0",
        "LinkageError Clash p.X m@2 n@2, LinkageError Clash p.X m@2 n@2",
    ),
    (
        "n:q/M 0021 m0009,f,(Lw/Y;Lp/X;)V | m:s/C 0021 Mq/M,f,(Lw/Y;Lp/X;)V",
        "ref s/C@2 0, impose w/Y 2 4",
        "LinkageError Clash p.X m@2 n@2, clash",
    ),
    (
        "n:q/M 0021 m0009,f,(Lp/X;Lw/Y;)V | m:s/C 0021 Mq/M,f,(Lp/X;Lw/Y;)V",
        "ref s/C@2 0, impose w/Y 2 4",
        "LinkageError Clash p.X m@2 n@2, imposed",
    ),
    (
        "n:q/M 0021 m0009,f,(Lw/Y;)Lp/X; | m:s/C 0021 Mq/M,f,(Lw/Y;)Lp/X;",
        "ref s/C@2 0, impose w/Y 2 4",
        "LinkageError Clash p.X m@2 n@2, clash",
    ),
    (
        "n:q/M 0021 m0009,f,(Lp/X;)Lw/Y; | m:s/C 0021 Mq/M,f,(Lp/X;)Lw/Y;",
        "ref s/C@2 0, impose w/Y 2 4",
        "LinkageError Clash p.X m@2 n@2, imposed",
    ),
    (
        "n:q/M 0021 f0009,x,Lp/X; | m:s/C 0021 Fq/M,x,Lp/X;",
        "ref s/C@2 0",
        "LinkageError Clash p.X m@2 n@2",
    ),
    (
        "n:q/M 0021 m0009,f,([[Lp/X;)V | m:s/C 0021 Mq/M,f,([[Lp/X;)V",
        "ref s/C@2 0",
        "LinkageError Clash p.X m@2 n@2",
    ),
    (
        "n:q/M 0021 m0009,f,(Lq/M;Lw/Y;)V | m:s/C 0021 Mq/M,f,(Lq/M;Lw/Y;)V",
        "ref s/C@2 0, impose w/Y 2 4, impose w/Y 3 4",
        "q/M@3.f, clash, clash",
    ),
    (
        "n:q/M 0021 m0009,f,(Lp/X;)V | n:q/K 0021 Mq/M,f,(Lp/X;)V",
        "ref q/K@3 0",
        "q/M@3.f",
    ),
    (
        "n:q/M 0021 m0002,f,(Lp/X;)V | m:s/C 0021 Mq/M,f,(Lp/X;)V",
        "ref s/C@2 0, impose p/X 2 3",
        "IllegalAccessError member-private: s.C in m@2 to q.M.f in n@2, clash",
    ),
    (
        "n:q/M 0021 m0009,f,(Lw/Y;)V | m:s/C 0021 Mq/M,f,(Lw/Y;)V",
        "impose w/Y 2 4, ref s/C@2 0",
        "imposed, LinkageError Clash w.Y o@2 n@2",
    ),
];

#[test]
fn members(rt: HostRuntime) -> Result<(), Fail> {
    hold(rt.alloc(), ONE_LOADER, &MEMBERS)
}

#[test]
fn across_loaders(rt: HostRuntime) -> Result<(), Fail> {
    hold(rt.alloc(), MANY_LOADERS, &ACROSS)
}

#[test]
fn constraints(rt: HostRuntime) -> Result<(), Fail> {
    hold(rt.alloc(), MANY_LOADERS, &CONSTRAINTS)
}
