//! Rows of nests (JVMS 4.7.28, 4.7.29, 5.4.4) and of permitted subclasses (JVMS 4.7.31, 5.3.5).

use crate::access::MANY_LOADERS;
use crate::references::ONE_LOADER;
use crate::steps::{Row, hold};
use std::test::Fail;

static HOSTS: [Row; 9] = [
    ("a:p/A 0021", "host p/A", "p/A@1"),
    (
        "a:p/A 0021 np/B | a:p/B 0020 hp/A",
        "host p/B, host p/A, count",
        "p/A@1, p/A@1, 3",
    ),
    (
        "a:p/A 0021 | a:p/B 0020 hp/A",
        "host p/B, count",
        "p/B@1, 3",
    ),
    ("a:p/A 0021 np/C | a:p/B 0020 hp/A", "host p/B", "p/B@1"),
    ("a:t/A 0021 np/B | a:p/B 0020 ht/A", "host p/B", "p/B@1"),
    (
        "a:p/A cut | a:p/B 0020 hp/A",
        "host p/B, host p/B, count",
        "p/B@1, p/B@1, 2",
    ),
    ("a:p/B 0020 hp/A", "host p/B, count", "p/B@1, 2"),
    (
        "a:p/H 0021 np/A | a:p/A 0021 hp/H | a:p/B 0020 hp/A",
        "host p/B, host p/A",
        "p/B@1, p/H@1",
    ),
    ("a:p/B 0020 hp/B", "host p/B", "p/B@1"),
];

static PRIVATE_MEMBERS: [Row; 9] = [
    (
        "a:p/A 0021 np/B m0002,f,()V | a:p/B 0020 hp/A Mp/A,f,()V",
        "ref p/B 0",
        "p/A@1.f",
    ),
    (
        "a:p/A 0021 np/B Mp/B,f,()V | a:p/B 0020 hp/A m0002,f,()V",
        "ref p/A 0",
        "p/B@1.f",
    ),
    (
        "a:p/A 0021 np/B np/C | a:p/B 0020 hp/A f0002,x,I | a:p/C 0020 hp/A Fp/B,x,I",
        "ref p/C 0, asked",
        "p/B@1.x, [a/p/C lib/java/lang/Object a/p/B a/p/A]",
    ),
    (
        "a:p/A 0021 m0002,f,()V | a:p/B 0020 hp/A Mp/A,f,()V",
        "ref p/B 0, ref p/B 0",
        "IllegalAccessError member-private: p.B in a@1 to p.A.f in a@1, IllegalAccessError member-private: p.B in a@1 to p.A.f in a@1",
    ),
    (
        "a:p/A 0021 np/B m0002,f,()V | a:p/B 0020 Mp/A,f,()V",
        "ref p/B 0",
        "IllegalAccessError member-private: p.B in a@1 to p.A.f in a@1",
    ),
    (
        "a:p/A cut | a:p/B 0020 hp/A f0002,x,I | a:p/C 0020 hp/A Fp/B,x,I",
        "ref p/C 0",
        "IllegalAccessError member-private: p.C in a@1 to p.B.x in a@1",
    ),
    (
        "a:p/G 0021 np/C | a:p/H 0021 np/B | a:p/B 0020 hp/H f0002,x,I | a:p/C 0020 hp/G Fp/B,x,I",
        "ref p/C 0, asked",
        "IllegalAccessError member-private: p.C in a@1 to p.B.x in a@1, [a/p/C lib/java/lang/Object a/p/B a/p/G a/p/H]",
    ),
    (
        "a:p/A 0021 np/B f0001,x,I | a:p/B 0020 hp/Z Fp/A,x,I",
        "ref p/B 0, asked",
        "p/A@1.x, [a/p/B lib/java/lang/Object a/p/A]",
    ),
    (
        "a:p/A 0021 np/B | a:p/B 0020 hp/A f0002,x,I Fp/B,x,I",
        "ref p/B 0, count",
        "p/B@1.x, 2",
    ),
];

static PERMISSIONS: [Row; 9] = [
    ("a:p/S 0021 sp/A | a:p/A 0031 <p/S", "load p/A", "p/A@1"),
    (
        "a:p/S 0021 sp/B | a:p/A 0031 <p/S",
        "load p/A, count",
        "IncompatibleClassChangeError p.A, 2",
    ),
    ("a:p/I 0601 sp/A | a:p/A 0031 :p/I", "load p/A", "p/A@1"),
    (
        "a:p/I 0601 sp/B | a:p/A 0031 :p/I",
        "load p/A",
        "IncompatibleClassChangeError p.A",
    ),
    (
        "a:p/I 0601 sp/B | a:p/J 0601 :p/I",
        "load p/J",
        "IncompatibleClassChangeError p.J",
    ),
    ("a:t/S 0021 sp/A | a:p/A 0031 <t/S", "load p/A", "p/A@1"),
    (
        "b:q/S 0021 sp/A | a:p/A 0031 <q/S",
        "load p/A",
        "IncompatibleClassChangeError p.A",
    ),
    (
        "a:p/S 0021 sp/A | a:p/A 0021 <p/S | a:p/B 0021 <p/A",
        "load p/B",
        "p/B@1",
    ),
    ("a:p/S 0020 sp/A | a:p/A 0031 <p/S", "load p/A", "p/A@1"),
];

static OTHER_LOADERS: [Row; 2] = [
    (
        "n:q/S 0021 sp/A | m:p/A 0031 <q/S | n:p/A 0031 <q/S",
        "load p/A@2, load p/A@3",
        "IncompatibleClassChangeError p.A, p/A@3",
    ),
    (
        "n:p/A 0021 np/B m0002,f,()V | n:q/M 0021 <p/A | m:p/A 0021 np/B | m:p/B 0021 <q/M hp/A Mq/M,f,()V",
        "host p/B@2, ref p/B@2 0",
        "p/A@2, IllegalAccessError member-private: p.B in m@2 to p.A.f in n@2",
    ),
];

#[test]
fn hosts(rt: HostRuntime) -> Result<(), Fail> {
    hold(rt.alloc(), ONE_LOADER, &HOSTS)
}

#[test]
fn private_members(rt: HostRuntime) -> Result<(), Fail> {
    hold(rt.alloc(), ONE_LOADER, &PRIVATE_MEMBERS)
}

#[test]
fn permissions(rt: HostRuntime) -> Result<(), Fail> {
    hold(rt.alloc(), ONE_LOADER, &PERMISSIONS)
}

#[test]
fn of_other_loaders(rt: HostRuntime) -> Result<(), Fail> {
    hold(rt.alloc(), MANY_LOADERS, &OTHER_LOADERS)
}
